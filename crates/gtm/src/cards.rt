// Pack, fetch and list: the commands on message files that need no keys.
ghost use Rattle.std.specs.Prelude.{◌≤◌, ◌<◌, length, IfOk};

use crate::failure::Failure;
use crate::{heads, input, output, say, words};
use command::{lines, numbers, packs};
use files::{Reason, message};
use printing::Text;
use stamp::Stamp;

// Appends the card file that word i names, file k of all, to the message of n bytes, and gives how many bytes that has then.
fn append_file(
    rt: &HostRuntime,
    file: &mut [u8],
    n: usize,
    i: usize,
    k: usize,
) -> Result<usize, Failure>
    ensures { IfOk result (λ size. size ≤ length file.new) }
{
    let mut room = [0u8; input::CARD];
    let card = input::read(rt, i, &mut room)?;
    let size = packs::add_card(file, n, card, k)?;
    Ok(size)
}

fn say_count(rt: &HostRuntime, n: usize) -> Result<(), Failure> {
    let mut line = Text::<27>::new();
    lines::put_count_line(&mut line, n);
    say::result(rt, line.as_bytes())
}

// Packs the card files that the words behind word i name into the message file that word i names, of this version and number.
fn pack_as(rt: &HostRuntime, stamp: Stamp, i: usize, count: usize) -> Result<(), Failure>
    requires { i < count }
{
    let mut file = [0u8; message::MOST];
    packing::begin(&mut file, stamp)?;
    let mut n = message::items_at(stamp.version);
    for word in i + 1..count {
        n = append_file(rt, &mut file, n, word, word - i)?;
    }
    output::write(rt, i, &file[..n])?;
    say_count(rt, count - i - 1)
}

// (pack and pack_numbered differ in which words there are and in the stamp: nothing is left to share.)
pub fn pack(rt: &HostRuntime) -> Result<(), Failure> {
    let count = words::at_least(rt, 4)?;
    let stamp = Stamp {
        version: 1,
        number: 0,
    };
    pack_as(rt, stamp, 2, count)
}

pub fn pack_numbered(rt: &HostRuntime) -> Result<(), Failure> {
    let count = words::at_least(rt, 5)?;
    let number = words::number(rt, 2, numbers::number32_in)?;
    let stamp = Stamp {
        version: message::NEWEST,
        number,
    };
    pack_as(rt, stamp, 3, count)
}

pub fn fetch(rt: &HostRuntime) -> Result<(), Failure> {
    words::exactly(rt, 4)?;
    let j = words::number(rt, 3, numbers::number_in)?;
    let mut room = [0u8; input::MESSAGE];
    let message = input::read(rt, 2, &mut room)?;
    message::fetch_refusal(message, j)?;
    say::result(rt, message::fetch(message, j))
}

fn say_message(rt: &HostRuntime, count: usize, number: u32) -> Result<(), Failure> {
    let mut line = Text::<55>::new();
    lines::put_message_line(&mut line, count, number);
    say::result(rt, line.as_bytes())
}

fn say_card(rt: &HostRuntime, j: usize, long: usize) -> Result<(), Failure> {
    let mut line = Text::<60>::new();
    lines::put_item_line(&mut line, j, long);
    say::result(rt, line.as_bytes())
}

// Lists a message. One without cards has no card 1, which is 8: its list is empty.
pub fn list(rt: &HostRuntime) -> Result<(), Failure> {
    words::exactly(rt, 3)?;
    let mut room = [0u8; input::MESSAGE];
    let message = input::read(rt, 2, &mut room)?;
    match message::fetch_refusal(message, 1) {
        Err(r) if r.reason != Reason::Number => return Err(Failure::Refused(r)),
        _ => {}
    }
    let count = heads::count_in(message);
    say_message(rt, count, heads::number_in(message))?;
    for j in 1..=count {
        let card = message::fetch(message, j as u64);
        say_card(rt, j, card.len())?;
    }
    Ok(())
}
