// Tag, replace, withdraw and add: the commands that write a tag file.
ghost use Rattle.std.specs.Prelude.{◌≤◌, length, IfOk};

use crate::failure::Failure;
use crate::{heads, input, output, say, words};
use command::numbers;
use files::tagfile;
use printing::Text;

// Writes the tag file that out begins with to the file that word i names, and says its line.
fn write(rt: &HostRuntime, i: usize, out: &[u8]) -> Result<(), Failure>
    requires { 1340 ≤ length out.now }
{
    let head = heads::head_in(out);
    let n = tagfile::file_size(head);
    output::write(rt, i, &out[..n])?;
    let mut line = Text::<80>::new();
    line.put_limits(head.code, head.count);
    say::result(rt, line.as_bytes())
}

pub fn tag(rt: &HostRuntime) -> Result<(), Failure> {
    words::exactly(rt, 6)?;
    let size = words::number(rt, 3, numbers::number_in)?;
    let mut keys_room = [0u8; input::KEYS];
    let keys = input::read(rt, 2, &mut keys_room)?;
    let mut message_room = [0u8; input::MESSAGE];
    let message = input::read(rt, 4, &mut message_room)?;
    let mut out = [0u8; tagfile::MOST];
    scheme::tag(keys, size, message, &mut out)?;
    write(rt, 5, &out)
}

// Which words name the old card, the new one and the output, which is the last word. A card that no word names is empty.
#[derive(Clone, Copy)]
struct Change {
    old: Option<usize>,
    new: Option<usize>,
    out: usize,
}

// The bytes of the card file that a word names.
fn read_card<'a>(
    rt: &HostRuntime,
    word: Option<usize>,
    room: &'a mut [u8],
) -> Result<&'a [u8], Failure>
    ensures { IfOk result (λ s. length s.now ≤ length room.old) }
{
    match word {
        Some(i) => input::read(rt, i, room),
        None => Ok(&[]),
    }
}

// Replaces the card of the number that word 4 is.
fn change_card(rt: &HostRuntime, change: Change) -> Result<(), Failure>
    requires { change.out ≤ 7 }
{
    words::exactly(rt, change.out + 1)?;
    let j = words::number(rt, 4, numbers::number_in)?;
    let mut keys_room = [0u8; input::KEYS];
    let keys = input::read(rt, 2, &mut keys_room)?;
    let mut tags_room = [0u8; input::TAG_FILE];
    let tags = input::read(rt, 3, &mut tags_room)?;
    let mut old_room = [0u8; input::CARD];
    let old = read_card(rt, change.old, &mut old_room)?;
    let mut new_room = [0u8; input::CARD];
    let new = read_card(rt, change.new, &mut new_room)?;
    let mut out = [0u8; tagfile::MOST];
    scheme::replace(keys, tags, j, old, new, &mut out)?;
    write(rt, change.out, &out)
}

pub fn replace(rt: &HostRuntime) -> Result<(), Failure> {
    change_card(
        rt,
        Change {
            old: Some(5),
            new: Some(6),
            out: 7,
        },
    )
}

pub fn withdraw(rt: &HostRuntime) -> Result<(), Failure> {
    change_card(
        rt,
        Change {
            old: Some(5),
            new: None,
            out: 6,
        },
    )
}

pub fn add(rt: &HostRuntime) -> Result<(), Failure> {
    change_card(
        rt,
        Change {
            old: None,
            new: Some(5),
            out: 6,
        },
    )
}
