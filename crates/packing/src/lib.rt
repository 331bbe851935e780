// Packing: a message file (document 01: shelf) built in a lent buffer, one item (card) after another.
#![tactic(auto)]

ghost use Rattle.std.specs.Prelude.{◌≡◌, [], ◌∷◌, ◌++◌, ◌+◌, ◌≤◌, ◌<◌, leb, ltb, length, take, drop};
ghost use Rattle.stamp.specs.Front.{stamp_fits, version_of};
ghost use Rattle.files.specs.Refusals.{told, unless, first};
ghost use Rattle.files.specs.Message.{newest_message, items_at, item_count, refuse3};
ghost use Rattle.files.specs.Arguments.{refuse7};
ghost use Rattle.packing.specs.Packing.{message_of, appended, begin_file_refusal, begin_file_writes, append_refusal, append_writes};

use blocks::block;
use files::message::Headed;
use files::refusals::unless;
use files::{Reason, Refused, arguments, message};
use stamp::Stamp;

// Whether there is such a version, and whether it has bytes for the number.
fn stamp_fits(stamp: Stamp) -> bool
    ensures { result ≡ stamp_fits newest_message stamp }
{
    if stamp.version == 1 {
        return stamp.number == 0;
    }
    1 <= stamp.version && stamp.version <= message::NEWEST
}

// Refusal 3, or none, of a version and a number.
fn check_stamp(stamp: Stamp) -> Result<(), Refused>
    ensures { told result ≡ unless (stamp_fits newest_message stamp) 3 0 }
{
    unless(stamp_fits(stamp), Reason::Message, 0)
}

// Writes the file without items to the front of out; the bytes behind stay.
fn put_empty(out: &mut [u8], stamp: Stamp)
    requires { items_at stamp.version ≤ length out.old }
    ensures { out.new ≡ message_of stamp [] ++ drop (items_at stamp.version) out.old }
{
    let count = block::to_be16(0);
    stamp::put_front(out, message::LETTERS, stamp);
    block::put_bytes(out, stamp::front_size(stamp.version), &count);
}

// Begin's refusal: 3 or 7, or none.
#[tactic(auto, using(files::proofs::Passing::checked), unfolding(crate::specs::Packing::begin_file_refusal))]
fn begin_refusal(stamp: Stamp, room: usize) -> Result<(), Refused>
    ensures { told result ≡ begin_file_refusal stamp room }
{
    check_stamp(stamp)?;
    arguments::check_room(message::items_at(stamp.version), room)
}

// Writes the message file without items of that version and number, 7 bytes in version 1 and 11 in version 2, to the front of out; the
// bytes behind stay. Refuses 3 (no such version, or a number other than 0 in version 1), 7, the first that applies; out is then as it was.
pub fn begin(out: &mut [u8], stamp: Stamp) -> Result<(), Refused>
    ensures refused { told result ≡ begin_file_refusal stamp (length out.old) }
    ensures written { out.new ≡ begin_file_writes stamp out.old }
{
    begin_refusal(stamp, out.len())?;
    put_empty(out, stamp);
    Ok(())
}

// Refusal 7, or none, of room for a file of n bytes and one item more.
fn check_room(room: usize, n: usize, item: &[u8]) -> Result<(), Refused>
    ensures { told result ≡ refuse7 (n + 2 + length item.now) room }
{
    if room < n {
        return Err(Refused {
            reason: Reason::Room,
            place: 0,
        });
    }
    arguments::check_room(2 + item.len(), room - n)
}

// Refusal 3, or none, of a file that has so many bytes.
fn check_size(size: usize) -> Result<(), Refused>
    ensures { told result ≡ unless (leb size 65536) 3 0 }
{
    unless(size <= message::MOST, Reason::Message, 0)
}

// Refusal 3, or none, of a file whose count is to be raised.
fn check_more(message: &Headed) -> Result<(), Refused>
    ensures { told result ≡ unless (ltb (item_count message.now.bytes.now) 65535) 3 0 }
{
    unless(message.count() < 65535, Reason::Message, 0)
}

// Refusal 3, or none, of a file that has so many bytes with one item more.
#[tactic(auto, using(files::proofs::Passing::checked))]
fn check_file(s: &[u8], size: usize) -> Result<(), Refused>
    ensures { told result ≡ first (refuse3 s.now ∷ unless (leb size 65536) 3 0 ∷ unless (ltb (item_count s.now) 65535) 3 0 ∷ []) }
{
    let message = Headed::new(s)?;
    check_size(size)?;
    check_more(&message)
}

// Append's refusal: 9, 7 or 3, or none.
#[tactic(auto, using(files::proofs::Passing::checked), unfolding(crate::specs::Packing::append_refusal))]
fn append_refusal(file: &[u8], n: usize, item: &[u8]) -> Result<(), Refused>
    ensures { told result ≡ append_refusal file.now n item.now }
{
    arguments::check_item(item, 0)?;
    check_room(file.len(), n, item)?;
    check_file(&file[..n], n + 2 + item.len())
}

// Writes the count raised by one, and the item with its length behind the first n bytes, for an append that passes.
fn put_item(file: &mut [u8], n: usize, item: &[u8])
    requires { (items_at (version_of (take n file.old)) ≤ n) × (n + 2 + length item.now ≤ length file.old) × (length item.now ≤ 1024) × (item_count (take n file.old) < 65535) }
    ensures { file.new ≡ appended (take n file.old) item.now ++ drop (n + 2 + length item.now) file.old }
{
    let count = block::to_be16((message::item_count(file) + 1) as u16);
    let long = block::to_be16(item.len() as u16);
    block::put_bytes(file, stamp::front_size(stamp::version_of(file)), &count);
    block::put_bytes(file, n, &long);
    block::put_bytes(file, n + 2, item);
}

// Appends an item to the message file that the first n bytes of file are: afterwards the first n + 2 + item.len() bytes are that file
// with the item behind its last, of the same version and number; the bytes behind stay. Refuses 9, 7, 3, the first that applies (3 also
// where the file would have more than 65,536 bytes, or its count is 65,535); file is then as it was.
pub fn append(file: &mut [u8], n: usize, item: &[u8]) -> Result<(), Refused>
    ensures refused { told result ≡ append_refusal file.old n item.now }
    ensures written { file.new ≡ append_writes file.old n item.now }
{
    append_refusal(file, n, item)?;
    put_item(file, n, item);
    Ok(())
}
