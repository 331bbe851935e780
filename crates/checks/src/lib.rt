// What each call on whole messages refuses, in document 01's order: the first that applies. Each entry of a list is one function whose result
// is that entry, and one that reads a file is handed it as one that the entries before let through. Who checks a seal is handed the engine's tables.
#![tactic(auto)]

ghost use Rattle.std.specs.Prelude.{◌≡◌, length, IfOk};
ghost use Rattle.files.specs.Refusals.{told};
ghost use Rattle.files.specs.Message.{item_count, refuse3};
ghost use Rattle.files.specs.TagFile.{file_size, refuse6, refuse20};
ghost use Rattle.files.specs.Arguments.{refuse1, refuse7};
ghost use Rattle.tagging.specs.Tagging.{keys_in, tag_head};
ghost use Rattle.checks.specs.Refused.{refuse21, refuse25, tag_refusal, verify_refusal, report_refusal, replace_refusal};

use blocks::block;
use cipher::engine::Tables;
use files::message::Headed;
use files::refusals::unless;
use files::tagfile::Formed;
use files::{Reason, Refused, arguments, tagfile};

// Refusal 7, or none, of a buffer for the tag file of a message.
fn check_room(code: u64, message: &Headed, room: usize) -> Result<(), Refused>
    ensures { told result ≡ refuse7 (file_size (tag_head code message.now.bytes.now)) room }
{
    let head = tagging::head_for(code, message.bytes);
    arguments::check_room(tagfile::file_size(head), room)
}

// Refusal 7, or none, of a buffer for the marks of a message's items.
fn check_marks(message: &Headed, room: usize) -> Result<(), Refused>
    ensures { told result ≡ refuse7 (item_count message.now.bytes.now) room }
{
    arguments::check_room(message.count(), room)
}

// Refusal 20, or none, under the seal key of a bundle.
fn check_seal(t: &Tables, keys: &[u8], file: &Formed) -> Result<(), Refused>
    requires { (refuse1 (length keys.now)).number ≡ 0 }
    ensures { told result ≡ refuse20 (keys_in keys.now).seal file.now.bytes.now }
{
    file.check_mac(t, block::block_at(keys, 32))
}

// Refusal 21, or none.
fn check_counts(message: &Headed, file: &Formed) -> Result<(), Refused>
    ensures { told result ≡ refuse21 message.now.bytes.now file.now.bytes.now }
{
    unless(message.count() == file.head().count, Reason::Counts, 0)
}

// Refusal 25, or none.
fn check_numbers(message: &Headed, file: &Formed) -> Result<(), Refused>
    ensures { told result ≡ refuse25 message.now.bytes.now file.now.bytes.now }
{
    let own = stamp::stamp_of(message.bytes);
    let other = stamp::stamp_of(file.bytes);
    unless(own.number == other.number, Reason::Numbers, 0)
}

// Tag: 1, 2, 3, 4, 5, 7.
#[tactic(auto, using(files::proofs::Passing::checked), unfolding(crate::specs::Refused::tag_refusal))]
pub fn tag_refusal(keys: &[u8], code: u64, s: &[u8], room: usize) -> Result<(), Refused>
    ensures { told result ≡ tag_refusal keys.now code s.now room }
{
    arguments::check_keys(keys)?;
    arguments::check_code(code)?;
    let message = Headed::new(s)?;
    message.check_count(code)?;
    message.check_items()?;
    check_room(code, &message, room)
}

// The message of a Verify that is not refused: 1, 3, 5, 6, 20, 21, 25.
#[tactic(auto, using(files::proofs::Passing::checked), unfolding(crate::specs::Refused::verify_refusal))]
fn comparable<'a>(t: &Tables, keys: &[u8], s: &'a [u8], f: &[u8]) -> Result<Headed<'a>, Refused>
    ensures refused { told result ≡ verify_refusal keys.now s.now f.now }
    ensures same { IfOk result (λ m. m.bytes.now ≡ s.now) }
{
    arguments::check_keys(keys)?;
    let message = Headed::new(s)?;
    message.check_items()?;
    let file = Formed::new(f)?;
    check_seal(t, keys, &file)?;
    check_counts(&message, &file)?;
    check_numbers(&message, &file)?;
    Ok(message)
}

// Verify: 1, 3, 5, 6, 20, 21, 25.
pub fn verify_refusal(t: &Tables, keys: &[u8], s: &[u8], f: &[u8]) -> Result<(), Refused>
    ensures { told result ≡ verify_refusal keys.now s.now f.now }
{
    comparable(t, keys, s, f)?;
    Ok(())
}

// Report: as Verify, then 7.
#[tactic(auto, using(files::proofs::Passing::checked), unfolding(crate::specs::Refused::report_refusal))]
pub fn report_refusal(
    t: &Tables,
    keys: &[u8],
    s: &[u8],
    f: &[u8],
    room: usize,
) -> Result<(), Refused>
    ensures { told result ≡ report_refusal keys.now s.now f.now room }
{
    let message = comparable(t, keys, s, f)?;
    check_marks(&message, room)
}

// Replace: 1, 6, 20, 8, 9, 7.
#[tactic(auto, using(files::proofs::Passing::checked), unfolding(crate::specs::Refused::replace_refusal))]
pub fn replace_refusal(
    t: &Tables,
    keys: &[u8],
    f: &[u8],
    j: u64,
    old: &[u8],
    new: &[u8],
    room: usize,
) -> Result<(), Refused>
    ensures { told result ≡ replace_refusal keys.now f.now j old.now new.now room }
{
    arguments::check_keys(keys)?;
    let file = Formed::new(f)?;
    check_seal(t, keys, &file)?;
    file.check_number(j)?;
    arguments::check_item(old, 1)?;
    arguments::check_item(new, 2)?;
    file.check_room(room)
}
