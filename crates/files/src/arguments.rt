// What is refused of all else that a caller hands over: keys, size code, count, item number, an item, and room in a lent buffer.
ghost use Rattle.std.specs.Prelude.{◌≡◌, length};
ghost use Rattle.incidence.specs.Count.{inside};
ghost use Rattle.files.specs.Refusals.{told};
ghost use Rattle.files.specs.Message.{refuse8};
ghost use Rattle.files.specs.Arguments.{refuse1, refuse2, refuse4, refuse7, refuse9};

use crate::message;
use crate::refusals::{Reason, Refused, unless};

// Whether k is one of the numbers 1 to n. (incidence has it of places: one for both would need a bound with the law of its order.)
pub fn inside(n: u64, k: u64) -> bool
    ensures { result ≡ inside n k }
{
    (1..=n).contains(&k)
}

// Refusal 1, or none.
pub fn check_keys(keys: &[u8]) -> Result<(), Refused>
    ensures { told result ≡ refuse1 (length keys.now) }
{
    unless(keys.len() == 48, Reason::Keys, 0)
}

// Refusal 2, or none.
pub fn check_code(code: u64) -> Result<(), Refused>
    ensures { told result ≡ refuse2 code }
{
    unless(sizes::known(code), Reason::Code, 0)
}

// Refusal 4, or none.
pub fn check_count(code: u64, n: u64) -> Result<(), Refused>
    ensures { told result ≡ refuse4 code n }
{
    unless(inside(sizes::items(code) as u64, n), Reason::Count, 0)
}

// Refusal 7, or none.
pub fn check_room(size: usize, room: usize) -> Result<(), Refused>
    ensures { told result ≡ refuse7 size room }
{
    unless(size <= room, Reason::Room, 0)
}

// Refusal 8, or none, of item number j among n.
pub fn check_number(n: usize, j: u64) -> Result<(), Refused>
    ensures { told result ≡ refuse8 n j }
{
    unless(inside(n as u64, j), Reason::Number, 0)
}

// Refusal 9, or none, of an item handed over.
pub fn check_item(item: &[u8], place: usize) -> Result<(), Refused>
    ensures { told result ≡ refuse9 (length item.now) place }
{
    unless(item.len() <= message::ITEM_MOST, Reason::Item, place)
}
