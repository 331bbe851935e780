// The message file (document 01: shelf).
ghost use Rattle.std.specs.Prelude.{◌≡◌, ◌+◌, ◌≤◌, ◌<◌, length, IfOk};
ghost use Rattle.stamp.specs.Front.{version_of};
ghost use Rattle.files.specs.Refusals.{none, told};
ghost use Rattle.files.specs.Message.{number16, items_at, item_count, behind, item_fits, refuse3, refuse5, refuse8, fetch_refusal, fetch_start, fetch_size, PartOf};
ghost use Rattle.files.specs.Arguments.{refuse4};

use crate::arguments;
use crate::refusals::{Reason, Refused, unless};
use blocks::block;

// The letters, the newest version, and how many bytes the count has.
pub const LETTERS: [u8; 3] = *b"TBS";

pub const NEWEST: u16 = 2;

const COUNT_SIZE: u8 = 2;

// The most bytes that a file and an item may have.
pub const MOST: usize = 65536;

pub const ITEM_MOST: usize = 1024;

// The 2-byte number at a place.
pub fn number16(s: &[u8], at: usize) -> usize
    requires { at + 2 ≤ length s.now }
    ensures { (result ≡ number16 s.now at) × (result < 65536) }
{
    block::from_be16(s[at], s[at + 1]) as usize
}

// Where the items start in a version: behind the count.
pub fn items_at(version: u16) -> usize
    ensures { (result ≡ items_at version) × (result ≤ 11) }
{
    stamp::front_size(version) + COUNT_SIZE as usize
}

// The count that a file says: of any bytes as long as a head in their version, since the command asks it of bytes that no check has passed;
// `Headed::count` asks nothing.
pub fn item_count(s: &[u8]) -> usize
    requires { items_at (version_of s.now) ≤ length s.now }
    ensures { (result ≡ item_count s.now) × (result < 65536) }
{
    number16(s, stamp::front_size(stamp::version_of(s)))
}

// Where the first item of a file, or what is left over, starts: its length.
pub fn first_at(s: &[u8]) -> usize
    requires { items_at (version_of s.now) ≤ length s.now }
    ensures { result ≡ behind s.now 0 }
{
    items_at(stamp::version_of(s))
}

// Whether the item at a place and its length lie in the file, and the length is at most 1,024.
pub fn item_fits(s: &[u8], at: usize) -> bool
    requires { at ≤ 65536 }
    ensures { result ≡ item_fits s.now at }
{
    if s.len() < at + 2 {
        return false;
    }
    let n = number16(s, at);
    n <= ITEM_MOST && at + 2 + n <= s.len()
}

// The place behind the item at a place, which fits.
pub fn item_end(s: &[u8], at: usize) -> usize
    requires { (at + 2 ≤ length s.now) × (length s.now ≤ 65536) }
    ensures { result ≡ at + 2 + number16 s.now at }
{
    at + 2 + number16(s, at)
}

// Refusal 3, or none.
fn check_header(s: &[u8]) -> Result<(), Refused>
    ensures { told result ≡ refuse3 s.now }
{
    let begins = stamp::begins_as(s, &LETTERS, NEWEST, COUNT_SIZE);
    unless(begins && s.len() <= MOST, Reason::Message, 0)
}

// A message file that 3 does not refuse.
#[derive(Clone, Copy)]
pub struct Headed<'a> {
    pub bytes: &'a [u8],
    pub ghost headed: { (refuse3 bytes.now).number ≡ 0 },
}

impl<'a> Headed<'a> {
    // The file, or refusal 3.
    pub fn new(s: &'a [u8]) -> Result<Headed<'a>, Refused>
        ensures refused { told result ≡ refuse3 s.now }
        ensures same { IfOk result (λ m. m.bytes.now ≡ s.now) }
    {
        check_header(s)?;
        Ok(Headed { bytes: s })
    }

    // The count that it says.
    pub fn count(&self) -> usize
        ensures { (result ≡ item_count self.now.bytes.now) × (result < 65536) }
    {
        item_count(self.bytes)
    }

    // Refusal 5, or none.
    pub fn check_items(&self) -> Result<(), Refused>
        ensures { told result ≡ refuse5 self.now.bytes.now }
    {
        let s = self.bytes;
        let n = self.count();
        let mut at = first_at(s);
        for k in 0..n {
            if !item_fits(s, at) {
                return Err(Refused {
                    reason: Reason::Items,
                    place: k + 1,
                });
            }
            at = item_end(s, at);
        }
        unless(at == s.len(), Reason::Items, n + 1)
    }

    // Refusal 4, or none, of its count.
    pub fn check_count(&self, code: u64) -> Result<(), Refused>
        ensures { told result ≡ refuse4 code (item_count self.now.bytes.now) }
    {
        arguments::check_count(code, self.count() as u64)
    }

    // Refusal 8, or none, of an item number.
    fn check_number(&self, j: u64) -> Result<(), Refused>
        ensures { told result ≡ refuse8 (item_count self.now.bytes.now) j }
    {
        arguments::check_number(self.count(), j)
    }
}

// Fetch's companion: its refusal (3, 5, 8), or none.
#[tactic(auto, using(crate::proofs::Passing::checked), unfolding(crate::specs::Message::fetch_refusal))]
pub fn fetch_refusal(s: &[u8], j: u64) -> Result<(), Refused>
    ensures { told result ≡ fetch_refusal s.now j }
{
    let message = Headed::new(s)?;
    message.check_items()?;
    message.check_number(j)
}

// The place behind the first k items of a file that is not refused.
fn seek(s: &[u8], k: usize) -> usize
    requires { (items_at (version_of s.now) ≤ length s.now) × (length s.now ≤ 65536) × (refuse5 s.now ≡ none) × (k < item_count s.now) }
    ensures { (result ≡ behind s.now k) × (result + 2 + number16 s.now result ≤ length s.now) }
{
    let mut at = first_at(s);
    for _i in 0..k {
        at = item_end(s, at);
    }
    at
}

// The item as the part of the file that holds it (document 01: Fetch); the empty part at the front where fetch_refusal tells a
// refusal.
pub fn fetch(s: &[u8], j: u64) -> &[u8]
    ensures { PartOf s.entry (fetch_start s.now j) (fetch_size s.now j) result }
{
    if fetch_refusal(s, j).is_err() {
        return &s[..0];
    }
    let at = seek(s, (j - 1) as usize);
    let a = at + 2;
    let e = a + number16(s, at);
    &s[a..e]
}
