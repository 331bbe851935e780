// The tag file (document 01: sheet).
ghost use Rattle.std.specs.Prelude.{◌≡◌, ◌+◌, ◌≤◌, ◌<◌, ◌&&◌, ◌∷◌, ◌++◌, eqb, length, take, drop, IfOk};
ghost use Rattle.blocks.specs.Number.{big_endian};
ghost use Rattle.cipher.specs.Cmac.{cmac};
ghost use Rattle.stamp.specs.Front.{version_of};
ghost use Rattle.files.specs.Refusals.{told};
ghost use Rattle.files.specs.Message.{refuse8};
ghost use Rattle.files.specs.TagFile.{stamp_for, header, tags_at, file_size, code_of, count_of, head_of, tags_in, count_fits, refuse6, refuse20};
ghost use Rattle.files.specs.Arguments.{refuse7};

use crate::arguments;
use crate::message::number16;
use crate::refusals::{Reason, Refused, unless};
use blocks::block;
use cipher::cmac;
use cipher::engine::Tables;
use stamp::Stamp;

// The letters, the newest version, and the most bytes of a file: 82 tags in a version with a number.
const LETTERS: [u8; 3] = *b"TBT";

const NEWEST: u16 = 3;

pub const MOST: usize = 1340;

// How many bytes size code and count have, and with the MAC.
const CODE_AND_COUNT: u8 = 3;

const CODE_COUNT_SEAL: u8 = 19;

// What a file says before its tags: its version and the message's number, its size code and the count of the message's items.
#[derive(Clone, Copy)]
pub struct Head {
    pub stamp: Stamp,
    pub code: u64,
    pub count: usize,
}

// Whether a size code is one, and a count is from 1 to its items.
pub fn count_fits(code: u64, n: u64) -> bool
    ensures { result ≡ count_fits code n }
{
    sizes::known(code) && arguments::inside(sizes::items(code) as u64, n)
}

// The stamp of a file made anew for a message's number.
pub fn stamp_for(number: u32) -> Stamp
    ensures { result ≡ stamp_for number }
{
    Stamp {
        version: NEWEST,
        number,
    }
}

// Where the tags start in a version: behind size code and count.
pub fn tags_at(version: u16) -> usize
    ensures { (result ≡ tags_at version) × (result ≤ 12) }
{
    stamp::front_size(version) + CODE_AND_COUNT as usize
}

// How long the file that says head is.
pub fn file_size(head: Head) -> usize
    ensures { (result ≡ file_size head) × (result ≤ 1340) }
{
    let stamp = head.stamp;
    tags_at(stamp.version) + 16 * sizes::tags(head.code) + 16
}

// Whether what a file says before its tags fits, and its length.
fn fits(s: &[u8]) -> bool
    requires { tags_at (version_of s.now) ≤ length s.now }
    ensures { result ≡ (count_fits (code_of s.now) (count_of s.now) && eqb (length s.now) (file_size (head_of s.now))) }
{
    let h = head_of(s);
    count_fits(h.code, h.count as u64) && s.len() == file_size(h)
}

// What a file says before its tags.
pub fn head_of(s: &[u8]) -> Head
    requires { tags_at (version_of s.now) ≤ length s.now }
    ensures { (result ≡ head_of s.now) × (result.count < 65536) }
{
    let stamp = stamp::stamp_of(s);
    let at = stamp::front_size(stamp.version);
    Head {
        stamp,
        code: u64::from(s[at]),
        count: number16(s, at + 1),
    }
}

// The part of a file that holds its tags.
pub fn tags_in(s: &[u8]) -> &[u8]
    requires { tags_at (version_of s.now) + 16 ≤ length s.now }
    ensures { result.now ≡ tags_in s.now }
{
    let at = tags_at(stamp::version_of(s));
    let end = s.len() - 16;
    &s[at..end]
}

// Refusal 6, or none.
fn check(s: &[u8]) -> Result<(), Refused>
    ensures { told result ≡ refuse6 s.now }
{
    let begins = stamp::begins_as(s, &LETTERS, NEWEST, CODE_COUNT_SEAL);
    unless(begins && fits(s), Reason::TagFile, 0)
}

// A tag file that 6 does not refuse.
#[derive(Clone, Copy)]
pub struct Formed<'a> {
    pub bytes: &'a [u8],
    pub ghost formed: { (refuse6 bytes.now).number ≡ 0 },
}

impl<'a> Formed<'a> {
    // The file, or refusal 6.
    pub fn new(s: &'a [u8]) -> Result<Formed<'a>, Refused>
        ensures refused { told result ≡ refuse6 s.now }
        ensures same { IfOk result (λ f. f.bytes.now ≡ s.now) }
    {
        check(s)?;
        Ok(Formed { bytes: s })
    }

    // What it says before its tags.
    pub fn head(&self) -> Head
        ensures { (result ≡ head_of self.now.bytes.now) × (result.count < 65536) }
    {
        head_of(self.bytes)
    }

    // Refusal 8, or none, of an item number.
    pub fn check_number(&self, j: u64) -> Result<(), Refused>
        ensures { told result ≡ refuse8 (count_of self.now.bytes.now) j }
    {
        arguments::check_number(self.head().count, j)
    }

    // Refusal 7, or none, of room for a file as long as this one.
    pub fn check_room(&self, room: usize) -> Result<(), Refused>
        ensures { told result ≡ refuse7 (file_size (head_of self.now.bytes.now)) room }
    {
        arguments::check_room(self.bytes.len(), room)
    }

    // Refusal 20, or none: whether its MAC is right.
    pub fn check_mac(&self, t: &Tables, key: [u8; 16]) -> Result<(), Refused>
        ensures { told result ≡ refuse20 key self.now.bytes.now }
    {
        let s = self.bytes;
        let end = s.len() - 16;
        let mac = cmac::cmac_with(t, key, &s[0..end]);
        unless(block::equal(block::block_at(s, end), mac), Reason::Mac, 0)
    }
}

// Writes size code and count at a place of out; all else stays.
fn put_size(out: &mut [u8], at: usize, code: u8, count: u16)
    requires { at + 3 ≤ length out.old }
    ensures { out.new ≡ take at out.old ++ ((code ∷ big_endian 2 count) ++ drop (at + 3) out.old) }
{
    let n = block::to_be16(count);
    out[at] = code;
    out[at + 1] = n[0];
    out[at + 2] = n[1];
}

// Writes what a file says before its tags to the front of out; what is behind stays.
pub fn put_header(out: &mut [u8], head: Head)
    requires { (head.code < 256) × (head.count < 65536) × (tags_at head.stamp.version ≤ length out.old) }
    ensures { out.new ≡ header head ++ drop (tags_at head.stamp.version) out.old }
{
    let stamp = head.stamp;
    stamp::put_front(out, LETTERS, stamp);
    put_size(
        out,
        stamp::front_size(stamp.version),
        head.code as u8,
        head.count as u16,
    );
}

// Seals the first n bytes of out: writes their MAC behind them, through the part that starts there; what is behind it stays.
pub fn seal(t: &Tables, key: [u8; 16], out: &mut [u8], n: usize)
    requires n_in_bounds { n + 16 ≤ length out.old }
    ensures { out.new ≡ take n out.old ++ (cmac key (take n out.old) ++ drop (n + 16) out.old) }
{
    let mac = cmac::cmac_with(t, key, &out[0..n]);
    block::put(&mut out[n..], mac);
}
