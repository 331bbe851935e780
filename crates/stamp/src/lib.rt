// What both files begin with: three letters, a version and the number of the shelf, which version 1 has no bytes for.
#![tactic(auto)]

ghost use Rattle.std.specs.Prelude.{◌≡◌, ◌++◌, ◌+◌, ◌≤◌, length, take, drop};
ghost use Rattle.blocks.specs.Number.{number, big_endian};
ghost use Rattle.stamp.specs.Front.{front, front_size, version_of, stamp_of, begins_as};

use blocks::block;

// Where version and number stand, and where what is behind a number starts.
const VERSION_AT: usize = 3;

const NUMBER_AT: usize = 5;

const BEHIND_NUMBER: usize = 9;

// The version of a file and the number of its shelf, both as the file has them: the crates above read the version as a number.
#[derive(Clone, Copy)]
pub struct Stamp {
    pub version: u16,
    pub number: u32,
}

// How many bytes letters, version and number are in a version. (Which version is tested by an `if`, here and below: a `match` on the number would
// say the same.)
pub fn front_size(version: u16) -> usize
    ensures { (result ≡ front_size version) × (5 ≤ result) × (result ≤ 9) }
{
    if version == 1 {
        return NUMBER_AT;
    }
    BEHIND_NUMBER
}

// The version that a file says.
pub fn version_of(s: &[u8]) -> u16
    requires { 5 ≤ length s.now }
    ensures { result ≡ version_of s.now }
{
    block::from_be16(s[VERSION_AT], s[VERSION_AT + 1])
}

// Whether s begins as a file with these letters and versions does, with so many bytes at least behind its number.
pub fn begins_as(s: &[u8], letters: &[u8], newest: u16, rest: u8) -> bool
    ensures { result ≡ begins_as letters.now newest (front_size (version_of s.now) + rest) s.now }
{
    if s.len() < NUMBER_AT {
        return false;
    }
    if &s[0..VERSION_AT] != letters {
        return false;
    }
    let version = version_of(s);
    if s.len() < front_size(version) + rest as usize {
        return false;
    }
    1 <= version && version <= newest
}

// The number behind the version.
fn number_behind(s: &[u8]) -> u32
    requires { 9 ≤ length s.now }
    ensures { result ≡ number (take 4 (drop 5 s.now)) }
{
    block::from_be32(
        s[NUMBER_AT],
        s[NUMBER_AT + 1],
        s[NUMBER_AT + 2],
        s[NUMBER_AT + 3],
    )
}

// The version and the number that a file says; the number of version 1 is 0.
pub fn stamp_of(s: &[u8]) -> Stamp
    requires { front_size (version_of s.now) ≤ length s.now }
    ensures { result ≡ stamp_of s.now }
{
    let version = version_of(s);
    if version == 1 {
        return Stamp { version, number: 0 };
    }
    Stamp {
        version,
        number: number_behind(s),
    }
}

// Writes letters and version to the front of out; what is behind them stays.
fn put_version(out: &mut [u8], letters: [u8; 3], version: u16)
    requires { 5 ≤ length out.old }
    ensures { out.new ≡ (letters ++ big_endian 2 version) ++ drop 5 out.old }
{
    out[..VERSION_AT].copy_from_slice(&letters);
    out[VERSION_AT..NUMBER_AT].copy_from_slice(&block::to_be16(version));
}

// Writes a number behind the version; all else stays.
fn put_number(out: &mut [u8], number: u32)
    requires { 9 ≤ length out.old }
    ensures { out.new ≡ take 5 out.old ++ (big_endian 4 number ++ drop 9 out.old) }
{
    out[NUMBER_AT..BEHIND_NUMBER].copy_from_slice(&block::to_be32(number));
}

// Writes letters, version and, but in version 1, the number to the front of out; what is behind them stays.
pub fn put_front(out: &mut [u8], letters: [u8; 3], stamp: Stamp)
    requires { front_size stamp.version ≤ length out.old }
    ensures { out.new ≡ front letters stamp ++ drop (front_size stamp.version) out.old }
{
    put_version(out, letters, stamp.version);
    if stamp.version != 1 {
        put_number(out, stamp.number);
    }
}
