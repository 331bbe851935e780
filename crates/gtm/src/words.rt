// The words after the command.
ghost use Rattle.std.specs.Prelude.{◌≤◌, length, IfOk};

use crate::failure::Failure;
use std::cmp::Ordering;
use std::env::{Env, FillError};
use std::{io, str};

// The most bytes of a word that are read: a longer one names no file.
pub const MOST: usize = 4096;

// The system's numbers of three errors, by which it also has their texts: a word that is not there, one that is too long, and a file's
// name that is not UTF-8.
const EINVAL: i32 = 22;

const ENAMETOOLONG: i32 = 36;

const EILSEQ: i32 = 84;

// How many words there are, the program's name among them.
pub fn count(rt: &HostRuntime) -> usize {
    for i in 0..usize::MAX {
        if let Err(FillError::NotPresent) = rt.arg(i, &mut []) {
            return i;
        }
    }
    usize::MAX
}

// Word i, which is put at the start of the room.
pub fn word<'a>(rt: &HostRuntime, i: usize, room: &'a mut [u8; MOST]) -> io::Result<&'a [u8]>
    ensures { IfOk result (λ name. length name.now ≤ 4096) }
{
    match rt.arg(i, room) {
        Ok(n) => Ok(&room[..n]),
        Err(FillError::TooLong) => Err(io::Error::from_raw_os_error(ENAMETOOLONG)),
        Err(FillError::NotPresent) => Err(io::Error::from_raw_os_error(EINVAL)),
    }
}

// The same; a word that cannot be had is empty.
pub fn word_or_empty<'a>(rt: &HostRuntime, i: usize, room: &'a mut [u8; MOST]) -> &'a [u8]
    ensures { length result.now ≤ 4096 }
{
    match rt.arg(i, room) {
        Ok(n) => &room[..n],
        Err(_) => &[],
    }
}

// A file's name as std takes it.
pub fn path(name: &[u8]) -> io::Result<&str> {
    str::from_utf8(name).map_err(|_| io::Error::from_raw_os_error(EILSEQ))
}

// How many words there are, the program's name among them: n or more.
pub fn at_least(rt: &HostRuntime, n: usize) -> Result<usize, Failure>
    ensures { IfOk result (λ there. n ≤ there) }
{
    let there = count(rt);
    if there < n {
        return Err(Failure::MissingWord);
    }
    Ok(there)
}

// That there are so many words, the program's name among them.
pub fn exactly(rt: &HostRuntime, n: usize) -> Result<(), Failure> {
    match count(rt).cmp(&n) {
        Ordering::Less => Err(Failure::MissingWord),
        Ordering::Equal => Ok(()),
        Ordering::Greater => Err(Failure::SurplusWord),
    }
}

// The number that word i is, as `parse` reads one.
pub fn number<T, F: Fn(&[u8]) -> Option<T>>(
    rt: &HostRuntime,
    i: usize,
    parse: F,
) -> Result<T, Failure>
    requires { F.IsAlwaysCallable parse }
{
    let mut room = [0u8; MOST];
    parse(word_or_empty(rt, i, &mut room)).ok_or(Failure::BadNumber(i))
}
