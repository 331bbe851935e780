// Files read whole.
ghost use Rattle.std.specs.Prelude.{◌≤◌, length, IfOk};

use crate::failure::{Failure, Subject};
use crate::words;
use files::{message, tagfile};
use std::{fs, io};

// Buffers for the files: one byte more than each may have, so that the call itself refuses what is too long.
pub const KEYS: usize = 49;

pub const MESSAGE: usize = message::MOST + 1;

pub const TAG_FILE: usize = tagfile::MOST + 1;

pub const CARD: usize = message::ITEM_MOST + 1;

// Reads the file of that name to the start of the buffer, as much as that holds; gives how many bytes.
fn fill(rt: &HostRuntime, name: &[u8], buf: &mut [u8]) -> io::Result<usize>
    ensures { IfOk result (λ n. n ≤ length buf.new) }
{
    let mut file = fs::open(rt, words::path(name)?)?;
    filling::fill(&mut file, buf)
}

// The bytes of the file that word i names, as many as the room holds.
pub fn read<'a>(rt: &HostRuntime, i: usize, room: &'a mut [u8]) -> Result<&'a [u8], Failure>
    ensures { IfOk result (λ s. length s.now ≤ length room.old) }
{
    let mut name_room = [0u8; words::MOST];
    let name = words::word(rt, i, &mut name_room).map_err(|e| Failure::System(
        Subject::FileName,
        e,
    ))?;
    match fill(rt, name, room) {
        Ok(n) => Ok(&room[..n]),
        Err(e) => Err(Failure::System(Subject::File(i), e)),
    }
}
