// Files written whole or not at all: under a temporary name first, which becomes the file's own once all is written.
ghost use Rattle.std.specs.Prelude.{◌≤◌, length};

use crate::failure::{Failure, Subject};
use crate::{say, words};
use command::lines;
use printing::Text;
use std::fs::{File, OpenOptions};
use std::io::Write;
use std::{fs, io};

// How many bytes a temporary name has at most.
const TEMPORARY: usize = words::MOST + 25;

// The temporary name of a file: its own, the process number and an ending.
pub fn temporary(rt: &HostRuntime, name: &[u8]) -> Text<TEMPORARY>
    requires { length name.now ≤ 4096 }
{
    let process = std::process::id(rt.process());
    let mut text = Text::<TEMPORARY>::new();
    lines::put_temporary(&mut text, name, u64::from(process));
    text
}

// Makes a file of that name, where none is there.
fn create(rt: &HostRuntime, name: &[u8]) -> io::Result<File> {
    OpenOptions::new()
        .write(true)
        .create_new(true)
        .open(rt, words::path(name)?)
}

fn rename(rt: &HostRuntime, from: &[u8], to: &[u8]) -> io::Result<()> {
    fs::rename(rt, words::path(from)?, words::path(to)?)
}

fn remove(rt: &HostRuntime, name: &[u8]) -> io::Result<()> {
    fs::remove_file(rt, words::path(name)?)
}

// Writes all bytes to the open file and closes it. Closing tells no error, so the file is first brought to the disk, which tells it.
fn fill(mut file: File, bytes: &[u8]) -> io::Result<()> {
    file.write_all(bytes)?;
    file.sync_all()
}

// Fills the open temporary file and gives it its name.
fn finish(
    rt: &HostRuntime,
    file: File,
    bytes: &[u8],
    temporary: &[u8],
    name: &[u8],
) -> io::Result<()> {
    fill(file, bytes)?;
    rename(rt, temporary, name)
}

// Writes the file that word i names; where that fails after the temporary file was made, says so and takes that away.
pub fn write(rt: &HostRuntime, i: usize, bytes: &[u8]) -> Result<(), Failure> {
    let mut name_room = [0u8; words::MOST];
    let name = words::word(rt, i, &mut name_room).map_err(|e| Failure::System(
        Subject::OutputName,
        e,
    ))?;
    let text = temporary(rt, name);
    let temporary = text.as_bytes();
    let file = create(rt, temporary).map_err(|e| Failure::System(Subject::Temporary(i), e))?;
    finish(rt, file, bytes, temporary, name).map_err(|e| {
        say::failure(rt, Failure::System(Subject::File(i), e));
        let _ = remove(rt, temporary);
        Failure::Said
    })
}
