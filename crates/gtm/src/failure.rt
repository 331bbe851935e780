// What ends a command before its work is done.
use files::Refused;
use std::io;

// What the system refused. A file is told by the word that names it: there is no heap to keep a name in.
#[derive(Clone, Copy)]
pub enum Subject {
    FileName,
    OutputName,
    File(usize),
    Temporary(usize),
    StandardOutput,
}

// A word is told by its place. `Said` is what was said where it came up, since something had to follow it.
#[derive(Clone, Copy)]
pub enum Failure {
    MissingWord,
    SurplusWord,
    BadNumber(usize),
    UnknownCommand(usize),
    System(Subject, io::Error),
    Refused(Refused),
    Said,
}

impl From<Refused> for Failure {
    fn from(r: Refused) -> Failure {
        Failure::Refused(r)
    }
}
