// What is said to the person: results on standard output, refusals and errors on standard error.
use crate::failure::{Failure, Subject};
use crate::{output, words};
use files::{Reason, Refused};
use printing::Text;
use std::io::Write;
use std::{io, str};

// Writes a text; what is not taken is let go.
fn put(out: &impl Print, text: &[u8]) {
    let _ = out.write_all(text);
}

fn err(rt: &HostRuntime, text: &[u8]) {
    put(&rt.stderr(), text);
}

// Writes a result.
pub fn result(rt: &HostRuntime, text: &[u8]) -> Result<(), Failure> {
    rt.write_all(text)
        .map_err(|e| Failure::System(Subject::StandardOutput, e))
}

// How the words are used, and what a report's cards and rows mean: its lines.
const USAGE: [&[u8]; 18] = [
    b"gtm pack OUT FILE..                       a shelf from card files\n",
    b"gtm pack-numbered NUMBER OUT FILE..       the same, with a number of its own\n",
    b"gtm tag KEYS SIZE SHELF OUT               the sheet of a shelf; SIZE is 1 to 4, 35 to 37 or 51 to 57\n",
    b"gtm verify KEYS SHELF SHEET               yes or no\n",
    b"gtm report KEYS SHELF SHEET               which cards were altered, and how many rows of cards disagree\n",
    b"gtm replace KEYS SHEET NUMBER OLD NEW OUT a sheet with one card replaced\n",
    b"gtm withdraw KEYS SHEET NUMBER OLD OUT    a sheet with one card withdrawn: its place is vacant\n",
    b"gtm add KEYS SHEET NUMBER NEW OUT         a sheet with a card added at a vacant place\n",
    b"gtm fetch SHELF NUMBER                    one card's bytes\n",
    b"gtm list SHELF                            the cards, their lengths and the vacant places\n",
    b"gtm sizes                                 each SIZE: the most cards, the tags, the limit and the sheet's bytes\n",
    b"gtm help                                  this text\n",
    b"Cards named, unless changes cancel out: exactly those whose every row holds an altered card, so all altered ones and,\n",
    b"above the limit, perhaps others. Reload them all from a good copy: with the same exception, the next report says\n",
    b"intact.\n",
    b"Rows that disagree, at SIZE 1 to 4: limit + 1 for one altered card, 2 x limit + 1 for two, at most k x limit + 1\n",
    b"for k; fewer where changes cancel out. With the same keys and any one sheet, k cards altered between two reports move\n",
    b"the number of rows by at most k x limit + 1, and at the other SIZEs by at most the rows through these cards.\n",
];

pub fn usage(out: &impl Print) {
    for line in &USAGE {
        put(out, line);
    }
}

// Writes word i as it stands.
fn word(rt: &HostRuntime, i: usize) {
    let mut room = [0u8; words::MOST];
    err(rt, words::word_or_empty(rt, i, &mut room));
}

// Writes the temporary name of the file that word i names.
fn temporary(rt: &HostRuntime, i: usize) {
    let mut room = [0u8; words::MOST];
    let name = output::temporary(rt, words::word_or_empty(rt, i, &mut room));
    err(rt, name.as_bytes());
}

fn subject(rt: &HostRuntime, subject: Subject) {
    match subject {
        Subject::FileName => err(rt, b"a file's name"),
        Subject::OutputName => err(rt, b"the output file's name"),
        Subject::File(i) => word(rt, i),
        Subject::Temporary(i) => temporary(rt, i),
        Subject::StandardOutput => err(rt, b"standard output"),
    }
}

// The text of an error without the system's number, which std writes behind it.
fn without_number(text: &str) -> &str {
    match text.rsplit_once(" (os error ") {
        Some((front, _)) => front,
        None => text,
    }
}

// Writes the system's text of an error.
fn reason(rt: &HostRuntime, e: io::Error) {
    let mut line = [0u8; 128];
    let mut room = &mut line[..];
    let _ = write!(room, "{e}");
    let n = 128usize.saturating_sub(room.len());
    if let Ok(text) = str::from_utf8(&line[0..n]) {
        err(rt, without_number(text).as_bytes());
    }
}

// Says a refusal: its line and what its number means.
fn refused(rt: &HostRuntime, r: Refused) {
    let mut line = Text::<56>::new();
    line.put_refused(r);
    err(rt, line.as_bytes());
    err(rt, meaning(r.reason));
}

fn meaning(reason: Reason) -> &'static [u8] {
    match reason {
        Reason::Keys => b"the key file does not have 48 bytes\n",
        Reason::Code => b"the size is not one of 1 to 4, 35 to 37 and 51 to 57\n",
        Reason::Message =>
            b"the shelf has too few or over 65,536 bytes (a place: with that card file), or does not begin as a shelf of version 1 or 2\n",
        Reason::Count => b"the shelf has no card, or more cards than the size allows\n",
        Reason::Items =>
            b"a card's length is above 1,024, a card runs past the end, or bytes are left over: see the card at that place\n",
        Reason::TagFile =>
            b"the sheet has a wrong length, wrong letters, version or size, or a count that its size does not allow\n",
        Reason::Room => b"the output is longer than the room for it\n",
        Reason::Number => b"there is no card of that number\n",
        Reason::Item => b"a card file has over 1,024 bytes (the place: which one)\n",
        Reason::Mac => b"the sheet was altered, or was made with other keys\n",
        Reason::Counts => b"the shelf and the sheet have different numbers of cards\n",
        // 22 to 24 are a session's, and no command here gives them.
        Reason::Full | Reason::Early | Reason::Shut | Reason::Numbers =>
            b"the shelf and the sheet have different numbers\n",
    }
}

// Says what ended a command: a refusal, or what is wrong with the words or with what they name, and how they are used.
pub fn failure(rt: &HostRuntime, failure: Failure) {
    match failure {
        Failure::MissingWord => err(rt, b"a missing word"),
        Failure::SurplusWord => err(rt, b"a surplus word"),
        Failure::BadNumber(i) => {
            err(rt, b"a bad number: ");
            word(rt, i);
        }
        Failure::UnknownCommand(i) => {
            err(rt, b"an unknown command: ");
            word(rt, i);
        }
        Failure::System(what, e) => {
            subject(rt, what);
            err(rt, b": ");
            reason(rt, e);
        }
        Failure::Refused(r) => return refused(rt, r),
        Failure::Said => return,
    }
    err(rt, b"\n");
    usage(&rt.stderr());
}
