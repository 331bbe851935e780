// A line: the name of a call, then words, each with a number behind it, all apart by one space. What they say is done in their order.
//
//     shelf N, keys N, old N, new N   that argument's first N bytes are given, zeros behind those that it has
//     sheet N                         the same of the sheet of the shelf as it is by then, for the size and in the version given by then
//     byte P is V, byte P flip V      the byte P of the argument named last is V, or has the bits of V flipped
//     size N, count N, card N         the size code, a session's count, a card number; of a drift, how many cards and the first of them
//     version N                       the version of a sheet, 1 to 3: 1 where a line does not say otherwise
//     number N                        the shelf as it is by then is of version 2 and has the number N, which a session is also begun with
//     lent N                          how many bytes are lent, at most 1,400
//     puts N, taken N, closed 1       of a session: so many cards of the shelf were put, then the field is overwritten, then it was closed
//     cards N                         the shelf is one of N cards of two bytes, each with its number
//     altered N                       cards 3 to 2 + N of such a shelf are altered
//     vacant J                        card J of such a shelf has no bytes from then on; of several, the last is named first
ghost use Rattle.std.specs.Prelude.{◌-◌, ◌≤◌, length};

use crate::calls;
use crate::given::Given;
use command::numbers;
use std::io;

// What stands before the first such byte and what behind it; all and nothing where there is none.
fn split_first_at(text: &[u8], byte: u8) -> (&[u8], &[u8])
    ensures { length result.1.now ≤ length text.now - 1 }
{
    match text.iter().position(|b| *b == byte) {
        Some(k) => (&text[..k], &text[k + 1..]),
        None => (text, &[]),
    }
}

// Does what the words say, each with its number; 0 where that is none. `split` would give an empty word more behind a last space.
fn follow(words: &[u8], given: &mut Given) {
    let mut rest = words;
    while !rest.is_empty() {
        let (word, tail) = split_first_at(rest, b' ');
        let (number, tail) = split_first_at(tail, b' ');
        given.take(word, numbers::number_in(number).unwrap_or(0));
        rest = tail;
    }
}

// Runs the call of a line, and says the line and what came out.
fn run(rt: &impl Print, line: &[u8], given: &mut Given) -> io::Result<()> {
    let (call, words) = split_first_at(line, b' ');
    given.begin();
    follow(words, given);
    calls::run(rt, line, call, given)
}

// How many bytes a text of lines has at most.
pub const TEXT_MOST: usize = 65536;

// Runs each line of a text. `split` would give an empty line more behind a last line end.
pub fn run_all(rt: &impl Print, text: &[u8]) -> io::Result<()> {
    let mut given = Given::new();
    let mut rest = text;
    while !rest.is_empty() {
        let (line, tail) = split_first_at(rest, b'\n');
        run(rt, line, &mut given)?;
        rest = tail;
    }
    Ok(())
}
