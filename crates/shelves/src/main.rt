// Whole shelves of every size, a line of `stdin` a case in the words of trial's `line`: sessions and Replace against Tag, and reports with
// 0, 1, d and d + 1 cards altered, withdrawn or added, in every version, with a number and without, with vacant places and without; on the
// planes also with one and two altered cards near and far, on shelves of 1 card, 2, all but one and all, and with three on one row or not;
// and at every size with so many altered that others are named too, 40 at size 4. Shelves that drift: card after card is altered, and the
// rows are counted against the sheet of the first shelf or of another. Sessions that do not add the last places close with the sheet of the
// shelf in which these are vacant. `stdout` has what is right, counted from document 01's difference lists, and for the affine sizes from
// the lines and points of document 02, 2.7. Last, the session whose cards are too long for one shelf.
#![tactic(auto)]

ghost use Rattle.std.specs.Prelude.{◌≤◌, length};

use std::io;
use trial::inputs::KEYS;
use trial::{inputs, say};

// Makes zeros a shelf of 63 cards of 1,024 zeros and an empty card: 64,647 bytes.
fn put_long_cards(shelf: &mut [u8])
    requires { 64647 ≤ length shelf.old }
{
    inputs::put_header(shelf, 64);
    for i in 0..63 {
        inputs::put_number(shelf, 7 + 1026 * i, 1024);
    }
}

// Tag's sheet of those cards.
fn tagged() -> [u8; 476] {
    let mut shelf = [0u8; 64647];
    put_long_cards(&mut shelf);
    let mut out = [0u8; 476];
    let _ = scheme::tag(&KEYS, 3, &shelf, &mut out);
    out
}

// A session's sheet of 64 cards of 1,024 zeros.
fn by_session() -> [u8; 476] {
    let step = session::begin(&KEYS, 3, 64, 0);
    let mut s = step.session;
    for _ in 0..64 {
        let next = s.put(&[0u8; 1024]);
        s = next.session;
    }
    let mut out = [0u8; 476];
    s.close(&mut out);
    out
}

// The 64 cards are too long for one shelf, until the last is withdrawn.
fn long_session(rt: &impl Print) -> io::Result<()> {
    let mut out = [0u8; 476];
    let _ = scheme::replace(&KEYS, &by_session(), 64, &[0u8; 1024], b"", &mut out);
    say::text(
        rt,
        b"session of 64 cards of 1,024 bytes, size 3, then card 64 emptied",
    )?;
    let same = out == tagged();
    say::text(
        rt,
        if same {
            b": equals Tag's\n"
        } else {
            b": differs from Tag's\n"
        },
    )
}

fn main(rt: HostRuntime) -> io::Result<()> {
    let mut text = [0u8; trial::line::TEXT_MOST];
    let n = filling::fill(&mut rt.stdin(), &mut text)?;
    trial::line::run_all(&rt, &text[..n])?;
    long_session(&rt)
}
