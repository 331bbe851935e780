// A shelf of short cards that drifts: its cards are altered one after another, and before and after each the rows are counted that disagree
// with the one sheet (document 02, 2.14).
use crate::given::{Argument, Given};
use crate::say;
use std::io;

// Says how many rows disagree.
fn rows(rt: &impl Print, given: &Given) -> io::Result<()> {
    let mut marks = [0u8; decoding::MARKS_MOST];
    let reported = scheme::report(
        given.part(Argument::Keys),
        given.part(Argument::Shelf),
        given.part(Argument::Sheet),
        &mut marks,
    );
    match reported {
        Ok(found) => {
            say::text(rt, b" ")?;
            say::number(rt, found.rows as u64)
        }
        Err(r) => say::refused(rt, r),
    }
}

// As many cards as the count says are altered, from the card on.
pub fn run(rt: &impl Print, given: &mut Given) -> io::Result<()> {
    let first = given.card % 274;
    let steps = given.count % 274;
    say::text(rt, b": rows")?;
    rows(rt, given)?;
    for i in 0..steps {
        given.alter_card(first + i);
        rows(rt, given)?;
    }
    Ok(())
}
