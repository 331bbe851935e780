// What a line says.
use decoding::Decoded;
use files::Refused;
use incidence::Answer;
use std::io;

pub fn text(rt: &impl Print, bytes: &[u8]) -> io::Result<()> {
    rt.write_all(bytes)
}

pub fn number(rt: &impl Print, n: u64) -> io::Result<()> {
    rt.print(n)
}

pub fn refused(rt: &impl Print, r: Refused) -> io::Result<()> {
    text(rt, b": refused ")?;
    number(rt, u64::from(r.reason.number()))?;
    text(rt, b" place ")?;
    number(rt, r.place as u64)
}

// Whether a call was refused.
pub fn outcome(rt: &impl Print, done: Result<(), Refused>) -> io::Result<()> {
    match done {
        Ok(()) => text(rt, b": accepted"),
        Err(r) => refused(rt, r),
    }
}

fn answer(rt: &impl Print, a: Answer) -> io::Result<()> {
    match a {
        Answer::Intact => text(rt, b": intact "),
        Answer::Named => text(rt, b": named "),
        Answer::Beyond => text(rt, b": beyond "),
    }
}

pub fn found(rt: &impl Print, f: Decoded) -> io::Result<()> {
    let said = f.answer;
    answer(rt, said)?;
    number(rt, f.named as u64)?;
    text(rt, b" rows ")?;
    number(rt, f.rows as u64)
}

// The numbers of the cards that are named, and how many are cleared.
pub fn marks(rt: &impl Print, out: &[u8]) -> io::Result<()> {
    for (i, mark) in out.iter().enumerate() {
        if *mark == 1 {
            text(rt, b", card ")?;
            number(rt, i as u64 + 1)?;
        }
    }
    text(rt, b", cleared ")?;
    number(rt, out.iter().filter(|mark| **mark == 0).count() as u64)
}
