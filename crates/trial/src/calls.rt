// The calls, each with what comes out: the refusal or that there is none, the answer, and how far the buffer was written.
ghost use Rattle.std.specs.Prelude.{◌≤◌};

use crate::given::{Argument, Given};
use crate::{drift, inputs, judge, say, sessions, sheets};
use files::message;
use session::{Session, Step};
use std::io;

// The last is a run of reports.
#[derive(Clone, Copy)]
enum Call {
    Tag,
    Verify,
    Report,
    Replace,
    Fetch,
    Begin,
    Put,
    Close,
    Drift,
}

fn call_of(name: &[u8]) -> Option<Call> {
    Some(match name {
        b"Tag" => Call::Tag,
        b"Verify" => Call::Verify,
        b"Report" => Call::Report,
        b"Replace" => Call::Replace,
        b"Fetch" => Call::Fetch,
        b"begin" => Call::Begin,
        b"put" => Call::Put,
        b"close" => Call::Close,
        b"Drift" => Call::Drift,
        _ => return None,
    })
}

// How many bytes are lent, of the 1,400 that there are.
fn room(lent: u64) -> usize
    ensures { result ≤ 1400 }
{
    (lent % 1401) as usize
}

// The first n bytes of a buffer, or all.
fn front(out: &[u8], n: usize) -> &[u8] {
    &out[..n.min(out.len())]
}

// How far the buffer was written.
fn wrote(rt: &impl Print, out: &[u8]) -> io::Result<()> {
    say::text(rt, b", wrote ")?;
    say::number(rt, judge::written(out) as u64)
}

// Whether the buffer is as Tag's rule leaves it for the shelf, in a version.
fn compared(rt: &impl Print, given: &Given, version: u64, out: &[u8]) -> io::Result<()> {
    let keys = given.part(Argument::Keys);
    let shelf = given.part(Argument::Shelf);
    let tags = sheets::tagged(keys, given.size, shelf, version, [0xa5u8; 1400]);
    let same = out == front(&tags, out.len());
    say::text(
        rt,
        if same {
            b", equals Tag's"
        } else {
            b", differs from Tag's"
        },
    )
}

fn verify(rt: &impl Print, given: &Given, sheet: &[u8]) -> io::Result<()> {
    let judged = scheme::verify(
        given.part(Argument::Keys),
        given.part(Argument::Shelf),
        sheet,
    );
    say::outcome(rt, judged.map(|_| ()))?;
    let yes = judged.unwrap_or(false);
    say::text(rt, if yes { b", yes" } else { b", no" })
}

// Tag, and Verify of what it wrote.
fn tag(rt: &impl Print, given: &Given, out: &mut [u8]) -> io::Result<()> {
    let done = scheme::tag(
        given.part(Argument::Keys),
        given.size,
        given.part(Argument::Shelf),
        out,
    );
    say::outcome(rt, done)?;
    wrote(rt, out)?;
    if done.is_ok() {
        say::text(rt, b", Verify")?;
        verify(rt, given, front(out, inputs::sheet_length(given.size)))?;
    }
    Ok(())
}

fn report(rt: &impl Print, given: &Given, out: &mut [u8]) -> io::Result<()> {
    let reported = scheme::report(
        given.part(Argument::Keys),
        given.part(Argument::Shelf),
        given.part(Argument::Sheet),
        out,
    );
    match reported {
        Ok(found) => {
            say::found(rt, found)?;
            say::marks(rt, out)?;
        }
        Err(r) => say::refused(rt, r)?,
    }
    wrote(rt, out)
}

fn replace(rt: &impl Print, given: &Given, out: &mut [u8]) -> io::Result<()> {
    let done = scheme::replace(
        given.part(Argument::Keys),
        given.part(Argument::Sheet),
        given.card,
        given.part(Argument::Old),
        given.part(Argument::New),
        out,
    );
    say::outcome(rt, done)?;
    wrote(rt, out)?;
    if done.is_ok() {
        compared(rt, given, given.version, out)?;
    }
    Ok(())
}

// The card fetched, beside the old one.
fn fetch(rt: &impl Print, given: &Given) -> io::Result<()> {
    let shelf = given.part(Argument::Shelf);
    let done = message::fetch_refusal(shelf, given.card);
    let card = message::fetch(shelf, given.card);
    say::outcome(rt, done)?;
    say::text(rt, b", bytes ")?;
    say::number(rt, card.len() as u64)?;
    if done.is_ok() {
        let same = card == given.part(Argument::Old);
        say::text(
            rt,
            if same {
                b", the old card"
            } else {
                b", another card"
            },
        )?;
    }
    Ok(())
}

// A session: closed, or with so many cards, and its number where that is not 0.
fn session(rt: &impl Print, s: Session) -> io::Result<()> {
    if judge::closed(s) {
        return say::text(rt, b", session closed");
    }
    say::text(rt, b", session with ")?;
    say::number(rt, s.taken)?;
    say::text(rt, b" of ")?;
    say::number(rt, s.count)?;
    if s.number != 0 {
        say::text(rt, b" number ")?;
        say::number(rt, u64::from(s.number))?;
    }
    Ok(())
}

fn begin(rt: &impl Print, given: &Given) -> io::Result<()> {
    let step = sessions::begin(given);
    say::outcome(rt, step.done)?;
    session(rt, step.session)
}

// What a step gives.
fn stepped(rt: &impl Print, before: Session, step: Step) -> io::Result<()> {
    say::outcome(rt, step.done)?;
    session(rt, step.session)?;
    let same = before == step.session;
    say::text(rt, if same { b", unchanged" } else { b", changed" })
}

fn put(rt: &impl Print, given: &Given) -> io::Result<()> {
    let s = sessions::under_way(given);
    stepped(rt, s, s.put(given.part(Argument::Old)))
}

fn close(rt: &impl Print, given: &Given, out: &mut [u8]) -> io::Result<()> {
    let s = sessions::under_way(given);
    let step = s.close(out);
    stepped(rt, s, step)?;
    wrote(rt, out)?;
    if step.done.is_ok() {
        compared(rt, given, 3, out)?;
    }
    Ok(())
}

fn run_into(rt: &impl Print, call: Call, given: &mut Given, out: &mut [u8]) -> io::Result<()> {
    match call {
        Call::Tag => tag(rt, given, out),
        Call::Verify => verify(rt, given, given.part(Argument::Sheet)),
        Call::Report => report(rt, given, out),
        Call::Replace => replace(rt, given, out),
        Call::Fetch => fetch(rt, given),
        Call::Begin => begin(rt, given),
        Call::Put => put(rt, given),
        Call::Close => close(rt, given, out),
        Call::Drift => drift::run(rt, given),
    }
}

// Says a line, runs the call of that name, and says what came out.
pub fn run(rt: &impl Print, line: &[u8], name: &[u8], given: &mut Given) -> io::Result<()> {
    let lent = room(given.lent);
    let mut out = [0xa5u8; 1400];
    say::text(rt, line)?;
    if let Some(call) = call_of(name) {
        run_into(rt, call, given, &mut out[..lent])?;
    }
    say::text(
        rt,
        if given.unknown {
            b", a word is not known\n"
        } else {
            b"\n"
        },
    )
}
