// The command for people: packs card files into a message file, with a number or without, tags it, verifies and reports it, replaces,
// withdraws and adds a card in its tag file, lists and fetches its cards, and lists the sizes. What it computes is proved in the crates
// below; here it reads and writes.
#![tactic(auto)]

mod cards;
mod codes;
mod failure;
mod heads;
mod input;
mod judging;
mod output;
mod say;
mod tagfiles;
mod words;

use failure::Failure;

fn help(rt: &HostRuntime) -> Result<(), Failure> {
    words::exactly(rt, 2)?;
    say::usage(rt);
    Ok(())
}

// Runs the command that word 1 names.
fn run(rt: &HostRuntime) -> Result<(), Failure> {
    words::at_least(rt, 2)?;
    let mut room = [0u8; words::MOST];
    match words::word_or_empty(rt, 1, &mut room) {
        b"pack" => cards::pack(rt),
        b"pack-numbered" => cards::pack_numbered(rt),
        b"tag" => tagfiles::tag(rt),
        b"verify" => judging::verify(rt),
        b"report" => judging::report(rt),
        b"replace" => tagfiles::replace(rt),
        b"withdraw" => tagfiles::withdraw(rt),
        b"add" => tagfiles::add(rt),
        b"fetch" => cards::fetch(rt),
        b"list" => cards::list(rt),
        b"sizes" => codes::list(rt),
        b"help" => help(rt),
        _ => Err(Failure::UnknownCommand(1)),
    }
}

// The exit status is 0 after a failure too.
fn main(rt: HostRuntime) {
    if let Err(failure) = run(&rt) {
        say::failure(&rt, failure);
    }
}
