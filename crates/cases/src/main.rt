// Document 01's bench cards that are not starred, and each refusal in each call that can give it, in every version of the files. A line of
// `stdin` is a case, in the words of trial's `line`: what comes out is said behind it, and `stdout`, typed in from documents 01 and 02, has
// what is right.
#![tactic(auto)]

use std::io;

fn main(rt: HostRuntime) -> io::Result<()> {
    let mut text = [0u8; trial::line::TEXT_MOST];
    let n = filling::fill(&mut rt.stdin(), &mut text)?;
    trial::line::run_all(&rt, &text[..n])
}
