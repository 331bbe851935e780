// The report program (document 01, 'Bench cards'): tags the first message read and prints the report on the second. What it prints is
// proved in the crate reporting; here it is read and written. A byte more than the 65,536 that are readable is read, and no more.
#![tactic(auto)]

use std::io;

fn main(rt: HostRuntime) -> io::Result<()> {
    let mut input = [0u8; 65537];
    let n = filling::fill(&mut rt.stdin(), &mut input)?;
    let mut out = [0u8; 8192];
    let k = reporting::print(&input[..n], &mut out);
    rt.write_all(&out[..k])
}
