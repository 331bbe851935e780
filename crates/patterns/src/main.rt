// Prints the row pattern of each plane, worked out from its difference list (document 02, request 2.6). What it prints is proved in the crate
// derivation.
#![tactic(auto)]

use std::io;

fn main(rt: HostRuntime) -> io::Result<()> {
    let mut out = [0u8; 256];
    let n = derivation::print(&mut out);
    rt.write_all(&out[..n])
}
