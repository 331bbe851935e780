// Blocks of 16 bytes, where they stand in longer slices, their XOR and doubling, and big-endian numbers: what the cipher, the sums and the
// files are made of. The definitions that the contracts cite are in specs/.
#![tactic(auto)]

pub mod block;
