// What the command for people computes, apart from reading and writing: a number typed as a word, the lines that it prints, the name of a
// file that is not whole yet, and one card packed.
#![tactic(auto)]

pub mod lines;
pub mod numbers;
pub mod packs;
