// Trials of the calls: a line names a call and what it is given, and what comes out is said behind it.
#![tactic(auto)]

pub mod calls;
mod drift;
pub mod given;
pub mod inputs;
pub mod judge;
pub mod line;
pub mod say;
pub mod sessions;
mod sheets;
