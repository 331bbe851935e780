// The two files of document 01: the message file (shelf) and the tag file (sheet). What is refused of them and where their parts lie.
#![tactic(auto)]

pub mod arguments;
pub mod message;
pub mod refusals;
pub mod tagfile;

pub use refusals::{Reason, Refused};
