// What every engine of AES-128 shares of FIPS 197: the definitions (specs/), the tables (sbox, inv_sbox), a column of the state as a
// word (words), the state as four of them (columns) and the key schedule (schedule). An engine is a crate above that computes the
// rounds, and its contracts cite these definitions.
#![tactic(auto)]

pub mod columns;
pub mod inv_sbox;
pub mod sbox;
pub mod schedule;
pub mod words;
