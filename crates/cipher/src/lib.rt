// The cipher layer: the engine that computes the rounds (engine), AES-128 both ways (aes) and CMAC (cmac). Nothing is refused, and all that
// is asked of a caller is that the blocks lie in their slice; that tables handed over are the engine's, their type says. The definitions that
// the contracts cite are in specs/; a crate above uses their names, the sizes and byte ranges, and the two inverse laws (proofs/Laws.antt),
// and nothing else of AES. A schedule and a key made ready go by value, as callers have them from a call.
#![tactic(auto)]

pub mod aes;
pub mod cmac;
pub mod engine;
