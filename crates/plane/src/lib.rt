// The four projective planes as families of rows (000, section 6.4): their constants (table), and their rows and items as walks over the
// difference list (walk). Everything is by 000's s, 1 to 4; any other s has no rows, and each contract says what it gets.
#![tactic(auto)]

pub mod table;
pub mod walk;

// The plane of s.
#[derive(Clone, Copy)]
pub struct Plane {
    pub s: usize,
}
