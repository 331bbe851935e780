// What holds of any test matrix (000, sections 2.1 and 4.3): definitions in specs/, laws in proofs/. The planes are one family of such
// matrices; nothing here knows a size, a difference list or a cipher.
#![tactic(auto)]

ghost use Rattle.std.specs.Prelude.{◌≡◌, ◌++◌, length, drop};
ghost use Rattle.incidence.specs.Count.{inside};
ghost use Rattle.incidence.specs.Family.{Family, items_of, tags_of};

// What a report says of a message (document 01: "intact", "named", "beyond").
#[derive(Clone, Copy)]
pub enum Answer {
    Intact,
    Named,
    Beyond,
}

// Whether i is one of the numbers 1 to n. (files has it of 64-bit numbers: one for both would need a bound with the law of its order.)
pub fn inside(n: usize, i: usize) -> bool
    ensures { result ≡ inside n i }
{
    1 <= i && i <= n
}

// How long a buffer for the tags of an item or the items of a row is, and one for the rows that a row is made of: of the planes and the
// affine sizes none has a longer list.
pub const MOST: usize = 17;

pub const MADE_MOST: usize = 35;

// What a family's numbers and lists are. No method has a premise: of a number out of range a row has no items and no tag, an item no tags,
// and a row is made of none.
pub trait Rows {
    // The family that a value stands for.
    ghost family: { Self → Family };

    // How many items a message may have (document 01: cards m).
    fn items(&self) -> usize
        ensures { result ≡ (family self.now).items };

    // How many rows there are.
    fn rows(&self) -> usize
        ensures { result ≡ (family self.now).rows };

    // How many tags there are.
    fn tags(&self) -> usize
        ensures { result ≡ (family self.now).tags };

    // The disjunctness (document 01: limit d).
    fn limit(&self) -> usize
        ensures { result ≡ (family self.now).limit };

    // Writes the tags whose rows hold an item, rising, to the front of out, and gives how many; what is behind them stays.
    fn tags_of(&self, item: usize, out: &mut [usize; MOST]) -> usize
        ensures written { out.new ≡ tags_of (family self.now) item ++ drop (length (tags_of (family self.now) item)) out.old }
        ensures count { result ≡ length (tags_of (family self.now) item) };

    // Writes the items that a row holds, rising, to the front of out, and gives how many; what is behind them stays.
    fn items_of(&self, row: usize, out: &mut [usize; MOST]) -> usize
        ensures written { out.new ≡ items_of (family self.now) row ++ drop (length (items_of (family self.now) row)) out.old }
        ensures count { result ≡ length (items_of (family self.now) row) };

    // The tag of a row, 0 where it has none.
    fn tag_of_row(&self, row: usize) -> usize
        ensures { result ≡ (family self.now).tag_of_row row };

    // Writes the rows that a row without a tag is made of to the front of out, and gives how many; none for a tagged row. What is behind
    // them stays.
    fn made_of(&self, row: usize, out: &mut [u16; MADE_MOST]) -> usize
        ensures written { out.new ≡ (family self.now).made row ++ drop (length ((family self.now).made row)) out.old }
        ensures count { result ≡ length ((family self.now).made row) };
}
