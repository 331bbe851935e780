// The size codes: the one place that names them. What a code's family has, as numbers and lists; the crates above call nothing else of
// it. No call has a premise, and each contract is stated outright for every code and number. For a code that is none, or a number out of
// range, `known` answers false and the others 0, and nothing is written.
#![tactic(auto)]

ghost use Rattle.std.specs.Prelude.{◌≡◌, ◌++◌, ◌/◌, ◌%◌, length, drop, IfSome, is_some};
ghost use Rattle.incidence.specs.Family.{items_of, tags_of};
ghost use Rattle.plane.specs.Plane.{plane};
ghost use Rattle.affine.specs.Affine.{affine_family};
ghost use Rattle.sizes.specs.Sizes.{affine_code, known, family_of};
ghost use Rattle.sizes.specs.declared.Size.TheVariants.{Plane, Affine};

use affine::Affine;
use incidence::Rows;
use plane::Plane;

// How long a buffer for the tags of an item or the items of a row is, and one for the rows that a row is made of: for every code, no list
// is longer.
pub const MOST: usize = incidence::MOST;

pub const MADE_MOST: usize = incidence::MADE_MOST;

// The two kinds of sizes.
#[derive(Clone, Copy)]
enum Size {
    Plane(Plane),
    Affine(Affine),
}

impl Rows for Size {
    ghost family = { elim [ Plane p ↦ plane p.s | Affine a ↦ affine_family a.field.s a.l ] };

    fn items(&self) -> usize {
        match self {
            Size::Plane(plane) => plane.items(),
            Size::Affine(affine) => affine.items(),
        }
    }

    fn rows(&self) -> usize {
        match self {
            Size::Plane(plane) => plane.rows(),
            Size::Affine(affine) => affine.rows(),
        }
    }

    fn tags(&self) -> usize {
        match self {
            Size::Plane(plane) => plane.tags(),
            Size::Affine(affine) => affine.tags(),
        }
    }

    fn limit(&self) -> usize {
        match self {
            Size::Plane(plane) => plane.limit(),
            Size::Affine(affine) => affine.limit(),
        }
    }

    fn tags_of(&self, item: usize, out: &mut [usize; MOST]) -> usize {
        match self {
            Size::Plane(plane) => plane.tags_of(item, out),
            Size::Affine(affine) => affine.tags_of(item, out),
        }
    }

    fn items_of(&self, row: usize, out: &mut [usize; MOST]) -> usize {
        match self {
            Size::Plane(plane) => plane.items_of(row, out),
            Size::Affine(affine) => affine.items_of(row, out),
        }
    }

    fn tag_of_row(&self, row: usize) -> usize {
        match self {
            Size::Plane(plane) => plane.tag_of_row(row),
            Size::Affine(affine) => affine.tag_of_row(row),
        }
    }

    fn made_of(&self, row: usize, out: &mut [u16; MADE_MOST]) -> usize {
        match self {
            Size::Plane(plane) => plane.made_of(row, out),
            Size::Affine(affine) => affine.made_of(row, out),
        }
    }
}

// What a code says of an affine size, 16 s + l: s.
fn exponent(code: u64) -> usize
    ensures { result ≡ code / 16 }
{
    (code / 16) as usize
}

// And l, the number of chosen lines.
fn chosen_lines(code: u64) -> usize
    ensures { result ≡ code % 16 }
{
    (code % 16) as usize
}

// The affine size that a code stands for. That a plane's stands for none is told by one comparison, since the walks of a plane ask again and
// again.
fn affine_of(code: u64) -> Option<Affine>
    ensures whether { is_some result ≡ affine_code code }
    ensures which { IfSome result (λ a. (a.field.s ≡ code / 16) × (a.l ≡ code % 16)) }
{
    if code <= 4 {
        return None;
    }
    Affine::new(exponent(code), chosen_lines(code))
}

// The size that a code stands for; a code that is none, for a plane without rows.
fn size_of(code: u64) -> Size
    ensures { ⟦<Size as Rows>⟧.family result ≡ family_of code }
{
    match affine_of(code) {
        Some(affine) => Size::Affine(affine),
        None => Size::Plane(Plane { s: code as usize }),
    }
}

// Whether a number is a size code.
pub fn known(code: u64) -> bool
    ensures { result ≡ known code }
{
    incidence::inside(4, code as usize) || affine_of(code).is_some()
}

// How many items a message may have (document 01: cards m).
pub fn items(code: u64) -> usize
    ensures { result ≡ (family_of code).items }
{
    size_of(code).items()
}

// How many rows there are.
pub fn rows(code: u64) -> usize
    ensures { result ≡ (family_of code).rows }
{
    size_of(code).rows()
}

// How many tags there are.
pub fn tags(code: u64) -> usize
    ensures { result ≡ (family_of code).tags }
{
    size_of(code).tags()
}

// The disjunctness (document 01: limit d).
pub fn limit(code: u64) -> usize
    ensures { result ≡ (family_of code).limit }
{
    size_of(code).limit()
}

// Writes the tags whose rows hold an item, rising, to the front of out, and gives how many; what is behind them stays.
pub fn tags_of(code: u64, item: usize, out: &mut [usize; MOST]) -> usize
    ensures written { out.new ≡ tags_of (family_of code) item ++ drop (length (tags_of (family_of code) item)) out.old }
    ensures count { result ≡ length (tags_of (family_of code) item) }
{
    size_of(code).tags_of(item, out)
}

// Writes the items that a row holds, rising, to the front of out, and gives how many; what is behind them stays.
pub fn items_of(code: u64, row: usize, out: &mut [usize; MOST]) -> usize
    ensures written { out.new ≡ items_of (family_of code) row ++ drop (length (items_of (family_of code) row)) out.old }
    ensures count { result ≡ length (items_of (family_of code) row) }
{
    size_of(code).items_of(row, out)
}

// The tag of a row, 0 where it has none.
pub fn tag_of_row(code: u64, row: usize) -> usize
    ensures { result ≡ (family_of code).tag_of_row row }
{
    size_of(code).tag_of_row(row)
}

// Writes the rows that a row without a tag is made of to the front of out, and gives how many; none for a tagged row. What is behind them
// stays.
pub fn made_of(code: u64, row: usize, out: &mut [u16; MADE_MOST]) -> usize
    ensures written { out.new ≡ (family_of code).made row ++ drop (length ((family_of code).made row)) out.old }
    ensures count { result ≡ length ((family_of code).made row) }
{
    size_of(code).made_of(row, out)
}
