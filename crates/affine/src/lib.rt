// The affine family of rows (document 02, 2.7; 000, section 6.5): the field of 2^s elements (field), the points of a line and the lines
// through a point in rising order (walk), and which rows there are and carry tags (table). Everything is by the request's s and l.
#![tactic(auto)]

ghost use Rattle.std.specs.Prelude.{◌≡◌, true, IfSome, is_some};
ghost use Rattle.affine.specs.Affine.{sized};

pub mod field;
pub mod table;
pub mod walk;

use field::Field;

// An affine size.
#[derive(Clone, Copy)]
pub struct Affine {
    pub field: Field,
    pub l: usize,
    pub ghost size: { sized field.s l ≡ true },
}

impl Affine {
    // The size of s and l, where they are those of one.
    pub fn new(s: usize, l: usize) -> Option<Affine>
        ensures whether { is_some result ≡ sized s l }
        ensures which { IfSome result (λ a. (a.field.s ≡ s) × (a.l ≡ l)) }
    {
        if table::sized(s, l) {
            let field = Field { s };
            return Some(Affine { field, l });
        }
        None
    }
}

// The line ax + by = c.
#[derive(Clone, Copy)]
pub struct Line {
    pub a: usize,
    pub b: usize,
    pub c: usize,
}

// A line solved: the same y all along, or x = start + slope y.
#[derive(Clone, Copy)]
pub enum Course {
    Level { y: usize },
    Sloped { start: usize, slope: usize },
}
