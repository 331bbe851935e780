// The tags of an item and the items of a row, in rising order. Row i holds item j when (j − i) modulo m is a difference, so both lists
// follow the difference list from the place where it turns; no pair of row and item is tested. No public function has a premise; a number
// out of range has no rows, no items and no tag, and is made of none.
ghost use Rattle.std.specs.Prelude.{◌≡◌, true, false, ◌++◌, map, ℕ, ◌+◌, ◌-◌, ◌≤◌, ◌<◌, length, get_or, take, drop};
ghost use Rattle.incidence.specs.Family.{rows_of, items_of, tags_of};
ghost use Rattle.plane.specs.Table.{plane_items, plane_tags, plane_pattern};
ghost use Rattle.plane.specs.Plane.{plane};
ghost use Rattle.plane.specs.Walk.{Walk, along};

use crate::{Plane, table};
use incidence::{MADE_MOST, MOST, Rows};

// A walk is over the list that `walk` alone holds, so what it knows of list, row and turn is a premise of the four functions that it calls, by
// one name (specs/Walk.antt), and no type.

// The item at place k, from 0, of those that row i holds. The differences from place `turn` on go round to the first items, then the
// others follow.
fn item_at(d: &[u16], s: usize, i: usize, turn: usize, k: usize) -> usize
    requires walk { Walk s i d.now turn }
    requires k_in_bounds { k < length d.now }
    ensures { result ≡ get_or (items_of (plane s) i) k 0 }
{
    let place = turn + k;
    if place < d.len() {
        return i + usize::from(d[place]) - table::items(s);
    }
    i + usize::from(d[place - d.len()])
}

// The row at place k, from 0, of those that hold item m + 1 - i. Counted from the other end, they are the items of row i.
fn row_at(d: &[u16], s: usize, i: usize, turn: usize, k: usize) -> usize
    requires walk { Walk s i d.now turn }
    requires k_in_bounds { k < length d.now }
    ensures { result ≡ get_or (rows_of (plane s) (plane_items s + 1 - i)) k 0 }
{
    table::items(s) + 1 - item_at(d, s, i, turn, d.len() - 1 - k)
}

// Writes the numbers of a list, each with up added and down taken away, to out from place `at` on; all else stays.
fn write_moved(list: &[u16], up: usize, down: usize, at: usize, out: &mut [usize])
    requires up_bound { (up ≤ 273) × (at ≤ 17) × (at + length list.now ≤ length out.old) }
    requires by_index { (k : ℕ) → k < length list.now → down ≤ up + get_or list.now k 0 }
    ensures { out.new ≡ take at out.old ++ (map (λ e. up + e - down) list.now ++ drop (at + length list.now) out.old) }
{
    for (k, e) in list.iter().enumerate() {
        out[at + k] = up + usize::from(*e) - down;
    }
}

// Writes the items of row i to the front of out: the differences from place `turn` on go round to the first items, then the others follow.
fn write_items(d: &[u16], s: usize, i: usize, turn: usize, out: &mut [usize; MOST]) -> usize
    requires walk { Walk s i d.now turn }
    ensures written { out.new ≡ along s i false ++ drop (length (along s i false)) out.old }
    ensures count { result ≡ length (along s i false) }
{
    let n = d.len();
    write_moved(&d[turn..], i, table::items(s), 0, out);
    write_moved(&d[0..turn], i, 0, n - turn, out);
    n
}

// Writes the tags of item m + 1 - i to the front of out. Rows 1 to t have the tags 1 to t, so they are its rows up to t.
fn write_tags(d: &[u16], s: usize, i: usize, turn: usize, out: &mut [usize; MOST]) -> usize
    requires walk { Walk s i d.now turn }
    ensures written { out.new ≡ along s i true ++ drop (length (along s i true)) out.old }
    ensures count { result ≡ length (along s i true) }
{
    let n = d.len();
    let t = table::tags(s);
    for k in 0..n {
        let row = row_at(d, s, i, turn, k);
        if t < row {
            return k;
        }
        out[k] = row;
    }
    n
}

// Walks along the items of row i or, from the other end, the tags of item m + 1 - i. (Which of the two is a truth value, as in `along`, which this
// ensures; the two write different numbers of numbers, so they share no loop.)
fn walk(s: usize, i: usize, back: bool, out: &mut [usize; MOST]) -> usize
    requires le_i { (1 ≤ i) × (i ≤ plane_items s) }
    ensures written { out.new ≡ along s i back ++ drop (length (along s i back)) out.old }
    ensures count { result ≡ length (along s i back) }
{
    let all = table::DIFFERENCES;
    let d = table::differences(&all, s);
    let turn = table::rank(d, table::items(s) - i);
    if back {
        return write_tags(d, s, i, turn, out);
    }
    write_items(d, s, i, turn, out)
}

// Writes the rows that row i is made of, so many rows back as its plane's pattern says, to the front of out.
// (affine's `copy` is like it but for what is written: they share the `for` alone.)
fn write_made(p: &[u8], s: usize, i: usize, out: &mut [u16; MADE_MOST]) -> usize
    requires s_bound { (plane_tags s < i) × (i ≤ plane_items s) × (p.now ≡ plane_pattern s) }
    ensures written { out.new ≡ (plane s).made i ++ drop (length ((plane s).made i)) out.old }
    ensures count { result ≡ length ((plane s).made i) }
{
    let row = i as u16;
    for (k, back) in p.iter().enumerate() {
        out[k] = row - u16::from(*back);
    }
    p.len()
}

#[tactic(auto, unfolding(crate::specs::Plane::plane))]
impl Rows for Plane {
    ghost family = { λ p. plane p.s };

    fn items(&self) -> usize {
        table::items(self.s)
    }

    fn rows(&self) -> usize {
        table::items(self.s)
    }

    fn tags(&self) -> usize {
        table::tags(self.s)
    }

    fn limit(&self) -> usize {
        table::limit(self.s)
    }

    fn tags_of(&self, item: usize, out: &mut [usize; MOST]) -> usize {
        let m = table::items(self.s);
        if incidence::inside(m, item) {
            walk(self.s, m + 1 - item, true, out)
        } else {
            0
        }
    }

    fn items_of(&self, row: usize, out: &mut [usize; MOST]) -> usize {
        if incidence::inside(table::items(self.s), row) {
            walk(self.s, row, false, out)
        } else {
            0
        }
    }

    fn tag_of_row(&self, row: usize) -> usize {
        if row <= table::tags(self.s) { row } else { 0 }
    }

    fn made_of(&self, row: usize, out: &mut [u16; MADE_MOST]) -> usize {
        if row <= table::tags(self.s) {
            return 0;
        }
        if table::items(self.s) < row {
            return 0;
        }
        let all = table::PATTERNS;
        write_made(table::pattern(&all, self.s), self.s, row, out)
    }
}
