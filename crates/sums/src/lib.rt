// Arrays of sums: an item's value added to the sums of its tags, by a walk over them, and the sums of all rows had from those of the tags.
#![tactic(auto)]

ghost use Rattle.std.specs.Prelude.{◌≡◌, ◌*◌, ◌≤◌, length};
ghost use Rattle.incidence.specs.Sum.{sum_of, expanded};
ghost use Rattle.sizes.specs.Sizes.{family_of};
ghost use Rattle.sums.specs.Adding.{sum_in, Holds, Added, spread_tags};

use blocks::block;

// The most bytes that the sums of all tags and of all rows have: those of the largest size.
pub const TAGS_MOST: usize = 1312;

pub const ROWS_MOST: usize = 4368;

// Adds a value to the sums of the tagged rows of item j, which stand in the order of the tags at the front of sums.
pub fn add_to_tags(code: u64, sums: &mut [u8], j: usize, value: [u8; 16])
    requires { 16 * (family_of code).tags ≤ length sums.old }
    ensures { Added (λ t. (family_of code).on ((family_of code).row_of_tag t) j) (family_of code).tags value sums.old sums.new }
{
    let mut tags = [0usize; sizes::MOST];
    let n = sizes::tags_of(code, j, &mut tags);
    for &t in &tags[..n] {
        block::xor_at(sums, 16 * (t - 1), value);
    }
}

// The XOR of the sums of the rows that row i is made of.
fn sum_made(code: u64, sums: &[u8], i: usize) -> [u8; 16]
    requires le_i { (1 ≤ i) × (i ≤ (family_of code).rows) × ((family_of code).tag_of_row i ≡ 0) }
    requires code_in_bounds { 16 * (family_of code).rows ≤ length sums.now }
    ensures { result ≡ sum_of (sum_in sums.now) ((family_of code).made i) }
{
    let mut rows = [0u16; sizes::MADE_MOST];
    let n = sizes::made_of(code, i, &mut rows);
    let mut r = [0u8; 16];
    for k in (0..n).rev() {
        let a = usize::from(rows[k]);
        // a call's array laid straight into r gets no proof
        let next = block::xor(block::block_at(sums, 16 * (a - 1)), r);
        r = next;
    }
    r
}

// Moves the tags' sums, which stand in their order at the front of sums, to the tags' rows; what stands elsewhere stays. From the last
// row to the first: a tag's number is never above its row's, so that no sum is written over before it has moved.
fn spread_tags(code: u64, sums: &mut [u8])
    requires { 16 * (family_of code).rows ≤ length sums.old }
    ensures { Holds (family_of code).rows (spread_tags (family_of code) sums.old) sums.old sums.new }
{
    for k in (0..sizes::rows(code)).rev() {
        let t = sizes::tag_of_row(code, k + 1);
        if t != 0 {
            block::put_at(sums, 16 * k, block::block_at(sums, 16 * (t - 1)));
        }
    }
}

// Fills in the rows without a tag, from the first to the last, where the tagged rows' sums stand at their rows.
fn fill_made(code: u64, sums: &mut [u8])
    requires { 16 * (family_of code).rows ≤ length sums.old }
    ensures { Holds (family_of code).rows (expanded (family_of code) (λ k. sum_in sums.old ((family_of code).row_of_tag k))) sums.old sums.new }
{
    for k in 0..sizes::rows(code) {
        let i = k + 1;
        if sizes::tag_of_row(code, i) == 0 {
            block::put_at(sums, 16 * k, sum_made(code, sums, i));
        }
    }
}

// Fills the front of sums with the sums of all rows, in place of those of the tags, from which they are had; what is behind them stays.
// Document 01: "had back from its tag or, for a row without one, by its pattern".
pub fn fill_rows(code: u64, sums: &mut [u8])
    requires { 16 * (family_of code).rows ≤ length sums.old }
    ensures { Holds (family_of code).rows (expanded (family_of code) (sum_in sums.old)) sums.old sums.new }
{
    spread_tags(code, sums);
    fill_made(code, sums);
}
