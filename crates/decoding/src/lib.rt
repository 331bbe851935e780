// What a report makes of an array of differences, the XOR of both sums of each row (000, section 3.1: naïve decoding): the rows that agree
// clear their items, the others are counted, and the items that no row clears are named.
#![tactic(auto)]

ghost use Rattle.std.specs.Prelude.{◌≡◌, true, ◌&&◌, ◌++◌, ◌*◌, ◌≤◌, eqb, length, drop};
ghost use Rattle.std.specs.List.{list_any};
ghost use Rattle.incidence.specs.Count.{inside, count_up_to, any_up_to};
ghost use Rattle.blocks.specs.Block.{zeros};
ghost use Rattle.incidence.specs.Family.{holds_one};
ghost use Rattle.incidence.specs.Report.{cleared, named, number_named, disagreeing, answer_by, answer};
ghost use Rattle.incidence.specs.declared.Answer.TheVariants.{Intact};
ghost use Rattle.sizes.specs.Sizes.{known, family_of};
ghost use Rattle.decoding.specs.Decoding.{agrees_in, agrees_from, marks_of, Cleared, is_marked, unexplained_in};

use blocks::block;
use incidence::Answer;

// The most marks that a report writes: those of the largest size.
pub const MARKS_MOST: usize = 273;

// What a report says: its answer, how many items are named, and how many rows disagree.
#[derive(Clone, Copy)]
pub struct Decoded {
    pub answer: Answer,
    pub named: usize,
    pub rows: usize,
}

// Clears item j, if it has a mark.
fn clear_item(marks: &mut [u8], j: usize)
    requires { 1 ≤ j }
    ensures { Cleared (eqb j) (length marks.old) marks.old marks.new }
{
    if j <= marks.len() {
        marks[j - 1] = 0;
    }
}

// Clears those of the items with marks that a row holds, by a walk over its items.
fn clear_row(code: u64, row: usize, marks: &mut [u8])
    ensures { Cleared ((family_of code).on row) (length marks.old) marks.old marks.new }
{
    let mut items = [0usize; sizes::MOST];
    let held = sizes::items_of(code, row, &mut items);
    for &j in &items[..held] {
        clear_item(marks, j);
    }
}

// How many items are marked.
fn count_named(marks: &[u8]) -> usize
    ensures { result ≡ count_up_to (is_marked marks.now) (length marks.now) }
{
    marks.iter().filter(|mark| **mark != 0).count()
}

// Whether j is an item with a mark, and marked.
fn is_named(marks: &[u8], j: usize) -> bool
    ensures { result ≡ (inside (length marks.now) j && is_marked marks.now j) }
{
    incidence::inside(marks.len(), j) && marks[j - 1] != 0
}

// Whether one of the items is marked.
fn any_named(items: &[usize], marks: &[u8]) -> bool
    ensures { result ≡ list_any (λ j. inside (length marks.now) j && is_marked marks.now j) items.now }
{
    items.iter().any(|j| is_named(marks, *j))
}

// Whether a row holds an item that is marked, by a walk over its items.
fn holds_named(code: u64, row: usize, marks: &[u8]) -> bool
    ensures { result ≡ holds_one (family_of code) (is_marked marks.now) (length marks.now) row }
{
    let mut items = [0usize; sizes::MOST];
    let held = sizes::items_of(code, row, &mut items);
    any_named(&items[..held], marks)
}

// Whether row i agrees: its difference is zero.
fn agree(d: &[u8], i: usize) -> bool
    requires { (1 ≤ i) × (16 * i ≤ length d.now) }
    ensures { result ≡ agrees_in d.now i }
{
    block::is_zero(d, 16 * (i - 1))
}

// Takes one row: says whether it agrees, and where it does clears the items that it holds.
fn take_row(code: u64, d: &[u8], row: usize, marks: &mut [u8]) -> bool
    requires { (1 ≤ row) × (16 * row ≤ length d.now) }
    ensures cleared { Cleared (λ j. agrees_in d.now row && (family_of code).on row j) (length marks.old) marks.old marks.new }
    ensures agrees { result ≡ agrees_in d.now row }
{
    let agrees = agree(d, row);
    if agrees {
        clear_row(code, row, marks);
    }
    agrees
}

// The pass: takes the first i rows in order, each once, and gives how many of them disagree. It may be any number of rows whose
// differences d holds; a report takes all rows of its size (document 02, 2.4).
fn clear_agreeing(code: u64, d: &[u8], i: usize, marks: &mut [u8]) -> usize
    requires { 16 * i ≤ length d.now }
    ensures cleared { Cleared (cleared (family_of code) (agrees_in d.now) i) (length marks.old) marks.old marks.new }
    ensures rows { result ≡ disagreeing (agrees_in d.now) i }
{
    let mut others = 0;
    for row in 1..=i {
        if !take_row(code, d, row, marks) {
            others += 1;
        }
    }
    others
}

// The differences of all rows of a size, which stand in d one behind the other: the XOR of both sums of each.
#[derive(Clone, Copy)]
struct Differences<'a> {
    code: u64,
    d: &'a [u8],
    ghost all: { 16 * (family_of code).rows ≤ length d.now },
}

impl Differences<'_> {
    // Whether row i disagrees and holds no item that is marked.
    fn is_unexplained(&self, i: usize, marks: &[u8]) -> bool
        requires { (1 ≤ i) × (16 * i ≤ length self.now.d.now) }
        ensures { result ≡ unexplained_in (family_of self.now.code) (agrees_in self.now.d.now) marks.now (length marks.now) i }
    {
        !agree(self.d, i) && !holds_named(self.code, i, marks)
    }

    // Whether one of the rows is unexplained.
    fn find_unexplained(&self, marks: &[u8]) -> bool
        ensures { result ≡ any_up_to (unexplained_in (family_of self.now.code) (agrees_in self.now.d.now) marks.now (length marks.now)) (family_of self.now.code).rows }
    {
        let rows = sizes::rows(self.code);
        for i in 1..=rows {
            if self.is_unexplained(i, marks) {
                return true;
            }
        }
        false
    }

    // The answer, by the numbers of rows that disagree and of items named. An unexplained row is looked for only where 1 to limit items
    // are named: elsewhere the answer does not depend on it.
    fn choose(&self, marks: &[u8], rows: usize, names: usize) -> Answer
        ensures { result ≡ answer_by (family_of self.now.code).limit rows names (any_up_to (unexplained_in (family_of self.now.code) (agrees_in self.now.d.now) marks.now (length marks.now)) (family_of self.now.code).rows) }
    {
        if rows == 0 {
            return Answer::Intact;
        }
        if 1 <= names && names <= sizes::limit(self.code) && !self.find_unexplained(marks) {
            return Answer::Named;
        }
        Answer::Beyond
    }

    // Decodes as many items as there are marks, and writes these: 1 named and 0 cleared.
    fn decode(&self, marks: &mut [u8]) -> Decoded
        ensures written { marks.new ≡ marks_of (named (family_of self.now.code) (agrees_in self.now.d.now)) (length marks.old) }
        ensures answer { result.answer ≡ answer (family_of self.now.code) (agrees_in self.now.d.now) (length marks.old) }
        ensures named { result.named ≡ number_named (family_of self.now.code) (agrees_in self.now.d.now) (length marks.old) }
        ensures rows { result.rows ≡ disagreeing (agrees_in self.now.d.now) (family_of self.now.code).rows }
    {
        marks.fill(1);
        let rows = clear_agreeing(self.code, self.d, sizes::rows(self.code), marks);
        let names = count_named(marks);
        Decoded {
            answer: self.choose(marks, rows, names),
            named: names,
            rows,
        }
    }
}

// What is decoded where every row agrees: all items are cleared.
fn intact(marks: &mut [u8]) -> Decoded
    ensures written { marks.new ≡ zeros (length marks.old) }
    ensures answer { result.answer ≡ Intact }
    ensures named { result.named ≡ 0 }
    ensures rows { result.rows ≡ 0 }
{
    marks.fill(0);
    Decoded {
        answer: Answer::Intact,
        named: 0,
        rows: 0,
    }
}

// Decodes n items from the differences of the tags, which stand at the front of sums: where all are zero every row agrees, and none is made;
// else those of all rows are filled in there and decoded. What sums then hold is of no account.
pub fn decode_tags(code: u64, n: usize, sums: &mut [u8], marks: &mut [u8]) -> Decoded
    requires code_value { known code ≡ true }
    requires n_bound { (n ≤ (family_of code).items) × (n ≤ length marks.old) }
    requires code_in_bounds { 16 * (family_of code).rows ≤ length sums.old }
    ensures written { marks.new ≡ marks_of (named (family_of code) (agrees_from (family_of code) sums.old)) n ++ drop n marks.old }
    ensures answer { result.answer ≡ answer (family_of code) (agrees_from (family_of code) sums.old) n }
    ensures named { result.named ≡ number_named (family_of code) (agrees_from (family_of code) sums.old) n }
    ensures rows { result.rows ≡ disagreeing (agrees_from (family_of code) sums.old) (family_of code).rows }
{
    if block::all_zero(sums, sizes::tags(code)) {
        return intact(&mut marks[..n]);
    }
    sums::fill_rows(code, sums);
    Differences { code, d: sums }.decode(&mut marks[..n])
}
