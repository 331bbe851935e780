// Document 01, Planes: the constants of the four planes by s, 1 to 4. The tables are the lists of specs/Table.antt, whose rules are
// proved by computation (proofs/Rules.antt).
ghost use Rattle.std.specs.Prelude.{◌≡◌, ◌<◌, length, get_or, leb};
ghost use Rattle.plane.specs.Table.{plane_items, plane_tags, plane_limit, difference_lists, differences, pattern_lists, plane_pattern};
ghost use Rattle.plane.specs.Plane.{many};
ghost use Rattle.plane.specs.Walk.{joined};

// A column of document 01's table each, from s = 0 on.
const ITEMS: [usize; 5] = [0, 7, 21, 73, 273];

const TAGS: [usize; 5] = [0, 4, 10, 28, 82];

const LIMITS: [usize; 5] = [0, 2, 4, 8, 16];

// The four difference lists, one after the other, where each starts and how many entries it has.
pub const DIFFERENCES: [u16; 34] = [
    1, 2, 4, 3, 6, 7, 12, 14, 1, 2, 4, 8, 16, 32, 37, 55, 64, 1, 2, 4, 8, 16, 32, 64, 91, 117, 128,
    137, 182, 195, 205, 234, 239, 256,
];

const DIFFERENCES_AT: [usize; 5] = [0, 0, 3, 8, 17];

const DIFFERENCE_COUNTS: [usize; 5] = [0, 3, 5, 9, 17];

// The four row patterns, one after the other, where each starts and how many entries it has.
pub const PATTERNS: [u8; 58] = *b"\
    \x02\x03\x04\
    \x02\x04\x06\x07\x0a\
    \x02\x06\x09\x0a\x0b\x0e\x0f\x10\x13\x14\x17\x18\x19\x1b\x1c\
    \x02\x04\x08\x0e\x11\x13\x15\x16\x18\x19\x1e\x1f\x20\x22\x24\x28\x2a\x2b\x2c\x2e\x30\x31\x35\x37\x38\x39\x3a\
    \x45\x46\x47\x4d\x4e\x4f\x51\x52";

const PATTERNS_AT: [usize; 5] = [0, 0, 3, 8, 23];

const PATTERN_COUNTS: [usize; 5] = [0, 3, 5, 15, 35];

// The entry of a column at s; beyond its end, 0. A constant array is copied before it is read at a place that only the call knows, and not
// where the places are fixed.
fn column(t: [usize; 5], s: usize) -> usize
    ensures { result ≡ get_or t s 0 }
{
    let none = t[0];
    let first = t[1];
    let second = t[2];
    let third = t[3];
    let fourth = t[4];
    match s {
        0 => none,
        1 => first,
        2 => second,
        3 => third,
        4 => fourth,
        _ => 0,
    }
}

// A function for each column: each ensures the definition of its own.

// How many items there are (document 01: cards m), and as many rows.
pub fn items(s: usize) -> usize
    ensures { result ≡ plane_items s }
{
    column(ITEMS, s)
}

// How many rows carry tags.
pub fn tags(s: usize) -> usize
    ensures { result ≡ plane_tags s }
{
    column(TAGS, s)
}

// The disjunctness (document 01: limit d).
pub fn limit(s: usize) -> usize
    ensures { result ≡ plane_limit s }
{
    column(LIMITS, s)
}

// How many differences there are.
pub fn difference_count(s: usize) -> usize
    ensures { result ≡ length (differences s) }
{
    column(DIFFERENCE_COUNTS, s)
}

// The differences, in the table of all. (A constant array is copied before it is read: who reads many takes it once.)
pub fn differences(all: &[u16], s: usize) -> &[u16]
    requires { all.now ≡ joined difference_lists }
    ensures { result.now ≡ differences s }
{
    let at = column(DIFFERENCES_AT, s);
    &all[at..at + column(DIFFERENCE_COUNTS, s)]
}

// The difference at place k, from 0.
pub fn difference(s: usize, k: usize) -> usize
    requires { k < length (differences s) }
    ensures { result ≡ get_or (differences s) k 0 }
{
    let all = DIFFERENCES;
    usize::from(differences(&all, s)[k])
}

// How many numbers of a list are at most x. Each is looked at: of 17 at most, a search by halving is no faster.
pub fn rank(d: &[u16], x: usize) -> usize
    ensures { result ≡ many (λ e. leb e x) d.now }
{
    d.iter().filter(|e| usize::from(**e) <= x).count()
}

// The row pattern, in the table of all. (The two tables have entries of two types; what the two functions share is their last line.)
pub fn pattern(all: &[u8], s: usize) -> &[u8]
    requires { all.now ≡ joined pattern_lists }
    ensures { result.now ≡ plane_pattern s }
{
    let at = column(PATTERNS_AT, s);
    &all[at..at + column(PATTERN_COUNTS, s)]
}
