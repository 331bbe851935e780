// The row patterns of the four planes, worked out from their difference lists and laid out as lines (document 02, request 2.6). That they are
// the patterns in use, and that no shorter ones yield all rows, is proved in proofs/Planes.antt.
#![tactic(auto)]

ghost use Rattle.std.specs.Prelude.{◌≡◌, ◌++◌, ◌+◌, ◌≤◌, [], length, take, drop};
ghost use Rattle.plane.specs.Table.{differences, plane_pattern};
ghost use Rattle.derivation.specs.Lines.{words, pattern_line, pattern_lines};
ghost use Rattle.derivation.specs.Derived.{derived};

use plane::table;
use printing::Text;

// Puts steps, a space before each.
fn put_words<const N: usize>(text: &mut Text<N>, steps: &[u16])
    requires { length text.old + length (words steps.now) ≤ N }
    ensures { text.new ≡ text.old ++ words steps.now }
{
    for k in steps {
        text.put_labelled(b" ", *k as u64);
    }
}

// Copies the difference list of s to the front of list, and gives how many members it has.
fn copy_differences(s: usize, list: &mut [u16; 17]) -> usize
    ensures written { list.new ≡ differences s ++ drop (length (differences s)) list.old }
    ensures count { result ≡ length (differences s) }
{
    let n = table::difference_count(s);
    for i in 0..n {
        list[i] = table::difference(s, i) as u16;
    }
    n
}

// Writes the pattern that the difference list of plane s gives to the front of steps, and gives how many steps it has.
fn derive(s: usize, steps: &mut [u16]) -> usize
    requires { (1 ≤ s) × (s ≤ 4) × (273 ≤ length steps.old) }
    ensures written { steps.new ≡ derived s ++ drop (length (derived s)) steps.old }
    ensures count { result ≡ length (derived s) }
{
    let mut list = [0u16; 17];
    let n = copy_differences(s, &mut list);
    cyclic::pattern(table::items(s), &list[0..n], steps).unwrap()
}

// Puts the line of plane s: its size code, and the steps of the pattern that its difference list gives.
fn put_line<const N: usize>(text: &mut Text<N>, s: usize)
    requires { (1 ≤ s) × (s ≤ 4) × (length text.old + length (pattern_line s (derived s)) ≤ N) }
    ensures { text.new ≡ text.old ++ pattern_line s (derived s) }
{
    let mut steps = [0u16; 273];
    let n = derive(s, &mut steps);
    text.put_decimal(s as u64);
    put_words(text, &steps[..n]);
    text.put(b"\n");
}

// Puts the lines of the four sizes.
fn put_lines(text: &mut Text<256>)
    requires { text.old ≡ [] }
    ensures { text.new ≡ pattern_lines derived 4 }
{
    for s in 1..5 {
        put_line(text, s);
    }
}

// Puts the lines of the four sizes to the front of out, and gives their length; the bytes behind stay. They are the lines of the patterns derived, and these are
// the patterns in use.
pub fn print(out: &mut [u8; 256]) -> usize
    ensures derived { out.new ≡ pattern_lines derived 4 ++ drop (length (pattern_lines derived 4)) out.old }
    ensures in_use { out.new ≡ pattern_lines plane_pattern 4 ++ drop (length (pattern_lines plane_pattern 4)) out.old }
    ensures size { result ≡ length (pattern_lines derived 4) }
    ensures counts { (result ≤ length out.new) × (result ≡ length (take result out.new)) }
{
    let mut text = Text::<256>::new();
    put_lines(&mut text);
    text.copy_to(out)
}
