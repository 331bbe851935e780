// The report program of document 01's bench cards, without its reading and writing: from the bytes read to the bytes printed.
#![tactic(auto)]

ghost use Rattle.std.specs.Prelude.{◌≡◌, ◌++◌, ◌+◌, ◌≤◌, length, take, drop};
ghost use Rattle.std.specs.Bool.{OnTrue};
ghost use Rattle.files.specs.Message.{number16};
ghost use Rattle.reporting.specs.Printed.{readable, report_text, tag_text, printed};

use files::{message, tagfile};
use printing::Text;

// Whether the input is neither too short nor too long and holds the first message whole.
fn is_readable(input: &[u8]) -> bool
    ensures answer { result ≡ readable input.now }
    ensures whole { OnTrue result ((51 ≤ length input.now) × (51 + number16 input.now 49 ≤ length input.now)) }
{
    if input.len() < 51 {
        return false;
    }
    if 65536 < input.len() {
        return false;
    }
    51 + message::number16(input, 49) <= input.len()
}

// Puts the lines of a report on a message against a tag file.
fn put_report<const N: usize>(
    text: &mut Text<N>,
    keys: &[u8],
    code: u64,
    n: usize,
    s: &[u8],
    file: &[u8],
)
    requires { length text.old + 7232 ≤ N }
    ensures { text.new ≡ text.old ++ report_text keys.now code n s.now file.now }
{
    let mut marks = [0u8; decoding::MARKS_MOST];
    match scheme::report(keys, s, file, &mut marks) {
        Ok(found) => {
            let k = message::item_count(s);
            text.put_report(code, n, found, &marks[..k]);
        }
        Err(refused) => text.put_refused(refused),
    }
}

// Tags the first message and puts the lines of the report on the second.
fn put_both<const N: usize>(text: &mut Text<N>, keys: &[u8], code: u64, first: &[u8], second: &[u8])
    requires { length text.old + 7232 ≤ N }
    ensures { text.new ≡ text.old ++ tag_text keys.now code first.now second.now }
{
    let mut file = [0u8; tagfile::MOST];
    match scheme::tag(keys, code, first, &mut file) {
        Ok(()) => {
            let head = tagging::head_for(code, first);
            let end = tagfile::file_size(head);
            put_report(text, keys, code, head.count, second, &file[0..end]);
        }
        Err(refused) => text.put_refused(refused),
    }
}

// Puts what is printed for an input.
fn put_printed<const N: usize>(text: &mut Text<N>, input: &[u8])
    requires { length text.old + 7232 ≤ N }
    ensures { text.new ≡ text.old ++ printed input.now }
{
    if is_readable(input) {
        let code = input[48] as u64;
        let end = 51 + message::number16(input, 49);
        put_both(text, &input[0..48], code, &input[51..end], &input[end..]);
    } else {
        text.put(b"unreadable\n");
    }
}

// Puts what is printed for an input to the front of out, and gives its length; the bytes behind stay.
pub fn print(input: &[u8], out: &mut [u8; 8192]) -> usize
    ensures written { out.new ≡ printed input.now ++ drop (length (printed input.now)) out.old }
    ensures size { result ≡ length (printed input.now) }
    ensures counts { (result ≤ length out.new) × (result ≡ length (take result out.new)) }
{
    let mut text = Text::<7232>::new();
    put_printed(&mut text, input);
    text.copy_to(out)
}
