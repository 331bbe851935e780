// What the programs print, put together in a text of fixed room: each method puts its words behind what the text has. Lines ask for as much room
// as they can ever take. None is a `Display`: std says what that writes where it answers Ok alone, and `print` of the crates reporting and
// derivation gives a length and cannot fail.
#![tactic(auto)]

ghost use Rattle.std.specs.Prelude.{◌≡◌, ◌++◌, ◌+◌, ◌*◌, ◌≤◌, [], length, take, drop};
ghost use Rattle.files.specs.Refusals.{refusal, number_of};
ghost use Rattle.printing.specs.Text.{decimal};
ghost use Rattle.printing.specs.Lines.{limits_line, answer_word, answer_line, card_part, card_lines, report_lines, refused_line};

use decoding::Decoded;
use files::Refused;
use incidence::Answer;
use std::marker::Model;

/// A text of at most N bytes. A contract sees it as the list of the bytes put so far.
#[derive(Drop)]
pub struct Text<const N: usize> {
    bytes: [u8; N],
    size: usize,
}

impl<const N: usize> Model for Text<N> {
    ghost use Rattle.std.specs.Prelude.{List, ℕ, ◌≤◌, take};

    ghost Value = { List ℕ };

    ghost view = { λ t. take t.size t.bytes };

    ghost invariant = { λ t. t.size ≤ N };
}

impl<const N: usize> Text<N> {
    // No text.
    pub fn new() -> Self
        ensures { result ≡ [] }
    {
        Text {
            bytes: [0; N],
            size: 0,
        }
    }

    pub fn as_bytes(&self) -> &[u8]
        ensures same { result.now ≡ self.now }
        ensures fits { length result.now ≤ N }
    {
        &self.bytes[..self.size]
    }

    // Copies the text to the front of out, and gives its length; the bytes behind stay.
    pub fn copy_to(&self, out: &mut [u8]) -> usize
        requires { N ≤ length out.old }
        ensures written { out.new ≡ self.now ++ drop (length self.now) out.old }
        ensures size { result ≡ length self.now }
        ensures counts { (result ≤ length out.new) × (result ≡ length (take result out.new)) }
    {
        let bytes = self.as_bytes();
        out[..bytes.len()].copy_from_slice(bytes);
        bytes.len()
    }

    // Puts a word.
    pub fn put(&mut self, word: &[u8])
        requires { length self.old + length word.now ≤ N }
        ensures { self.new ≡ self.old ++ word.now }
    {
        let start = self.size;
        let end = start + word.len();
        let room = &mut self.bytes[..];
        room[start..end].copy_from_slice(word);
        self.size = end;
    }

    // Puts a number in decimal.
    pub fn put_decimal(&mut self, n: u64)
        requires { length self.old + length (decimal n) ≤ N }
        ensures { self.new ≡ self.old ++ decimal n }
    {
        let mut text = [48u8; 20];
        let mut rest = n;
        for first in (0..20).rev() {
            text[first] = 48 + (rest % 10) as u8;
            rest /= 10;
            if rest == 0 {
                self.put(&text[first..20]);
                return;
            }
        }
    }

    // Puts a word and a number behind it.
    pub fn put_labelled(&mut self, word: &[u8], n: u64)
        requires { length self.old + length (word.now ++ decimal n) ≤ N }
        ensures { self.new ≡ self.old ++ (word.now ++ decimal n) }
    {
        self.put(word);
        self.put_decimal(n);
    }

    // Puts the line of a refusal's number and place, whichever they are.
    pub fn put_refusal(&mut self, number: u8, place: usize)
        requires { length self.old + 56 ≤ N }
        ensures written { self.new ≡ self.old ++ refused_line (refusal number place) }
        ensures short { length self.new ≤ length self.old + 56 }
    {
        self.put_labelled(b"refused ", number as u64);
        self.put_labelled(b" place ", place as u64);
        self.put(b"\n");
    }

    // Puts the line that says a refusal.
    pub fn put_refused(&mut self, refused: Refused)
        requires { length self.old + 56 ≤ N }
        ensures written { self.new ≡ self.old ++ refused_line (refusal (number_of refused.reason) refused.place) }
        ensures short { length self.new ≤ length self.old + 56 }
    {
        self.put_refusal(refused.reason.number(), refused.place);
    }

    // Puts the line of a message's count and of the tags and the limit of its size.
    pub fn put_limits(&mut self, code: u64, n: usize)
        requires { length self.old + 80 ≤ N }
        ensures written { self.new ≡ self.old ++ limits_line code n }
        ensures short { length self.new ≤ length self.old + 80 }
    {
        self.put_labelled(b"cards ", n as u64);
        self.put_labelled(b" tags ", sizes::tags(code) as u64);
        self.put_labelled(b" limit ", sizes::limit(code) as u64);
        self.put(b"\n");
    }

    // Puts the line of a report's answer, the number named and the number of disagreeing rows.
    pub fn put_answer(&mut self, found: Decoded)
        requires { length self.old + 54 ≤ N }
        ensures written { self.new ≡ self.old ++ answer_line found.answer found.named found.rows }
        ensures short { length self.new ≤ length self.old + 54 }
    {
        self.put(word(found.answer));
        self.put_labelled(b" ", found.named as u64);
        self.put_labelled(b" rows ", found.rows as u64);
        self.put(b"\n");
    }

    // Puts card j's line if its mark names it.
    fn put_card(&mut self, mark: u8, j: usize)
        requires { length self.old + length (card_part mark j) ≤ N }
        ensures { self.new ≡ self.old ++ card_part mark j }
    {
        if mark == 1 {
            self.put_labelled(b"card ", j as u64);
            self.put(b"\n");
        }
    }

    // Puts the lines of the named cards among those that have marks.
    pub fn put_cards(&mut self, marks: &[u8])
        requires { length self.old + 26 * length marks.now ≤ N }
        ensures written { self.new ≡ self.old ++ card_lines marks.now (length marks.now) }
        ensures short { length self.new ≤ length self.old + 26 * length marks.now }
    {
        for (i, mark) in marks.iter().enumerate() {
            self.put_card(*mark, i + 1);
        }
    }

    // Puts all lines of a report, which take at most 7,232 bytes.
    pub fn put_report(&mut self, code: u64, n: usize, found: Decoded, marks: &[u8])
        requires { (length self.old + 7232 ≤ N) × (length marks.now ≤ 273) }
        ensures written { self.new ≡ self.old ++ report_lines code n found.answer found.named found.rows marks.now (length marks.now) }
        ensures short { length self.new ≤ length self.old + 7232 }
    {
        self.put_limits(code, n);
        self.put_answer(found);
        self.put_cards(marks);
    }
}

// The word of an answer.
fn word(said: Answer) -> &'static [u8]
    ensures { result.now ≡ answer_word said }
{
    match said {
        Answer::Intact => b"intact",
        Answer::Named => b"named",
        Answer::Beyond => b"beyond",
    }
}
