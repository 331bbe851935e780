// What a call is given: the words of a line with their numbers, and the bytes of the arguments.
ghost use Rattle.std.specs.Prelude.{◌≤◌};

use crate::{inputs, sheets};
use blocks::block;
use files::message;

// The arguments of bytes.
#[derive(Clone, Copy)]
pub enum Argument {
    Shelf,
    Keys,
    Sheet,
    Old,
    New,
}

impl Argument {
    // Where its bytes start.
    fn start(self) -> usize
        ensures { result ≤ 70656 }
    {
        match self {
            Argument::Shelf => 0,
            Argument::Keys => 66048,
            Argument::Sheet => 67584,
            Argument::Old => 69120,
            Argument::New => 70656,
        }
    }
}

// The words. The number behind the name of an argument of bytes is its length.
#[derive(Clone, Copy)]
enum Word {
    Length(Argument),
    Size,
    Count,
    Card,
    Lent,
    Puts,
    Taken,
    Closed,
    Byte,
    Is,
    Flip,
    Cards,
    Altered,
    Version,
    Number,
    Vacant,
}

fn word_of(text: &[u8]) -> Option<Word> {
    Some(match text {
        b"shelf" => Word::Length(Argument::Shelf),
        b"keys" => Word::Length(Argument::Keys),
        b"sheet" => Word::Length(Argument::Sheet),
        b"old" => Word::Length(Argument::Old),
        b"new" => Word::Length(Argument::New),
        b"size" => Word::Size,
        b"count" => Word::Count,
        b"card" => Word::Card,
        b"lent" => Word::Lent,
        b"puts" => Word::Puts,
        b"taken" => Word::Taken,
        b"closed" => Word::Closed,
        b"byte" => Word::Byte,
        b"is" => Word::Is,
        b"flip" => Word::Flip,
        b"cards" => Word::Cards,
        b"altered" => Word::Altered,
        b"version" => Word::Version,
        b"number" => Word::Number,
        b"vacant" => Word::Vacant,
        _ => return None,
    })
}

// The numbers as the words left them, and the bytes. `shelf` to `new` are lengths, `byte` is a place in the argument named last, and `unknown`
// says that some word was none of the words.
#[derive(Drop)]
pub struct Given {
    shelf: u64,
    keys: u64,
    sheet: u64,
    old: u64,
    new: u64,
    pub size: u64,
    pub count: u64,
    pub card: u64,
    pub lent: u64,
    pub puts: u64,
    pub taken: u64,
    pub closed: u64,
    byte: u64,
    pub version: u64,
    number: u64,
    pub unknown: bool,
    last: Argument,
    bytes: [u8; 72192],
}

impl Given {
    // One that is nothing yet: each line begins with it anew. It is as large as a whole shelf, so that it is made once.
    pub fn new() -> Given {
        Given {
            shelf: 0,
            keys: 0,
            sheet: 0,
            old: 0,
            new: 0,
            size: 0,
            count: 0,
            card: 0,
            lent: 0,
            puts: 0,
            taken: 0,
            closed: 0,
            byte: 0,
            version: 0,
            number: 0,
            unknown: false,
            last: Argument::Shelf,
            bytes: [0u8; 72192],
        }
    }

    // Makes it what a line is given that does not say otherwise: a shelf of two cards, the keys, the shelf's sheet of size 1, both files of
    // version 1, its card 1 by the letter b.
    pub fn begin(&mut self) {
        self.shelf = 12;
        self.keys = 48;
        self.sheet = 88;
        self.old = 1;
        self.new = 1;
        self.begin_numbers();
        self.last = Argument::Shelf;
        self.bytes.fill(0);
        self.put_usual();
    }

    // The numbers that are no lengths.
    fn begin_numbers(&mut self) {
        self.size = 1;
        self.count = 2;
        self.card = 1;
        self.lent = 1400;
        self.puts = 0;
        self.taken = 0;
        self.closed = 0;
        self.byte = 0;
        self.version = 1;
        self.number = 0;
        self.unknown = false;
    }

    // Writes the bytes of the usual arguments, each where it starts.
    fn put_usual(&mut self) {
        block::put_bytes(&mut self.bytes, Argument::Shelf.start(), &inputs::SHELF);
        block::put_bytes(&mut self.bytes, Argument::Keys.start(), &inputs::KEYS);
        block::put_bytes(&mut self.bytes, Argument::Old.start(), b"a");
        block::put_bytes(&mut self.bytes, Argument::New.start(), b"b");
        self.put_sheet();
    }

    fn length(&self, a: Argument) -> u64 {
        match a {
            Argument::Shelf => self.shelf,
            Argument::Keys => self.keys,
            Argument::Sheet => self.sheet,
            Argument::Old => self.old,
            Argument::New => self.new,
        }
    }

    // The bytes of an argument, as many as are given.
    pub fn part(&self, a: Argument) -> &[u8] {
        let from = a.start();
        let to = from + (self.length(a) % 65538) as usize;
        if to <= self.bytes.len() {
            return &self.bytes[from..to];
        }
        &[]
    }

    // The last 32 bits of the number.
    pub fn number32(&self) -> u32 {
        number32(self.number)
    }

    // Takes a word of a line with its number.
    pub fn take(&mut self, text: &[u8], v: u64) {
        match word_of(text) {
            Some(word) => self.set(word, v),
            None => self.unknown = true,
        }
    }

    // Sets the number of a word, or does with the bytes what it says.
    fn set(&mut self, word: Word, v: u64) {
        match word {
            Word::Length(a) => self.set_length(a, v),
            Word::Size => self.size = v,
            Word::Count => self.count = v,
            Word::Card => self.card = v,
            Word::Lent => self.lent = v,
            Word::Puts => self.puts = v,
            Word::Taken => self.taken = v,
            Word::Closed => self.closed = v,
            Word::Byte => self.byte = v,
            Word::Version => self.version = v,
            Word::Is | Word::Flip | Word::Cards | Word::Altered | Word::Number | Word::Vacant => {
                self.alter(word, v);
            }
        }
    }

    fn set_length(&mut self, a: Argument, v: u64) {
        self.last = a;
        match a {
            Argument::Shelf => self.shelf = v,
            Argument::Keys => self.keys = v,
            Argument::Sheet => {
                self.sheet = v;
                self.put_sheet();
            }
            Argument::Old => self.old = v,
            Argument::New => self.new = v,
        }
    }

    // Writes the sheet of the shelf as it is, of the size, in the version.
    fn put_sheet(&mut self) {
        let sheet = sheets::tagged(
            &inputs::KEYS,
            self.size,
            self.part(Argument::Shelf),
            self.version,
            [0u8; 1400],
        );
        block::put_bytes(&mut self.bytes, Argument::Sheet.start(), &sheet);
    }

    // Does what a word says that alters bytes.
    fn alter(&mut self, word: Word, v: u64) {
        let low = (v % 256) as u8;
        match word {
            Word::Is => self.alter_byte(|_| low),
            Word::Flip => self.alter_byte(|old| old ^ low),
            Word::Cards => self.put_cards(v % 274),
            Word::Altered => {
                let first = self.first_card();
                inputs::alter(&mut self.bytes, first, 2, 2 + low as usize);
            }
            Word::Number => self.put_number(v),
            Word::Vacant => self.vacate(v),
            _ => {}
        }
    }

    // Alters the byte of the argument named last.
    fn alter_byte<F: Fn(u8) -> u8>(&mut self, change: F)
        requires { F.IsAlwaysCallable change }
    {
        let at = self.last.start() + (self.byte % 65538) as usize;
        if at < self.bytes.len() {
            self.bytes[at] = change(self.bytes[at]);
        }
    }

    // Makes the shelf one of so many short cards.
    fn put_cards(&mut self, count: u64)
        requires { count ≤ 273 }
    {
        self.shelf = 7 + 4 * count;
        inputs::put_short_cards(&mut self.bytes, count as usize);
    }

    // Gives the shelf a number: it is of version 2 then.
    fn put_number(&mut self, v: u64) {
        self.number = v;
        self.widen();
        block::put_bytes(&mut self.bytes, 4, b"\x02");
        block::put_bytes(&mut self.bytes, 5, &block::to_be32(number32(v)));
    }

    // Makes room for a number in a shelf of version 1.
    fn widen(&mut self) {
        if self.bytes[4] == 1 {
            let long = self.shelf % 65533;
            inputs::move_on(&mut self.bytes, 5, long as usize);
            self.shelf = long + 4;
        }
    }

    // Where the first card of the shelf stands, behind its length.
    fn first_card(&self) -> usize
        ensures { (2 ≤ result) × (result ≤ 13) }
    {
        message::items_at(stamp::version_of(&self.bytes)) + 2
    }

    // Alters card j of a shelf of short cards; j is taken modulo 274, and 0 is none.
    pub fn alter_card(&mut self, j: u64) {
        let e = (j % 274) as usize;
        if e != 0 {
            let first = self.first_card();
            inputs::alter(&mut self.bytes, first, e - 1, e);
        }
    }

    // Takes away the bytes of card j of a shelf whose cards up to it have two bytes each.
    fn vacate(&mut self, j: u64) {
        let before = (j % 274 + 273) % 274;
        let at = self.first_card() + 4 * before as usize;
        let long = (self.shelf % 65538) as usize;
        if at + 2 <= long {
            inputs::put_number(&mut self.bytes, at - 2, 0);
            inputs::move_back(&mut self.bytes, at + 2, long);
            self.shelf = (long - 2) as u64;
        }
    }
}

// The last 32 bits of a number.
fn number32(v: u64) -> u32 {
    (v % 0x1_0000_0000) as u32
}
