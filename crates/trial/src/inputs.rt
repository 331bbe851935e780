// The keys and shelves that the cases start from.
ghost use Rattle.std.specs.Prelude.{◌+◌, ◌*◌, ◌≤◌, length};

use blocks::block;

// Three different keys of 16 bytes.
pub const KEYS: [u8; 48] = *b"key of the cardskey of the tags.key of the seal.";

// A shelf of two cards: the letter a, and the empty card.
pub const SHELF: [u8; 12] = *b"TBS\x00\x01\x00\x02\x00\x01a\x00\x00";

// Writes a number as two bytes at a place.
pub fn put_number(out: &mut [u8], at: usize, n: u16)
    requires { at + 2 ≤ length out.old }
{
    block::put_bytes(out, at, &block::to_be16(n));
}

// Writes the seven bytes of a shelf before its cards.
pub fn put_header(shelf: &mut [u8], n: u16)
    requires { 7 ≤ length shelf.old }
{
    block::put_bytes(shelf, 0, b"TBS\x00\x01");
    put_number(shelf, 5, n);
}

// Writes a shelf of n cards of two bytes: card j holds the number j.
pub fn put_short_cards(shelf: &mut [u8], n: usize)
    requires { (7 + 4 * n ≤ length shelf.old) × (n ≤ 273) }
{
    put_header(shelf, n as u16);
    for i in 0..n {
        put_number(shelf, 7 + 4 * i, 2);
        put_number(shelf, 9 + 4 * i, (i + 1) as u16);
    }
}

// Moves the bytes from a place up to n on by four places.
pub fn move_on(shelf: &mut [u8], from: usize, n: usize)
    requires { (n + 4 ≤ length shelf.old) × (n ≤ 65536) }
{
    if from < n {
        shelf.copy_within(from..n, from + 4);
    }
}

// Moves the bytes from a place up to n back by two places.
pub fn move_back(shelf: &mut [u8], from: usize, n: usize)
    requires { (2 ≤ from) × (n ≤ length shelf.old) }
{
    if from < n {
        shelf.copy_within(from..n, from - 2);
    }
}

// Alters the cards a + 1 to e of a shelf of short cards, the first of which stands at a place: card j then holds j + 4,096.
pub fn alter(shelf: &mut [u8], first: usize, a: usize, e: usize)
    requires { (first + 4 * e ≤ length shelf.old) × (first ≤ 13) × (e ≤ 273) }
{
    for i in a..e {
        put_number(shelf, first + 4 * i, (i + 4097) as u16);
    }
}

// Document 01, planes, and document 02, 2.7: how many cards a size has at most.
pub fn most_cards(code: u64) -> usize
    ensures { result ≤ 273 }
{
    match code {
        1 => 7,
        2 => 21,
        3 => 73,
        35 => 18,
        36 => 19,
        37 => 20,
        51 => 66,
        52 => 67,
        53 => 68,
        54 => 69,
        55 => 70,
        56 => 71,
        57 => 72,
        _ => 273,
    }
}

// Document 02, 2.3, 2.5 and 2.7: how long a size's sheet of version 2 or 3 is, and where its tags start.
pub fn sheet_length(code: u64) -> usize
    ensures { (92 ≤ result) × (result ≤ 1340) }
{
    match code {
        1 => 92,
        2 => 188,
        3 => 476,
        35 => 156,
        36 | 37 => 172,
        51 => 332,
        52 => 396,
        53 => 412,
        54 => 428,
        55 => 444,
        56 | 57 => 460,
        _ => 1340,
    }
}

pub const TAGS_AT: usize = 12;
