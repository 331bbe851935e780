// The two engines of AES-128 side by side: on a chain of blocks, and on sheets tagged by one and verified by the other, for a full shelf of short
// cards of each plane and of the largest affine size. The library runs on the tables; the plain engine's tags are made and taken back here,
// from and to the sums of the tagged rows that a session carries. `stdout` has what each line must say.
#![tactic(auto)]

ghost use Rattle.std.specs.Prelude.{◌+◌, ◌*◌, ◌≤◌, length};

use blocks::block;
use cipher::aes;
use std::io;
use trial::inputs::KEYS;
use trial::{inputs, say, sessions};

// Enciphers a block 1,000 times by both engines, each time also deciphering what came out: whether they agree throughout.
fn chain(w: [u8; 176], first: [u8; 16]) -> bool {
    let mut x = first;
    let mut agree = true;
    for _ in 0..1000 {
        let y = tables::encipher_with(w, x);
        agree = agree && y == plain::encipher_with(w, x) && back(w, x, y);
        x = y;
    }
    agree
}

// Whether both engines decipher a block so.
fn back(w: [u8; 176], x: [u8; 16], y: [u8; 16]) -> bool {
    x == tables::decipher_with(w, y) && x == plain::decipher_with(w, y)
}

// Document 01, keys and codes: tags made of their sums, or sums had back from their tags, as `engine` turns a block.
fn turn<F: Fn([u8; 176], [u8; 16]) -> [u8; 16]>(engine: F, from: &[u8], to: &mut [u8])
    requires callable { F.IsAlwaysCallable engine }
    requires room { length from.now ≤ length to.old }
{
    let w = tag_schedule();
    let mut mask = plain::encipher_with(w, [0u8; 16]);
    for k in 0..from.len() / 16 {
        let next = block::double(mask);
        let x = block::xor(next, block::block_at(from, 16 * k));
        block::put_at(to, 16 * k, block::xor(next, engine(w, x)));
        mask = next;
    }
}

fn tag_schedule() -> [u8; 176] {
    aes::key_expansion(block::block_at(&KEYS, 16))
}

// A sheet's bytes with zeros for tags, and the tags of the sums by the plain engine over them.
fn tagged_by_plain(
    sheet: [u8; files::tagfile::MOST],
    t: usize,
    sums: &[u8],
) -> [u8; files::tagfile::MOST]
    requires { (t ≤ 82) × (16 * t ≤ length sums.now) }
{
    let mut out = sheet;
    let end = 16 * t;
    out[inputs::TAGS_AT..inputs::TAGS_AT + end].fill(0);
    turn(
        plain::encipher_with,
        &sums[..end],
        &mut out[inputs::TAGS_AT..],
    );
    out
}

// The sums that the plain engine has back from a sheet; zeros behind them.
fn sums_by_plain(sheet: &[u8], t: usize) -> [u8; sums::TAGS_MOST]
    requires { (t ≤ 82) × (12 + 16 * t ≤ length sheet.now) }
{
    let mut out = [0u8; sums::TAGS_MOST];
    let tags = &sheet[inputs::TAGS_AT..inputs::TAGS_AT + 16 * t];
    turn(plain::decipher_with, tags, &mut out);
    out
}

// The sums of the tagged rows of a shelf of n cards; zeros behind them.
fn sums_of(code: u64, n: u64, shelf: &[u8]) -> [u8; sums::TAGS_MOST] {
    let step = session::begin(&KEYS, code, n, 0);
    let s = sessions::put_cards(step.session, shelf, n);
    s.sums
}

fn line(rt: &impl Print, code: u64, case: &[u8], yes: bool) -> io::Result<()> {
    say::text(rt, b"size ")?;
    say::number(rt, code)?;
    say::text(rt, case)?;
    say::text(rt, if yes { b": yes\n" } else { b": no\n" })
}

fn verified(shelf: &[u8], sheet: &[u8]) -> bool {
    scheme::verify(&KEYS, shelf, sheet).unwrap_or(false)
}

// The lines of the plain engine's sheet.
fn plain_tags(
    rt: &impl Print,
    code: u64,
    shelf: &[u8],
    altered: &[u8],
    sheet: &[u8],
) -> io::Result<()> {
    line(
        rt,
        code,
        b", tagged by the plain engine, verified by the tables",
        verified(shelf, sheet),
    )?;
    line(
        rt,
        code,
        b", tagged by the plain engine, a card altered, verified by the tables",
        verified(altered, sheet),
    )
}

// The lines of the sums that the plain engine has back from the tables' sheet.
fn tables_tag(
    rt: &impl Print,
    code: u64,
    n: u64,
    shelf: &[u8],
    altered: &[u8],
    sums: &[u8],
) -> io::Result<()> {
    line(
        rt,
        code,
        b", tagged by the tables, verified by the plain engine",
        sums == sums_of(code, n, shelf).as_slice(),
    )?;
    line(
        rt,
        code,
        b", tagged by the tables, a card altered, verified by the plain engine",
        sums == sums_of(code, n, altered).as_slice(),
    )
}

// Makes a sheet by each engine; each is verified by the other, and they are compared.
fn cross(rt: &impl Print, code: u64, n: u64, shelf: &[u8], altered: &[u8]) -> io::Result<()> {
    let end = inputs::sheet_length(code);
    let t = (end - 28) / 16;
    let mut sheet = [0u8; files::tagfile::MOST];
    let _ = scheme::tag(&KEYS, code, shelf, &mut sheet);
    let other = tagged_by_plain(sheet, t, &sums_of(code, n, shelf));
    plain_tags(rt, code, shelf, altered, &other[0..end])?;
    tables_tag(rt, code, n, shelf, altered, &sums_by_plain(&sheet, t))?;
    line(rt, code, b", one sheet by both engines", sheet == other)
}

// The lines of a size, with card 1 altered.
fn size(rt: &impl Print, code: u64) -> io::Result<()> {
    let n = inputs::most_cards(code);
    let end = 7 + 4 * n;
    let mut shelf = [0u8; 1099];
    inputs::put_short_cards(&mut shelf, n);
    let mut altered = shelf;
    inputs::alter(&mut altered, 9, 0, 1);
    cross(rt, code, n as u64, &shelf[0..end], &altered[0..end])
}

fn main(rt: HostRuntime) -> io::Result<()> {
    let agree = chain(tag_schedule(), [0u8; 16]);
    let said = if agree {
        b"1000 blocks both ways by both engines: alike\n".as_slice()
    } else {
        b"1000 blocks both ways by both engines: not alike\n".as_slice()
    };
    say::text(&rt, said)?;
    for code in [1, 2, 3, 4, 57] {
        size(&rt, code)?;
    }
    Ok(())
}
