// The rounds of FIPS 197 (5.1 and 5.3) by tables: for each column, four look-ups and their XOR. The last round does not mix, so
// it goes through the S-box, which enciphering reads off the tables. Tables and schedule are passed down by reference, so that they are
// copied once for a caller's many blocks.
ghost use Rattle.std.specs.Prelude.{◌≡◌, List, [], ◌∷◌, ◌++◌, ℕ, ◌+◌, ◌*◌, ◌/◌, ◌%◌, ◌<◌, length};
ghost use Rattle.blocks.specs.Chain.{chain};
ghost use Rattle.fips197.specs.Block.{◌⊕◌};
ghost use Rattle.fips197.specs.Aes.{sbox, mixed, sub_bytes, shift_rows, mix_columns, cipher};
ghost use Rattle.fips197.specs.Aes.{inv_sbox, inv_mixed, inv_sub_bytes, inv_shift_rows, inv_mix_columns, inv_cipher};
ghost use Rattle.fips197.specs.Words.{bytes_of, state_of, column};
ghost use Rattle.tables.specs.RoundTables.{RoundTables, down, decipher_word, DecipherWords};

use crate::inv_round_tables::InvTables;
use crate::round_tables::Tables;
use fips197::columns::{Columns, add, add_round_key, around, inv_shift, load, load_at, store};
use fips197::inv_sbox::InvSbox;
use fips197::schedule::SubWord;
use fips197::words::{from_bytes, turn_twice};

// A column from a byte of each of four, the first of one, the second of the next and so on: the XOR of what each adds. The third and the
// fourth add what the first and the second would, two rows further down.
fn joined(t: &[u32; 512], a: u32, b: u32, c: u32, d: u32) -> u32
    ensures { (f : ℕ → List ℕ) → RoundTables t.now f → bytes_of result ≡ down 0 (f (a % 256)) ⊕ down 1 (f (b / 256 % 256)) ⊕ down 2 (f (c / 65536 % 256)) ⊕ down 3 (f (d / 16777216 % 256)) }
{
    let upper = t[(a % 256) as usize] ^ t[256 + (b / 256 % 256) as usize];
    let lower = t[(c / 65536 % 256) as usize] ^ t[256 + (d / 16777216 % 256) as usize];
    upper ^ turn_twice(lower)
}

// A mixed column from a byte of each of four, through the S-box.
fn mixed_column(t: &Tables, a: u32, b: u32, c: u32, d: u32) -> u32
    ensures { bytes_of result ≡ column mixed (sbox (a % 256) ∷ sbox (b / 256 % 256) ∷ sbox (c / 65536 % 256) ∷ sbox (d / 16777216 % 256) ∷ []) }
{
    joined(&t.words, a, b, c, d)
}

// A column mixed back from a byte of each of four, through the inverse S-box.
fn inv_mixed_column(t: &InvTables, a: u32, b: u32, c: u32, d: u32) -> u32
    ensures { bytes_of result ≡ column inv_mixed (inv_sbox (a % 256) ∷ inv_sbox (b / 256 % 256) ∷ inv_sbox (c / 65536 % 256) ∷ inv_sbox (d / 16777216 % 256) ∷ []) }
{
    joined(&t.words, a, b, c, d)
}

// SubBytes, ShiftRows and MixColumns.
fn mix(t: &Tables, s: Columns) -> Columns
    ensures { state_of result.a result.b result.c result.d ≡ mix_columns (shift_rows (sub_bytes (state_of s.a s.b s.c s.d))) }
{
    around(s, |a, b, c, d| mixed_column(t, a, b, c, d))
}

// InvShiftRows, InvSubBytes and InvMixColumns.
fn inv_mix(t: &InvTables, s: Columns) -> Columns
    ensures { state_of result.a result.b result.c result.d ≡ inv_mix_columns (inv_sub_bytes (inv_shift_rows (state_of s.a s.b s.c s.d))) }
{
    around(s, |a, b, c, d| inv_mixed_column(t, a, d, c, b))
}

// The XOR with the words of round n of a deciphering schedule. (That k is w's is of two values, so it is a premise and no type.)
fn add_words(s: Columns, k: &[u32; 44], n: usize) -> Columns
    requires { n < 11 }
    ensures { (w : List ℕ) → DecipherWords k.now w → state_of result.a result.b result.c result.d ≡ state_of s.a s.b s.c s.d ⊕ (decipher_word w (4 * n) ++ decipher_word w (4 * n + 1) ++ decipher_word w (4 * n + 2) ++ decipher_word w (4 * n + 3)) }
{
    let i = 4 * n;
    Columns {
        a: s.a ^ k[i],
        b: s.b ^ k[i + 1],
        c: s.c ^ k[i + 2],
        d: s.d ^ k[i + 3],
    }
}

// The S-box of a byte, which is the second byte of its entry: 1 times it.
fn sub_byte(t: &Tables, b: u32) -> u8
    ensures { result ≡ sbox (b % 256) }
{
    (t.words[(b % 256) as usize] / 256 % 256) as u8
}

// A byte of each of four columns, the first of one, the second of the next and so on, through the S-box.
pub fn gather(t: &Tables, a: u32, b: u32, c: u32, d: u32) -> u32
    ensures { bytes_of result ≡ sbox (a % 256) ∷ sbox (b / 256 % 256) ∷ sbox (c / 65536 % 256) ∷ sbox (d / 16777216 % 256) ∷ [] }
{
    from_bytes(
        sub_byte(t, a),
        sub_byte(t, b / 256),
        sub_byte(t, c / 65536),
        sub_byte(t, d / 16777216),
    )
}

impl SubWord for Tables {
    fn sub_word(&self, x: u32) -> u32 {
        gather(self, x, x, x, x)
    }
}

// SubBytes and ShiftRows.
fn shift(t: &Tables, s: Columns) -> Columns
    ensures { state_of result.a result.b result.c result.d ≡ shift_rows (sub_bytes (state_of s.a s.b s.c s.d)) }
{
    around(s, |a, b, c, d| gather(t, a, b, c, d))
}

// The cipher with the tables and a schedule. `absorb` alone calls it, so that it is compiled into that loop.
fn cipher(t: &Tables, w: &[u8; 176], input: Columns) -> Columns
    ensures { state_of result.a result.b result.c result.d ≡ cipher w.now (state_of input.a input.b input.c input.d) }
{
    let mut s = add_round_key(input, w, 0);
    for n in 1..10 {
        s = add_round_key(mix(t, s), w, n);
    }
    add_round_key(shift(t, s), w, 10)
}

// The chain from x over the whole blocks of s, its value kept in four words from block to block.
pub fn absorb(t: &Tables, w: &[u8; 176], x: [u8; 16], s: &[u8]) -> [u8; 16]
    ensures { result ≡ chain (cipher w.now) x s.now (length s.now / 16) }
{
    let mut y = load(x);
    for i in 0..s.len() / 16 {
        y = cipher(t, w, add(y, load_at(s, 16 * i)));
    }
    store(y)
}

// The inverse cipher with the inverse tables, the inverse S-box's table and the words of a deciphering schedule.
pub fn inv_cipher(t: &InvTables, last: &InvSbox, k: &[u32; 44], input: [u8; 16]) -> [u8; 16]
    ensures { (w : List ℕ) → length w ≡ 176 → DecipherWords k.now w → result ≡ inv_cipher w input }
{
    let mut s = add_words(load(input), k, 10);
    for n in (1..10).rev() {
        s = add_words(inv_mix(t, s), k, n);
    }
    store(add_words(inv_shift(&last.bytes, s), k, 0))
}
