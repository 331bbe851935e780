// The engine that runs, by round tables (crate `tables`): the one place that names it. Expanding a key and enciphering take its tables from the
// caller, who takes them once, with `tables`, and hands them down by reference; what they hold, their type says.
ghost use Rattle.std.specs.Prelude.{◌≡◌, List, ℕ, ◌++◌, ◌*◌, ◌/◌, ◌≤◌, length, drop};
ghost use Rattle.blocks.specs.Block.{slot, list_of};
ghost use Rattle.blocks.specs.Chain.{chain};
ghost use Rattle.cipher.specs.Aes.{key_expansion, cipher, inv_cipher};
ghost use Rattle.tables.specs.RoundTables.{DecipherWords};

use blocks::block;
use fips197::inv_sbox;
use tables::{inv_round_tables, keys, round_tables, rounds, schedule};

// What expanding a key and enciphering read: the S-box is among it.
pub type Tables = round_tables::Tables;

// The tables.
pub fn tables() -> Tables {
    round_tables::table()
}

// The expanded key: FIPS 197's key schedule, 44 words.
pub fn expand(t: &Tables, key: [u8; 16]) -> [u8; 176]
    ensures { result ≡ key_expansion key }
{
    schedule::expand(t, key)
}

// The chain from x over the whole blocks of s, with an expanded key.
pub fn absorb(t: &Tables, w: &[u8; 176], x: [u8; 16], s: &[u8]) -> [u8; 16]
    ensures { result ≡ chain (cipher w.now) x s.now (length s.now / 16) }
{
    rounds::absorb(t, w, x, s)
}

// Deciphers a block with an expanded key.
pub fn decipher_with(w: [u8; 176], block: [u8; 16]) -> [u8; 16]
    ensures { result ≡ inv_cipher w block }
{
    tables::decipher_with(w, block)
}

// Deciphers the first n blocks of buf, each in its place, with an expanded key: the tables and the deciphering schedule are taken once
// for all of them.
pub fn decipher_blocks(w: [u8; 176], n: usize, buf: &mut [u8])
    requires { 16 * n ≤ length buf.old }
    ensures { buf.new ≡ list_of (λ k. inv_cipher w (slot buf.old k)) n ++ drop (16 * n) buf.old }
{
    let t = inv_round_tables::table();
    let last = inv_sbox::table();
    let words = keys::decipher_words(w);
    block::each_block(
        buf,
        n,
        |b: [u8; 16]| -> [u8; 16]
            ensures { (w : List ℕ) → length w ≡ 176 → DecipherWords words w → result ≡ inv_cipher w b }
        { rounds::inv_cipher(&t, &last, &words, b) },
    );
}
