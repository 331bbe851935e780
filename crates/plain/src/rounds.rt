// The steps of FIPS 197's rounds (5.1 and 5.3) on a state of four words, and the rounds in order. The tables and the schedule are
// passed down by reference, so that they are copied once for a caller's many blocks.
ghost use Rattle.std.specs.Prelude.{◌≡◌, ◌<◌};
ghost use Rattle.fips197.specs.Block.{◌⊕◌};
ghost use Rattle.fips197.specs.Aes.{sub_bytes, shift_rows, mix_columns, round_key, cipher};
ghost use Rattle.fips197.specs.Aes.{inv_sub_bytes, inv_shift_rows, inv_mix_columns, inv_cipher};
ghost use Rattle.fips197.specs.Words.{state_of};

use fips197::columns::{Columns, add_round_key, each, inv_shift, load, shift, store};
use fips197::inv_sbox::InvSbox;
use fips197::sbox::Sbox;
use fips197::words;

fn mix_columns(s: Columns) -> Columns
    ensures { state_of result.a result.b result.c result.d ≡ mix_columns (state_of s.a s.b s.c s.d) }
{
    each(s, words::mix)
}

fn inv_mix_columns(s: Columns) -> Columns
    ensures { state_of result.a result.b result.c result.d ≡ inv_mix_columns (state_of s.a s.b s.c s.d) }
{
    each(s, words::inv_mix)
}

// Round n of the cipher, but for the last.
fn round(t: &Sbox, w: &[u8; 176], n: usize, s: Columns) -> Columns
    requires { n < 11 }
    ensures { state_of result.a result.b result.c result.d ≡ mix_columns (shift_rows (sub_bytes (state_of s.a s.b s.c s.d))) ⊕ round_key w.now n }
{
    add_round_key(mix_columns(shift(&t.bytes, s)), w, n)
}

// The cipher with the S-box's table and a schedule.
pub fn cipher(t: &Sbox, w: &[u8; 176], input: [u8; 16]) -> [u8; 16]
    ensures { result ≡ cipher w.now input }
{
    let mut s = add_round_key(load(input), w, 0);
    for n in 1..10 {
        s = round(t, w, n, s);
    }
    store(add_round_key(shift(&t.bytes, s), w, 10))
}

// The inverse of round n of the cipher, but for the last.
fn inv_round(t: &InvSbox, w: &[u8; 176], n: usize, s: Columns) -> Columns
    requires { n < 11 }
    ensures { state_of result.a result.b result.c result.d ≡ inv_mix_columns (inv_sub_bytes (inv_shift_rows (state_of s.a s.b s.c s.d)) ⊕ round_key w.now n) }
{
    inv_mix_columns(add_round_key(inv_shift(&t.bytes, s), w, n))
}

// The inverse cipher with the inverse S-box's table and a schedule.
pub fn inv_cipher(t: &InvSbox, w: &[u8; 176], input: [u8; 16]) -> [u8; 16]
    ensures { result ≡ inv_cipher w.now input }
{
    let mut s = add_round_key(load(input), w, 10);
    for n in (1..10).rev() {
        s = inv_round(t, w, n, s);
    }
    store(add_round_key(inv_shift(&t.bytes, s), w, 0))
}
