// FIPS 197, 5.2: the key schedule, a round key of four words at a time. Each engine has the S-box in its own way (`SubWord`).
ghost use Rattle.std.specs.Prelude.{◌≡◌, ◌++◌, ◌+◌, ◌-◌, ◌*◌, ◌≤◌, ◌<◌, length, take, drop};
ghost use Rattle.fips197.specs.Block.{◌⊕◌};
ghost use Rattle.fips197.specs.Field.{power};
ghost use Rattle.fips197.specs.Aes.{rcon, sub_word, key_expansion};
ghost use Rattle.fips197.specs.Words.{bytes_of, state_of};

use crate::columns::{Columns, gather, load, store};
use crate::sbox::Sbox;
use crate::words::turn;

// Table 5: the first byte of each round constant, from 1 on.
const RCON: [u8; 11] = *b"\x00\x01\x02\x04\x08\x10\x20\x40\x80\x1b\x36";

// The first byte of round constant j.
fn rcon(j: usize) -> u8
    requires { (1 ≤ j) × (j ≤ 10) }
    ensures { result ≡ power 2 (j - 1) }
{
    RCON[j]
}

// Round key j, from the one before it and x, which is that one's last word turned and through the S-box.
pub fn next_key(k: Columns, x: u32, j: usize) -> Columns
    requires { (1 ≤ j) × (j ≤ 10) }
    ensures first { bytes_of result.a ≡ bytes_of k.a ⊕ (bytes_of x ⊕ rcon j) }
    ensures others { (bytes_of result.b ≡ bytes_of k.b ⊕ bytes_of result.a) × (bytes_of result.c ≡ bytes_of k.c ⊕ bytes_of result.b) × (bytes_of result.d ≡ bytes_of k.d ⊕ bytes_of result.c) }
{
    let a = k.a ^ (x ^ rcon(j) as u32);
    let b = k.b ^ a;
    let c = k.c ^ b;
    let d = k.d ^ c;
    Columns { a, b, c, d }
}

// Writes round key n of a schedule; all else stays.
pub fn put_key(w: &mut [u8; 176], n: usize, k: Columns)
    requires { n < 11 }
    ensures { w.new ≡ take (16 * n) w.old ++ (state_of k.a k.b k.c k.d ++ drop (16 * n + 16) w.old) }
{
    w[16 * n..16 * n + 16].copy_from_slice(&store(k));
}

// What an engine has of the S-box: it puts each byte of a word through it.
pub trait SubWord {
    fn sub_word(&self, x: u32) -> u32
        ensures { bytes_of result ≡ sub_word (bytes_of x) };
}

impl SubWord for Sbox {
    fn sub_word(&self, x: u32) -> u32 {
        gather(&self.bytes, x, x, x, x)
    }
}

// The expanded key.
pub fn expand<S: SubWord>(s: &S, key: [u8; 16]) -> [u8; 176]
    ensures { result ≡ key_expansion key }
{
    let mut k = load(key);
    let mut w = [0u8; 176];
    put_key(&mut w, 0, k);
    for n in 0..10 {
        let x = s.sub_word(turn(k.d));
        k = next_key(k, x, n + 1);
        put_key(&mut w, n + 1, k);
    }
    w
}
