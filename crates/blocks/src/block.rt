// Blocks of 16 bytes, where they stand in longer slices, and big-endian numbers.
ghost use Rattle.std.specs.Prelude.{◌≡◌, List, ℕ, ◌+◌, ◌*◌, ◌≤◌, [], ◌∷◌, ◌++◌, length, take, drop};
ghost use Rattle.blocks.specs.Block.{◌⊕◌, zeros, slot, list_of, same, all_zero};
ghost use Rattle.blocks.specs.Number.{number, big_endian};
ghost use Rattle.blocks.specs.Double.{double};

use std::num::wrapping_sub_u8;

// The XOR of two blocks.
pub fn xor(a: [u8; 16], b: [u8; 16]) -> [u8; 16]
    ensures { result ≡ a ⊕ b }
{
    let mut s = a;
    for i in 0..16 {
        s[i] ^= b[i];
    }
    s
}

// Whether two blocks are equal.
pub fn equal(a: [u8; 16], b: [u8; 16]) -> bool
    ensures { result ≡ same a b }
{
    a == b
}

// Whether the block at a place of s is zero, by the OR of its bytes: without an early exit it compiles to one comparison. By `==`, of slices
// or of arrays, the library's comparison is called, which a report pays for at each card.
pub fn is_zero(s: &[u8], at: usize) -> bool
    requires { at + 16 ≤ length s.now }
    ensures { result ≡ same (take 16 (drop at s.now)) (zeros 16) }
{
    let mut any = 0u8;
    for i in 0..16 {
        any |= s[at + i];
    }
    any == 0
}

// Whether the first n blocks of s are zero.
pub fn all_zero(s: &[u8], n: usize) -> bool
    requires { 16 * n ≤ length s.now }
    ensures { result ≡ all_zero s.now n }
{
    for k in 0..n {
        if !is_zero(s, 16 * k) {
            return false;
        }
    }
    true
}

// The block that stands at a place of s.
pub fn block_at(s: &[u8], at: usize) -> [u8; 16]
    requires { at + 16 ≤ length s.now }
    ensures { result ≡ take 16 (drop at s.now) }
{
    let mut r = [0u8; 16];
    r.copy_from_slice(&s[at..at + 16]);
    r
}

// Writes a block to the front of out; what is behind it stays.
pub fn put(out: &mut [u8], block: [u8; 16])
    requires { 16 ≤ length out.old }
    ensures { out.new ≡ block ++ drop 16 out.old }
{
    put_at(out, 0, block);
}

// Writes a block at a place of out; all else stays.
pub fn put_at(out: &mut [u8], at: usize, block: [u8; 16])
    requires { at + 16 ≤ length out.old }
    ensures { out.new ≡ take at out.old ++ (block ++ drop (at + 16) out.old) }
{
    put_bytes(out, at, &block);
}

// Writes bytes at a place of out; all else stays.
pub fn put_bytes(out: &mut [u8], at: usize, text: &[u8])
    requires { at + length text.now ≤ length out.old }
    ensures { out.new ≡ take at out.old ++ (text.now ++ drop (at + length text.now) out.old) }
{
    out[at..at + text.len()].copy_from_slice(text);
}

// Writes the first n blocks of s to the front of out; what is behind them stays. It goes block by block: a copy of a length that is known
// only at run time is a call of memmove, which an archive for C would need from outside.
pub fn copy_blocks(s: &[u8], n: usize, out: &mut [u8])
    requires { (16 * n ≤ length s.now) × (16 * n ≤ length out.old) }
    ensures { out.new ≡ list_of (slot s.now) n ++ drop (16 * n) out.old }
{
    for k in 0..n {
        let at = 16 * k;
        put_at(out, at, block_at(s, at));
    }
}

// Writes f of each of the first n blocks of buf in its place; what is behind them stays. Where all that f gives is g of a block, it is g of each.
pub fn each_block<F: Fn([u8; 16]) -> [u8; 16]>(buf: &mut [u8], n: usize, f: F)
    requires callable { F.IsAlwaysCallable f }
    requires n_in_bounds { 16 * n ≤ length buf.old }
    ensures { (g : List ℕ → List ℕ) → ((b r : List ℕ) → F.post f b r → r ≡ g b) → buf.new ≡ list_of (λ k. g (slot buf.old k)) n ++ drop (16 * n) buf.old }
{
    for k in 0..n {
        let at = 16 * k;
        put_at(buf, at, f(block_at(buf, at)));
    }
}

// XORs a block into the one that stands at a place of out; all else stays.
pub fn xor_at(out: &mut [u8], at: usize, block: [u8; 16])
    requires { at + 16 ≤ length out.old }
    ensures { out.new ≡ take at out.old ++ ((take 16 (drop at out.old) ⊕ block) ++ drop (at + 16) out.old) }
{
    let sum = xor(block_at(out, at), block);
    put_at(out, at, sum);
}

// A block shifted left by one bit as a big-endian number, with 87 hexadecimal XORed into the last byte if the bit lost was 1: the bit
// lost is made a mask of eight equal bits. It goes byte by byte, since through u128's bytes a row of masks takes 1.7 times as long.
pub fn double(b: [u8; 16]) -> [u8; 16]
    ensures { result ≡ double b }
{
    let mut r = [0u8; 16];
    for i in 0..15 {
        r[i] = (b[i] << 1) | ((b[i + 1] >> 7) & 1);
    }
    let lost = wrapping_sub_u8(0, (b[0] >> 7) & 1);
    r[15] = (b[15] << 1) ^ (0x87 & lost);
    r
}

// The number that two bytes are.
pub fn from_be16(hi: u8, lo: u8) -> u16
    ensures { result ≡ number (hi ∷ lo ∷ []) }
{
    u16::from_be_bytes([hi, lo])
}

// A number as two bytes.
pub fn to_be16(n: u16) -> [u8; 2]
    ensures { result ≡ big_endian 2 n }
{
    n.to_be_bytes()
}

// The number that four bytes are.
pub fn from_be32(a: u8, b: u8, c: u8, d: u8) -> u32
    ensures { result ≡ number (a ∷ b ∷ c ∷ d ∷ []) }
{
    u32::from_be_bytes([a, b, c, d])
}

// A number as four bytes.
pub fn to_be32(n: u32) -> [u8; 4]
    ensures { result ≡ big_endian 4 n }
{
    n.to_be_bytes()
}

// A number as eight bytes.
pub fn to_be64(n: u64) -> [u8; 8]
    ensures { result ≡ big_endian 8 n }
{
    n.to_be_bytes()
}
