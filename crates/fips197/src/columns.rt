// The state (FIPS 197, 3.4) as four words: to and from its 16 bytes, SubBytes with ShiftRows (5.1.1 and 5.1.2) and their inverses (5.3.1
// and 5.3.2) through a table, and AddRoundKey (5.1.4). Tables and schedules are passed down by reference, so that they are copied once
// for a caller's many blocks.
ghost use Rattle.std.specs.Prelude.{◌≡◌, [], ◌∷◌, map, ℕ, ◌+◌, ◌/◌, ◌%◌, ◌≤◌, ◌<◌, length, take, drop};
ghost use Rattle.fips197.specs.Block.{◌⊕◌, Tabulates};
ghost use Rattle.fips197.specs.Aes.{shift_rows, inv_shift_rows, round_key};
ghost use Rattle.fips197.specs.Words.{bytes_of, state_of};

use crate::sbox::lookup;
use crate::words;

// A state, a word for each column.
#[derive(Clone, Copy)]
pub struct Columns {
    pub a: u32,
    pub b: u32,
    pub c: u32,
    pub d: u32,
}

// The state of the block at a place of s.
pub fn load_at(s: &[u8], at: usize) -> Columns
    requires { at + 16 ≤ length s.now }
    ensures { state_of result.a result.b result.c result.d ≡ take 16 (drop at s.now) }
{
    Columns {
        a: words::word_at(s, at),
        b: words::word_at(s, at + 4),
        c: words::word_at(s, at + 8),
        d: words::word_at(s, at + 12),
    }
}

// The state of a block.
pub fn load(s: [u8; 16]) -> Columns
    ensures { state_of result.a result.b result.c result.d ≡ s }
{
    load_at(&s, 0)
}

// The XOR of two states.
pub fn add(x: Columns, y: Columns) -> Columns
    ensures { state_of result.a result.b result.c result.d ≡ state_of x.a x.b x.c x.d ⊕ state_of y.a y.b y.c y.d }
{
    Columns {
        a: x.a ^ y.a,
        b: x.b ^ y.b,
        c: x.c ^ y.c,
        d: x.d ^ y.d,
    }
}

// The block of a state.
pub fn store(s: Columns) -> [u8; 16]
    ensures { result ≡ state_of s.a s.b s.c s.d }
{
    let a = words::to_bytes(s.a);
    let b = words::to_bytes(s.b);
    let c = words::to_bytes(s.c);
    let d = words::to_bytes(s.d);
    [
        a[0], a[1], a[2], a[3], b[0], b[1], b[2], b[3], c[0], c[1], c[2], c[3], d[0], d[1], d[2],
        d[3],
    ]
}

// The state whose columns are f of its columns.
pub fn each<F: Fn(u32) -> u32>(s: Columns, f: F) -> Columns
    requires { F.IsAlwaysCallable f }
    ensures { (F.post f s.a result.a × F.post f s.b result.b) × (F.post f s.c result.c × F.post f s.d result.d) }
{
    Columns {
        a: f(s.a),
        b: f(s.b),
        c: f(s.c),
        d: f(s.d),
    }
}

// The state whose columns are f of all four, from the column's own on, going round the state.
pub fn around<F: Fn(u32, u32, u32, u32) -> u32>(s: Columns, f: F) -> Columns
    requires { F.IsAlwaysCallable f }
    ensures { (F.post f s.a s.b s.c s.d result.a × F.post f s.b s.c s.d s.a result.b) × (F.post f s.c s.d s.a s.b result.c × F.post f s.d s.a s.b s.c result.d) }
{
    Columns {
        a: f(s.a, s.b, s.c, s.d),
        b: f(s.b, s.c, s.d, s.a),
        c: f(s.c, s.d, s.a, s.b),
        d: f(s.d, s.a, s.b, s.c),
    }
}

// A byte of each of four columns, the first of one, the second of the next and so on, through a table.
pub fn gather(t: &[u8; 256], a: u32, b: u32, c: u32, d: u32) -> u32
    ensures { (f : ℕ → ℕ) → Tabulates t.now f → bytes_of result ≡ f (a % 256) ∷ f (b / 256 % 256) ∷ f (c / 65536 % 256) ∷ f (d / 16777216 % 256) ∷ [] }
{
    words::from_bytes(
        lookup(t, (a % 256) as u8),
        lookup(t, (b / 256 % 256) as u8),
        lookup(t, (c / 65536 % 256) as u8),
        lookup(t, (d / 16777216 % 256) as u8),
    )
}

// SubBytes and ShiftRows.
pub fn shift(t: &[u8; 256], s: Columns) -> Columns
    ensures { (f : ℕ → ℕ) → Tabulates t.now f → state_of result.a result.b result.c result.d ≡ shift_rows (map f (state_of s.a s.b s.c s.d)) }
{
    around(s, |a, b, c, d| gather(t, a, b, c, d))
}

// InvShiftRows and InvSubBytes.
pub fn inv_shift(t: &[u8; 256], s: Columns) -> Columns
    ensures { (f : ℕ → ℕ) → Tabulates t.now f → state_of result.a result.b result.c result.d ≡ map f (inv_shift_rows (state_of s.a s.b s.c s.d)) }
{
    around(s, |a, b, c, d| gather(t, a, d, c, b))
}

// The XOR with round key n of a schedule.
pub fn add_round_key(s: Columns, w: &[u8; 176], n: usize) -> Columns
    requires { n < 11 }
    ensures { state_of result.a result.b result.c result.d ≡ state_of s.a s.b s.c s.d ⊕ round_key w.now n }
{
    add(s, load_at(w, 16 * n))
}
