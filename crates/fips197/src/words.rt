// Words: a column of the state as a 32-bit number, its first byte lowest, so that a step works on four bytes at once.
ghost use Rattle.std.specs.Prelude.{◌≡◌, [], ◌∷◌, map, ◌+◌, ◌≤◌, length, take, drop};
ghost use Rattle.fips197.specs.Field.{xtimes};
ghost use Rattle.fips197.specs.Aes.{rot_word, mixed, inv_mixed};
ghost use Rattle.fips197.specs.Words.{bytes_of, column};

// The word of four bytes.
pub fn from_bytes(a: u8, b: u8, c: u8, d: u8) -> u32
    ensures { bytes_of result ≡ a ∷ b ∷ c ∷ d ∷ [] }
{
    u32::from_le_bytes([a, b, c, d])
}

// The bytes of a word.
pub fn to_bytes(x: u32) -> [u8; 4]
    ensures { result ≡ bytes_of x }
{
    x.to_le_bytes()
}

// The word of the four bytes at a place of s.
pub fn word_at(s: &[u8], at: usize) -> u32
    requires { at + 4 ≤ length s.now }
    ensures { bytes_of result ≡ take 4 (drop at s.now) }
{
    from_bytes(s[at], s[at + 1], s[at + 2], s[at + 3])
}

// Each byte times x in the field: shifted, and 1b where its high bit was set.
fn xtime(x: u32) -> u32
    ensures { bytes_of result ≡ map xtimes (bytes_of x) }
{
    ((x & 0x7f7f7f7f) << 1) ^ ((x & 0x80808080) >> 7) * 0x1b
}

// Each byte is the one below it, the last the first.
pub fn turn(x: u32) -> u32
    ensures { bytes_of result ≡ rot_word (bytes_of x) }
{
    x.rotate_right(8)
}

// Each byte is the second below it, going round.
pub fn turn_twice(x: u32) -> u32
    ensures { bytes_of result ≡ rot_word (rot_word (bytes_of x)) }
{
    x.rotate_right(16)
}

// A column mixed: 2 and 3 times a byte and the one below it, and the two others.
pub fn mix(x: u32) -> u32
    ensures { bytes_of result ≡ column mixed (bytes_of x) }
{
    let y = xtime(x);
    y ^ turn(x ^ y) ^ turn_twice(x ^ turn(x))
}

// A column before it was mixed: with 4 times a byte and the second below it added to each, mixing gives 14, 11, 13 and 9 times.
pub fn inv_mix(x: u32) -> u32
    ensures { bytes_of result ≡ column inv_mixed (bytes_of x) }
{
    mix(x ^ xtime(xtime(x ^ turn_twice(x))))
}
