// A number typed as a word.
ghost use Rattle.std.specs.Prelude.{◌≡◌, ◌+◌, ◌-◌, ◌*◌, ◌^◌, ◌≤◌, ◌<◌, SomeIff};
ghost use Rattle.command.specs.Numbers.{parsed_number, parsed_number32};

// The number with one digit more, where the byte is a digit and 64 bits hold that number.
fn with_digit(v: u64, b: u8) -> Option<u64>
    ensures { SomeIff result ((48 ≤ b) × (b ≤ 57) × (10 * v + (b - 48) < 2 ^ 64)) (10 * v + (b - 48)) }
{
    let digit = match b {
        b'0'..=b'9' => b - b'0',
        _ => return None,
    };
    v.checked_mul(10)?.checked_add(u64::from(digit))
}

// The number that a text writes: decimal digits, at least one, and nothing else, of a value below 2^64. std's `parse` takes a sign too.
pub fn number_in(text: &[u8]) -> Option<u64>
    ensures { result ≡ parsed_number text.now }
{
    if text.is_empty() {
        return None;
    }
    let mut value = 0;
    for b in text {
        value = with_digit(value, *b)?;
    }
    Some(value)
}

// The same of a value below 2^32.
pub fn number32_in(text: &[u8]) -> Option<u32>
    ensures { result ≡ parsed_number32 text.now }
{
    let number = number_in(text)?;
    u32::try_from(number).ok()
}
