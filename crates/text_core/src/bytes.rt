//! White space, and rows of digits.

ghost use Rattle.std.specs.Prelude.{◌≡◌, ◌<◌, ◌≤◌, ◌-◌, ◌+◌, ◌*◌, min, length, IsTrue};
ghost use Rattle.std.specs.List.{list_all};
ghost use Rattle.std.specs.Char.{is_ascii_digit};
ghost use Rattle.text_core.specs.Bytes as bytes_at;
ghost use Rattle.text_core.specs.Prefixes.{prefix};

/// Whether a byte is white space: a space, a tab, a carriage return or a line feed.
pub fn is_white_space(byte: u8) -> bool
    ensures { result ≡ bytes_at.is_white_space byte }
{
    byte == b' ' || byte == b'\t' || byte == b'\r' || byte == b'\n'
}

/// Whether the bytes begin with this one.
pub fn begins_with(bytes: &[u8], byte: u8) -> bool
    ensures value { result ≡ bytes_at.begins_with byte bytes.now }
    ensures some { IsTrue result → 0 < length bytes.now }
{
    match bytes {
        [first, ..] => *first == byte,
        [] => false,
    }
}

/// The number of digits that bytes begin with.
pub fn digits_len(bytes: &[u8]) -> usize
    ensures value { result ≡ length (prefix is_ascii_digit bytes.now) }
    ensures within { result ≤ length bytes.now }
{
    for (i, byte) in bytes.iter().enumerate() {
        if !byte.is_ascii_digit() {
            return i;
        }
    }
    bytes.len()
}

fn digit(byte: u8) -> u128
    requires { IsTrue (is_ascii_digit byte) }
    ensures { result ≡ byte - 48 }
{
    u128::from(byte - b'0')
}

/// Whether digits have a zero before another digit.
pub fn has_leading_zero(digits: &[u8]) -> bool
    ensures { result ≡ bytes_at.has_leading_zero digits.now }
{
    begins_with(digits, b'0') && digits.len() > 1
}

/// The number that digits write, or the limit if the number is greater; there may be any number of digits.
pub fn value_up_to(limit: u128, digits: &[u8]) -> u128
    requires { IsTrue (list_all is_ascii_digit digits.now) }
    ensures { result ≡ bytes_at.value_up_to limit digits.now }
{
    let mut value = 0u128;
    for byte in digits {
        value = one_digit_more(limit, value, digit(*byte));
    }
    value
}

// The number with one more digit, or the limit if that is greater.
fn one_digit_more(limit: u128, value: u128, digit: u128) -> u128
    ensures { result ≡ min (value * 10 + digit) limit }
{
    value.saturating_mul(10).saturating_add(digit).min(limit)
}
