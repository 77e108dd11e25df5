//! Names of symbols and variables.

ghost use Rattle.std.specs.Prelude.{◌≡◌, ◌≤◌, length};
ghost use Rattle.text_core.specs.Names.{begins_name as begins_name_at, continues_name as continues_name_at};
ghost use Rattle.text_core.specs.Prefixes.{prefix};

/// The name of a symbol or of a variable, read as its bytes.
#[derive(Debug, PartialEq, Eq, Hash, Drop)]
pub struct Name {
    pub bytes: Vec<u8>,
}

/// Whether a name begins with this byte: a letter, `_` or `$`.
pub fn begins_name(byte: u8) -> bool
    ensures { result ≡ begins_name_at byte }
{
    byte.is_ascii_alphabetic() || byte == b'_' || byte == b'$'
}

/// Whether a name can continue with this byte: a letter, a digit, `_`, `$`, `'` or `.`.
pub fn continues_name(byte: u8) -> bool
    ensures { result ≡ continues_name_at byte }
{
    begins_name(byte) || byte.is_ascii_digit() || byte == b'\'' || byte == b'.'
}

/// How many of the first bytes continue a name.
pub fn name_len(bytes: &[u8]) -> usize
    ensures value { result ≡ length (prefix continues_name_at bytes.now) }
    ensures within { result ≤ length bytes.now }
{
    for (i, byte) in bytes.iter().enumerate() {
        if !continues_name(*byte) {
            return i;
        }
    }
    bytes.len()
}
