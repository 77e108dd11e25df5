//! Skips the bytes of a comment, up to the matching bracket.

ghost use Rattle.std.specs.Prelude.{◌≡◌, length, IfSome, ◌≤◌};
ghost use Rattle.its_text.specs.Lexing.{closing_at};

/// How many bytes of a comment there are, with the bracket that closes it. None where it isn't closed.
pub(crate) fn comment_len(bytes: &[u8]) -> Option<usize>
    ensures value { result ≡ closing_at bytes.now 0 }
{
    let mut depth = 0usize;
    for (i, byte) in bytes.iter().enumerate() {
        if *byte == b'(' {
            depth += 1;
        } else if *byte == b')' {
            if depth == 0 {
                return Some(i + 1);
            }
            depth -= 1;
        }
    }
    None
}
