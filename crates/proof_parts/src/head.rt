//! The first line of a file.

ghost use Rattle.std.specs.Prelude.{◌≡◌, ◌≤◌, length};
ghost use Rattle.proof_parts.specs.Head.{agreeing, begins_third_form, begins_with_digit as is_beginning_with_digit};

// How many first bytes two texts have in common.
pub(crate) fn agreeing_len(bytes: &[u8], others: &[u8]) -> usize
    ensures value { result ≡ agreeing bytes.now others.now }
    ensures within { result ≤ length bytes.now }
{
    match bytes {
        [] => 0,
        [byte, bytes @ ..] => match others {
            [] => 0,
            [other, others @ ..] => {
                if *byte == *other {
                    1 + agreeing_len(bytes, others)
                } else {
                    0
                }
            }
        },
    }
}

/// Whether a file is one of the third form, which its first bytes say: `koat-proof 3`, and no further digit.
pub fn is_third_form(bytes: &[u8]) -> bool
    ensures { result ≡ begins_third_form bytes.now }
{
    let agrees = agreeing_len(bytes, b"koat-proof 3");
    agrees == 12 && !begins_with_digit(&bytes[12..])
}

// Whether bytes begin with a digit.
fn begins_with_digit(bytes: &[u8]) -> bool
    ensures { result ≡ is_beginning_with_digit bytes.now }
{
    match bytes {
        [first, ..] => first.is_ascii_digit(),
        [] => false,
    }
}
