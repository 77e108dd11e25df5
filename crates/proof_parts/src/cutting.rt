//! Cuts a file into its parts.

ghost use Rattle.std.specs.Prelude.{◌≡◌, ◌<◌, ◌+◌, ◌^◌, length, MatchResult, IfOk};
ghost use Rattle.proof_parts.specs.Head.{agreeing, first_line, first_line_len};
ghost use Rattle.proof_parts.specs.Lines.{lines_of};
ghost use Rattle.proof_parts.specs.Parts.{IsCut, parts_of_lines};
ghost use Rattle.proof_parts.specs.Views.{parts_of, ArePlaced};

use crate::head::agreeing_len;
use crate::kind::LineKind;
use crate::lines::{split_leading, split_through};
use crate::parts::{Part, Parts};

// The number of bytes of the first line, with the line feed that ends it.
const FIRST_LINE_LEN: usize = 13;

/// The parts of a file of the third form, each with its position in the file.
///
/// # Errors
///
/// The position of the first byte that differs from the line `koat-proof 3`, or the length of a file that ends within
/// it.
pub fn cut(bytes: &[u8]) -> Result<Parts<'_>, usize>
    ensures cut { MatchResult result (λ parts. IsCut bytes.now (parts_of parts))
        (λ at. (at ≡ agreeing bytes.now first_line) × (at < first_line_len)) }
    ensures placed { IfOk result (λ parts. ArePlaced (length bytes.now) parts) }
{
    let at = agreeing_len(bytes, b"koat-proof 3\n");
    if at < FIRST_LINE_LEN {
        return Err(at);
    }
    Ok(parts_behind(&bytes[FIRST_LINE_LEN..]))
}

// The parts of the text after the first line.
fn parts_behind(bytes: &[u8]) -> Parts<'_>
    requires { first_line_len + length bytes.now < 2 ^ 64 }
    ensures parts { parts_of result ≡ parts_of_lines (lines_of bytes.now) }
    ensures placed { ArePlaced (first_line_len + length bytes.now) result }
{
    let (section, behind_section) = split_leading(bytes, LineKind::Section);
    let (plain, behind_plain) = split_through(behind_section, LineKind::End);
    let (signed, claims) = split_leading(behind_plain, LineKind::Signed);
    let plain_at = FIRST_LINE_LEN + section.len();
    let signed_at = plain_at + plain.len();
    Parts {
        section: Part {
            text: section,
            at: FIRST_LINE_LEN,
        },
        plain: Part {
            text: plain,
            at: plain_at,
        },
        signed: Part {
            text: signed,
            at: signed_at,
        },
        claims: Part {
            text: claims,
            at: signed_at + signed.len(),
        },
    }
}
