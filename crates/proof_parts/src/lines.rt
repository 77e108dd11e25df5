//! Lines at the beginning of a text.

ghost use Rattle.std.specs.Prelude.{◌≡◌, ◌≤◌, ◌<◌, ◌+◌, ◌++◌, length, take, drop};
ghost use Rattle.std.specs.List.{concat};
ghost use Rattle.text_core.specs.Prefixes.{prefix, rest};
ghost use Rattle.proof_parts.specs.Lines.{first_line_length, lines_of};
ghost use Rattle.proof_parts.specs.Kinds.{is_line_of as is_line_of_kind};
ghost use Rattle.proof_parts.specs.Parts.{through, past};

use crate::kind::{LineKind, is_line_of};

// The number of bytes of the first line, with the line feed that ends it.
fn line_len(bytes: &[u8]) -> usize
    ensures value { result ≡ first_line_length bytes.now }
    ensures within { result ≤ length bytes.now }
    ensures some { 0 < length bytes.now → 0 < result }
{
    for (i, byte) in bytes.iter().enumerate() {
        if *byte == b'\n' {
            return i + 1;
        }
    }
    bytes.len()
}

// The line that begins at a position.
fn line_at(bytes: &[u8], at: usize) -> &[u8]
    requires { at < length bytes.now }
    ensures line { result.now ≡ take (length result.now) (drop at bytes.now) }
    ensures whole { length result.now ≡ first_line_length (drop at bytes.now) }
    ensures within { at + length result.now ≤ length bytes.now }
    ensures some { 0 < length result.now }
{
    let left = &bytes[at..];
    &left[..line_len(left)]
}

/// The lines at the beginning of a text that are all of a kind, and the text behind them.
pub(crate) fn split_leading(bytes: &[u8], kind: LineKind) -> (&[u8], &[u8])
    ensures front { result.0.now ≡ concat (prefix (is_line_of_kind kind) (lines_of bytes.now)) }
    ensures back { lines_of result.1.now ≡ rest (is_line_of_kind kind) (lines_of bytes.now) }
    ensures whole { result.0.now ++ result.1.now ≡ bytes.now }
{
    bytes.split_at(leading_len(bytes, kind))
}

// The number of bytes of the lines at the beginning that are all of a kind.
fn leading_len(bytes: &[u8], kind: LineKind) -> usize
    ensures within { result ≤ length bytes.now }
    ensures front { take result bytes.now ≡ concat (prefix (is_line_of_kind kind) (lines_of bytes.now)) }
    ensures back { lines_of (drop result bytes.now) ≡ rest (is_line_of_kind kind) (lines_of bytes.now) }
{
    let mut at = 0;
    while at < bytes.len() {
        let line = line_at(bytes, at);
        if !is_line_of(kind, line) {
            return at;
        }
        at += line.len();
    }
    at
}

/// The lines of a text up to the first one of a kind, and with it, and the text behind them; the whole text if there
/// is no line of the kind.
pub(crate) fn split_through(bytes: &[u8], kind: LineKind) -> (&[u8], &[u8])
    ensures front { result.0.now ≡ concat (through (is_line_of_kind kind) (lines_of bytes.now)) }
    ensures back { lines_of result.1.now ≡ past (is_line_of_kind kind) (lines_of bytes.now) }
    ensures whole { result.0.now ++ result.1.now ≡ bytes.now }
{
    bytes.split_at(through_len(bytes, kind))
}

// The number of bytes of the lines up to the first one of a kind, and with it.
fn through_len(bytes: &[u8], kind: LineKind) -> usize
    ensures within { result ≤ length bytes.now }
    ensures front { take result bytes.now ≡ concat (through (is_line_of_kind kind) (lines_of bytes.now)) }
    ensures back { lines_of (drop result bytes.now) ≡ past (is_line_of_kind kind) (lines_of bytes.now) }
{
    let mut at = 0;
    while at < bytes.len() {
        let line = line_at(bytes, at);
        at += line.len();
        if is_line_of(kind, line) {
            return at;
        }
    }
    at
}
