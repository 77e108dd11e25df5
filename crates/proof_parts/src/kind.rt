//! Kinds of lines by the words that they begin with.

ghost use Rattle.std.specs.Prelude.{◌≡◌};
ghost use Rattle.proof_parts.specs.Lines.{begins_with_word as is_beginning_with_word};
ghost use Rattle.proof_parts.specs.Kinds.{is_line_of as is_line_of_kind};

use text_core::name_len;

/// Which lines are looked for.
#[derive(Clone, Copy)]
pub(crate) enum LineKind {
    /// Lines of a section: those that begin with `copy` or `from`.
    Section,
    /// The line that ends a plain part.
    End,
    /// Lines with signed lemmas.
    Signed,
}

// Whether a line begins with a word.
fn begins_with_word(line: &[u8], word: &[u8]) -> bool
    ensures { result ≡ is_beginning_with_word word.now line.now }
{
    let first = &line[..name_len(line)];
    first == word
}

// Whether a line is of a kind.
pub(crate) fn is_line_of(kind: LineKind, line: &[u8]) -> bool
    ensures { result ≡ is_line_of_kind kind line.now }
{
    match kind {
        LineKind::Section => begins_with_word(line, b"copy") || begins_with_word(line, b"from"),
        LineKind::End => begins_with_word(line, b"end"),
        LineKind::Signed => begins_with_word(line, b"signed"),
    }
}
