//! The kind of a word where options are permitted.

ghost use Rattle.std.specs.Prelude.{◌≡◌, ◌≢◌, ◌++◌, ℕ, List, MatchBool, MatchOption};
ghost use Rattle.command_line.specs.Lines.{is_plain as is_plain_at, is_value as is_value_at};
ghost use Rattle.command_line.specs.Steps.{IsKind};

/// The kind of a word where options are permitted.
#[derive(Clone, Copy)]
pub(crate) enum Kind<'a> {
    /// `--`
    End,
    /// `--pivots`, whose value is the next word.
    Pivots,
    /// `--pivots=` with the option's value.
    PivotsOf(&'a [u8]),
    /// A positional.
    Plain,
    /// Any other word, which is refused.
    Other,
}

/// The kind of a word.
pub(crate) fn kind_of(word: &[u8]) -> Kind<'_>
    ensures { IsKind result word.now }
{
    if is_same(word, b"--") {
        return Kind::End;
    }
    if is_same(word, b"--pivots") {
        return Kind::Pivots;
    }
    if let Some(value) = rest_after(word, b"--pivots=") {
        return Kind::PivotsOf(value);
    }
    if is_plain(word) {
        Kind::Plain
    } else {
        Kind::Other
    }
}

/// Whether a word can be the value of an option: it doesn't begin with `-`.
pub(crate) fn is_value(word: &[u8]) -> bool
    ensures { result ≡ is_value_at word.now }
{
    match word {
        [] => true,
        [first, ..] => *first != b'-',
    }
}

// Whether a word is a positional where options are permitted: it doesn't begin with `-`, or it is `-` alone.
fn is_plain(word: &[u8]) -> bool
    ensures { result ≡ is_plain_at word.now }
{
    match word {
        [] | [_] => true,
        [first, ..] => *first != b'-',
    }
}

// Whether two words are the same.
pub(crate) fn is_same(word: &[u8], other: &[u8]) -> bool
    ensures { MatchBool result (word.now ≡ other.now) (word.now ≢ other.now) }
{
    word == other
}

// The rest of a word after a prefix, if it has this prefix.
fn rest_after<'a>(word: &'a [u8], first: &[u8]) -> Option<&'a [u8]>
    ensures { MatchOption result ((rest : List ℕ) → word.now ≢ first.now ++ rest)
        (λ rest. word.now ≡ first.now ++ rest.now) }
{
    word.strip_prefix(first)
}
