//! The pieces of a program's text.

ghost use Rattle.std.specs.Prelude.{◌≡◌, nat_eq, Option, Some, None};
ghost use Rattle.its_reader.specs.Views.{piece_of as plain_of, maybe_of, words_of, piece_in_token};
ghost use Rattle.its_reader.specs.Tests as tests;
ghost use Rattle.its_reader.specs.Tests.{inner_in, inner_next};
ghost use Rattle.expr_reader.specs.GuardParts.{piece_in};
ghost use Rattle.its_text.specs.StateFaults.{begins, is_operator as is_operator_next};

use expr_reader::Piece as Inner;

/// A piece of a program's text.
#[derive(Clone, Copy)]
pub(crate) enum Piece<'a> {
    /// A piece of an expression or of a guard.
    Inner(Inner<'a>),
    /// `,`
    Comma,
    /// `->`
    Arrow,
    /// `-{`
    CostOpen,
    /// `}>`
    CostClose,
    /// `:|:`
    GuardMark,
    /// `[`
    SquareOpen,
    /// `]`
    SquareClose,
    /// `||`
    Or,
    /// The text of a comment, with the bracket that closes it.
    Remark(&'a [u8]),
    /// Bytes that begin no piece.
    Wrong,
    /// A byte over 127.
    Strange,
}

/// A piece, the position of its first byte, and the one after its last byte.
#[derive(Clone, Copy)]
pub(crate) struct Token<'a> {
    pub piece: Piece<'a>,
    pub at: usize,
    pub end: usize,
}

/// The piece of an optional token.
pub(crate) fn piece_of<'a>(token: Option<Token<'a>>) -> Option<Piece<'a>>
    ensures { maybe_of result ≡ piece_in_token token.entry }
{
    match token {
        Some(token) => Some(token.piece),
        None => None,
    }
}

/// The piece of an expression that an optional piece is.
pub(crate) fn inner_of<'a>(piece: Option<Piece<'a>>) -> Option<Inner<'a>>
    ensures { piece_in result ≡ inner_next (maybe_of piece.entry) }
{
    match piece {
        Some(piece) => piece.inner(),
        None => None,
    }
}

/// Whether the piece is an opening bracket.
pub(crate) fn is_open_bracket_next(piece: Option<Piece<'_>>) -> bool
    ensures { result ≡ tests.is_open_bracket_next (maybe_of piece.entry) }
{
    match piece {
        Some(piece) => piece.is_open_bracket(),
        None => false,
    }
}

/// The name that the piece is.
pub(crate) fn word_of<'a>(piece: Option<Piece<'a>>) -> Option<&'a [u8]>
    ensures { words_of result ≡ tests.word_of (maybe_of piece.entry) }
{
    match piece {
        Some(piece) => piece.word(),
        None => None,
    }
}

impl<'a> Piece<'a> {
    /// The piece of an expression that this piece is.
    pub(crate) fn inner(self) -> Option<Inner<'a>>
        ensures { piece_in result ≡ inner_in (plain_of self.entry) }
    {
        match self {
            Piece::Inner(inner) => Some(inner),
            _ => None,
        }
    }

    /// Whether the piece is a name.
    pub(crate) fn is_name(self) -> bool
        ensures { result ≡ tests.is_name (plain_of self.entry) }
    {
        matches!(self, Piece::Inner(Inner::Word(_)))
    }

    /// Whether an expression can begin with the piece.
    pub(crate) fn begins_expression(self) -> bool
        ensures { result ≡ begins (Some (plain_of self.entry)) }
    {
        match self {
            Piece::Inner(inner) => inner.begins_expression(),
            _ => false,
        }
    }

    /// Whether the piece is an operator.
    pub(crate) fn is_operator(self) -> bool
        ensures { result ≡ is_operator_next (Some (plain_of self.entry)) }
    {
        matches!(
            self,
            Piece::Inner(Inner::Plus)
                | Piece::Inner(Inner::Minus)
                | Piece::Inner(Inner::Times)
                | Piece::Inner(Inner::Caret)
        )
    }

    /// Whether the piece joins two atoms.
    pub(crate) fn is_conjunction(self) -> bool
        ensures { result ≡ tests.is_conjunction (plain_of self.entry) }
    {
        matches!(self, Piece::Inner(Inner::Joining(_)))
    }

    /// Whether the piece is `:|:`.
    pub(crate) fn is_guard_mark(self) -> bool
        ensures { result ≡ tests.is_guard_mark (plain_of self.entry) }
    {
        matches!(self, Piece::GuardMark)
    }

    /// Whether the piece is `[`.
    pub(crate) fn is_square_open(self) -> bool
        ensures { result ≡ tests.is_square_open (plain_of self.entry) }
    {
        matches!(self, Piece::SquareOpen)
    }

    /// Whether the piece is `]`.
    pub(crate) fn is_square_close(self) -> bool
        ensures { result ≡ tests.is_square_close (plain_of self.entry) }
    {
        matches!(self, Piece::SquareClose)
    }

    /// Whether the piece is an opening bracket.
    pub(crate) fn is_open_bracket(self) -> bool
        ensures { result ≡ tests.is_open_bracket (plain_of self.entry) }
    {
        matches!(self, Piece::Inner(Inner::Open))
    }

    /// Whether the piece is a closing bracket.
    pub(crate) fn is_close_bracket(self) -> bool
        ensures { result ≡ tests.is_close_bracket (plain_of self.entry) }
    {
        matches!(self, Piece::Inner(Inner::Close))
    }

    /// Whether the piece is a comma.
    pub(crate) fn is_comma(self) -> bool
        ensures { result ≡ tests.is_comma (plain_of self.entry) }
    {
        matches!(self, Piece::Comma)
    }

    /// Whether the piece is an arrow.
    pub(crate) fn is_arrow(self) -> bool
        ensures { result ≡ tests.is_arrow (plain_of self.entry) }
    {
        matches!(self, Piece::Arrow)
    }

    /// Whether the piece is `-{`.
    pub(crate) fn is_cost_open(self) -> bool
        ensures { result ≡ tests.is_cost_open (plain_of self.entry) }
    {
        matches!(self, Piece::CostOpen)
    }

    /// Whether the piece is `}>`.
    pub(crate) fn is_cost_close(self) -> bool
        ensures { result ≡ tests.is_cost_close (plain_of self.entry) }
    {
        matches!(self, Piece::CostClose)
    }

    /// Whether the piece is the text of a comment.
    pub(crate) fn is_comment(self) -> bool
        ensures { result ≡ tests.is_comment (plain_of self.entry) }
    {
        matches!(self, Piece::Remark(_))
    }

    /// The name that the piece is.
    pub(crate) fn word(self) -> Option<&'a [u8]>
        ensures { words_of result ≡ tests.word (plain_of self.entry) }
    {
        match self {
            Piece::Inner(Inner::Word(word)) => Some(word),
            _ => None,
        }
    }

    /// Whether the piece is this word.
    pub(crate) fn is_word(self, wanted: &[u8]) -> bool
        ensures { result ≡ tests.is_word wanted.now (plain_of self.entry) }
    {
        match self {
            Piece::Inner(Inner::Word(word)) => word == wanted,
            _ => false,
        }
    }
}
