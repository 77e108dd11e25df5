//! The lexer's mode.

ghost use Rattle.std.specs.Prelude.{◌≡◌, ◌<◌, Some};
ghost use Rattle.its_text.specs.Pieces.{close_bracket};
ghost use Rattle.its_text.specs.Lexing as lexing;
ghost use Rattle.its_text.specs.Lexing.{mode_behind as plain_behind, behind_keyword as plain_keyword};
ghost use Rattle.its_reader.specs.Views.{mode_of, depth_of, piece_of as plain_of};

use crate::piece::Piece;

/// The mode of the lexer.
#[derive(Clone, Copy)]
pub(crate) enum Mode {
    /// Between sections.
    Outside,
    /// After the bracket that opens a section.
    AtKeyword,
    /// Within a section, with this many open brackets.
    Within(usize),
    /// After the keyword of a comment.
    InComment,
}

/// The mode after a piece, as long as the number of open brackets can be counted.
pub(crate) fn mode_behind(mode: Mode, piece: Piece<'_>) -> Mode
    requires { depth_of mode < usize.MAX }
    ensures { mode_of result ≡ plain_behind (mode_of mode) (Some (plain_of piece.entry)) }
{
    match mode {
        Mode::Outside => behind_outside(piece),
        Mode::AtKeyword => behind_bracket(piece),
        Mode::Within(depth) => behind_within(depth, piece),
        Mode::InComment => Mode::Outside,
    }
}

fn behind_outside(piece: Piece<'_>) -> Mode
    ensures { mode_of result ≡ plain_behind lexing.Outside (Some (plain_of piece.entry)) }
{
    if piece.is_open_bracket() {
        Mode::AtKeyword
    } else {
        Mode::Outside
    }
}

fn behind_bracket(piece: Piece<'_>) -> Mode
    ensures { mode_of result ≡ plain_behind lexing.AtKeyword (Some (plain_of piece.entry)) }
{
    match piece.word() {
        Some(word) => behind_keyword(word),
        None => {
            if piece.is_open_bracket() {
                Mode::Within(1)
            } else if piece.is_close_bracket() {
                Mode::Outside
            } else {
                Mode::Within(0)
            }
        }
    }
}

fn behind_keyword(word: &[u8]) -> Mode
    ensures { mode_of result ≡ plain_keyword word.now }
{
    if word == b"COMMENT".as_slice() {
        Mode::InComment
    } else {
        Mode::Within(0)
    }
}

fn behind_within(depth: usize, piece: Piece<'_>) -> Mode
    requires { depth < usize.MAX }
    ensures { mode_of result ≡ plain_behind (lexing.Within depth) (Some (plain_of piece.entry)) }
{
    if piece.is_open_bracket() {
        Mode::Within(depth + 1)
    } else if piece.is_close_bracket() {
        within_less(depth)
    } else {
        Mode::Within(depth)
    }
}

fn within_less(depth: usize) -> Mode
    ensures { mode_of result ≡ plain_behind (lexing.Within depth) (Some close_bracket) }
{
    if depth == 0 {
        Mode::Outside
    } else {
        Mode::Within(depth - 1)
    }
}
