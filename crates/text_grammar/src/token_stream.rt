//! Cuts bytes into tokens on demand.

ghost use Rattle.std.specs.Prelude.{◌≡◌, ℕ, ◌≤◌, ◌-◌, ◌∷◌, length};
ghost use Rattle.text_core.specs.Tokens.{Lexer as LexerOf, LexesWithin, tokens_in};
ghost use Rattle.text_grammar.specs.Marks.{lexeme_of};

use crate::text::Tokens;
use crate::token::Token;

/// The piece that bytes begin with, if any, and the number of its bytes.
#[derive(Clone, Copy, Debug, PartialEq, Eq)]
pub struct Lexeme<P> {
    pub piece: Option<P>,
    pub len: usize,
}

/// The mode of a lexer that has only one.
#[derive(Clone, Copy, Debug, PartialEq, Eq)]
pub enum OneMode {
    Plain,
}

/// How bytes are cut into tokens: the next token depends on a mode, which the pieces before it determine.
pub trait Lexer {
    type Piece: Copy;

    type Mode: Copy;

    ghost lexer_of: { Self → LexerOf Self.Piece Self.Mode };

    /// The lexeme that these bytes begin with; their first byte is also passed separately.
    fn lexeme(
        &self,
        mode: Self::Mode,
        bytes: &[u8],
        first: u8,
        others: &[u8],
    ) -> Lexeme<Self::Piece>
        requires { bytes.now ≡ first ∷ others.now }
        ensures { lexeme_of result ≡ (lexer_of self.now).lexeme_in mode first others.now };

    /// The mode after a lexeme.
    fn behind(&self, mode: Self::Mode, piece: Option<Self::Piece>) -> Self::Mode
        ensures { result ≡ (lexer_of self.now).mode_behind mode piece };

    ghost within: { (x : Self) (mode : Self.Mode) → LexesWithin ((lexer_of x).lexeme_in mode) };
}

/// Bytes that are cut into tokens on demand, with the number of all bytes.
#[derive(Drop)]
pub struct TokenStream<'a, X, M> {
    lexer: X,
    mode: M,
    len: usize,
    rest: &'a [u8],
    ghost within: { length rest.now ≤ len },
}

impl<'a, M: Copy, X: Lexer<Mode = M>> TokenStream<'a, X, M> {
    /// A stream over these bytes, in this mode at first.
    pub fn new(lexer: X, mode: M, bytes: &'a [u8]) -> TokenStream<'a, X, M>
        ensures { ⟦<TokenStream<'a, X, M> as Tokens>⟧.left result ≡ tokens_in (X.lexer_of lexer) mode 0 0 bytes.now }
    {
        TokenStream {
            lexer,
            mode,
            len: bytes.len(),
            rest: bytes,
        }
    }
}

impl<'a, M: Copy, X: Lexer<Mode = M>> Tokens for TokenStream<'a, X, M> {
    type Piece = X::Piece;

    ghost left = { λ s. tokens_in (X.lexer_of s.lexer) s.mode (s.len - length s.rest.now) 0 s.rest.now };

    fn pull(&mut self) -> Option<Token<X::Piece>> {
        while let Some((first, others)) = self.rest.split_first() {
            let at = (self.len - self.rest.len()) as u64;
            let lexeme = self.lexer.lexeme(self.mode, self.rest, *first, others);
            let (_, behind) = self.rest.split_at(lexeme.len);
            self.mode = self.lexer.behind(self.mode, lexeme.piece);
            self.rest = behind;
            if let Some(piece) = lexeme.piece {
                let upto = (self.len - self.rest.len()) as u64;
                return Some(Token { piece, at, upto });
            }
        }
        None
    }
}
