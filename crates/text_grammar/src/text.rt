//! What each text of a grammar supplies, and where its tokens come from.

ghost use Rattle.std.specs.Prelude.{◌≡◌, ℕ, List, [], ◌∷◌, None, IfOk, OnOk, MatchOption};
ghost use Rattle.text_core.specs.Readers.{onto};
ghost use Rattle.text_core.specs.Tokens.{Token as TokenOf};
ghost use Rattle.text_grammar.specs.Grammars.{Event, Read, Did};
ghost use Rattle.text_grammar.specs.Texts.{Text as TextOf, first_shown};
ghost use Rattle.text_grammar.specs.Marks.{token_of, fault_of};

use crate::token::{Fault, Token};
use std::alloc::AllocError;

/// The tokens of a text, one by one.
pub trait Tokens {
    type Piece: Copy;

    // the remaining tokens
    ghost left: { Self → List (TokenOf Self.Piece) };

    /// The next token, or none at the end of the text.
    fn pull(&mut self) -> Option<Token<Self::Piece>>
        ensures { MatchOption result (left self.old ≡ []) (λ t. left self.old ≡ token_of t ∷ left self.new) };
}

/// A text of a grammar: the state after its events, the faults of its tokens, and the tree that they denote.
pub trait Text {
    type Piece: Copy;

    type Kind: Copy;

    type Made;

    // the trees that texts denote; the text's grammar, its fold and its faults; what is known of the events so far, the
    // last one first; and whether a result represents a tree
    ghost Tree: { Type 0 };

    ghost text_of: { Self → TextOf Self.Piece Tree Self.Kind };

    ghost Knows: { Self → List (Event Self.Piece) → Type 0 };

    ghost Makes: { Self.Made → Tree → Type 0 };

    /// The class of a piece.
    fn class(&self, piece: Self::Piece) -> u32
        ensures { result ≡ (text_of self.now).grammar.class_of piece };

    /// Does the action of a mark.
    ///
    /// # Errors
    ///
    /// `AllocError` if an allocation fails.
    fn did(&mut self, mark: u32) -> Result<(), AllocError>
        ensures same { text_of self.new ≡ text_of self.old }
        ensures known { OnOk result ((es : List (Event Self.Piece)) → Knows self.old es
            → Knows self.new (Did mark ∷ es)) };

    /// Reads a token and returns its first fault, or `None` if it has none. The result is required for each token,
    /// whether it can follow or not.
    ///
    /// # Errors
    ///
    /// `AllocError` if an allocation fails.
    fn take(&mut self, token: Token<Self::Piece>) -> Result<Option<Fault<Self::Kind>>, AllocError>
        ensures same { text_of self.new ≡ text_of self.old }
        ensures known { OnOk result ((es : List (Event Self.Piece)) → Knows self.old es
            → Knows self.new (Read token.piece ∷ es)) }
        ensures shown { IfOk result (λ shown. (es : List (Event Self.Piece)) → Knows self.old es
            → fault_of shown ≡ first_shown (text_of self.old) None ((text_of self.old).faults es (token_of token))) };

    /// The position before which no more faults are shown, if the next token is at this one.
    fn floor(&self, at: u64) -> u64
        ensures { (es : List (Event Self.Piece)) → Knows self.now es → result ≡ (text_of self.now).floor es at };

    /// The number of a kind: of two faults at one position the one with the lesser number is reported.
    fn number(&self, kind: Self::Kind) -> u32
        ensures { result ≡ (text_of self.now).number kind };

    /// The kind of refusal for this piece, which can't follow, or for a text that ends too early.
    fn stop_kind(&self, piece: Option<Self::Piece>) -> Self::Kind
        ensures { result ≡ (text_of self.now).stop_kind piece };

    /// The result of a whole text.
    ///
    /// # Errors
    ///
    /// `AllocError` if an allocation fails.
    fn finish(self) -> Result<Self::Made, AllocError>
        ensures { (es : List (Event Self.Piece)) → Knows self es
            → IfOk result (λ made. Makes made ((text_of self).value (onto es []))) };
}
