//! Texts in bytes: what each of them supplies, and the parser state in which their numbers are spelled.

ghost use Rattle.std.specs.Prelude.{◌≡◌, ◌<◌, ◌^◌, ℕ, List, [], ◌∷◌, length, IfOk, OnOk};
ghost use Rattle.text_grammar.specs.ByteTexts.{ByteText as ByteTextOf, class_of as class_at, fold_of, fresh, texts_of};
ghost use Rattle.text_grammar.specs.ByteTexts.{fault_of_in, fault_of_feed as fault_of_feed_in};
ghost use Rattle.text_grammar.specs.ByteTexts.{fault_of_other as fault_of_other_in};
ghost use Rattle.text_grammar.specs.declared.numeral.NumberContext.TheVariants.{Words};
ghost use Rattle.text_grammar.specs.CodeBytes.{numeral_of};
ghost use Rattle.text_grammar.specs.Folds.{state};
ghost use Rattle.text_grammar.specs.Grammars.{Event, Read};
ghost use Rattle.text_grammar.specs.Marks.{fault_of, token_of};
ghost use Rattle.text_grammar.specs.Texts.{first_shown};

use crate::bytes::{
    LINE_BEGINS, LINE_READ, LINE_VALUE_LIMIT, NATURAL_BEGINS, NATURAL_READ, SIGNED_BEGINS,
    SIGNED_READ, VALUE_BEGINS, VALUE_READ, with_sign,
};
use crate::numeral::{NumberContext, Numeral};
use crate::text::Text;
use crate::token::{Fault, Token};
use std::alloc::{AllocError, Global};
use std::mem::replace;

/// A text in bytes: its state after natural numbers, signed numbers, lines of values and marks of its own; the faults
/// of these and of single bytes; and its tree. Values reach it only in lines, and each is at most `LINE_VALUE_LIMIT` in
/// absolute value. At the line feed that ends a line of values, `fault_of_line` is called and `fault_of_byte` isn't.
/// `fault_of_byte` is called at each `-` and at each blank, also at those within numbers and lines.
pub trait ByteText {
    type Kind: Copy;

    type Made;

    // the trees that texts denote, and the states of a text; the plain text and its state; and the tree that a result
    // represents
    ghost Tree: { Type 0 };

    ghost Own: { Type 0 };

    ghost bytes_of: { Self → ByteTextOf Own Tree Self.Kind };

    ghost own_of: { Self → Own };

    ghost tree_in: { Self.Made → Tree };

    /// The class of a byte.
    fn class(&self, byte: u8) -> u32
        ensures { result ≡ class_at (bytes_of self.now).letters byte };

    /// Reads a natural number.
    ///
    /// # Errors
    ///
    /// `AllocError` if an allocation fails.
    fn natural(&mut self, number: u128) -> Result<(), AllocError>
        ensures same { bytes_of self.new ≡ bytes_of self.old }
        ensures known { OnOk result (own_of self.new ≡ (bytes_of self.old).natural number (own_of self.old)) };

    /// Reads a signed number.
    ///
    /// # Errors
    ///
    /// `AllocError` if an allocation fails.
    fn signed(&mut self, number: i128) -> Result<(), AllocError>
        ensures same { bytes_of self.new ≡ bytes_of self.old }
        ensures known { OnOk result (own_of self.new ≡ (bytes_of self.old).signed number (own_of self.old)) };

    /// Reads a line of values.
    ///
    /// # Errors
    ///
    /// `AllocError` if an allocation fails.
    fn line(&mut self, values: Vec<i128>) -> Result<(), AllocError>
        ensures same { bytes_of self.new ≡ bytes_of self.old }
        ensures known { OnOk result (own_of self.new ≡ (bytes_of self.old).line values.items (own_of self.old)) };

    /// Does a mark of the text's own, one that isn't a mark of numbers.
    ///
    /// # Errors
    ///
    /// `AllocError` if an allocation fails.
    fn done(&mut self, mark: u32) -> Result<(), AllocError>
        ensures same { bytes_of self.new ≡ bytes_of self.old }
        ensures known { OnOk result (own_of self.new ≡ (bytes_of self.old).done mark (own_of self.old)) };

    /// The fault of a natural number of this value, if it has one.
    fn fault_of_natural(&self, number: u128) -> Option<Self::Kind>
        ensures { result ≡ (bytes_of self.now).fault_of_natural (own_of self.now) number };

    /// The fault of a signed number of this value, if it has one. It is reported at the number's first byte, which is
    /// its `-` if it has one. The function is called at each digit, with the number read so far.
    fn fault_of_signed(&self, number: i128) -> Option<Self::Kind>
        ensures { result ≡ (bytes_of self.now).fault_of_signed (own_of self.now) number };

    /// The fault of a line with this many values, if it has one.
    fn fault_of_line(&self, values: usize) -> Option<Self::Kind>
        ensures { result ≡ (bytes_of self.now).fault_of_line (own_of self.now) values };

    /// The fault of a byte that isn't a digit and doesn't end a line of values, if it has one.
    fn fault_of_byte(&self, byte: u8) -> Option<Self::Kind>
        ensures { result ≡ (bytes_of self.now).fault_of_byte (own_of self.now) byte };

    /// The number of a kind: of two faults at one position the one with the lesser number is reported.
    fn number(&self, kind: Self::Kind) -> u32
        ensures { result ≡ (bytes_of self.now).number kind };

    /// The kind of refusal for a byte that can't follow, or for a text that ends too early.
    fn syntax(&self) -> Self::Kind
        ensures { result ≡ (bytes_of self.now).syntax };

    /// The kind of refusal for a value over 2^63-1 in absolute value.
    fn too_large(&self) -> Self::Kind
        ensures { result ≡ (bytes_of self.now).too_large };

    /// The result of a whole text.
    ///
    /// # Errors
    ///
    /// `AllocError` if an allocation fails.
    fn finish(self) -> Result<Self::Made, AllocError>
        ensures { IfOk result (λ made. tree_in made ≡ (bytes_of self).tree (own_of self)) };
}

/// The parser state of a text in bytes: the number being spelled, its context, and the values of the line so far.
#[derive(Drop)]
pub struct Spelling<X> {
    alloc: Global,
    text: X,
    numeral: Numeral,
    within: NumberContext,
    values: Vec<i128>,
}

impl<X: ByteText> Spelling<X> {
    /// The state in which no byte has been read.
    pub fn new(alloc: Global, text: X) -> Spelling<X>
        ensures text { result.text ≡ text }
        ensures numeral { numeral_of result.numeral ≡ fresh }
        ensures within { result.within ≡ Words }
        ensures values { result.values.items ≡ [] }
    {
        Spelling {
            alloc,
            text,
            numeral: Numeral::new(),
            within: NumberContext::Words,
            values: Vec::new(alloc),
        }
    }

    // The fault of a number of this value, if it has one.
    fn fault_of_number(&self, number: u128) -> Option<X::Kind>
        requires { number < 2 ^ 127 }
        ensures { result ≡ fault_of_in (X.bytes_of self.now.text) self.now.within (X.own_of self.now.text)
            self.now.numeral.negative number }
    {
        match self.within {
            NumberContext::Natural => self.text.fault_of_natural(number),
            NumberContext::Signed => {
                let value = with_sign(self.numeral.negative, number);
                self.text.fault_of_signed(value)
            }
            _ if number > LINE_VALUE_LIMIT => Some(self.text.too_large()),
            _ => None,
        }
    }

    // The fault of a line feed, if it has one.
    fn fault_of_feed(&self) -> Option<X::Kind>
        ensures { result ≡ fault_of_feed_in (X.bytes_of self.now.text) self.now.within (X.own_of self.now.text)
            (length self.now.values.items) }
    {
        match self.within {
            NumberContext::Line => self.text.fault_of_line(self.values.len()),
            _ => self.text.fault_of_byte(b'\n'),
        }
    }

    // The fault of a byte that isn't a digit, if it has one.
    fn fault_of_other(&self, byte: u8) -> Option<X::Kind>
        ensures { result ≡ fault_of_other_in (X.bytes_of self.now.text) self.now.within (X.own_of self.now.text)
            (length self.now.values.items) byte }
    {
        match byte {
            b'\n' => self.fault_of_feed(),
            _ => self.text.fault_of_byte(byte),
        }
    }

    // The fault of a byte that can follow, if it has one.
    fn reported_fault(&self, token: Token<u8>) -> Option<Fault<X::Kind>>
        ensures { (es : List (Event ℕ))
            → record {
              own = X.own_of self.now.text;
              numeral = numeral_of self.now.numeral;
              within = self.now.within;
              values = self.now.values.items;
            } ≡ state (fold_of (X.bytes_of self.now.text)) es
            → fault_of result ≡ first_shown (texts_of (X.bytes_of self.now.text)) None
            ((texts_of (X.bytes_of self.now.text)).faults es (token_of token)) }
    {
        if token.piece.is_ascii_digit() {
            let number = self.numeral.more(token.piece);
            let at = self.numeral.begins_at(token.at);
            return match self.fault_of_number(number) {
                Some(kind) => Some(Fault { kind, at }),
                None => None,
            };
        }
        match self.fault_of_other(token.piece) {
            Some(kind) => Some(Fault { kind, at: token.at }),
            None => None,
        }
    }
}

impl<X: ByteText> Text for Spelling<X> {
    type Piece = u8;

    type Kind = X::Kind;

    type Made = X::Made;

    ghost Tree = { X.Tree };

    ghost text_of = { λ s. texts_of (X.bytes_of s.text) };

    ghost Knows = { λ s es.
        record {
          own = X.own_of s.text;
          numeral = numeral_of s.numeral;
          within = s.within;
          values = s.values.items;
        } ≡ state (fold_of (X.bytes_of s.text)) es };

    ghost Makes = { λ made t. X.tree_in made ≡ t };

    fn class(&self, piece: u8) -> u32 {
        self.text.class(piece)
    }

    fn did(&mut self, mark: u32) -> Result<(), AllocError> {
        match mark {
            VALUE_BEGINS => self.numeral = Numeral::new(),
            VALUE_READ => {
                let value = self.numeral.value();
                self.values.push(value)?;
                self.numeral = Numeral::new();
            }
            NATURAL_READ => {
                self.text.natural(self.numeral.number)?;
                self.numeral = Numeral::new();
                self.within = NumberContext::Words;
            }
            NATURAL_BEGINS => {
                self.numeral = Numeral::new();
                self.within = NumberContext::Natural;
            }
            SIGNED_READ => {
                let value = self.numeral.value();
                self.text.signed(value)?;
                self.numeral = Numeral::new();
                self.within = NumberContext::Words;
            }
            SIGNED_BEGINS => {
                self.numeral = Numeral::new();
                self.within = NumberContext::Signed;
            }
            LINE_BEGINS => {
                self.numeral = Numeral::new();
                self.within = NumberContext::Line;
                self.values.clear();
            }
            LINE_READ => {
                let values = replace(&mut self.values, Vec::new(self.alloc));
                self.text.line(values)?;
                self.numeral = Numeral::new();
                self.within = NumberContext::Words;
            }
            _ => self.text.done(mark)?,
        }
        Ok(())
    }

    fn take(&mut self, token: Token<u8>) -> Result<Option<Fault<X::Kind>>, AllocError>
        ensures same { texts_of (X.bytes_of self.new.text) ≡ texts_of (X.bytes_of self.old.text) }
        ensures known { OnOk result ((es : List (Event ℕ))
            → record {
              own = X.own_of self.old.text;
              numeral = numeral_of self.old.numeral;
              within = self.old.within;
              values = self.old.values.items;
            } ≡ state (fold_of (X.bytes_of self.old.text)) es
            → record {
              own = X.own_of self.new.text;
              numeral = numeral_of self.new.numeral;
              within = self.new.within;
              values = self.new.values.items;
            } ≡ state (fold_of (X.bytes_of self.new.text)) (Read token.piece ∷ es)) }
        ensures shown { IfOk result (λ shown. (es : List (Event ℕ))
            → record {
              own = X.own_of self.old.text;
              numeral = numeral_of self.old.numeral;
              within = self.old.within;
              values = self.old.values.items;
            } ≡ state (fold_of (X.bytes_of self.old.text)) es
            → fault_of shown ≡ first_shown (texts_of (X.bytes_of self.old.text)) None
            ((texts_of (X.bytes_of self.old.text)).faults es (token_of token))) }
    {
        let shown = self.reported_fault(token);
        self.numeral.take(token.piece);
        Ok(shown)
    }

    fn floor(&self, at: u64) -> u64 {
        self.numeral.begins_at(at)
    }

    fn number(&self, kind: X::Kind) -> u32 {
        self.text.number(kind)
    }

    fn stop_kind(&self, piece: Option<u8>) -> X::Kind
        ensures { result ≡ (texts_of (X.bytes_of self.now.text)).stop_kind piece }
    {
        let _piece = piece;
        self.text.syntax()
    }

    fn finish(self) -> Result<X::Made, AllocError> {
        self.text.finish()
    }
}
