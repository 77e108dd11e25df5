//! The state of parsing an expression: a stack with the parts before each open bracket.

ghost use Rattle.std.specs.Prelude.{◌≡◌, ◌-◌, ◌^◌, ◌<◌, ◌&&◌, IfOk, OnOk, IsTrue, length};
ghost use Rattle.std.specs.List.{list_all};
ghost use Rattle.std.specs.Char.{is_ascii_digit};
ghost use Rattle.model.specs.Terms.{Variable};
ghost use Rattle.text_core.specs.Names.{position_of};
ghost use Rattle.poly_terms.specs.Views.{term_of};
ghost use Rattle.expr_text.specs.TermGrammarStates as terms;
ghost use Rattle.expr_text.specs.Terms.{with_name};
ghost use Rattle.expr_reader.specs.Variables.{names_in};
ghost use Rattle.expr_reader.specs.StateSteps.{StepsTo, with_piece};
ghost use Rattle.expr_reader.specs.Standing.{Leads, Ends, Clears, IsFresh, HasRoom};
ghost use Rattle.expr_reader.specs.Views.{operand_of, grammar_state_of, piece_of, term_in};

use crate::Memory;
use crate::making::empty_level;
use crate::piece::Piece;
use crate::variables::Variables;
use model::COEFFICIENT_LIMIT;
use poly_terms::Expr;
use std::alloc::Global;
use text_core::value_up_to;

/// The part before a product inside its brackets.
#[derive(Drop)]
pub enum Summed {
    NoSum,
    PlusAfter(Expr),
    MinusAfter(Expr),
}

/// The part before a factor in its product.
#[derive(Drop)]
pub enum Factored {
    NoProduct,
    TimesAfter(Expr),
}

/// The parts before an operand inside its brackets: a sum, a product, and a number of `-`.
#[derive(Drop)]
pub struct Level {
    pub sum: Summed,
    pub product: Factored,
    pub minuses: u32,
}

/// The part of an operand that was read last: nothing, a base, its `^`, or a base and its exponent.
#[derive(Drop)]
pub enum Operand {
    Wanted,
    BaseRead(Expr),
    CaretRead(Expr),
    ExponentRead(Expr, u32),
}

/// The part of an expression that has been read.
#[derive(Drop)]
pub struct Expression {
    /// The parts before each open bracket, the innermost last.
    pub outer: Vec<Level>,
    pub level: Level,
    pub operand: Operand,
    pub tokens: usize,
}

// Whether each byte is a digit.
fn are_digits(bytes: &[u8]) -> bool
    ensures { result ≡ list_all is_ascii_digit bytes.now }
{
    bytes.iter().all(|byte| byte.is_ascii_digit())
}

impl Expression {
    /// The state in which nothing has been read.
    pub fn new(alloc: Global) -> Expression
        ensures { IsFresh result }
    {
        Expression {
            outer: Vec::new(alloc),
            level: empty_level(),
            operand: Operand::Wanted,
            tokens: 0,
        }
    }

    /// How many tokens have been read.
    pub fn tokens(&self) -> usize
        ensures { result ≡ self.now.tokens }
    {
        self.tokens
    }

    // Whether a factor has been read.
    fn has_factor(&self) -> bool
        ensures { result ≡ terms.has_factor (grammar_state_of self.now).operand }
    {
        match &self.operand {
            Operand::Wanted => false,
            Operand::BaseRead(_) => true,
            Operand::CaretRead(_) => false,
            Operand::ExponentRead(_, _) => true,
        }
    }

    /// Whether the expression can end here.
    pub fn can_end(&self) -> bool
        ensures { result
            ≡ (terms.is_empty (grammar_state_of self.now).outer && terms.has_factor (grammar_state_of self.now).operand) }
    {
        self.outer.is_empty() && self.has_factor()
    }

    /// Whether a piece continues the expression.
    pub fn goes_on_with(&self, piece: Piece<'_>) -> bool
        ensures { result
            ≡ terms.goes_on_from (grammar_state_of self.now).outer (grammar_state_of self.now).operand (piece_of piece.entry) }
    {
        match &self.operand {
            Operand::Wanted => piece.begins_expression(),
            Operand::CaretRead(_) => matches!(piece, Piece::Digits(_)),
            Operand::BaseRead(_) => match piece {
                Piece::Caret => true,
                _ => self.goes_on_behind(piece),
            },
            Operand::ExponentRead(_, _) => self.goes_on_behind(piece),
        }
    }

    // Whether a piece continues the expression after a factor.
    fn goes_on_behind(&self, piece: Piece<'_>) -> bool
        ensures { result ≡ terms.goes_on_behind (grammar_state_of self.now).outer (piece_of piece.entry) }
    {
        match piece {
            Piece::Plus | Piece::Minus | Piece::Times => true,
            Piece::Close => !self.outer.is_empty(),
            _ => false,
        }
    }

    /// Takes the next piece, if it continues the expression.
    ///
    /// # Errors
    ///
    /// `Memory` if an allocation fails.
    pub fn take<'a>(
        &mut self,
        alloc: Global,
        variables: &mut Variables<'a>,
        piece: Piece<'a>,
    ) -> Result<(), Memory>
        requires { HasRoom (names_in variables.old) self.old }
        ensures { OnOk result (Leads (names_in variables.old) self.old (piece_of piece.entry)
            (names_in variables.new) self.new) }
    {
        let tokens = self.tokens + 1;
        self.take_piece(alloc, variables, piece)?;
        self.tokens = tokens;
        Ok(())
    }

    fn take_piece<'a>(
        &mut self,
        alloc: Global,
        variables: &mut Variables<'a>,
        piece: Piece<'a>,
    ) -> Result<(), Memory>
        requires room { self.old.level.minuses < 2 ^ 32 - 1 }
        requires few { length (names_in variables.old) < 2 ^ 32 }
        ensures moves { OnOk result (StepsTo (names_in variables.old) (grammar_state_of self.old) (piece_of piece.entry)
            (grammar_state_of self.new)) }
        ensures names { OnOk result (names_in variables.new
            ≡ with_piece (names_in variables.old) (piece_of piece.entry)) }
    {
        match piece {
            Piece::Word(name) => self.take_word(variables, name),
            Piece::Digits(digits) => {
                self.take_number(digits);
                Ok(())
            }
            Piece::Open => self.open_bracket(),
            Piece::Minus => self.take_minus(alloc),
            Piece::Plus => self.take_plus(alloc),
            Piece::Times => self.take_times(alloc),
            Piece::Caret => {
                self.take_caret();
                Ok(())
            }
            Piece::Close => self.close_bracket(alloc),
            Piece::Related(_) => Ok(()),
            Piece::Joining(_) => Ok(()),
        }
    }

    // Takes a name: its variable is the operand.
    fn take_word<'a>(&mut self, variables: &mut Variables<'a>, name: &'a [u8]) -> Result<(), Memory>
        requires { length (names_in variables.old) < 2 ^ 32 }
        ensures operand { OnOk result (operand_of self.new.operand
            ≡ terms.BaseRead (Variable (position_of name.now (names_in variables.old)))) }
        ensures names { OnOk result (names_in variables.new ≡ with_name (names_in variables.old) name.now) }
        ensures level { self.new.level ≡ self.old.level }
        ensures outer { self.new.outer ≡ self.old.outer }
    {
        let number = variables.number(name)?;
        self.take_variable(number as u32);
        Ok(())
    }

    // Takes digits as bytes of the text.
    fn take_number(&mut self, digits: &[u8])
        ensures operand { IsTrue (list_all is_ascii_digit digits.now)
            → operand_of self.new.operand ≡ terms.with_digits (operand_of self.old.operand) digits.now }
        ensures level { self.new.level ≡ self.old.level }
        ensures outer { self.new.outer ≡ self.old.outer }
    {
        if are_digits(digits) {
            self.take_digits(digits);
        }
    }

    // Takes digits: an exponent if they follow `^`, else a number.
    fn take_digits(&mut self, digits: &[u8])
        requires { IsTrue (list_all is_ascii_digit digits.now) }
        ensures operand { operand_of self.new.operand ≡ terms.with_digits (operand_of self.old.operand) digits.now }
        ensures level { self.new.level ≡ self.old.level }
        ensures outer { self.new.outer ≡ self.old.outer }
    {
        self.take_value(value_up_to(u128::from(COEFFICIENT_LIMIT) + 1, digits));
    }

    /// Returns the expression that ends here, and resets the state to that in which nothing has been read.
    ///
    /// # Errors
    ///
    /// `Memory` if an allocation fails.
    pub fn finish(&mut self, alloc: Global) -> Result<Expr, Memory>
        ensures ends { IfOk result (λ made. Ends self.old (term_of made)) }
        ensures made { IfOk result (λ made. term_of made ≡ term_in self.old) }
        ensures clears { OnOk result (Clears self.old self.new) }
    {
        let sum = self.sum_made(alloc)?;
        self.tokens = 0;
        Ok(sum)
    }
}
