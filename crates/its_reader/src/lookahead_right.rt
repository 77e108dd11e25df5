//! The faults at the next token of a right term.

ghost use Rattle.std.specs.Prelude.{◌≡◌, ◌&&◌, not, IsTrue, nat_lt, nat_le, length, Some};
ghost use Rattle.text_core.specs.Names.{is_among};
ghost use Rattle.text_core.specs.Reading.{first_among};
ghost use Rattle.its_text.specs.Grammar.{programs};
ghost use Rattle.expr_reader.specs.Variables.{names_in};
ghost use Rattle.expr_reader.specs.GuardParts.{piece_in};
ghost use Rattle.its_reader.specs.Faults.{maybe_fault};
ghost use Rattle.its_reader.specs.Tests.{inner_next};
ghost use Rattle.its_reader.specs.Views.{maybe_of};
ghost use Rattle.its_text.specs.Numbering.{is_com as plain_com};
ghost use Rattle.its_text.specs.StateFaults.{begins, is_open as is_open_next};
ghost use Rattle.its_reader.specs.Views.{words_of};
ghost use Rattle.its_reader.specs.FaultTests.{is_large_row, passes as plain_passes, piece_faults, step_faults};
ghost use Rattle.its_reader.specs.FaultTests.{right_faults};
ghost use Rattle.its_reader.specs.FaultTests.{names_one, names_many, is_one_named, is_many_named, begins_full};
ghost use Rattle.its_reader.specs.FaultTests.{going_if};
ghost use Rattle.its_reader.specs.FaultTests.{is_within, wants_target_name, is_in_argument};
ghost use Rattle.std.specs.List.{list_all};
ghost use Rattle.std.specs.Char.{is_ascii_digit};
ghost use Rattle.its_text.specs.expr_text.Terms.{number_of};
ghost use Rattle.model.specs.Limits.{coefficient_limit, variable_limit, token_limit};
ghost use Rattle.expr_reader.specs.Views.{piece_of as inner_plain};
ghost use Rattle.its_reader.specs.TailSteps.{is_modest as plain_modest};

use crate::draft::RuleDraft;
use crate::error::LimitKind;
use crate::fault::{Fault, Kind};
use crate::lookahead::{Lookahead, first_with_long_name};
use crate::parser_state::TargetState;
use crate::piece::{Piece, inner_of, is_open_bracket_next, word_of};
use expr_reader::{Expression, Piece as Inner};
use model::{COEFFICIENT_LIMIT, PLACE_LIMIT, TOKEN_LIMIT, VARIABLE_LIMIT};
use text_core::value_up_to;

// Whether a name is `Com_` and digits.
fn is_com(name: &[u8]) -> bool
    ensures { result ≡ plain_com name.now }
{
    if name.starts_with(b"Com_") && name.len() > 4 {
        are_digits(&name[4..])
    } else {
        false
    }
}

// Whether the next piece is `Com_1`, and a bracket opens after it.
fn opens_one(lookahead: Lookahead<'_>) -> bool
    ensures { result ≡ (names_one (maybe_of lookahead.entry.next) && is_open_next (maybe_of lookahead.entry.behind)) }
{
    is_one(word_of(lookahead.next)) && is_open_bracket_next(lookahead.behind)
}

fn is_one(name: Option<&[u8]>) -> bool
    ensures { result ≡ is_one_named (words_of name.entry) }
{
    match name {
        Some(name) => name == b"Com_1".as_slice(),
        None => false,
    }
}

// Whether the next piece is `Com_` and other digits, and a bracket opens after it.
fn opens_many(lookahead: Lookahead<'_>) -> bool
    ensures { result ≡ (names_many (maybe_of lookahead.entry.next) && is_open_next (maybe_of lookahead.entry.behind)) }
{
    is_many(word_of(lookahead.next)) && is_open_bracket_next(lookahead.behind)
}

fn is_many(name: Option<&[u8]>) -> bool
    ensures { result ≡ is_many_named (words_of name.entry) }
{
    match name {
        Some(name) => is_com(name) && name != b"Com_1".as_slice(),
        None => false,
    }
}

/// Whether a literal is at most 2^63 - 1.
pub(crate) fn is_modest(piece: Inner<'_>) -> bool
    ensures { result ≡ plain_modest (inner_plain piece.entry) }
{
    match piece {
        Inner::Digits(digits) => are_modest(digits),
        _ => true,
    }
}

fn are_modest(digits: &[u8]) -> bool
    ensures { result ≡ (list_all is_ascii_digit digits.now && not (nat_lt coefficient_limit (number_of digits.now))) }
{
    if are_digits(digits) {
        !exceeds(digits)
    } else {
        false
    }
}

// Whether a literal is over 2^63 - 1.
fn is_large(piece: Inner<'_>) -> bool
    ensures { result ≡ is_large_row (inner_plain piece.entry) }
{
    match piece {
        Inner::Digits(digits) => are_large(digits),
        _ => false,
    }
}

fn are_large(digits: &[u8]) -> bool
    ensures { result ≡ (list_all is_ascii_digit digits.now && nat_lt coefficient_limit (number_of digits.now)) }
{
    if are_digits(digits) {
        exceeds(digits)
    } else {
        false
    }
}

fn are_digits(bytes: &[u8]) -> bool
    ensures { result ≡ list_all is_ascii_digit bytes.now }
{
    bytes.iter().all(|byte| byte.is_ascii_digit())
}

fn exceeds(digits: &[u8]) -> bool
    requires { IsTrue (list_all is_ascii_digit digits.now) }
    ensures { result ≡ nat_lt coefficient_limit (number_of digits.now) }
{
    let behind = COEFFICIENT_LIMIT as u128 + 1;
    value_up_to(behind, digits) == behind
}

/// Whether an expression can begin with a piece.
pub(crate) fn begins_expression(piece: Option<Piece<'_>>) -> bool
    ensures { result ≡ begins (maybe_of piece.entry) }
{
    match piece {
        Some(piece) => piece.begins_expression(),
        None => false,
    }
}

fn is_again(state: TargetState, lookahead: Lookahead<'_>) -> bool
    ensures { result ≡ (is_within state && (names_one (maybe_of lookahead.entry.next) && is_open_next
        (maybe_of lookahead.entry.behind))) }
{
    state.is_within() && opens_one(lookahead)
}

fn has_many(state: TargetState, lookahead: Lookahead<'_>) -> bool
    ensures { result ≡ (wants_target_name state && (names_many (maybe_of lookahead.entry.next) && is_open_next
        (maybe_of lookahead.entry.behind))) }
{
    state.targets() && opens_many(lookahead)
}

impl<'a> RuleDraft<'a> {
    /// The first of a fault so far and those at the next token of a right term.
    pub(crate) fn first_fault_in_right(
        &self,
        best: Option<Fault>,
        state: TargetState,
        lookahead: Lookahead<'a>,
    ) -> Option<Fault>
        ensures { maybe_fault result ≡ first_among programs (maybe_fault best)
            (right_faults state self.now lookahead.entry.at (maybe_of lookahead.entry.next)
            (maybe_of lookahead.entry.behind)) }
    {
        let again = is_again(state, lookahead);
        let repeated = Fault::first_where(best, again, Kind::Syntax, lookahead.at);
        let many = has_many(state, lookahead);
        let targeted = Fault::first_where(repeated, many, Kind::ManyTargets, lookahead.at);
        let full = self.begins_another(state, lookahead.next);
        let counted = Fault::first_where(
            targeted,
            full,
            Kind::Limit(LimitKind::Arity),
            lookahead.at,
        );
        let named = first_with_long_name(counted, lookahead);
        self.first_fault_if_going(named, state.goes(), lookahead)
    }

    // Whether an argument begins although there are as many as the limit allows.
    fn begins_another(&self, state: TargetState, next: Option<Piece<'a>>) -> bool
        ensures { result ≡ (is_in_argument state && begins_full self.now (maybe_of next.entry)) }
    {
        state.reads_argument() && self.begins_full(next)
    }

    fn begins_full(&self, next: Option<Piece<'a>>) -> bool
        ensures { result ≡ begins_full self.now (maybe_of next.entry) }
    {
        self.expression.tokens() == 0
            && self.updates.len() >= PLACE_LIMIT
            && begins_expression(next)
    }

    /// The first of a fault so far and those at a token that continues an argument or a cost, if one is being read.
    pub(crate) fn first_fault_if_going(
        &self,
        best: Option<Fault>,
        going: bool,
        lookahead: Lookahead<'a>,
    ) -> Option<Fault>
        ensures { maybe_fault result ≡ first_among programs (maybe_fault best)
            (going_if going self.now lookahead.entry.at (maybe_of lookahead.entry.next)) }
    {
        if going {
            self.first_fault_going_on(best, &self.expression, false, lookahead)
        } else {
            best
        }
    }

    /// The first of a fault so far and those at a token that continues an expression, and may be the atom that always
    /// holds.
    pub(crate) fn first_fault_going_on(
        &self,
        best: Option<Fault>,
        expression: &Expression,
        truth: bool,
        lookahead: Lookahead<'a>,
    ) -> Option<Fault>
        ensures { maybe_fault result ≡ first_among programs (maybe_fault best)
            (step_faults self.now expression.now truth lookahead.entry.at
            (inner_next (maybe_of lookahead.entry.next))) }
    {
        self.first_fault_of_next(
            best,
            expression,
            truth,
            inner_of(lookahead.next),
            lookahead.at,
        )
    }

    fn first_fault_of_next(
        &self,
        best: Option<Fault>,
        expression: &Expression,
        truth: bool,
        next: Option<Inner<'a>>,
        at: usize,
    ) -> Option<Fault>
        ensures { maybe_fault result ≡ first_among programs (maybe_fault best)
            (step_faults self.now expression.now truth at (piece_in next.entry)) }
    {
        match next {
            Some(piece) => self.first_fault_of_piece(best, expression, truth, piece, at),
            None => best,
        }
    }

    fn first_fault_of_piece(
        &self,
        best: Option<Fault>,
        expression: &Expression,
        truth: bool,
        piece: Inner<'a>,
        at: usize,
    ) -> Option<Fault>
        ensures { maybe_fault result ≡ first_among programs (maybe_fault best)
            (step_faults self.now expression.now truth at (Some (inner_plain piece.entry))) }
    {
        if expression.goes_on_with(piece) {
            self.first_fault_of_inner(best, expression.tokens(), truth, piece, at)
        } else {
            best
        }
    }

    fn first_fault_of_inner(
        &self,
        best: Option<Fault>,
        tokens: usize,
        truth: bool,
        piece: Inner<'a>,
        at: usize,
    ) -> Option<Fault>
        ensures { maybe_fault result ≡ first_among programs (maybe_fault best) (piece_faults self.now tokens truth at
            (inner_plain piece.entry)) }
    {
        let large = is_large(piece);
        let measured = Fault::first_where(best, large, Kind::NumberTooLarge, at);
        let full = self.passes(truth, piece);
        let counted = Fault::first_where(measured, full, Kind::Limit(LimitKind::Variables), at);
        let long = are_many(tokens);
        Fault::first_where(counted, long, Kind::Limit(LimitKind::Tokens), at)
    }

    // Whether a piece is a new variable although 64 others have been read.
    fn passes(&self, truth: bool, piece: Inner<'a>) -> bool
        ensures { result ≡ plain_passes truth self.now (inner_plain piece.entry) }
    {
        match piece {
            Inner::Word(name) => self.passes_named(truth, name),
            _ => false,
        }
    }

    fn passes_named(&self, truth: bool, name: &'a [u8]) -> bool
        ensures { result ≡ (not truth && not (is_among name.now
            (names_in self.now.variables)) && nat_le variable_limit (length (names_in self.now.variables))) }
    {
        !truth && !self.variables.has(name) && self.variables.count() >= VARIABLE_LIMIT
    }
}

// Whether an expression has as many tokens as the limit allows.
fn are_many(tokens: usize) -> bool
    ensures { result ≡ nat_le token_limit tokens }
{
    tokens >= TOKEN_LIMIT
}
