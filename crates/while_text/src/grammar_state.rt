//! Expressions that are being read, token by token.

ghost use Rattle.std.specs.Prelude.{◌≡◌, IfOk, OnOk};
ghost use Rattle.poly_terms.specs.Views.{term_of};
ghost use Rattle.expr_reader.specs.Views.{grammar_state_of};
ghost use Rattle.while_text.specs.Drafts.{state_after, with_minus, no_state, term_of as term_of_state};

use crate::piece::Sort;
use expr_reader::Expression;
use poly_terms::{Expr, Memory};
use std::alloc::Global;
use std::mem::replace;

/// The state of reading an expression before its first token.
pub fn no_expression(alloc: Global) -> Expression
    ensures { grammar_state_of result ≡ no_state }
{
    Expression::new(alloc)
}

/// Reads a token of an expression; if it is a name, it is the variable with this number.
///
/// # Errors
///
/// `Memory` if an allocation fails.
#[tactic(auto, using(crate::proofs::GrammarStates::closes_is, crate::proofs::GrammarStates::stays_is))]
pub fn read_token(
    alloc: Global,
    expression: &mut Expression,
    variable: u32,
    sort: Sort,
) -> Result<(), Memory>
    ensures { OnOk result (grammar_state_of expression.new ≡ state_after variable sort (grammar_state_of expression.old)) }
{
    match sort {
        Sort::Name => expression.take_variable(variable),
        Sort::Number(value) => expression.take_value(value),
        Sort::Open => expression.open_bracket()?,
        Sort::Close => expression.close_bracket(alloc)?,
        Sort::Plus => expression.take_plus(alloc)?,
        Sort::Minus => read_minus(alloc, expression)?,
        Sort::Times => expression.take_times(alloc)?,
        Sort::Caret => expression.take_caret(),
        _ => {}
    }
    Ok(())
}

// Reads a `-`.
fn read_minus(alloc: Global, expression: &mut Expression) -> Result<(), Memory>
    ensures { OnOk result (grammar_state_of expression.new ≡ with_minus (grammar_state_of expression.old)) }
{
    if expression.level.minuses < u32::MAX {
        expression.take_minus(alloc)?;
    }
    Ok(())
}

/// Returns the expression that ends here, and leaves the state before a first token.
///
/// # Errors
///
/// `Memory` if an allocation fails.
pub fn ended(alloc: Global, expression: &mut Expression) -> Result<Expr, Memory>
    ensures made { IfOk result (λ made. term_of made ≡ term_of_state (grammar_state_of expression.old)) }
    ensures begun { OnOk result (grammar_state_of expression.new ≡ no_state) }
{
    let mut whole = replace(expression, Expression::new(alloc));
    whole.finish(alloc)
}
