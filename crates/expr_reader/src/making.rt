//! Builds the factor, the product and the sum of a level when an operand ends.

ghost use Rattle.std.specs.Prelude.{◌≡◌, IfOk};
ghost use Rattle.poly_terms.specs.Views.{term_of};
ghost use Rattle.expr_text.specs.TermGrammarStates as terms;
ghost use Rattle.expr_reader.specs.Views.{summed_of, factored_of, level_of, operand_of};

use crate::Memory;
use crate::expression::{Factored, Level, Operand, Summed};
use poly_terms::Expr;
use std::alloc::Global;

/// A level with no part before its operand.
pub fn empty_level() -> Level
    ensures { level_of result ≡ terms.empty_level }
{
    Level {
        sum: Summed::NoSum,
        product: Factored::NoProduct,
        minuses: 0,
    }
}

/// Negates an expression this many times.
///
/// # Errors
///
/// `Memory` if an allocation fails.
pub fn negated(alloc: Global, minuses: u32, e: Expr) -> Result<Expr, Memory>
    ensures { IfOk result (λ made. term_of made ≡ terms.negated minuses (term_of e)) }
{
    let mut made = e;
    let mut left = minuses;
    while left > 0 {
        made = Expr::negation(alloc, made)?;
        left -= 1;
    }
    Ok(made)
}

/// The product that is complete with its last factor.
///
/// # Errors
///
/// `Memory` if an allocation fails.
pub fn product_with(alloc: Global, product: Factored, factor: Expr) -> Result<Expr, Memory>
    ensures { IfOk result (λ made. term_of made ≡ terms.product_with (factored_of product) (term_of factor)) }
{
    match product {
        Factored::NoProduct => Ok(factor),
        Factored::TimesAfter(before) => Expr::product(alloc, before, factor),
    }
}

/// The sum that is complete with its last product.
///
/// # Errors
///
/// `Memory` if an allocation fails.
pub fn sum_with(alloc: Global, sum: Summed, product: Expr) -> Result<Expr, Memory>
    ensures { IfOk result (λ made. term_of made ≡ terms.sum_with (summed_of sum) (term_of product)) }
{
    match sum {
        Summed::NoSum => Ok(product),
        Summed::PlusAfter(before) => Expr::sum(alloc, before, product),
        Summed::MinusAfter(before) => Expr::difference(alloc, before, product),
    }
}

/// The factor that a base, or a base with its exponent, is.
///
/// # Errors
///
/// `Memory` if an allocation fails.
pub fn factor_of(alloc: Global, operand: Operand) -> Result<Expr, Memory>
    ensures { IfOk result (λ made. term_of made ≡ terms.factor_in (operand_of operand)) }
{
    match operand {
        Operand::Wanted => Ok(Expr::Num(0)),
        Operand::BaseRead(e) => Ok(e),
        Operand::CaretRead(e) => Ok(e),
        Operand::ExponentRead(e, exponent) => Expr::power(alloc, e, exponent),
    }
}
