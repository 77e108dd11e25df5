//! Expands an expression into a polynomial.

ghost use Rattle.std.specs.Prelude.{pos, IfOk};
ghost use Rattle.model.specs.Terms.{Literal, Subtraction};
ghost use Rattle.poly_terms.specs.Expanding.{expanded};
ghost use Rattle.poly_terms.specs.Faults.{first_fault};
ghost use Rattle.poly_terms.specs.Ordered.{IsOrdered, IsSmall};
ghost use Rattle.poly_terms.specs.Laws.{HasTheValueOf};
ghost use Rattle.poly_terms.specs.Views.{term_of, poly_of};
ghost use Rattle.poly_terms.specs.Answers.{Answers};
ghost use Rattle.poly_terms.specs.Operands.{GivesBoth};

use crate::expr::Expr;
use crate::forming::{difference_by_keys, expansion_by_keys};
use crate::leaves::{literal, variable};
use crate::limits::limited;
use crate::poly::Poly;
use crate::poly_error::PolyError;
use crate::power::{power, unit};
use crate::product::limited_product;
use crate::scale::opposite_of;
use crate::sum::limited_sum;
use std::alloc::Global;

/// The expanded polynomial of an expression.
///
/// # Errors
///
/// The fault of the first subexpression that has one: children come before parents, left before right, and the lower
/// powers of a power's base before the power. Of several faults of one subexpression it is the least in the order of
/// `PolyError`. `Memory` if an allocation fails.
pub fn expand(alloc: Global, e: &Expr) -> Result<Poly, PolyError>
    ensures exact { Answers result (first_fault (term_of e.now)) (expanded (term_of e.now)) }
    ensures value { IfOk result (λ p. HasTheValueOf (term_of e.now) (poly_of p)) }
    ensures ordered { IfOk result (λ p. IsOrdered (poly_of p)) }
    ensures small { IfOk result (λ p. IsSmall (poly_of p)) }
{
    whole_expansion(alloc, e)
}

/// The expanded polynomial of the difference of two expressions, as `expand` would return it.
///
/// # Errors
///
/// The errors of `expand`.
pub fn expand_difference(alloc: Global, d: &Expr, e: &Expr) -> Result<Poly, PolyError>
    ensures { let whole = Subtraction (term_of d.now) (term_of e.now) in
        Answers result (first_fault whole) (expanded whole) }
{
    whole_difference(alloc, d, e)
}

/// The expanded polynomial of the difference of two expressions and 1, as `expand` would return it.
///
/// # Errors
///
/// The errors of `expand`.
pub fn expand_strict_difference(alloc: Global, d: &Expr, e: &Expr) -> Result<Poly, PolyError>
    ensures { let strict = Subtraction (Subtraction (term_of d.now) (term_of e.now)) (Literal (pos 1)) in
        Answers result (first_fault strict) (expanded strict) }
{
    match whole_difference(alloc, d, e) {
        Ok(p) => limited_sum(alloc, p, opposite_of(unit(alloc)?)),
        Err(error) => Err(error),
    }
}

// The expanded polynomial of an expression, or its first fault; with packed exponents if everything fits.
fn whole_expansion(alloc: Global, e: &Expr) -> Result<Poly, PolyError>
    ensures { Answers result (first_fault (term_of e.now)) (expanded (term_of e.now)) }
{
    match expansion_by_keys(alloc, e) {
        Ok(Some(p)) => Ok(p),
        Ok(None) => expansion(alloc, e),
        Err(error) => Err(error),
    }
}

// The expanded polynomial of a difference, or its first fault; with packed exponents if everything fits.
fn whole_difference(alloc: Global, d: &Expr, e: &Expr) -> Result<Poly, PolyError>
    ensures { let whole = Subtraction (term_of d.now) (term_of e.now) in
        Answers result (first_fault whole) (expanded whole) }
{
    match difference_by_keys(alloc, d, e) {
        Ok(Some(p)) => Ok(p),
        Ok(None) => difference(alloc, d, e),
        Err(error) => Err(error),
    }
}

// The expanded polynomial of an expression, or its first fault.
#[cycle(expansion)]
fn expansion(alloc: Global, e: &Expr) -> Result<Poly, PolyError>
    ensures { Answers result (first_fault (term_of e.now)) (expanded (term_of e.now)) }
{
    match e {
        Expr::Num(z) => literal(alloc, *z),
        Expr::Var(i) => variable(alloc, *i),
        Expr::Neg(e) => match expansion(alloc, e) {
            Ok(p) => limited(opposite_of(p), 1),
            Err(error) => Err(error),
        },
        Expr::Add(d, e) => match both(alloc, d, e) {
            Ok(pair) => limited_sum(alloc, pair.left, pair.right),
            Err(error) => Err(error),
        },
        Expr::Sub(d, e) => difference(alloc, d, e),
        Expr::Mul(d, e) => match both(alloc, d, e) {
            Ok(pair) => limited_product(alloc, pair.left, pair.right),
            Err(error) => Err(error),
        },
        Expr::Pow(e, exponent) => match expansion(alloc, e) {
            Ok(p) => power(alloc, p, *exponent),
            Err(error) => Err(error),
        },
    }
}

// The expanded polynomial of a difference, or its first fault.
#[cycle(expansion)]
fn difference(alloc: Global, d: &Expr, e: &Expr) -> Result<Poly, PolyError>
    ensures { let whole = Subtraction (term_of d.now) (term_of e.now) in
        Answers result (first_fault whole) (expanded whole) }
{
    match both(alloc, d, e) {
        Ok(pair) => limited_sum(alloc, pair.left, opposite_of(pair.right)),
        Err(error) => Err(error),
    }
}

/// The polynomials of two operands.
#[derive(Drop)]
struct Pair {
    left: Poly,
    right: Poly,
}

// The expanded polynomials of two operands, or the first fault among them.
#[cycle(expansion)]
fn both(alloc: Global, d: &Expr, e: &Expr) -> Result<Pair, PolyError>
    ensures { GivesBoth result (term_of d.now) (term_of e.now) }
{
    match expansion(alloc, d) {
        Ok(left) => match expansion(alloc, e) {
            Ok(right) => Ok(Pair { left, right }),
            Err(error) => Err(error),
        },
        Err(error) => Err(error),
    }
}
