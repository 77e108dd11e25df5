//! Polynomials as expressions, and their comparison.

ghost use Rattle.std.specs.Prelude.{◌≡◌, ◌≤◌, IfOk};
ghost use Rattle.poly_terms.specs.Views.{term_of, monomial_of, monomials_of, poly_of};
ghost use Rattle.signed_bounds.specs.Limits.{constant_limit};
ghost use Rattle.signed_bounds.specs.Safe.{expands_to_squares as expands};
ghost use Rattle.signed_bounds.specs.Fits.{product_term, polynomial_term, weighted_difference, is_below as lies_below};
ghost use Rattle.signed_within.specs.Terms.{monomial_term, weighted_term};

use crate::squares::expands_to_squares;
use poly_terms::{Expr, Memory, Monomial, Poly};
use signed_bounds::CONSTANT_LIMIT;
use std::alloc::Global;

// The product of variables as an expression.
fn product_expr(alloc: Global, vars: &[u32]) -> Result<Expr, Memory>
    ensures { IfOk result (λ e. term_of e ≡ product_term vars.now) }
{
    match vars.split_first() {
        None => Ok(Expr::Num(1)),
        Some((v, others)) => {
            let product = product_expr(alloc, others)?;
            Expr::product(alloc, Expr::Var(*v), product)
        }
    }
}

// A monomial as an expression.
fn monomial_expr(alloc: Global, monomial: &Monomial) -> Result<Expr, Memory>
    ensures { IfOk result (λ e. term_of e ≡ monomial_term (monomial_of monomial.now)) }
{
    let product = product_expr(alloc, &monomial.vars)?;
    Expr::product(alloc, Expr::Num(monomial.coef), product)
}

// A sum of monomials as an expression.
fn polynomial_expr(alloc: Global, monomials: &[Monomial]) -> Result<Expr, Memory>
    ensures { IfOk result (λ e. term_of e ≡ polynomial_term (monomials_of monomials.now)) }
{
    match monomials.split_first() {
        None => Ok(Expr::Num(0)),
        Some((first, others)) => {
            let sum = polynomial_expr(alloc, others)?;
            let monomial = monomial_expr(alloc, first)?;
            Expr::sum(alloc, monomial, sum)
        }
    }
}

// A polynomial times a number as an expression.
fn weighted_expr(alloc: Global, times: u128, p: &Poly) -> Result<Expr, Memory>
    requires { times ≤ constant_limit }
    ensures { IfOk result (λ e. term_of e ≡ weighted_term times (poly_of p.now)) }
{
    let polynomial = polynomial_expr(alloc, &p.terms)?;
    Expr::product(alloc, Expr::Num(times as i128), polynomial)
}

/// Whether `h` less `f` expands to a sum of squares.
///
/// # Errors
///
/// `Memory` where an allocation fails.
pub fn is_below(alloc: Global, f: &Poly, h: &Poly) -> Result<bool, Memory>
    ensures { IfOk result (λ r. r ≡ lies_below expands (poly_of f.now) (poly_of h.now)) }
{
    let upper = polynomial_expr(alloc, &h.terms)?;
    let lower = polynomial_expr(alloc, &f.terms)?;
    let difference = Expr::difference(alloc, upper, lower)?;
    expands_to_squares(alloc, &difference)
}

/// Whether `m` times `h` less `n` times `f` expands to a sum of squares.
///
/// # Errors
///
/// `Memory` where an allocation fails.
pub fn is_weighted_below(
    alloc: Global,
    n: u128,
    f: &Poly,
    m: u128,
    h: &Poly,
) -> Result<bool, Memory>
    ensures { IfOk result (λ r. r ≡ expands (weighted_difference n (poly_of f.now) m (poly_of h.now))) }
{
    if n > CONSTANT_LIMIT {
        return Ok(false);
    }
    if m > CONSTANT_LIMIT {
        return Ok(false);
    }
    let upper = weighted_expr(alloc, m, h)?;
    let lower = weighted_expr(alloc, n, f)?;
    let difference = Expr::difference(alloc, upper, lower)?;
    expands_to_squares(alloc, &difference)
}
