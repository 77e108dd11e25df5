//! Rows and polynomials as expressions.

ghost use Rattle.std.specs.Prelude.{◌≡◌, map, IfOk};
ghost use Rattle.poly_terms.specs.Views.{term_of, monomial_of, monomials_of, form_of};
ghost use Rattle.potential_nodes.specs.PolynomialTerms.{product_term, monomial_term, polynomial_term, form_term};
ghost use Rattle.potential_nodes.specs.PolynomialTerms.{form_after, term_at as term_in};
ghost use Rattle.potential_ground.specs.RowTerms.{coefficients_term, form_expression};
ghost use Rattle.check_potentials.specs.Expressions.{put_of};
ghost use Rattle.check_potentials.specs.Grounds.{row_terms_of, list_terms};

use crate::ground::RowList;
use poly_terms::{Expr, Memory, Monomial, Row};
use program_copies::copied_expr;
use std::alloc::{AllocError, Global};

/// What stands for the variables of a polynomial.
#[derive(Clone, Copy)]
pub(crate) enum Unknowns<'a> {
    /// The variables themselves.
    Own,
    /// New values, a form for each variable, and 0 if there is none.
    New(&'a [Row]),
}

// Coefficients times the variables from a number on; more than 2^32 of them count as want of memory.
fn coefficients_expr(alloc: Global, variable: u32, coefs: &[i128]) -> Result<Expr, Memory>
    ensures { IfOk result (λ e. term_of e ≡ coefficients_term variable coefs.now) }
{
    match coefs.split_first() {
        None => Ok(Expr::Num(0)),
        Some((coef, others)) => {
            let Some(next) = variable.checked_add(1) else {
                return Err(AllocError);
            };
            let sum = coefficients_expr(alloc, next, others)?;
            let product = Expr::product(alloc, Expr::Num(*coef), Expr::Var(variable))?;
            Expr::sum(alloc, product, sum)
        }
    }
}

/// A row as an expression.
///
/// # Errors
///
/// `Memory` where an allocation fails.
pub(crate) fn row_expr(alloc: Global, row: &Row) -> Result<Expr, Memory>
    ensures { IfOk result (λ e. term_of e ≡ form_expression (form_of row.now)) }
{
    let coefficients = coefficients_expr(alloc, 0, &row.coefs)?;
    Expr::sum(alloc, coefficients, Expr::Num(row.constant))
}

// The row with a number as an expression, and 0 if there is none.
fn row_at(alloc: Global, rows: &[Row], number: u32) -> Result<Expr, Memory>
    ensures { IfOk result (λ e. term_of e ≡ term_in (row_terms_of rows.now) number) }
{
    match rows.get(number as usize) {
        Some(row) => row_expr(alloc, row),
        None => Ok(Expr::Num(0)),
    }
}

// The expression at a position, and 0 if there is none.
fn square_at(alloc: Global, squares: &[Expr], position: usize) -> Result<Expr, Memory>
    ensures { IfOk result (λ e. term_of e ≡ term_in (map term_of squares.now) position) }
{
    match squares.get(position) {
        Some(e) => copied_expr(alloc, e),
        None => Ok(Expr::Num(0)),
    }
}

/// The row with a number as an expression, and 0 if there is none.
///
/// # Errors
///
/// `Memory` where an allocation fails.
pub(crate) fn listed_row(alloc: Global, rows: RowList, number: u32) -> Result<Expr, Memory>
    ensures { IfOk result (λ e. term_of e ≡ term_in (list_terms rows.entry) number) }
{
    let position = number as usize;
    if position < rows.prepared.len() {
        return row_at(alloc, rows.prepared, number);
    }
    square_at(alloc, rows.squares, position - rows.prepared.len())
}

// The expression that stands for a variable.
fn unknown_expr(alloc: Global, unknowns: Unknowns, variable: u32) -> Result<Expr, Memory>
    ensures { IfOk result (λ e. term_of e ≡ put_of unknowns.entry variable) }
{
    match unknowns {
        Unknowns::Own => Ok(Expr::Var(variable)),
        Unknowns::New(rows) => row_at(alloc, rows, variable),
    }
}

// A product of variables.
fn product_expr(alloc: Global, unknowns: Unknowns, vars: &[u32]) -> Result<Expr, Memory>
    ensures { IfOk result (λ e. term_of e ≡ product_term (put_of unknowns.entry) vars.now) }
{
    match vars.split_first() {
        None => Ok(Expr::Num(1)),
        Some((variable, others)) => {
            let product = product_expr(alloc, unknowns, others)?;
            let first = unknown_expr(alloc, unknowns, *variable)?;
            Expr::product(alloc, first, product)
        }
    }
}

/// A monomial as an expression.
///
/// # Errors
///
/// `Memory` where an allocation fails.
pub(crate) fn monomial_expr(
    alloc: Global,
    unknowns: Unknowns,
    monomial: &Monomial,
) -> Result<Expr, Memory>
    ensures { IfOk result (λ e. term_of e ≡ monomial_term (put_of unknowns.entry) (monomial_of monomial.now)) }
{
    let product = product_expr(alloc, unknowns, &monomial.vars)?;
    Expr::product(alloc, Expr::Num(monomial.coef), product)
}

// A sum of monomials.
fn polynomial_expr(
    alloc: Global,
    unknowns: Unknowns,
    monomials: &[Monomial],
) -> Result<Expr, Memory>
    ensures { IfOk result (λ e. term_of e ≡ polynomial_term (put_of unknowns.entry) (monomials_of monomials.now)) }
{
    match monomials.split_first() {
        None => Ok(Expr::Num(0)),
        Some((first, others)) => {
            let sum = polynomial_expr(alloc, unknowns, others)?;
            let monomial = monomial_expr(alloc, unknowns, first)?;
            Expr::sum(alloc, monomial, sum)
        }
    }
}

/// A sum of monomials over its own variables as an expression.
///
/// # Errors
///
/// `Memory` where an allocation fails.
pub(crate) fn form_expr(alloc: Global, monomials: &[Monomial]) -> Result<Expr, Memory>
    ensures { IfOk result (λ e. term_of e ≡ form_term (monomials_of monomials.now)) }
{
    polynomial_expr(alloc, Unknowns::Own, monomials)
}

/// A sum of monomials with new values in place of its variables as an expression.
///
/// # Errors
///
/// `Memory` where an allocation fails.
pub(crate) fn form_after_expr(
    alloc: Global,
    new_values: &[Row],
    monomials: &[Monomial],
) -> Result<Expr, Memory>
    ensures { IfOk result (λ e. term_of e ≡ form_after (row_terms_of new_values.now) (monomials_of monomials.now)) }
{
    polynomial_expr(alloc, Unknowns::New(new_values), monomials)
}
