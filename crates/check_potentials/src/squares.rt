//! Rows of squares: the new values of updates that are affine but for a number times the square of a variable, compared
//! with affine expressions that are at most the square.

ghost use Rattle.std.specs.Prelude.{◌≡◌, ◌++◌, map, option_map, IfOk, OnOk};
ghost use Rattle.poly_terms.specs.Views.{term_of, monomial_of, monomials_of, poly_of};
ghost use Rattle.potential_nodes.specs.PolynomialTerms.{form_term};
ghost use Rattle.potential_ground.specs.SquareRows.{is_affine as has_low_degree, affine_part, signed as with_sign};
ghost use Rattle.potential_ground.specs.SquareRows.{square_of as square_of_product, square_in as square_beside, line_term};
ghost use Rattle.potential_ground.specs.SquareRows.{square_row as row_of_square, lines_below, rows_of_update};
ghost use Rattle.potential_ground.specs.SquareRows.{square_rows as rows_of_squares};
ghost use Rattle.check_potentials.specs.Squares.{square_view, line_view};

use crate::expressions::{Unknowns, monomial_expr};
use poly_terms::{Expr, Memory, Monomial, Poly};
use std::alloc::{AllocError, Global};

/// A number times the square of a variable.
#[derive(Clone, Copy)]
pub struct Square {
    pub coef: i128,
    pub variable: u32,
}

/// A slope times a variable, plus an offset.
#[derive(Clone, Copy)]
pub struct Line {
    pub slope: i128,
    pub offset: i128,
}

// Whether a polynomial has degree at most 1.
fn is_affine(monomials: &[Monomial]) -> bool
    ensures { result ≡ has_low_degree (monomials_of monomials.now) }
{
    match monomials.split_first() {
        None => true,
        Some((first, others)) => first.vars.len() < 2 && is_affine(others),
    }
}

// The square that a monomial is, if it is one.
fn square_of(monomial: &Monomial) -> Option<Square>
    ensures { option_map square_view result
        ≡ square_of_product (monomial_of monomial.now).coef (monomial_of monomial.now).vars }
{
    let (first, others) = monomial.vars.split_first()?;
    let (second, more) = others.split_first()?;
    if !more.is_empty() || first != second {
        return None;
    }
    Some(Square {
        coef: monomial.coef,
        variable: *first,
    })
}

// The square without which a polynomial is affine, if there is one.
fn square_in(monomials: &[Monomial]) -> Option<Square>
    ensures { option_map square_view result ≡ square_beside (monomials_of monomials.now) }
{
    let (first, others) = monomials.split_first()?;
    if first.vars.len() < 2 {
        return square_in(others);
    }
    if !is_affine(others) {
        return None;
    }
    square_of(first)
}

// The monomials of degree at most 1 as an expression.
fn affine_expr(alloc: Global, monomials: &[Monomial]) -> Result<Expr, Memory>
    ensures { IfOk result (λ e. term_of e ≡ form_term (affine_part (monomials_of monomials.now))) }
{
    match monomials.split_first() {
        None => Ok(Expr::Num(0)),
        Some((first, others)) => {
            let sum = affine_expr(alloc, others)?;
            if first.vars.len() >= 2 {
                return Ok(sum);
            }
            let monomial = monomial_expr(alloc, Unknowns::Own, first)?;
            Expr::sum(alloc, monomial, sum)
        }
    }
}

// A line over a variable as an expression.
fn line_expr(alloc: Global, variable: u32, line: Line) -> Result<Expr, Memory>
    ensures { IfOk result (λ e. term_of e ≡ line_term variable (line_view line)) }
{
    let product = Expr::product(alloc, Expr::Num(line.slope), Expr::Var(variable))?;
    Expr::sum(alloc, product, Expr::Num(line.offset))
}

// An expression, or its negation if a number is negative.
fn signed(alloc: Global, number: i128, e: Expr) -> Result<Expr, Memory>
    ensures { IfOk result (λ s. term_of s ≡ with_sign number (term_of e)) }
{
    if number < 0 {
        return Expr::negation(alloc, e);
    }
    Ok(e)
}

// The row of an unknown for a line, where the unknown is the affine part of a polynomial plus a square.
fn square_row(
    alloc: Global,
    unknown: u32,
    monomials: &[Monomial],
    square: Square,
    line: Line,
) -> Result<Expr, Memory>
    ensures { IfOk result (λ e. term_of e
        ≡ row_of_square unknown (affine_part (monomials_of monomials.now)) (square_view square) (line_view line)) }
{
    let rest = affine_expr(alloc, monomials)?;
    let over = Expr::difference(alloc, Expr::Var(unknown), rest)?;
    let lower = line_expr(alloc, square.variable, line)?;
    let least = Expr::product(alloc, Expr::Num(square.coef), lower)?;
    let left = Expr::difference(alloc, over, least)?;
    signed(alloc, square.coef, left)
}

// The rows of an unknown for all lines.
fn rows_below(
    alloc: Global,
    unknown: u32,
    monomials: &[Monomial],
    square: Square,
) -> Result<Vec<Expr>, Memory>
    ensures { IfOk result (λ rows. map term_of rows.items
        ≡ map (row_of_square unknown (affine_part (monomials_of monomials.now)) (square_view square)) lines_below) }
{
    let flat = square_row(
        alloc,
        unknown,
        monomials,
        square,
        Line {
            slope: 0,
            offset: 0,
        },
    )?;
    let up = square_row(
        alloc,
        unknown,
        monomials,
        square,
        Line {
            slope: 1,
            offset: 0,
        },
    )?;
    let down = square_row(
        alloc,
        unknown,
        monomials,
        square,
        Line {
            slope: -1,
            offset: 0,
        },
    )?;
    let steep_up = square_row(
        alloc,
        unknown,
        monomials,
        square,
        Line {
            slope: 2,
            offset: -1,
        },
    )?;
    let steep_down = square_row(
        alloc,
        unknown,
        monomials,
        square,
        Line {
            slope: -2,
            offset: -1,
        },
    )?;
    let rows = vec![in alloc; flat, up, down, steep_up, steep_down]?;
    Ok(rows)
}

// Appends the rows of an unknown whose value is that of a polynomial.
fn push_rows_of_update(
    alloc: Global,
    rows: &mut Vec<Expr>,
    unknown: u32,
    update: &Poly,
) -> Result<(), Memory>
    ensures { OnOk result
        (map term_of rows.new.items ≡ map term_of rows.old.items ++ rows_of_update unknown (poly_of update.now)) }
{
    match square_in(&update.terms) {
        None => Ok(()),
        Some(square) => {
            let mut more = rows_below(alloc, unknown, &update.terms, square)?;
            rows.append(&mut more)?;
            Ok(())
        }
    }
}

// Appends the rows of updates, where those of degree 2 or more have the unknowns from a number on; more than 2^32 of
// them count as want of memory.
fn push_square_rows(
    alloc: Global,
    rows: &mut Vec<Expr>,
    unknown: u32,
    updates: &[Poly],
) -> Result<(), Memory>
    ensures { OnOk result
        (map term_of rows.new.items ≡ map term_of rows.old.items ++ rows_of_squares unknown (map poly_of updates.now)) }
{
    match updates.split_first() {
        None => Ok(()),
        Some((first, others)) => {
            if first.degree() <= 1 {
                return push_square_rows(alloc, rows, unknown, others);
            }
            let Some(next) = unknown.checked_add(1) else {
                return Err(AllocError);
            };
            push_rows_of_update(alloc, rows, unknown, first)?;
            push_square_rows(alloc, rows, next, others)
        }
    }
}

/// The rows of squares of updates, where those of degree 2 or more have the unknowns from a number on.
///
/// # Errors
///
/// `Memory` where an allocation fails.
pub(crate) fn square_rows(
    alloc: Global,
    unknown: u32,
    updates: &[Poly],
) -> Result<Vec<Expr>, Memory>
    ensures { IfOk result (λ rows. map term_of rows.items ≡ rows_of_squares unknown (map poly_of updates.now)) }
{
    let mut rows = Vec::new(alloc);
    push_square_rows(alloc, &mut rows, unknown, updates)?;
    Ok(rows)
}
