//! Checks whether side bounds are accepted, by the prepared rows of a rule.

ghost use Rattle.std.specs.Prelude.{◌↔◌, ◌≤◌, ◌<◌, length, map, IfOk, IsTrue};
ghost use Rattle.std.specs.List.{All};
ghost use Rattle.farkas_cert.specs.Sizes.{HasRowNumbers};
ghost use Rattle.poly_terms.specs.Views.{form_of, monomial_of};
ghost use Rattle.poly_terms.specs.linear_forms.Certificates.{Implies};
ghost use Rattle.cert_context.specs.SuitedRows.{SuitsSideBounds};
ghost use Rattle.check_sizes.specs.SideBounds.{HasSideBoundNumbers, HasLinearNumbers, IsSideBoundOver, IsLeftAlone, form_in, side_of};
ghost use Rattle.cert_types.specs.Composing.{optional_poly};
ghost use Rattle.cert_types.specs.Views.{side_bound_of};
ghost use Rattle.cert_types.specs.cert_rules.AcceptsSizes.{ReadsLeft, side_bound_goal};

use crate::side_bound_numbers::LinearSideBound;
use crate::side_bound_rows::side_bound_row;
use cert_types::{SideBound, nonlinear_update};
use farkas_cert::implies;
use guard_prep::RuleRows;
use model::Memory;
use poly_terms::{Monomial, Poly, Row};
use std::alloc::Global;

/// The side of a local bound.
#[derive(Clone, Copy)]
pub(crate) enum Side {
    /// The side of the new value.
    Up,
    /// The side of its negation.
    Low,
}

// Whether all variables are below a number.
fn are_below(variables: &[u32], left: u32) -> bool
    ensures { IsTrue result ↔ All (λ v. v < left) variables.now }
{
    for variable in variables {
        if *variable >= left {
            return false;
        }
    }
    true
}

// Whether monomials have left variables alone.
fn are_left_alone(monomials: &[Monomial], left: u32) -> bool
    ensures { IsTrue result ↔ ReadsLeft left (map monomial_of monomials.now) }
{
    for monomial in monomials {
        let fits = are_below(&monomial.vars, left);
        if !fits {
            return false;
        }
    }
    true
}

// Whether there is a polynomial, and it has left variables alone.
fn is_left_alone(poly: Option<&Poly>, left: u32) -> bool
    ensures { IsTrue result ↔ IsLeftAlone left (optional_poly poly.entry) }
{
    match poly {
        Some(q) => are_left_alone(&q.terms, left),
        None => false,
    }
}

// Whether the rows imply a linear side bound over a new value.
fn implies_side_bound(
    alloc: Global,
    rows: &RuleRows,
    value: &Row,
    side: Side,
    side_bound: &LinearSideBound,
) -> Result<bool, Memory>
    requires suits { SuitsSideBounds rows.now }
    requires numbers { HasLinearNumbers (length rows.now.rows.items) rows.now.left side_bound.now.den (form_in side_bound.now)
        side_bound.now.multipliers.now }
    requires value_small { HasRowNumbers (form_of value.now) }
    requires value_width { length (form_of value.now).coefs ≤ rows.now.unknowns }
    ensures { IfOk result (λ implied. IsTrue implied
        ↔ Implies (map form_of rows.now.rows.items) side_bound.now.multipliers.now
        (side_bound_goal (side_of side) side_bound.now.den (form_in side_bound.now) (form_of value.now))) }
{
    let goal = side_bound_row(alloc, rows.unknowns as usize, side, side_bound, value)?;
    Ok(implies(&rows.rows, side_bound.multipliers, &goal))
}

/// Whether a side bound over the new value at a place, counted from 1, is accepted.
///
/// # Errors
///
/// `Memory` where an allocation fails.
pub(crate) fn accepts_side_bound(
    alloc: Global,
    rows: &RuleRows,
    place: u32,
    side: Side,
    side_bound: &SideBound,
) -> Result<bool, Memory>
    requires suits { SuitsSideBounds rows.now }
    requires numbers { HasSideBoundNumbers (length rows.now.rows.items) rows.now.left (side_bound_of side_bound.now) }
    requires least { 1 ≤ place }
    requires most { place ≤ length rows.now.new_values.items }
    ensures { IfOk result
        (λ accepted. IsTrue accepted ↔ IsSideBoundOver rows.now place (side_of side) (side_bound_of side_bound.now)) }
{
    match side_bound {
        SideBound::Linear {
            den,
            coefs,
            constant,
            multipliers,
        } => {
            let value = &rows.new_values[place as usize - 1];
            let numbers = LinearSideBound {
                den: *den,
                coefs,
                constant: *constant,
                multipliers,
            };
            implies_side_bound(alloc, rows, value, side, &numbers)
        }
        SideBound::Poly => Ok(is_left_alone(nonlinear_update(rows, place as usize - 1), rows.left)),
    }
}
