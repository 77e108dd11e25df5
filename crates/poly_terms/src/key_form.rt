//! Expressions in packed exponents: the form of a literal, a variable, a negation, a sum, a difference, a product or a
//! power, given those of the operands, if everything fits.

ghost use Rattle.std.specs.Prelude.{◌≡◌, ◌≤◌, ◌+◌, ◌*◌, ℕ, true, IfOk, List, map};
ghost use Rattle.model.specs.Limits.{degree_limit};
ghost use Rattle.model.specs.Polynomials.{degree_of};
ghost use Rattle.model.specs.Terms.{Term, Literal, Variable, Negation, Addition, Subtraction, Multiplication};
ghost use Rattle.model.specs.Terms.{Exponentiation};
ghost use Rattle.poly_terms.specs.KeyForms.{HasDegree, IsExpansionOf, IsWithinLimits, RepresentsTerm, RepresentsSomeTerm};
ghost use Rattle.poly_terms.specs.Keys.{ascend_from, monomials_at, opposite_at};
ghost use Rattle.poly_terms.specs.Views.{poly_of};

use crate::key_degree::list_degree;
use crate::key_error::KeyError;
use crate::key_power::{is_modest, power_of_list};
use crate::key_product::{product_of_lists, with_row};
use crate::keyed::{Keyed, MINUS_ONE, ONE};
use crate::packing::{packed_constant, packed_monomial, unpacked_sum};
use crate::poly::{Monomial, Poly};
use model::DEGREE_LIMIT;
use std::alloc::Global;

/// A packed form of an expression: packed monomials, and an upper bound on their degrees.
#[derive(Drop)]
pub(crate) struct KeyForm {
    pub(crate) terms: Vec<Keyed>,
    pub(crate) degree: u32,
}

/// The polynomial of a form.
pub(crate) fn expansion_of(alloc: Global, table: &[u32], form: &KeyForm) -> Result<Poly, KeyError>
    requires { RepresentsSomeTerm table.now form.now }
    ensures { IfOk result (λ p. IsExpansionOf table.now form.now (poly_of p)) }
{
    unpacked_sum(alloc, table, &form.terms)
}

/// The packed form of a literal.
pub(crate) fn literal(alloc: Global, table: &[u32], z: i128) -> Result<KeyForm, KeyError>
    requires { ascend_from 0 table.now ≡ true }
    ensures { IfOk result (RepresentsTerm table.now (Literal z)) }
{
    if z == 0 {
        return within_limits(table, Vec::new(alloc), 0);
    }
    let e = packed_constant(z)?;
    within_limits(table, vec![in alloc; e]?, 0)
}

/// The packed form of a variable.
pub(crate) fn variable(alloc: Global, table: &[u32], i: u32) -> Result<KeyForm, KeyError>
    requires { ascend_from 0 table.now ≡ true }
    ensures { IfOk result (RepresentsTerm table.now (Variable i)) }
{
    let vars = vec![in alloc; i]?;
    let e = packed_monomial(alloc, table, &Monomial { coef: 1, vars })?;
    within_limits(table, vec![in alloc; e]?, 1)
}

/// The packed form of the negation of an expression.
pub(crate) fn negation(alloc: Global, form: &KeyForm) -> Result<KeyForm, KeyError>
    ensures { (table : List ℕ) (e : Term) → RepresentsTerm table e form.now → IfOk result (RepresentsTerm table (Negation e)) }
{
    let terms = opposites(alloc, &form.terms)?;
    Ok(KeyForm {
        terms,
        degree: form.degree,
    })
}

// Each monomial with its coefficient negated.
fn opposites(alloc: Global, es: &[Keyed]) -> Result<Vec<Keyed>, KeyError>
    ensures { IfOk result (λ fs. fs.items ≡ map opposite_at es.now) }
{
    let mut opposites = Vec::with_capacity(alloc, es.len())?;
    for e in es {
        let f = opposite(*e)?;
        opposites.push(f)?;
    }
    Ok(opposites)
}

// A monomial with its coefficient negated, if that is in range.
fn opposite(e: Keyed) -> Result<Keyed, KeyError>
    ensures { IfOk result (λ f. f ≡ opposite_at e) }
{
    match e.coef.checked_neg() {
        None => Err(KeyError::Unfit),
        Some(coef) => Ok(Keyed { key: e.key, coef }),
    }
}

/// The packed form of the sum of two expressions.
pub(crate) fn sum(
    alloc: Global,
    table: &[u32],
    left: &KeyForm,
    right: &KeyForm,
) -> Result<KeyForm, KeyError>
    requires { ascend_from 0 table.now ≡ true }
    ensures { (d e : Term) → RepresentsTerm table.now d left.now → RepresentsTerm table.now e right.now
        → IfOk result (RepresentsTerm table.now (Addition d e)) }
{
    let terms = with_row(alloc, &left.terms, ONE, &right.terms)?;
    within_limits(table, terms, left.degree.max(right.degree))
}

/// The packed form of the difference of two expressions.
pub(crate) fn difference(
    alloc: Global,
    table: &[u32],
    left: &KeyForm,
    right: &KeyForm,
) -> Result<KeyForm, KeyError>
    requires { ascend_from 0 table.now ≡ true }
    ensures { (d e : Term) → RepresentsTerm table.now d left.now → RepresentsTerm table.now e right.now
        → IfOk result (RepresentsTerm table.now (Subtraction d e)) }
{
    let terms = with_row(alloc, &left.terms, MINUS_ONE, &right.terms)?;
    within_limits(table, terms, left.degree.max(right.degree))
}

/// The packed form of the product of two expressions.
pub(crate) fn product(
    alloc: Global,
    table: &[u32],
    left: &KeyForm,
    right: &KeyForm,
) -> Result<KeyForm, KeyError>
    requires { ascend_from 0 table.now ≡ true }
    ensures { (d e : Term) → RepresentsTerm table.now d left.now → RepresentsTerm table.now e right.now
        → IfOk result (RepresentsTerm table.now (Multiplication d e)) }
{
    let terms = product_of_lists(alloc, &left.terms, &right.terms)?;
    within_limits(table, terms, degree_of_product(table, left, right))
}

/// The packed form of a power of an expression.
pub(crate) fn power(
    alloc: Global,
    table: &[u32],
    base: &KeyForm,
    exponent: u32,
) -> Result<KeyForm, KeyError>
    requires { ascend_from 0 table.now ≡ true }
    ensures { (e : Term) → RepresentsTerm table.now e base.now → IfOk result (RepresentsTerm table.now (Exponentiation e exponent)) }
{
    let degree = degree_of_power(table, base, exponent);
    if exponent > DEGREE_LIMIT || degree > DEGREE_LIMIT {
        return Err(KeyError::Unfit);
    }
    let terms = power_of_list(alloc, table, &base.terms, exponent)?;
    within_limits(table, terms, degree)
}

// The degree of a product: the sum of the operands' bounds, or, if that is too high, the one computed from their
// monomials, beginning with the shorter list.
fn degree_of_product(table: &[u32], left: &KeyForm, right: &KeyForm) -> u32
    ensures { HasDegree table.now left.now → HasDegree table.now right.now → result ≤ degree_limit
        → degree_of (monomials_at table.now left.now.terms.items) + degree_of (monomials_at table.now right.now.terms.items) ≤ result }
{
    let known = left.degree.saturating_add(right.degree);
    if known <= DEGREE_LIMIT {
        known
    } else if left.terms.len() < right.terms.len() {
        lowered_degree(table, left, right)
    } else {
        lowered_degree(table, right, left)
    }
}

// The degree of a product by the monomials of one operand, or, if that is too high, by those of both.
fn lowered_degree(table: &[u32], shorter: &KeyForm, longer: &KeyForm) -> u32
    ensures { HasDegree table.now longer.now → result ≤ degree_limit
        → degree_of (monomials_at table.now shorter.now.terms.items)
        + degree_of (monomials_at table.now longer.now.terms.items) ≤ result }
{
    let degree = list_degree(table, &shorter.terms);
    let known = degree.saturating_add(longer.degree);
    if known <= DEGREE_LIMIT {
        known
    } else {
        degree.saturating_add(list_degree(table, &longer.terms))
    }
}

// The degree of a power: the exponent times the base's bound, or, if that is too high, one computed from the base's
// monomials.
fn degree_of_power(table: &[u32], base: &KeyForm, exponent: u32) -> u32
    ensures { HasDegree table.now base.now → result ≤ degree_limit
        → exponent * degree_of (monomials_at table.now base.now.terms.items) ≤ result }
{
    let known = base.degree.saturating_mul(exponent);
    if known <= DEGREE_LIMIT {
        known
    } else {
        list_degree(table, &base.terms).saturating_mul(exponent)
    }
}

// A form with these monomials and this degree, if they are within the limits.
fn within_limits(table: &[u32], terms: Vec<Keyed>, degree: u32) -> Result<KeyForm, KeyError>
    requires { ascend_from 0 table.now ≡ true }
    ensures { IfOk result (IsWithinLimits table.now terms.items degree) }
{
    if is_modest(table, &terms) && degree <= DEGREE_LIMIT {
        Ok(KeyForm { terms, degree })
    } else {
        Err(KeyError::Unfit)
    }
}
