//! Expands an expression into packed monomials, or gives its first fault. A step that doesn't fit packed exponents is
//! computed exactly.

ghost use Rattle.std.specs.Prelude.{◌≡◌, ℕ, true, IfOk, List};
ghost use Rattle.model.specs.Terms.{Term, Literal, Negation, Addition, Subtraction, Multiplication};
ghost use Rattle.model.specs.Terms.{Exponentiation};
ghost use Rattle.poly_terms.specs.KeyForms.{GivesBothForms, GivesExpansion, GivesForm, MayGiveExpansion};
ghost use Rattle.poly_terms.specs.KeyForms.{RepresentsTerm, RepresentsSomeTerm};
ghost use Rattle.poly_terms.specs.Keys.{ascend_from};
ghost use Rattle.poly_terms.specs.Views.{term_of};

use crate::expr::Expr;
use crate::form_error::FormError;
use crate::form_steps::{exact_difference, exact_literal, exact_power, exact_product, exact_sum};
use crate::key_error::KeyError;
use crate::key_form::{
    KeyForm, difference, expansion_of, literal, negation, power, product, sum, variable,
};
use crate::poly::Poly;
use crate::poly_error::PolyError;
use crate::table::{add_variable, ascending};
use std::alloc::Global;

/// The expanded polynomial or the first fault, or `None` if it has to be computed with polynomials.
pub(crate) fn expansion_by_keys(alloc: Global, e: &Expr) -> Result<Option<Poly>, PolyError>
    ensures { MayGiveExpansion result (term_of e.now) }
{
    unless_unfit(expansion_by_table(alloc, e))
}

/// The expanded polynomial of a difference or the first fault, or `None` if it has to be computed with polynomials.
pub(crate) fn difference_by_keys(
    alloc: Global,
    d: &Expr,
    e: &Expr,
) -> Result<Option<Poly>, PolyError>
    ensures { MayGiveExpansion result (Subtraction (term_of d.now) (term_of e.now)) }
{
    unless_unfit(difference_by_table(alloc, d, e))
}

// The polynomial or the fault, or `None` if something doesn't fit.
fn unless_unfit(whole: Result<Poly, FormError>) -> Result<Option<Poly>, PolyError>
    ensures { (t : Term) → GivesExpansion whole t → MayGiveExpansion result t }
{
    match whole {
        Ok(p) => Ok(Some(p)),
        Err(FormError::Unfit) => Ok(None),
        Err(FormError::Faulty(error)) => Err(error),
    }
}

// The expanded polynomial, or the first fault.
fn expansion_by_table(alloc: Global, e: &Expr) -> Result<Poly, FormError>
    ensures { GivesExpansion result (term_of e.now) }
{
    let mut table = Vec::new(alloc);
    add_variables(&mut table, e)?;
    let table = ascending(table)?;
    let form = form_of(alloc, &table, e);
    unpacked(alloc, &table, form)
}

// The expanded polynomial of a difference, or the first fault.
fn difference_by_table(alloc: Global, d: &Expr, e: &Expr) -> Result<Poly, FormError>
    ensures { GivesExpansion result (Subtraction (term_of d.now) (term_of e.now)) }
{
    let mut table = Vec::new(alloc);
    add_variables(&mut table, d)?;
    add_variables(&mut table, e)?;
    let table = ascending(table)?;
    let form = difference_form(alloc, &table, d, e);
    unpacked(alloc, &table, form)
}

// The polynomial of a form, or its fault.
fn unpacked(
    alloc: Global,
    table: &[u32],
    form: Result<KeyForm, FormError>,
) -> Result<Poly, FormError>
    requires { IfOk form (RepresentsSomeTerm table.now) }
    ensures { (t : Term) → GivesForm table.now form t → GivesExpansion result t }
{
    match form {
        Ok(form) => Ok(expansion_of(alloc, table, &form)?),
        Err(error) => Err(error),
    }
}

// Adds the variables of an expression to a table.
fn add_variables(table: &mut Vec<u32>, e: &Expr) -> Result<(), KeyError> {
    match e {
        Expr::Num(_) => Ok(()),
        Expr::Var(i) => add_variable(table, *i),
        Expr::Neg(e) => add_variables(table, e),
        Expr::Add(d, e) => {
            add_variables(table, d)?;
            add_variables(table, e)
        }
        Expr::Sub(d, e) => {
            add_variables(table, d)?;
            add_variables(table, e)
        }
        Expr::Mul(d, e) => {
            add_variables(table, d)?;
            add_variables(table, e)
        }
        Expr::Pow(e, _) => add_variables(table, e),
    }
}

// The packed form of an expression, or its first fault.
#[cycle(forming)]
fn form_of(alloc: Global, table: &[u32], e: &Expr) -> Result<KeyForm, FormError>
    requires { ascend_from 0 table.now ≡ true }
    ensures { GivesForm table.now result (term_of e.now) }
{
    match e {
        Expr::Num(z) => literal_or_fault(alloc, table, *z),
        Expr::Var(i) => Ok(variable(alloc, table, *i)?),
        Expr::Neg(e) => match form_of(alloc, table, e) {
            Ok(form) => negated_form(alloc, &form),
            Err(error) => Err(error),
        },
        Expr::Add(d, e) => match both_forms(alloc, table, d, e) {
            Ok(pair) => sum_or_fault(alloc, table, &pair.left, &pair.right),
            Err(error) => Err(error),
        },
        Expr::Sub(d, e) => difference_form(alloc, table, d, e),
        Expr::Mul(d, e) => match both_forms(alloc, table, d, e) {
            Ok(pair) => product_or_fault(alloc, table, &pair.left, &pair.right),
            Err(error) => Err(error),
        },
        Expr::Pow(e, exponent) => match form_of(alloc, table, e) {
            Ok(base) => power_or_fault(alloc, table, &base, *exponent),
            Err(error) => Err(error),
        },
    }
}

// The packed form of a difference, or its first fault.
#[cycle(forming)]
fn difference_form(alloc: Global, table: &[u32], d: &Expr, e: &Expr) -> Result<KeyForm, FormError>
    requires { ascend_from 0 table.now ≡ true }
    ensures { GivesForm table.now result (Subtraction (term_of d.now) (term_of e.now)) }
{
    match both_forms(alloc, table, d, e) {
        Ok(pair) => difference_or_fault(alloc, table, &pair.left, &pair.right),
        Err(error) => Err(error),
    }
}

/// The forms of two operands.
#[derive(Drop)]
struct FormPair {
    left: KeyForm,
    right: KeyForm,
}

// The packed forms of two operands, or the first fault among them.
#[cycle(forming)]
fn both_forms(alloc: Global, table: &[u32], d: &Expr, e: &Expr) -> Result<FormPair, FormError>
    requires { ascend_from 0 table.now ≡ true }
    ensures { GivesBothForms table.now result (term_of d.now) (term_of e.now) }
{
    match form_of(alloc, table, d) {
        Ok(left) => match form_of(alloc, table, e) {
            Ok(right) => Ok(FormPair { left, right }),
            Err(error) => Err(error),
        },
        Err(error) => Err(error),
    }
}

// The packed form of a literal, or its fault.
fn literal_or_fault(alloc: Global, table: &[u32], z: i128) -> Result<KeyForm, FormError>
    requires { ascend_from 0 table.now ≡ true }
    ensures { GivesForm table.now result (Literal z) }
{
    match literal(alloc, table, z) {
        Ok(form) => Ok(form),
        Err(KeyError::Unfit) => exact_literal(alloc, table, z),
        Err(KeyError::Memory) => Err(FormError::Faulty(PolyError::Memory)),
    }
}

// The packed form of the negation of an expression.
fn negated_form(alloc: Global, form: &KeyForm) -> Result<KeyForm, FormError>
    ensures { (table : List ℕ) (e : Term) → RepresentsTerm table e form.now → GivesForm table result (Negation e) }
{
    Ok(negation(alloc, form)?)
}

// The packed form of the sum of two expressions, or its fault.
fn sum_or_fault(
    alloc: Global,
    table: &[u32],
    left: &KeyForm,
    right: &KeyForm,
) -> Result<KeyForm, FormError>
    requires table { ascend_from 0 table.now ≡ true }
    requires left { RepresentsSomeTerm table.now left.now }
    requires right { RepresentsSomeTerm table.now right.now }
    ensures { (d e : Term) → RepresentsTerm table.now d left.now → RepresentsTerm table.now e right.now
        → GivesForm table.now result (Addition d e) }
{
    match sum(alloc, table, left, right) {
        Ok(form) => Ok(form),
        Err(KeyError::Unfit) => exact_sum(alloc, table, left, right),
        Err(KeyError::Memory) => Err(FormError::Faulty(PolyError::Memory)),
    }
}

// The packed form of the difference of two expressions, or its fault.
fn difference_or_fault(
    alloc: Global,
    table: &[u32],
    left: &KeyForm,
    right: &KeyForm,
) -> Result<KeyForm, FormError>
    requires table { ascend_from 0 table.now ≡ true }
    requires left { RepresentsSomeTerm table.now left.now }
    requires right { RepresentsSomeTerm table.now right.now }
    ensures { (d e : Term) → RepresentsTerm table.now d left.now → RepresentsTerm table.now e right.now
        → GivesForm table.now result (Subtraction d e) }
{
    match difference(alloc, table, left, right) {
        Ok(form) => Ok(form),
        Err(KeyError::Unfit) => exact_difference(alloc, table, left, right),
        Err(KeyError::Memory) => Err(FormError::Faulty(PolyError::Memory)),
    }
}

// The packed form of the product of two expressions, or its fault.
fn product_or_fault(
    alloc: Global,
    table: &[u32],
    left: &KeyForm,
    right: &KeyForm,
) -> Result<KeyForm, FormError>
    requires table { ascend_from 0 table.now ≡ true }
    requires left { RepresentsSomeTerm table.now left.now }
    requires right { RepresentsSomeTerm table.now right.now }
    ensures { (d e : Term) → RepresentsTerm table.now d left.now → RepresentsTerm table.now e right.now
        → GivesForm table.now result (Multiplication d e) }
{
    match product(alloc, table, left, right) {
        Ok(form) => Ok(form),
        Err(KeyError::Unfit) => exact_product(alloc, table, left, right),
        Err(KeyError::Memory) => Err(FormError::Faulty(PolyError::Memory)),
    }
}

// The packed form of a power of an expression, or its first fault.
fn power_or_fault(
    alloc: Global,
    table: &[u32],
    base: &KeyForm,
    exponent: u32,
) -> Result<KeyForm, FormError>
    requires table { ascend_from 0 table.now ≡ true }
    requires base { RepresentsSomeTerm table.now base.now }
    ensures { (e : Term) → RepresentsTerm table.now e base.now
        → GivesForm table.now result (Exponentiation e exponent) }
{
    match power(alloc, table, base, exponent) {
        Ok(form) => Ok(form),
        Err(KeyError::Unfit) => exact_power(alloc, table, base, exponent),
        Err(KeyError::Memory) => Err(FormError::Faulty(PolyError::Memory)),
    }
}
