//! Whether an expression is affine and has the same value everywhere.

ghost use Rattle.std.specs.Prelude.{◌≡◌, ◌<◌, ◌≤◌, ◌-◌, ◌^◌, true, IfOk};
ghost use Rattle.poly_terms.specs.Views.{term_of};
ghost use Rattle.poly_terms.specs.Checked.{value_within, ReadsBelow};
ghost use Rattle.affine_constants.specs.Constants.{is_literal as is_written_literal, is_affine as is_affine_below};
ghost use Rattle.affine_constants.specs.Constants.{origin as origin_of, unit as unit_of, is_value as is_just};
ghost use Rattle.affine_constants.specs.Constants.{agrees_at_units as agrees_below, has_origin_value as has_value_at_origin};
ghost use Rattle.affine_constants.specs.Constants.{is_natural_constant as is_constant};

use poly_terms::{Expr, Memory, value_checked};
use std::alloc::Global;

/// Whether an expression is affine over the first variables, so many, and has the same natural number as its value
/// everywhere, where no value at the origin or at a unit point exceeds 128 bits in a subexpression.
///
/// # Errors
///
/// `Memory` where an allocation fails.
pub fn is_natural_constant(alloc: Global, variables: u32, e: &Expr) -> Result<bool, Memory>
    ensures { IfOk result (λ r. r ≡ is_constant variables (term_of e.now)) }
{
    if !is_affine(variables, e) {
        return Ok(false);
    }
    has_one_value(alloc, variables, e)
}

// Whether an expression is a literal.
fn is_literal(e: &Expr) -> bool
    ensures { result ≡ is_written_literal (term_of e.now) }
{
    match e {
        Expr::Num(_) => true,
        Expr::Var(_)
        | Expr::Neg(_)
        | Expr::Add(_, _)
        | Expr::Sub(_, _)
        | Expr::Mul(_, _)
        | Expr::Pow(_, _) => false,
    }
}

// Whether an expression is affine over the first variables, as it is written.
fn is_affine(variables: u32, e: &Expr) -> bool
    ensures { result ≡ is_affine_below variables (term_of e.now) }
{
    match e {
        Expr::Num(_) => true,
        Expr::Var(i) => *i < variables,
        Expr::Neg(e) => is_affine(variables, e),
        Expr::Add(d, e) => is_affine(variables, d) && is_affine(variables, e),
        Expr::Sub(d, e) => is_affine(variables, d) && is_affine(variables, e),
        Expr::Mul(d, e) => {
            (is_literal(d) && is_affine(variables, e)) || (is_literal(e) && is_affine(variables, d))
        }
        Expr::Pow(_, _) => false,
    }
}

// Whether the value at the origin is natural, and that at each unit point.
fn has_one_value(alloc: Global, variables: u32, e: &Expr) -> Result<bool, Memory>
    requires { ReadsBelow variables (term_of e.now) }
    ensures { IfOk result (λ r. r
        ≡ has_value_at_origin variables (term_of e.now) (value_within (term_of e.now) (origin_of variables))) }
{
    let values = origin(alloc, variables)?;
    match value_checked(e, &values) {
        None => Ok(false),
        Some(value) => {
            if value < 0 {
                return Ok(false);
            }
            agrees_at_units(alloc, variables, e, value)
        }
    }
}

// The value 0 of each variable.
fn origin(alloc: Global, variables: u32) -> Result<Vec<i128>, Memory>
    ensures { IfOk result (λ values. values.items ≡ origin_of variables) }
{
    vec![in alloc; 0; variables as usize]
}

// The value 1 of a variable, and 0 of each other one.
fn unit(alloc: Global, variables: u32, variable: u32) -> Result<Vec<i128>, Memory>
    requires { variable < variables }
    ensures { IfOk result (λ values. values.items ≡ unit_of variables variable) }
{
    let mut values = origin(alloc, variables)?;
    values[variable as usize] = 1;
    Ok(values)
}

// Whether the value at the unit point of a variable is this one.
fn agrees_at_unit(
    alloc: Global,
    variables: u32,
    e: &Expr,
    value: i128,
    variable: u32,
) -> Result<bool, Memory>
    requires reads { ReadsBelow variables (term_of e.now) }
    requires variable { variable < variables }
    ensures { IfOk result (λ r. r
        ≡ is_just value (value_within (term_of e.now) (unit_of variables variable))) }
{
    let values = unit(alloc, variables, variable)?;
    match value_checked(e, &values) {
        None => Ok(false),
        Some(other) => Ok(other == value),
    }
}

// Whether the value at each unit point is this one.
fn agrees_at_units(alloc: Global, variables: u32, e: &Expr, value: i128) -> Result<bool, Memory>
    requires { ReadsBelow variables (term_of e.now) }
    ensures { IfOk result (λ r. r ≡ agrees_below variables (term_of e.now) value variables) }
{
    for variable in 0..variables {
        let agrees = agrees_at_unit(alloc, variables, e, value, variable)?;
        if !agrees {
            return Ok(false);
        }
    }
    Ok(true)
}
