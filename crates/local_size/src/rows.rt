//! The rows of the questions about a place.

ghost use Rattle.std.specs.Prelude.{◌≡◌, ◌≤◌, map, negsuc, nat_abs, ◌*ℤ◌, IfOk};
ghost use Rattle.simplex_core.specs.linear_forms.Combinations.{form_sum, form_times};
ghost use Rattle.simplex_core.specs.linear_forms.RuleQuestions.{before_rule, opposite};
ghost use Rattle.cert_types.specs.rule_forms.Kinds.{unit_of};
ghost use Rattle.poly_terms.specs.model.Limits.{coefficient_limit};
ghost use Rattle.poly_terms.specs.Views.{form_of};
ghost use Rattle.rule_questions.specs.SmallForms.{IsSmall};
ghost use Rattle.cert_types.specs.rule_forms.SoughtParts.{fixed_part};
ghost use Rattle.local_size.specs.Asking.{kind_of, sign_of};

use crate::kinds::{Kind, Sign};
use poly_terms::{Memory, Row};
use rule_questions::{constant_row, unit_row};
use std::alloc::Global;

/// The negated form.
pub(crate) fn negated(alloc: Global, row: &Row) -> Result<Row, Memory>
    requires { IsSmall (form_of row.now) }
    ensures { IfOk result (λ r. form_of r ≡ opposite (form_of row.now)) }
{
    let mut coefs = Vec::new(alloc);
    for coef in &row.coefs {
        coefs.push(opposite_number(*coef))?;
    }
    Ok(Row {
        coefs,
        constant: opposite_number(row.constant),
    })
}

// The negated number.
fn opposite_number(number: i128) -> i128
    requires { nat_abs number ≤ coefficient_limit }
    ensures { result ≡ negsuc 0 *ℤ number }
{
    -number
}

/// The left argument at a place, or the constant 1 for place 0.
pub(crate) fn argument_row(alloc: Global, place: u32) -> Result<Row, Memory>
    ensures { IfOk result (λ row. form_of row ≡ before_rule place) }
{
    if place == 0 {
        return Ok(constant_row(alloc, 1));
    }
    unit_row(alloc, place - 1)
}

/// The fixed part of a form of a kind.
pub(crate) fn fixed_row(alloc: Global, kind: Kind) -> Result<Row, Memory>
    ensures { IfOk result (λ row. form_of row ≡ fixed_part (kind_of kind)) }
{
    match kind {
        Kind::Number | Kind::Affine => Ok(constant_row(alloc, 0)),
        Kind::Argument { place, sign } => signed_row(alloc, place, sign),
    }
}

// The left argument at a place, or its negation.
fn signed_row(alloc: Global, place: u32, sign: Sign) -> Result<Row, Memory>
    ensures { IfOk result (λ row. form_of row ≡ form_times (unit_of (sign_of sign)) (before_rule place)) }
{
    let argument = argument_row(alloc, place)?;
    match sign {
        Sign::Plus => Ok(argument),
        Sign::Minus => negated(alloc, &argument),
    }
}
