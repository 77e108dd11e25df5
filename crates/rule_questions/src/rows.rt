//! The rows of questions, and their differences.

ghost use Rattle.std.specs.Prelude.{◌≡◌, ◌+◌, ◌*ℤ◌, ◌+ℤ◌, ◌<◌, ◌≤◌};
ghost use Rattle.std.specs.Prelude.{max, nat_abs, negsuc, IfOk};
ghost use Rattle.poly_terms.specs.linear_forms.Forms.{at};
ghost use Rattle.poly_terms.specs.linear_forms.Combinations.{form_sum};
ghost use Rattle.poly_terms.specs.linear_forms.RuleQuestions.{constant_form, unknown_form, opposite};
ghost use Rattle.poly_terms.specs.model.Limits.{coefficient_limit};
ghost use Rattle.poly_terms.specs.Views.{form_of};
ghost use Rattle.rule_questions.specs.SmallForms.{IsSmall, IsDifferenceSmall};

use lp_builder::Row;
use poly_terms::Memory;
use std::alloc::Global;

/// The form of a constant.
pub fn constant_row(alloc: Global, constant: i128) -> Row
    ensures { form_of result ≡ constant_form constant }
{
    Row {
        coefs: Vec::new(alloc),
        constant,
    }
}

/// The form of a single unknown.
///
/// # Errors
///
/// `Memory` if an allocation fails.
pub fn unit_row(alloc: Global, unknown: u32) -> Result<Row, Memory>
    ensures { IfOk result (λ row. form_of row ≡ unknown_form unknown) }
{
    let mut coefs = vec![in alloc; 0; unknown as usize]?;
    coefs.push(1)?;
    Ok(Row { coefs, constant: 0 })
}

/// The difference of two forms whose numbers are within the limits on rows.
///
/// # Errors
///
/// `Memory` if an allocation fails.
pub fn difference(alloc: Global, before: &Row, after: &Row) -> Result<Row, Memory>
    requires before { IsSmall (form_of before.now) }
    requires after { IsSmall (form_of after.now) }
    ensures same { IfOk result (λ row. form_of row ≡ form_sum (form_of before.now) (opposite (form_of after.now))) }
    ensures small { IfOk result (λ row. IsDifferenceSmall (form_of row)) }
{
    let mut coefs = Vec::new(alloc);
    for unknown in 0..before.coefs.len().max(after.coefs.len()) {
        coefs.push(less(
            number_at(&before.coefs, unknown),
            number_at(&after.coefs, unknown),
        ))?;
    }
    let constant = less(before.constant, after.constant);
    Ok(Row { coefs, constant })
}

// A number less another one.
fn less(a: i128, b: i128) -> i128
    requires first { nat_abs a ≤ coefficient_limit }
    requires second { nat_abs b ≤ coefficient_limit }
    ensures value { result ≡ a +ℤ negsuc 0 *ℤ b }
    ensures small { nat_abs result ≤ coefficient_limit + coefficient_limit }
{
    a - b
}

// A coefficient, or 0 if it isn't listed.
fn number_at(coefs: &[i128], unknown: usize) -> i128
    ensures { result ≡ at coefs.now unknown }
{
    match coefs.get(unknown) {
        Some(coef) => *coef,
        None => 0,
    }
}
