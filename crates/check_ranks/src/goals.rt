//! Rows for the checks of a ranking function: its decrease by a rule, and its floor.

ghost use Rattle.std.specs.Prelude.{◌≡◌, ◌+◌, ◌*◌, ◌^◌, ◌≤◌, ◌-ℤ◌, length, map, pos, IfOk, unsigned_abs, nat_abs};
ghost use Rattle.std.specs.List.{All};
ghost use Rattle.farkas_cert.specs.Sizes.{HasRowNumbers};
ghost use Rattle.poly_terms.specs.Views.{form_of};
ghost use Rattle.poly_terms.specs.linear_forms.Forms.{at, list_dot};
ghost use Rattle.poly_terms.specs.linear_forms.Combinations.{less};
ghost use Rattle.poly_terms.specs.linear_forms.Losses.{loss};
ghost use Rattle.poly_terms.specs.linear_forms.RuleQuestions.{constant_form};
ghost use Rattle.cert_context.specs.Columns.{HasColumns, IsAlike, number_in};
ghost use Rattle.cert_context.specs.declared.columns.Column.TheVariants.{Unknown, Constant};
ghost use Rattle.check_ranks.specs.Goals.{AreWithin};
ghost use Rattle.cert_types.specs.Sizes.{form_found};
ghost use Rattle.cert_types.specs.Views.{form_of as form_at_symbol};
ghost use Rattle.cert_types.specs.cert_rules.Limits.{IsFormInLimit, IsInLimit};

use cert_context::{Column, coefficient, number, product};
use cert_types::Form;
use guard_prep::RuleRows;
use model::Memory;
use poly_terms::Row;
use std::alloc::Global;

// The entry of a form of a ranking function in a column.
fn number_at(form: &Form, column: Column) -> i64
    ensures { result ≡ number_in column (form_at_symbol form.now).form }
{
    match column {
        Column::Unknown(unknown) => coefficient(&form.coefs, unknown),
        Column::Constant => form.constant,
    }
}

// The entry of a form in a column, or 0 if there is no form.
fn number_of(form: Option<&Form>, column: Column) -> i64
    ensures { result ≡ number_in column (form_found form.entry) }
{
    match form {
        Some(f) => number_at(f, column),
        None => 0,
    }
}

// The entry of a form in a column, or 0, in 128 bits.
fn wide_number(form: Option<&Form>, column: Column) -> i128
    ensures { result ≡ number_in column (form_found form.entry) }
{
    i128::from(number_of(form, column))
}

// The column of the new values combined: the sum of each new value's entry times the coefficient of its place.
fn combined(new_values: &[Row], coefs: &[i64], column: Column) -> i128
    requires few { length new_values.now ≤ 32 }
    requires new_values { All HasRowNumbers (map form_of new_values.now) }
    requires coefs { All (λ c. IsInLimit (nat_abs c)) coefs.now }
    ensures value { result ≡ list_dot (map (number_in column) (map form_of new_values.now)) (at coefs.now) }
    ensures size { unsigned_abs result ≤ 32 * 2 ^ 119 }
{
    let mut sum = 0;
    for i in 0..new_values.len().min(coefs.len()) {
        sum += product(number(&new_values[i], column), i128::from(coefs[i]));
    }
    sum
}

/// The coefficients of a form, or none if there is no form.
pub(crate) fn coefs_of(form: Option<&Form>) -> &[i64]
    ensures { result.now ≡ (form_found form.entry).coefs }
{
    match form {
        Some(f) => &f.coefs,
        None => &[],
    }
}

// The difference of two numbers.
fn difference(first: i128, second: i128) -> i128
    requires first_small { unsigned_abs first ≤ 2 ^ 125 }
    requires second_small { unsigned_abs second ≤ 2 ^ 124 }
    ensures { result ≡ first -ℤ second }
{
    first - second
}

// The entry of the decrease in a column: that of the form before the rule, minus that of the form after it at the new
// values.
fn lost(before: Option<&Form>, after: Option<&Form>, new_values: &[Row], column: Column) -> i128
    requires before { IsFormInLimit (form_found before) }
    requires after { IsFormInLimit (form_found after) }
    requires few { length new_values.now ≤ 32 }
    requires new_values { All HasRowNumbers (map form_of new_values.now) }
    ensures value { result ≡ number_in column (form_found before.entry)
        -ℤ list_dot (map (number_in column) (map form_of new_values.now)) (at (form_found after.entry).coefs) }
    ensures size { unsigned_abs result ≤ 2 ^ 124 + 2 ^ 56 }
{
    difference(
        i128::from(number_of(before, column)),
        combined(new_values, coefs_of(after), column),
    )
}

/// The decrease by a rule, less the least permitted decrease, as a row: the form before the rule, less the form after
/// it at the new values of the rule's prepared rows.
///
/// # Errors
///
/// `Memory` where an allocation fails.
pub(crate) fn loss_row(
    alloc: Global,
    rows: &RuleRows,
    before: Option<&Form>,
    after: Option<&Form>,
    least: u64,
) -> Result<Row, Memory>
    requires before { IsFormInLimit (form_found before) }
    requires after { IsFormInLimit (form_found after) }
    requires few { length rows.now.new_values.items ≤ 32 }
    requires new_values { All HasRowNumbers (map form_of rows.now.new_values.items) }
    requires least { IsInLimit least }
    requires within { AreWithin rows.now.unknowns (form_found before) (map form_of rows.now.new_values.items) }
    ensures { IfOk result (λ row. IsAlike (form_of row)
        (loss (form_found before.entry) (form_found after.entry) (map form_of rows.now.new_values.items) (pos least))) }
{
    let coefs = lost_coefs(
        alloc,
        rows.unknowns as usize,
        before,
        after,
        &rows.new_values,
    )?;
    let constant = lost_constant(before, after, &rows.new_values, least);
    Ok(Row { coefs, constant })
}

// The coefficients of the decrease at this many unknowns.
fn lost_coefs(
    alloc: Global,
    width: usize,
    before: Option<&Form>,
    after: Option<&Form>,
    new_values: &[Row],
) -> Result<Vec<i128>, Memory>
    requires before { IsFormInLimit (form_found before) }
    requires after { IsFormInLimit (form_found after) }
    requires few { length new_values.now ≤ 32 }
    requires new_values { All HasRowNumbers (map form_of new_values.now) }
    ensures { IfOk result (λ coefs. HasColumns (λ u. at (form_found before.entry).coefs u
        -ℤ list_dot (map (number_in (Unknown u)) (map form_of new_values.now)) (at (form_found after.entry).coefs))
        width coefs.items) }
{
    let mut coefs = Vec::new(alloc);
    for unknown in 0..width {
        coefs.push(lost(before, after, new_values, Column::Unknown(unknown)))?;
    }
    Ok(coefs)
}

// The constant of the decrease, minus the least permitted decrease.
fn lost_constant(
    before: Option<&Form>,
    after: Option<&Form>,
    new_values: &[Row],
    least: u64,
) -> i128
    requires before { IsFormInLimit (form_found before) }
    requires after { IsFormInLimit (form_found after) }
    requires few { length new_values.now ≤ 32 }
    requires new_values { All HasRowNumbers (map form_of new_values.now) }
    requires least { IsInLimit least }
    ensures { result ≡ (form_found before.entry).constant
        -ℤ list_dot (map (number_in Constant) (map form_of new_values.now)) (at (form_found after.entry).coefs)
        -ℤ (form_found after.entry).constant -ℤ pos least }
{
    let kept = i128::from(number_of(after, Column::Constant));
    let more = difference(lost(before, after, new_values, Column::Constant), kept);
    difference(more, i128::from(least))
}

/// A form less a number, as a row.
///
/// # Errors
///
/// `Memory` where an allocation fails.
pub(crate) fn floor_row(
    alloc: Global,
    width: usize,
    before: Option<&Form>,
    least: u64,
) -> Result<Row, Memory>
    requires before { IsFormInLimit (form_found before) }
    requires least { IsInLimit least }
    requires within { length (form_found before).coefs ≤ width }
    ensures { IfOk result (λ row. IsAlike (form_of row) (less (form_found before.entry) (constant_form (pos least)))) }
{
    let coefs = own_coefs(alloc, width, before)?;
    let constant = floor_constant(before, least);
    Ok(Row { coefs, constant })
}

// The constant of a form, less a number.
fn floor_constant(form: Option<&Form>, least: u64) -> i128
    requires form { IsFormInLimit (form_found form) }
    requires least { IsInLimit least }
    ensures { result ≡ (form_found form.entry).constant -ℤ pos least }
{
    difference(
        i128::from(number_of(form, Column::Constant)),
        i128::from(least),
    )
}

// The coefficients of a form at this many unknowns.
fn own_coefs(alloc: Global, width: usize, form: Option<&Form>) -> Result<Vec<i128>, Memory>
    requires { IsFormInLimit (form_found form) }
    ensures { IfOk result (λ coefs. HasColumns (at (form_found form.entry).coefs) width coefs.items) }
{
    let mut coefs = Vec::new(alloc);
    for unknown in 0..width {
        coefs.push(wide_number(form, Column::Unknown(unknown)))?;
    }
    Ok(coefs)
}
