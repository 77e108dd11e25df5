//! One column of the sum of rows, each times its multiplier.

ghost use Rattle.std.specs.Prelude.{◌≡◌, ◌*◌, ◌^◌, ◌+◌, ◌≤◌, pos, ◌*ℤ◌, map, All, unsigned_abs};
ghost use Rattle.linear_forms.specs.Forms.{at};
ghost use Rattle.linear_forms.specs.Limits.{certificate_limit};
ghost use Rattle.poly_terms.specs.Views.{form_of};
ghost use Rattle.farkas_cert.specs.Columns.{number_in, combined_in};
ghost use Rattle.farkas_cert.specs.Sizes.{column_size, column_limit, AreWithinLimit};

use poly_terms::Row;

/// A column of rows: the coefficients of an unknown, or the constants.
#[derive(Clone, Copy, Debug)]
pub(crate) enum Column {
    Unknown(usize),
    Constants,
}

/// The coefficient of an unknown, or 0 if it isn't listed.
pub(crate) fn coefficient(coefs: &[i128], unknown: usize) -> i128
    ensures { result ≡ at coefs.now unknown }
{
    match coefs.get(unknown) {
        Some(coef) => *coef,
        None => 0,
    }
}

// The number of a row in a column, or 0 for an unknown that isn't listed.
fn number(row: &Row, column: Column) -> i128
    ensures { result ≡ number_in column (form_of row.now) }
{
    match column {
        Column::Unknown(unknown) => coefficient(&row.coefs, unknown),
        Column::Constants => row.constant,
    }
}

// A number of a row times its multiplier.
fn product(number: i128, multiplier: u64) -> i128
    requires number_small { unsigned_abs number ≤ column_limit }
    requires multiplier_small { multiplier ≤ certificate_limit }
    ensures value { result ≡ pos multiplier *ℤ number }
    ensures size { unsigned_abs result ≤ certificate_limit * unsigned_abs number }
{
    number * i128::from(multiplier)
}

/// The number in a column of the sum of the rows, each times its multiplier.
pub(crate) fn combined(rows: &[Row], multipliers: &[u64], column: Column) -> i128
    requires multipliers_small { AreWithinLimit multipliers.now }
    requires column_small { column_size (number_in column) (map form_of rows.now) ≤ column_limit }
    ensures { result ≡ combined_in column multipliers.now (map form_of rows.now) }
{
    let mut sum = 0;
    for i in 0..rows.len().min(multipliers.len()) {
        sum += product(number(&rows[i], column), multipliers[i]);
    }
    sum
}
