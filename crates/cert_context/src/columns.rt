//! Forms, column by column.

ghost use Rattle.std.specs.Prelude.{◌≡◌, ◌^◌, ◌≤◌, ◌<◌, ◌*ℤ◌, unsigned_abs};
ghost use Rattle.farkas_cert.specs.Sizes.{row_limit};
ghost use Rattle.poly_terms.specs.Views.{form_of};
ghost use Rattle.poly_terms.specs.linear_forms.Forms.{at};
ghost use Rattle.poly_terms.specs.linear_forms.Limits.{certificate_limit};
ghost use Rattle.cert_context.specs.Columns.{number_in};

use poly_terms::Row;

/// A column of forms: that of one unknown, or that of the constants.
#[derive(Clone, Copy, Debug)]
pub enum Column {
    Unknown(usize),
    Constant,
}

// The coefficient of an unknown, or 0 if it isn't listed.
fn row_coefficient(coefs: &[i128], unknown: usize) -> i128
    ensures { result ≡ at coefs.now unknown }
{
    match coefs.get(unknown) {
        Some(coef) => *coef,
        None => 0,
    }
}

/// The coefficient of a place, or 0 if it isn't listed.
pub fn coefficient(coefs: &[i64], unknown: usize) -> i64
    ensures { result ≡ at coefs.now unknown }
{
    match coefs.get(unknown) {
        Some(coef) => *coef,
        None => 0,
    }
}

/// The entry of a row in a column.
pub fn number(row: &Row, column: Column) -> i128
    ensures { result ≡ number_in column (form_of row.now) }
{
    match column {
        Column::Unknown(unknown) => row_coefficient(&row.coefs, unknown),
        Column::Constant => row.constant,
    }
}

/// The product of an entry and a coefficient.
pub fn product(number: i128, coef: i128) -> i128
    requires number_small { unsigned_abs number < row_limit }
    requires coef_small { unsigned_abs coef ≤ certificate_limit }
    ensures value { result ≡ number *ℤ coef }
    ensures size { unsigned_abs result ≤ 2 ^ 119 }
{
    number * coef
}
