//! Rational points with one denominator.

ghost use Rattle.std.specs.Prelude.{◌≡◌, ℕ, ◌*◌, ◌^◌, ◌+◌, ◌≤◌, ◌<◌, ◌↔◌, pos, ◌+ℤ◌, ◌*ℤ◌, map, length, All, IsTrue};
ghost use Rattle.std.specs.Prelude.{unsigned_abs};
ghost use Rattle.linear_forms.specs.Forms.{list_dot, form_value};
ghost use Rattle.linear_forms.specs.Limits.{point_limit};
ghost use Rattle.linear_forms.specs.Points.{Meets};
ghost use Rattle.poly_terms.specs.Views.{form_of};
ghost use Rattle.farkas_cert.specs.Sizes.{HasRowNumbers, AreRowNumbers, AreParts, row_limit};
ghost use Rattle.farkas_cert.specs.Scales.{numbers_at, numerators_of};

use poly_terms::Row;

/// Numerators of the unknowns over one denominator; if the denominator is 0 it is a ray.
#[derive(Debug, PartialEq, Eq, Drop)]
pub struct Scaled {
    pub parts: Vec<i64>,
    pub den: u64,
}

/// Whether each row is at least 0 at the scaled point.
///
/// An unknown without a numerator has 0. It allocates no memory, and no sum overflows.
pub fn on_rows(rows: &[Row], at: &Scaled) -> bool
    requires unknowns { length at.now.parts.items ≤ 128 }
    requires numbers { All HasRowNumbers (map form_of rows.now) }
    requires parts { AreParts at.now.parts.items }
    requires denominator { at.now.den ≤ point_limit }
    ensures { IsTrue result ↔ Meets (map form_of rows.now) (numerators_of at.now) (pos at.now.den) }
{
    for row in rows {
        if value(row, &at.parts, at.den) < 0 {
            return false;
        }
    }
    true
}

/// The value of a row at a scaled point, times the denominator.
///
/// An unknown without a numerator has 0. It allocates no memory, and no sum overflows.
pub fn row_value(row: &Row, at: &Scaled) -> i128
    requires unknowns { length at.now.parts.items ≤ 128 }
    requires numbers { HasRowNumbers (form_of row.now) }
    requires parts { AreParts at.now.parts.items }
    requires denominator { at.now.den ≤ point_limit }
    ensures value { result ≡ form_value (form_of row.now) (numerators_of at.now) (pos at.now.den) }
    ensures size { unsigned_abs result ≤ 129 * 2 ^ 108 }
{
    value(row, &at.parts, at.den)
}

// The value of a row, times the denominator, at a scaled point.
fn value(row: &Row, parts: &[i64], den: u64) -> i128
    requires unknowns { length parts.now ≤ 128 }
    requires numbers { HasRowNumbers (form_of row.now) }
    requires parts_small { AreParts parts.now }
    requires denominator { den ≤ point_limit }
    ensures value { result ≡ form_value (form_of row.now) (numbers_at parts.now) (pos den) }
    ensures size { unsigned_abs result ≤ 129 * 2 ^ 108 }
{
    dot(&row.coefs, parts) + product(row.constant, i128::from(den))
}

// The sum of the coefficients times the parts.
fn dot(coefs: &[i128], parts: &[i64]) -> i128
    requires unknowns { length parts.now ≤ 128 }
    requires numbers { AreRowNumbers coefs.now }
    requires parts_small { AreParts parts.now }
    ensures value { result ≡ list_dot coefs.now (numbers_at parts.now) }
    ensures size { unsigned_abs result ≤ 128 * 2 ^ 108 }
{
    let mut sum = 0;
    for i in 0..coefs.len().min(parts.len()) {
        sum += product(coefs[i], i128::from(parts[i]));
    }
    sum
}

// A number of a row times a part or the denominator.
fn product(number: i128, part: i128) -> i128
    requires number_small { unsigned_abs number < row_limit }
    requires part_small { unsigned_abs part ≤ point_limit }
    ensures value { result ≡ number *ℤ part }
    ensures size { unsigned_abs result ≤ 2 ^ 108 }
{
    number * part
}
