//! Tightens rows over the integers.

ghost use Rattle.std.specs.Prelude.{◌≡◌, ◌≤◌, ◌<◌, ◌++◌, length, map, ℤ, pos, ◌<ℤ◌, nat_abs, int_div, slice_set};
ghost use Rattle.std.specs.Prelude.{slice_index_or, IfOk, OnOk};
ghost use Rattle.std.specs.List.{AllByRecursion};
ghost use Rattle.std.specs.Int.{int_div_euclid};
ghost use Rattle.poly_terms.specs.model.Limits.{coefficient_limit};
ghost use Rattle.poly_terms.specs.Views.{form_of};
ghost use Rattle.guard_prep.specs.Tightening.{divisor_of, tightened, tightened_by};

use int_laws::greatest_common_divisor;
use poly_terms::{Memory, Row};

/// Appends the tightened row, unless it always holds.
pub(crate) fn push_tightened(rows: &mut Vec<Row>, row: Row) -> Result<(), Memory>
    requires coefs { AllByRecursion (λ a. nat_abs a ≤ coefficient_limit) row.coefs.items }
    requires constant { nat_abs row.constant ≤ coefficient_limit }
    ensures { OnOk result (map form_of rows.new.items ≡ map form_of rows.old.items ++ tightened (form_of row)) }
{
    let divisor = common_divisor(&row.coefs);
    if divisor == 0 {
        push_constant(rows, row)
    } else {
        rows.push(divided(row, divisor))?;
        Ok(())
    }
}

// Appends a row without coefficients, unless it always holds.
fn push_constant(rows: &mut Vec<Row>, row: Row) -> Result<(), Memory>
    ensures { OnOk result (map form_of rows.new.items ≡ map form_of rows.old.items ++ tightened_by 0 (form_of row)) }
{
    if row.constant < 0 {
        rows.push(Row {
            coefs: row.coefs,
            constant: -1,
        })?;
    }
    Ok(())
}

// The row divided by a number, with its constant rounded down.
fn divided(row: Row, divisor: i128) -> Row
    requires positive { pos 0 <ℤ divisor }
    ensures coefs { result.coefs.items ≡ map (λ a. int_div a divisor) row.coefs.items }
    ensures constant { result.constant ≡ int_div_euclid row.constant divisor }
{
    let mut coefs = row.coefs;
    for i in 0..coefs.len() {
        divide_at(&mut coefs, i, divisor);
    }
    Row {
        coefs,
        constant: row.constant.div_euclid(divisor),
    }
}

// Divides one coefficient.
fn divide_at(coefs: &mut Vec<i128>, i: usize, divisor: i128)
    requires within { i < length coefs.old.items }
    requires positive { pos 0 <ℤ divisor }
    ensures { coefs.new.items
        ≡ slice_set coefs.old.items i (int_div (slice_index_or coefs.old.items i (pos 0)) divisor) }
{
    coefs[i] = quotient(coefs[i], divisor);
}

// The quotient, rounded towards 0.
fn quotient(a: i128, divisor: i128) -> i128
    requires { pos 0 <ℤ divisor }
    ensures { result ≡ int_div a divisor }
{
    a / divisor
}

// The greatest common divisor of coefficients; 0 if all are 0.
fn common_divisor(coefs: &[i128]) -> i128
    requires { AllByRecursion (λ a. nat_abs a ≤ coefficient_limit) coefs.now }
    ensures { result ≡ pos (divisor_of coefs.now) }
{
    let mut divisor = 0u128;
    for a in coefs {
        divisor = greatest_common_divisor(divisor, a.unsigned_abs());
    }
    divisor as i128
}
