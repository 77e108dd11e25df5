//! The row that has to be implied for a side bound.

ghost use Rattle.std.specs.Prelude.{◌≡◌, ◌≤◌, ◌<◌, ◌+ℤ◌, ◌*ℤ◌, length, map, IfOk, nat_abs, unsigned_abs};
ghost use Rattle.std.specs.List.{All};
ghost use Rattle.farkas_cert.specs.Sizes.{HasRowNumbers, row_limit};
ghost use Rattle.poly_terms.specs.Views.{form_of};
ghost use Rattle.poly_terms.specs.linear_forms.Forms.{at};
ghost use Rattle.poly_terms.specs.linear_forms.Limits.{certificate_limit};
ghost use Rattle.cert_context.specs.Columns.{HasColumns, IsAlike};
ghost use Rattle.check_sizes.specs.SideBounds.{factor_of, form_in, side_of};
ghost use Rattle.cert_types.specs.cert_rules.AcceptsSizes.{side_bound_goal};
ghost use Rattle.cert_types.specs.cert_rules.Limits.{IsFormInLimit, IsInLimit};

use crate::side_bound_numbers::LinearSideBound;
use crate::side_bounds::Side;
use cert_context::{Column, coefficient, number, product};
use model::Memory;
use poly_terms::Row;
use std::alloc::Global;

// The factor of the new value: the denominator, negated on the upper side.
fn factor(side: Side, den: u64) -> i128
    requires { IsInLimit den }
    ensures value { result ≡ factor_of (side_of side) den }
    ensures size { unsigned_abs result ≤ certificate_limit }
{
    match side {
        Side::Up => -i128::from(den),
        Side::Low => i128::from(den),
    }
}

// An entry of the goal: that of the side bound, and that of the new value times a factor.
fn goal_number(own: i64, value: i128, times: i128) -> i128
    requires own_small { unsigned_abs own ≤ certificate_limit }
    requires value_small { unsigned_abs value < row_limit }
    requires times_small { unsigned_abs times ≤ certificate_limit }
    ensures { result ≡ own +ℤ (value *ℤ times) }
{
    i128::from(own) + product(value, times)
}

// The entry of the goal at an unknown.
fn goal_at(coefs: &[i64], value: &Row, times: i128, unknown: usize) -> i128
    requires coefs_small { All (λ c. IsInLimit (nat_abs c)) coefs.now }
    requires value_small { HasRowNumbers (form_of value.now) }
    requires times_small { unsigned_abs times ≤ certificate_limit }
    ensures { result ≡ at coefs.now unknown +ℤ (at (form_of value.now).coefs unknown *ℤ times) }
{
    let own = coefficient(coefs, unknown);
    let other = number(value, Column::Unknown(unknown));
    goal_number(own, other, times)
}

// The entry of the goal in the column of constants.
fn goal_constant(constant: i64, value: &Row, times: i128) -> i128
    requires constant_small { IsInLimit (nat_abs constant) }
    requires value_small { HasRowNumbers (form_of value.now) }
    requires times_small { unsigned_abs times ≤ certificate_limit }
    ensures { result ≡ constant +ℤ ((form_of value.now).constant *ℤ times) }
{
    goal_number(constant, value.constant, times)
}

// The entries of the goal at this many unknowns.
fn goal_coefs(
    alloc: Global,
    width: usize,
    coefs: &[i64],
    value: &Row,
    times: i128,
) -> Result<Vec<i128>, Memory>
    requires coefs_small { All (λ c. IsInLimit (nat_abs c)) coefs.now }
    requires value_small { HasRowNumbers (form_of value.now) }
    requires times_small { unsigned_abs times ≤ certificate_limit }
    ensures { IfOk result
        (λ goal. HasColumns (λ u. at coefs.now u +ℤ (at (form_of value.now).coefs u *ℤ times)) width goal.items) }
{
    let mut goal = Vec::new(alloc);
    for unknown in 0..width {
        goal.push(goal_at(coefs, value, times, unknown))?;
    }
    Ok(goal)
}

/// The form that has to be at least 0 for a linear side bound over a new value, as a row over this many unknowns.
///
/// # Errors
///
/// `Memory` where an allocation fails.
pub(crate) fn side_bound_row(
    alloc: Global,
    width: usize,
    side: Side,
    side_bound: &LinearSideBound,
    value: &Row,
) -> Result<Row, Memory>
    requires den_small { IsInLimit side_bound.now.den }
    requires own_small { IsFormInLimit (form_in side_bound.now) }
    requires value_small { HasRowNumbers (form_of value.now) }
    requires own_width { length side_bound.now.coefs.now ≤ width }
    requires value_width { length (form_of value.now).coefs ≤ width }
    ensures { IfOk result (λ row. IsAlike (form_of row)
        (side_bound_goal (side_of side) side_bound.now.den (form_in side_bound.now) (form_of value.now))) }
{
    let times = factor(side, side_bound.den);
    let goal = goal_coefs(alloc, width, side_bound.coefs, value, times)?;
    let last = goal_constant(side_bound.constant, value, times);
    Ok(Row {
        coefs: goal,
        constant: last,
    })
}
