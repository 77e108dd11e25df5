//! Checks the shapes of the numbers of side bounds.

ghost use Rattle.std.specs.Prelude.{◌↔◌, IsTrue};
ghost use Rattle.check_sizes.specs.SideBounds.{HasSideBoundNumbers, HasLinearNumbers, form_in};
ghost use Rattle.cert_types.specs.Views.{side_bound_of};

use cert_context::{are_within, are_within_limit, is_within};
use cert_types::SideBound;
use farkas_cert::LIMIT;

/// The numbers of a linear side bound: a form over a denominator, and the multipliers of the rows that certify it.
#[derive(Clone, Copy)]
pub(crate) struct LinearSideBound<'a> {
    pub den: u64,
    pub coefs: &'a [i64],
    pub constant: i64,
    pub multipliers: &'a [u64],
}

/// Whether the numbers of a side bound have the right shape for this many left places and rows.
pub(crate) fn has_side_bound_numbers(side_bound: &SideBound, left: u32, rows: usize) -> bool
    ensures { IsTrue result ↔ HasSideBoundNumbers rows left (side_bound_of side_bound.now) }
{
    match side_bound {
        SideBound::Linear {
            den,
            coefs,
            constant,
            multipliers,
        } => {
            let numbers = LinearSideBound {
                den: *den,
                coefs,
                constant: *constant,
                multipliers,
            };
            has_linear_numbers(&numbers, left, rows)
        }
        SideBound::Poly => true,
    }
}

// Whether the numbers of a linear side bound have the right shape for this many left places and rows.
fn has_linear_numbers(side_bound: &LinearSideBound, left: u32, rows: usize) -> bool
    ensures { IsTrue result
        ↔ HasLinearNumbers rows left side_bound.now.den (form_in side_bound.now) side_bound.now.multipliers.now }
{
    if side_bound.den == 0 || side_bound.den > LIMIT {
        return false;
    }
    if side_bound.coefs.len() != left as usize || side_bound.multipliers.len() != rows {
        return false;
    }
    are_within(side_bound.coefs)
        && is_within(side_bound.constant)
        && are_within_limit(side_bound.multipliers)
}
