//! Copies of local bounds and of scaled points.

ghost use Rattle.std.specs.Prelude.{◌≡◌, IfOk};
ghost use Rattle.cert_types.specs.AnswerViews.{scaled_of};
ghost use Rattle.cert_types.specs.Views.{side_bound_of, local_of};

use crate::side_bound::{LocalBound, SideBound};
use bound_expr::Memory;
use farkas_cert::Scaled;
use std::alloc::Global;

/// A copy of the local bound.
///
/// # Errors
///
/// `Memory` where an allocation fails.
pub fn copied_local(alloc: Global, local: &LocalBound) -> Result<LocalBound, Memory>
    ensures { IfOk result (λ l. local_of l ≡ local_of local.now) }
{
    let up = copied_side_bound(alloc, &local.up)?;
    let low = copied_side_bound(alloc, &local.low)?;
    Ok(LocalBound { up, low })
}

/// A copy of the scaled point.
///
/// # Errors
///
/// `Memory` where an allocation fails.
pub fn copied_scaled(alloc: Global, point: &Scaled) -> Result<Scaled, Memory>
    ensures { IfOk result (λ z. scaled_of z ≡ scaled_of point.now) }
{
    let parts = copied_numbers(alloc, &point.parts)?;
    Ok(Scaled {
        parts,
        den: point.den,
    })
}

// A copy of a side bound.
fn copied_side_bound(alloc: Global, side_bound: &SideBound) -> Result<SideBound, Memory>
    ensures { IfOk result (λ a. side_bound_of a ≡ side_bound_of side_bound.now) }
{
    match side_bound {
        SideBound::Linear {
            den,
            coefs,
            constant,
            multipliers,
        } => Ok(SideBound::Linear {
            den: *den,
            coefs: copied_numbers(alloc, coefs)?,
            constant: *constant,
            multipliers: copied_multipliers(alloc, multipliers)?,
        }),
        SideBound::Poly => Ok(SideBound::Poly),
    }
}

// A copy of numbers.
fn copied_numbers(alloc: Global, numbers: &[i64]) -> Result<Vec<i64>, Memory>
    ensures { IfOk result (λ v. v.items ≡ numbers.now) }
{
    numbers.to_vec(alloc)
}

// A copy of multipliers.
fn copied_multipliers(alloc: Global, multipliers: &[u64]) -> Result<Vec<u64>, Memory>
    ensures { IfOk result (λ v. v.items ≡ multipliers.now) }
{
    multipliers.to_vec(alloc)
}
