//! Bounds over absolute start values as signed bounds.

ghost use Rattle.std.specs.Prelude.{◌≡◌, IfOk};
ghost use Rattle.bound_expr.specs.Views.{bound_of, bounds_of, parts_of as plain_parts_of};
ghost use Rattle.signed_bounds.specs.Bounds.{PositivePart};
ghost use Rattle.signed_bounds.specs.Inputs.{absolute_value as absolute_value_of, multiple_of_variable};
ghost use Rattle.signed_bounds.specs.Inputs.{signed_of_bound, signed_of_parts};
ghost use Rattle.signed_bounds.specs.Views.{signed_of, signeds_of, parts_of};

use bound_expr::Bound;
use poly_terms::{Memory, Monomial, Poly};
use signed_bounds::Signed;
use std::alloc::Global;

/// The signed bound with the value of a bound: the absolute value of a start argument becomes the maximum of the
/// positive parts of the argument and of its opposite.
///
/// # Errors
///
/// `Memory` where an allocation fails.
#[cycle(signed)]
pub fn signed_bound(alloc: Global, bound: &Bound) -> Result<Signed, Memory>
    ensures { IfOk result (λ b. signed_of b ≡ signed_of_bound (bound_of bound.now)) }
{
    match bound {
        Bound::Const(c) => Ok(Signed::Const(*c)),
        Bound::Var(i) => absolute_value(alloc, *i),
        Bound::Sum(parts) => Ok(Signed::Sum(signed_parts(alloc, parts)?)),
        Bound::Prod(parts) => Ok(Signed::Prod(signed_parts(alloc, parts)?)),
        Bound::Max(parts) => Ok(Signed::Max(signed_parts(alloc, parts)?)),
        Bound::Power(base, exponent) => {
            let exponent = Box::new(alloc, signed_bound(alloc, exponent)?)?;
            Ok(Signed::Power(*base, exponent))
        }
    }
}

// The signed bounds of the parts of a bound, in order.
#[cycle(signed)]
fn signed_parts(alloc: Global, parts: &[Bound]) -> Result<Vec<Signed>, Memory>
    ensures { IfOk result
        (λ bs. parts_of (signeds_of bs.items) ≡ signed_of_parts (plain_parts_of (bounds_of parts.now))) }
{
    let mut converted = Vec::new(alloc);
    for part in parts {
        converted.push(signed_bound(alloc, part)?)?;
    }
    Ok(converted)
}

// The absolute value of a start argument.
fn absolute_value(alloc: Global, argument: u32) -> Result<Signed, Memory>
    ensures { IfOk result (λ b. signed_of b ≡ absolute_value_of argument) }
{
    let mut parts = Vec::new(alloc);
    parts.push(positive_part(alloc, 1, argument)?)?;
    parts.push(positive_part(alloc, -1, argument)?)?;
    Ok(Signed::Max(parts))
}

// The positive part of a multiple of a start argument.
fn positive_part(alloc: Global, coef: i128, argument: u32) -> Result<Signed, Memory>
    ensures { IfOk result (λ b. signed_of b ≡ PositivePart (multiple_of_variable coef argument)) }
{
    let mut vars = Vec::new(alloc);
    vars.push(argument)?;
    let mut terms = Vec::new(alloc);
    terms.push(Monomial { coef, vars })?;
    Ok(Signed::Part(Poly { terms }))
}
