//! Substitution: a bound with other bounds in place of its variables.

ghost use Rattle.std.specs.Prelude.{◌≡◌, length, IfOk};
ghost use Rattle.bound_expr.specs.Views.{bound_of, bounds_of, parts_of};
ghost use Rattle.bound_expr.specs.Numbers.{ReadsBelow, AllReadBelow};
ghost use Rattle.bound_expr.specs.Substitution.{substituted, all_substituted, SubstitutesValues, SubstitutionKeeps};

use crate::bound::Bound;
use model::Memory;
use std::alloc::Global;

/// The bound `b` with `sizes[i]` in place of each variable i.
///
/// Its value is that of `b` at the values of the sizes. If the bases of `b` and of the sizes are at least n, so are its
/// bases; constants stay at most 2^127-1; and it reads no other variables than the sizes do.
///
/// # Errors
///
/// `Memory` where an allocation fails.
#[tactic(auto, using(crate::proofs::Substitutions::substitutes_values, crate::proofs::Nodes::substitution_keeps))]
pub fn apply(alloc: Global, b: &Bound, sizes: &[Bound]) -> Result<Bound, Memory>
    requires { ReadsBelow (length sizes.now) (bound_of b.now) }
    ensures tree { IfOk result (λ r. bound_of r ≡ substituted (bound_of b.now) (bounds_of sizes.now)) }
    ensures value { IfOk result (λ r. SubstitutesValues (bound_of b.now) (bounds_of sizes.now) (bound_of r)) }
    ensures keeps { IfOk result (λ r. SubstitutionKeeps (bound_of b.now) (bounds_of sizes.now) (bound_of r)) }
{
    replaced(alloc, b, sizes)
}

// The bound with the sizes in place of its variables.
#[cycle(replaced)]
fn replaced(alloc: Global, b: &Bound, sizes: &[Bound]) -> Result<Bound, Memory>
    requires { ReadsBelow (length sizes.now) (bound_of b.now) }
    ensures { IfOk result (λ r. bound_of r ≡ substituted (bound_of b.now) (bounds_of sizes.now)) }
{
    match b {
        Bound::Const(c) => Ok(Bound::Const(*c)),
        Bound::Var(i) => sizes[*i as usize].copied(alloc),
        Bound::Sum(parts) => Ok(Bound::Sum(all_replaced(alloc, parts, sizes)?)),
        Bound::Prod(parts) => Ok(Bound::Prod(all_replaced(alloc, parts, sizes)?)),
        Bound::Max(parts) => Ok(Bound::Max(all_replaced(alloc, parts, sizes)?)),
        Bound::Power(base, exponent) => Ok(Bound::Power(
            *base,
            Box::new(alloc, replaced(alloc, exponent, sizes)?)?,
        )),
    }
}

// Each of the bounds with the sizes in place of its variables, in order.
#[cycle(replaced)]
fn all_replaced(alloc: Global, parts: &[Bound], sizes: &[Bound]) -> Result<Vec<Bound>, Memory>
    requires { AllReadBelow (length sizes.now) (parts_of (bounds_of parts.now)) }
    ensures { IfOk result (λ rs. parts_of (bounds_of rs.items) ≡ all_substituted (parts_of (bounds_of parts.now))
        (bounds_of sizes.now)) }
{
    let mut outcomes = Vec::new(alloc);
    for part in parts {
        outcomes.push(replaced(alloc, part, sizes)?)?;
    }
    Ok(outcomes)
}
