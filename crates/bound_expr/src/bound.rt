//! The type of bounds, and copies of them.

ghost use Rattle.std.specs.Prelude.{◌≡◌, IfOk};
ghost use Rattle.bound_expr.specs.Views.{bound_of, bounds_of};

use model::Memory;
use std::alloc::Global;

/// A bound: an expression over natural numbers that grows with each of its variables.
///
/// An empty sum or maximum is 0, an empty product is 1, and a power with exponent 0 is 1.
#[derive(Debug, PartialEq, Eq, Hash, Drop)]
pub enum Bound {
    /// A fixed number.
    Const(u128),
    /// The absolute value of the start argument with this number, from 0.
    Var(u32),
    /// The sum of the parts.
    Sum(Vec<Bound>),
    /// The product of the parts.
    Prod(Vec<Bound>),
    /// The maximum of the parts.
    Max(Vec<Bound>),
    /// A fixed base to the power of a bound.
    Power(u64, Box<Bound>),
}

impl Bound {
    /// A copy of this bound, in memory of its own.
    ///
    /// # Errors
    ///
    /// `Memory` where an allocation fails.
    #[cycle(copied)]
    pub fn copied(&self, alloc: Global) -> Result<Bound, Memory>
        ensures { IfOk result (λ b. bound_of b ≡ bound_of self.now) }
    {
        match self {
            Bound::Const(c) => Ok(Bound::Const(*c)),
            Bound::Var(i) => Ok(Bound::Var(*i)),
            Bound::Sum(parts) => Ok(Bound::Sum(copied_parts(alloc, parts)?)),
            Bound::Prod(parts) => Ok(Bound::Prod(copied_parts(alloc, parts)?)),
            Bound::Max(parts) => Ok(Bound::Max(copied_parts(alloc, parts)?)),
            Bound::Power(base, exponent) => Ok(Bound::Power(
                *base,
                Box::new(alloc, exponent.copied(alloc)?)?,
            )),
        }
    }
}

// Copies of bounds, in order.
#[cycle(copied)]
fn copied_parts(alloc: Global, parts: &[Bound]) -> Result<Vec<Bound>, Memory>
    ensures { IfOk result (λ bs. bounds_of bs.items ≡ bounds_of parts.now) }
{
    let mut copies = Vec::new(alloc);
    for part in parts {
        copies.push(part.copied(alloc)?)?;
    }
    Ok(copies)
}
