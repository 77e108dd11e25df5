//! A bound that is at least each of some bounds.

use crate::simplifying::simplified;
use poly_terms::Memory;
use signed_bounds::Signed;
use std::alloc::Global;

/// A bound that is at least each of some bounds: the sums and products among them are added, and all others are parts of a
/// maximum.
///
/// # Errors
///
/// `Memory` where an allocation fails.
pub fn greatest(alloc: Global, bounds: &[Signed]) -> Result<Signed, Memory> {
    let mut other_bounds: Vec<Signed> = Vec::new(alloc);
    let mut summands: Vec<Signed> = Vec::new(alloc);
    for bound in bounds {
        let simpler = simplified(alloc, bound)?;
        if is_composed(&simpler) {
            add_new(&mut summands, simpler)?;
        } else {
            add_new(&mut other_bounds, simpler)?;
        }
    }
    if other_bounds.len() > 1 {
        summands.push(Signed::Max(other_bounds))?;
    } else if let Some(only) = other_bounds.pop() {
        summands.push(only)?;
    }
    if summands.len() == 1 {
        if let Some(only) = summands.pop() {
            return Ok(only);
        }
    }
    Ok(Signed::Sum(summands))
}

// Whether a bound is a sum or a product.
fn is_composed(bound: &Signed) -> bool {
    match bound {
        Signed::Sum(_) | Signed::Prod(_) => true,
        Signed::Const(_)
        | Signed::Part(_)
        | Signed::Max(_)
        | Signed::Min(_, _)
        | Signed::Quotient(_, _)
        | Signed::Root(_)
        | Signed::Power(_, _) => false,
    }
}

// Adds a bound to a list, where it isn't 0 and isn't there.
fn add_new(list: &mut Vec<Signed>, bound: Signed) -> Result<(), Memory> {
    if bound != Signed::Const(0) && !list.contains(&bound) {
        list.push(bound)?;
    }
    Ok(())
}
