//! The variables of a product of monomials.

ghost use Rattle.std.specs.Prelude.{◌≡◌, ◌≤◌, length, IfOk, OnOk, insert};
ghost use Rattle.poly_terms.specs.Expanding.{inserted, all_inserted};

use crate::Memory;
use std::alloc::Global;

/// The variables of both lists in ascending order.
pub(crate) fn joined(alloc: Global, left: &[u32], right: &[u32]) -> Result<Vec<u32>, Memory>
    ensures { IfOk result (λ vars. vars.items ≡ all_inserted left.now right.now) }
{
    let mut vars = Vec::with_capacity(alloc, left.len().saturating_add(right.len()))?;
    vars.extend_from_slice(left)?;
    for v in right {
        insert_factor(&mut vars, *v)?;
    }
    Ok(vars)
}

// Inserts a variable at its position.
fn insert_factor(vars: &mut Vec<u32>, v: u32) -> Result<(), Memory>
    ensures { OnOk result (vars.new.items ≡ inserted v vars.old.items) }
{
    let i = position_for(vars, v);
    vars.insert(i, v)?;
    Ok(())
}

/// The position of a variable: before the first one that is at least as great.
pub(crate) fn position_for(vars: &[u32], v: u32) -> usize
    ensures within { result ≤ length vars.now }
    ensures position { insert vars.now result v ≡ inserted v vars.now }
{
    for (i, w) in vars.iter().enumerate() {
        if *w >= v {
            return i;
        }
    }
    vars.len()
}
