//! Groups lists of pairs by the first element.

ghost use Rattle.std.specs.Prelude.{◌≡◌, ℕ, ◌<◌, [], length, map, IfOk, All};
ghost use Rattle.its_graph.specs.Groups.{values_of, values_in, swap};

use crate::tables::push_to;
use model::Memory;
use std::alloc::Global;

/// The values of each key below `count`, in the order of the pairs. The time is linear in both.
pub(crate) fn grouped(
    alloc: Global,
    count: usize,
    pairs: &[(u32, u32)],
) -> Result<Vec<Vec<u32>>, Memory>
    requires { All (λ e. e.0 < count) pairs.now }
    ensures one_each { IfOk result (λ lists. length lists.items ≡ count) }
    ensures values { IfOk result (λ lists. (a : ℕ) → values_in lists.items a ≡ values_of pairs.now a) }
{
    let mut lists = empty_lists(alloc, count)?;
    for (key, value) in pairs {
        push_to(&mut lists, *key as usize, *value)?;
    }
    Ok(lists)
}

/// An empty list for each number below `count`.
pub(crate) fn empty_lists(alloc: Global, count: usize) -> Result<Vec<Vec<u32>>, Memory>
    ensures one_each { IfOk result (λ lists. length lists.items ≡ count) }
    ensures empty { IfOk result (λ lists. (a : ℕ) → values_in lists.items a ≡ []) }
{
    let mut lists = Vec::with_capacity(alloc, count)?;
    for _ in 0..count {
        lists.push(Vec::new(alloc))?;
    }
    Ok(lists)
}

/// The pairs, each with its parts exchanged.
pub(crate) fn swapped(alloc: Global, pairs: &[(u32, u32)]) -> Result<Vec<(u32, u32)>, Memory>
    ensures { IfOk result (λ turned. turned.items ≡ map swap pairs.now) }
{
    pairs.iter().map(|(a, b)| (*b, *a)).collect(alloc)
}
