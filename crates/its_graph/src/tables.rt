//! Tables of lists, and sets of numbers, changed at one key.

ghost use Rattle.std.specs.Prelude.{◌≡◌, ◌⊎◌, ◌↔◌, ℕ, ◌<◌, ◌++◌, ◌∷◌, [], length, All, IfOk, OnOk, MatchOption};
ghost use Rattle.std.specs.Prelude.{if◌then◌else◌, ◌==◌, replicate, false};
ghost use Rattle.std.specs.List.{Contains};
ghost use Rattle.its_graph.specs.Groups.{values_in};

use model::Memory;
use std::alloc::Global;
use std::collections::BTreeSet;

/// Appends a value to a key's list.
pub(crate) fn push_to(lists: &mut Vec<Vec<u32>>, key: usize, value: u32) -> Result<(), Memory>
    requires { key < length lists.old.items }
    ensures size { length lists.new.items ≡ length lists.old.items }
    ensures values { OnOk result ((a : ℕ) → values_in lists.new.items a
        ≡ (if key == a then values_in lists.old.items a ++ value ∷ [] else values_in lists.old.items a)) }
{
    lists[key].push(value)?;
    Ok(())
}

/// Takes the values of a key, which has none afterwards.
pub(crate) fn take_from(alloc: Global, lists: &mut Vec<Vec<u32>>, key: usize) -> Vec<u32>
    requires { key < length lists.old.items }
    ensures taken { result.items ≡ values_in lists.old.items key }
    ensures size { length lists.new.items ≡ length lists.old.items }
    ensures values { (a : ℕ) → values_in lists.new.items a ≡ (if key == a then [] else values_in lists.old.items a) }
{
    std::mem::replace(&mut lists[key], Vec::new(alloc))
}

/// Adds a number to the set.
pub(crate) fn add_to(set: &mut BTreeSet<u32>, number: u32) -> Result<(), Memory>
    ensures { OnOk result ((q : ℕ) → Contains set.new.keys q ↔ (Contains set.old.keys q ⊎ (q ≡ number))) }
{
    set.insert(number)?;
    Ok(())
}

/// Removes the least number of the set.
pub(crate) fn take_least(set: &mut BTreeSet<u32>) -> Option<u32>
    ensures { MatchOption result (set.old.keys ≡ [])
        (λ number. (set.old.keys ≡ number ∷ set.new.keys) × ((q : ℕ) → Contains set.new.keys q → number < q)) }
{
    set.pop_first()
}

/// A 0 for each number below `count`.
pub(crate) fn zeros(alloc: Global, count: usize) -> Result<Vec<usize>, Memory>
    ensures { IfOk result (λ numbers. numbers.items ≡ replicate count 0) }
{
    vec![in alloc; 0usize; count]
}

/// A mark for each number below `count`, all false.
pub(crate) fn no_marks(alloc: Global, count: usize) -> Result<Vec<bool>, Memory>
    ensures { IfOk result (λ marks. marks.items ≡ replicate count false) }
{
    vec![in alloc; false; count]
}

/// An empty set of numbers.
pub(crate) fn empty_set(alloc: Global) -> BTreeSet<u32>
    ensures { result.keys ≡ [] }
{
    BTreeSet::new(alloc)
}
