//! One step of a merge: the least place at which either list has a cell, and the cells there.

ghost use Rattle.std.specs.Prelude.{◌≡◌, ◌≤◌, ◌⊎◌};
ghost use Rattle.sparse_merge.specs.Merging.{IsLeastPlace, TakesFrom};

use crate::cell::Cell;

/// The least place of the first cells of two lists; none if both lists are empty.
pub(crate) fn least_place<C: Cell>(left: &[C], right: &[C]) -> Option<u32>
    ensures { IsLeastPlace C.place_of left.now right.now result }
{
    match (left.split_first(), right.split_first()) {
        (None, None) => None,
        (Some((left, _)), None) => Some(left.place()),
        (None, Some((right, _))) => Some(right.place()),
        (Some((left, _)), Some((right, _))) => Some(lesser(left.place(), right.place())),
    }
}

/// The lesser of two places.
fn lesser(a: u32, b: u32) -> u32
    ensures at_most_a { result ≤ a }
    ensures at_most_b { result ≤ b }
    ensures one { (result ≡ a) ⊎ (result ≡ b) }
{
    if a <= b { a } else { b }
}

/// The first cell of a list if it is at this place, and the remaining list.
pub(crate) fn take_at<C: Cell>(cells: &[C], place: u32) -> (Option<C>, &[C])
    ensures { TakesFrom C.place_of place cells.now result.0 result.1.now }
{
    if let Some((first, rest)) = cells.split_first() {
        if first.place() == place {
            return (Some(*first), rest);
        }
    }
    (None, cells)
}
