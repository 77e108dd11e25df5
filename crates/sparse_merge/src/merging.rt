//! Merges two lists.

ghost use Rattle.std.specs.Prelude.{◌≡◌, ℕ, IfOk, IfErr};
ghost use Rattle.sparse_merge.specs.Listing.{IsListing};
ghost use Rattle.sparse_merge.specs.Merging.{IsMerge, IsStop, IsPut};

use crate::cell::Cell;
use crate::join::{Join, Refused};
use crate::taking::{least_place, take_at};
use smallvec::SmallVec;
use std::alloc::{AllocFailed, Global};
use std::default::MadeWith;

/// Why two lists can't be merged.
#[derive(Debug, Drop, PartialEq, Eq)]
pub enum Stop {
    /// The cells at this place can't be combined; it is the least such place.
    Refused { place: u32 },
    /// Memory ran out.
    Memory,
}

/// Merges two ascending lists into a third, whose earlier contents are dropped: at each place it has the combination of
/// the cells that the two lists have there.
///
/// # Errors
///
/// `Refused` with the least place at which the cells can't be combined, and `Memory` if an allocation fails. The third
/// list's contents are then unspecified.
pub fn merge_into<C: Cell + MadeWith<Global> + Drop, J: Join<C>, const N: usize>(
    join: &J,
    left: &[C],
    right: &[C],
    made: &mut SmallVec<C, N>,
) -> Result<(), Stop>
    requires left { IsListing C.place_of C.fits left.now }
    requires right { IsListing C.place_of C.fits right.now }
    ensures merged { IfOk result (λ _. IsMerge C.place_of C.fits (J.joins join.now) left.now right.now made.new.items) }
    ensures stopped { IfErr result (IsStop C.place_of (J.joins join.now) (J.refuses join.now) left.now right.now) }
{
    made.clear();
    let mut left = left;
    let mut right = right;
    'places: while let Some(place) = least_place(left, right) {
        let (at_left, left_rest) = take_at(left, place);
        let (at_right, right_rest) = take_at(right, place);
        match join.join(place, at_left, at_right) {
            Ok(cell) => put(made, cell)?,
            Err(_) => return Err(Stop::Refused { place }),
        }
        left = left_rest;
        right = right_rest;
    }
    Ok(())
}

/// Appends a cell, if there is one.
fn put<C: Cell + MadeWith<Global> + Drop, const N: usize>(
    made: &mut SmallVec<C, N>,
    cell: Option<C>,
) -> Result<(), Stop>
    ensures put { IfOk result (λ _. IsPut C.place_of made.old.items cell made.new.items) }
    ensures stopped { IfErr result (λ stop. stop ≡ Stop.Memory) }
{
    match cell {
        None => Ok(()),
        Some(cell) => match made.push(cell) {
            Ok(()) => Ok(()),
            Err(_) => Err(Stop::Memory),
        },
    }
}
