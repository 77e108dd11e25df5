//! The caller's combination of the cells that two lists have at a place.

ghost use Rattle.std.specs.Prelude.{ℕ, Option, None, MatchResult};
ghost use Rattle.sparse_merge.specs.Merging.{IsMade};

use crate::cell::Cell;

/// The cells at a place can't be combined.
#[derive(Clone, Copy, Debug, Drop, PartialEq, Eq)]
pub struct Refused;

/// The combination of the cells of two lists at a place, where each has one or none.
///
/// `joins` gives the combination at a place of the cells that the left and the right list have there, and `refuses`
/// says where they can't be combined.
pub trait Join<C: Cell> {
    ghost joins: { Self → ℕ → Option C → Option C → Option C → Type 0 };

    ghost refuses: { Self → ℕ → Option C → Option C → Type 0 };

    /// The combined cell at a place, or none.
    ///
    /// # Errors
    ///
    /// `Refused` exactly if `refuses` says so at this place.
    fn join(&self, place: u32, left: Option<C>, right: Option<C>) -> Result<Option<C>, Refused>
        requires left { IsMade C.place_of C.fits place left }
        requires right { IsMade C.place_of C.fits place right }
        ensures joined { MatchResult result (joins self.now place left right) (λ _. refuses self.now place left right) }
        ensures made { MatchResult result (IsMade C.place_of C.fits place) (λ _. Unit {0}) };

    /// If neither list has a cell, the combination has none.
    ghost joins_nothing: { (it : Self) (place : ℕ) → joins it place None None None };
}
