//! Finds the cell of a list at a place, by binary search.

ghost use Rattle.std.specs.Prelude.{◌≡◌, MatchResult};
ghost use Rattle.sparse_merge.specs.Listing.{IsListing, listed, IsAt, LiesAt};

use crate::cell::Cell;

/// Binary search: `Ok` with the index of the cell at a place, or `Err` with the index at which such a cell would be
/// inserted.
pub fn search<C: Cell>(cells: &[C], place: u32) -> Result<usize, usize>
    requires { IsListing C.place_of C.fits cells.now }
    ensures { MatchResult result (IsAt C.place_of cells.now place) (LiesAt C.place_of cells.now place) }
{
    let mut low = 0;
    let mut high = cells.len();
    'halving: while low < high {
        let middle = low + (high - low) / 2;
        let found = cells[middle].place();
        if found == place {
            return Ok(middle);
        }
        if found < place {
            low = middle + 1;
        } else {
            high = middle;
        }
    }
    Err(low)
}

/// The cell of a list at a place, if it has one there.
pub fn find<C: Cell>(cells: &[C], place: u32) -> Option<C>
    requires { IsListing C.place_of C.fits cells.now }
    ensures { result ≡ listed C.place_of cells.now place }
{
    match search(cells, place) {
        Ok(index) => Some(cells[index]),
        Err(_) => None,
    }
}
