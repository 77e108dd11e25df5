//! Sparse rows: their construction, their entries, and sums of multiples.

ghost use Rattle.std.specs.Prelude.{[], ◌<◌, Some, length, slice_get, OnErr, ◌≡◌, IfOk, MatchResult};
ghost use Rattle.sparse_rows.specs.Rows.{IsRow, IsPut, fraction_at};
ghost use Rattle.frac128.specs.Zero.{zero};
ghost use Rattle.sparse_rows.specs.Multiples.{IsRowPlusMultiple, IsRefusal, error_of_stop};

use crate::multiple::PlusMultiple;
use frac128::Frac;
use smallvec::SmallVec;
use sparse_merge::{Stop, find, merge_into, search};
use std::alloc::{AllocError, Global};
use std::marker::Model;
use thiserror::Error;

/// A row of fractions. It stores its entries that aren't 0, each with its column; at each other column it is 0.
#[derive(Debug, Drop)]
pub struct SparseRow {
    cells: SmallVec<(u32, Frac), 4>,
}

impl Model for SparseRow {
    ghost use Rattle.std.specs.Prelude.{List, ℕ};
    ghost use Rattle.frac128.specs.declared.frac.Frac.{Frac};

    ghost Value = { List (ℕ × Frac) };

    ghost use Rattle.sparse_rows.specs.Rows.{IsRow};

    ghost view = { λ r. r.cells.items };

    ghost invariant = { λ r. IsRow r.cells.items };
}

/// Why a row plus a multiple of another row can't be computed.
#[derive(Debug, Drop, Error, PartialEq, Eq)]
pub enum SparseError {
    /// At this column the product or the sum exceeds 127 bits; it is the least such column.
    #[error("at column {col} a number is beyond 127 bits")]
    Range { col: u32 },
    /// Memory ran out.
    #[error("out of memory")]
    Memory,
}

impl SparseRow {
    /// The row with exactly these entries, given as pairs of a column and a fraction. Condition: the columns ascend
    /// strictly, and no fraction is 0.
    ///
    /// # Errors
    ///
    /// `AllocError` if an allocation fails.
    pub fn from_pairs(alloc: Global, pairs: &[(u32, Frac)]) -> Result<SparseRow, AllocError>
        requires { IsRow pairs.now }
        ensures { IfOk result (λ row. row ≡ pairs.now) }
    {
        let cells = SmallVec::from_slice(alloc, pairs)?;
        Ok(SparseRow { cells })
    }

    /// The fraction at a column: the listed one, or 0.
    pub fn at(&self, col: u32) -> Frac
        ensures { result ≡ fraction_at self.now col }
    {
        match find(self.cells.as_slice(), col) {
            Some((_, fraction)) => fraction,
            None => Frac::default(),
        }
    }

    /// A row of zeros.
    pub fn zeros(alloc: Global) -> SparseRow
        ensures { result ≡ [] }
    {
        SparseRow {
            cells: SmallVec::new(alloc),
        }
    }

    /// How many entries are stored.
    pub fn len(&self) -> usize
        ensures value { result ≡ length self.now }
        ensures row { IsRow self.now }
    {
        self.cells.len()
    }

    /// An entry by its index: its column and its fraction. Condition: the index is below the number of entries.
    pub fn entry(&self, index: usize) -> (u32, Frac)
        requires { index < length self.now }
        ensures is { slice_get self.now index ≡ Some result }
        ensures row { IsRow self.now }
    {
        self.cells.as_slice()[index]
    }

    /// Writes the fraction at a column. Condition: the row is 0 there.
    ///
    /// # Errors
    ///
    /// `AllocError` if an allocation fails; the row is then unchanged.
    pub fn put(&mut self, col: u32, fraction: Frac) -> Result<(), AllocError>
        requires { fraction_at self.old col ≡ zero }
        ensures put { IfOk result (λ _. IsPut self.old col fraction self.new) }
        ensures kept { OnErr result (self.new ≡ self.old) }
    {
        if fraction.num == 0 {
            return Ok(());
        }
        let Err(index) = search(self.cells.as_slice(), col) else {
            unreachable!()
        };
        self.cells.insert(index, (col, fraction))?;
        Ok(())
    }

    /// The row whose fraction at each column is the exact value here plus `by` times that of `other`.
    ///
    /// # Errors
    ///
    /// `Range` with the least column at which the product or the sum is out of range, and `Memory` if an allocation
    /// fails.
    pub fn plus_multiple(
        &self,
        alloc: Global,
        by: Frac,
        other: &SparseRow,
    ) -> Result<SparseRow, SparseError>
        ensures { MatchResult result (IsRowPlusMultiple self.now by other.now) (IsRefusal self.now by other.now) }
    {
        let mut cells = SmallVec::new(alloc);
        let join = PlusMultiple { by };
        let left = self.cells.as_slice();
        let right = other.cells.as_slice();
        match merge_into(&join, left, right, &mut cells) {
            Ok(()) => Ok(SparseRow { cells }),
            Err(stop) => Err(error_of(stop)),
        }
    }
}

/// The error of a merge that was stopped.
fn error_of(stop: Stop) -> SparseError
    ensures { result ≡ error_of_stop stop }
{
    match stop {
        Stop::Refused { place } => SparseError::Range { col: place },
        Stop::Memory => SparseError::Memory,
    }
}
