//! Writes numbers line by line as sparse entries.

ghost use Rattle.std.specs.Prelude.{◌≡◌, ℕ, ◌+◌, ◌<◌, ◌^◌, pos, [], ◌∷◌, replicate, IfOk};
ghost use Rattle.lp_builder.specs.Entries.{Writes, GoesOn};

use model::Memory;
use simplex_core::Entry;
use std::alloc::Global;

/// The entries written so far, and the position of the next number.
#[derive(Debug, Drop)]
pub struct EntryWriter {
    /// The row of the next number.
    pub row: u32,
    /// The column of the next number.
    pub col: u32,
    /// The nonzero numbers, in order.
    pub entries: Vec<Entry>,
}

impl EntryWriter {
    /// A writer that has written nothing.
    pub fn new(alloc: Global) -> EntryWriter
        ensures position { (result.row ≡ 0) × (result.col ≡ 0) }
        ensures entries { result.entries.items ≡ [] }
    {
        EntryWriter {
            row: 0,
            col: 0,
            entries: Vec::new(alloc),
        }
    }

    /// Writes a number.
    ///
    /// # Errors
    ///
    /// `Memory` if an allocation fails.
    pub fn put(&mut self, value: i128) -> Result<(), Memory>
        requires { self.old.col + 1 < 2 ^ 32 }
        ensures { IfOk result (λ _. Writes self.old self.new (value ∷ [])) }
    {
        if value != 0 {
            self.entries.push(Entry {
                row: self.row,
                col: self.col,
                value,
            })?;
        }
        self.col += 1;
        Ok(())
    }

    /// Skips zeros, in constant time.
    pub fn skip(&mut self, columns: u32)
        requires { self.old.col + columns < 2 ^ 32 }
        ensures { Writes self.old self.new (replicate columns (pos 0)) }
    {
        self.col += columns;
    }

    /// Begins the next row.
    pub fn next_row(&mut self)
        requires { self.old.row + 1 < 2 ^ 32 }
        ensures { GoesOn self.old self.new }
    {
        self.row += 1;
        self.col = 0;
    }
}
