//! One number of a column.

ghost use Rattle.std.specs.Prelude.{◌≡◌, ◌≢◌, ◌<◌, ◌≤◌, ◌^◌, pos, unsigned_abs, MatchOption};

/// The strict limit on the absolute values of a column's numbers and of its denominator: 2^31.
pub const LIMIT: u64 = 1 << 31;

/// A nonzero number in a row.
#[derive(Clone, Copy, Debug, PartialEq, Eq)]
pub struct Cell {
    /// The row, from 0.
    pub row: u32,
    /// The number, below 2^31 in absolute value.
    pub number: i32,
    ghost nonzero: { number ≢ pos 0 },
    ghost small: { unsigned_abs number < 2 ^ 31 },
}

impl Cell {
    /// The cell of a number in a row, if the number is below 2^31 in absolute value.
    pub fn new(row: u32, number: i64) -> Option<Cell>
        requires { number ≢ pos 0 }
        ensures { MatchOption result (2 ^ 31 ≤ unsigned_abs number) (λ cell. (cell.row ≡ row) × (cell.number ≡ number)) }
    {
        if number.unsigned_abs() >= LIMIT {
            return None;
        }
        Some(Cell {
            row,
            number: number as i32,
        })
    }

    /// The number, in 64 bits so that products fit.
    pub fn value(self) -> i64
        ensures value { result ≡ self.number }
        ensures bounded { unsigned_abs result < 2 ^ 31 }
        ensures nonzero { result ≢ pos 0 }
    {
        i64::from(self.number)
    }
}
