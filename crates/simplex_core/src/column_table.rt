//! A table that stores the columns of the tableau: the nonzero integers of each, over one denominator.

mod entering;
mod first;
mod leaving;
mod lists;
mod method;
mod pivoting;
mod results;
mod touching;

ghost use Rattle.std.specs.Prelude.{◌≡◌, ◌+◌, ◌<◌, ◌≤◌, ◌^◌, length};

pub(crate) use first::first_columns;
use lists::RowColumns;
use sparse_columns::Column;

/// The columns of a tableau: those of the program, followed by those of the artificial unknowns, and that of the right
/// sides. The cost rows follow the rows of the equations, and have no right sides. Each number and each denominator is
/// below 2^31 by its type, so such a table is in range. For the row of each equation, a list names the columns that may
/// have a nonzero number there, so that a pivot looks at no others. A list may name other columns too, and a column
/// twice; when the room for additions is used up, the lists are rebuilt. No column before `first` has a number below 0
/// in the first cost row, so the search for the entering column begins there. There is one mark for each column; marks
/// are set only while a list is processed.
#[derive(Debug, Drop)]
pub(crate) struct ColumnTable {
    columns: Vec<Column>,
    right: Column,
    basis: Vec<u32>,
    lists: Vec<RowColumns>,
    room: usize,
    marks: Vec<bool>,
    first: u32,
    rows: u32,
    width: u32,
    ghost unknowns: { length columns.items ≡ width + rows },
    ghost listed: { length lists.items ≡ rows },
    ghost within: { first ≤ width },
    ghost based: { length basis.items ≡ rows },
    ghost few_rows: { rows < 2 ^ 31 },
    ghost few_columns: { width < 2 ^ 31 },
}
