//! The answer to a line: a call, and after a blank its argument.

use crate::fractions::computed;
use crate::many::many_rows;
use crate::questions::{of_question, rank};
use crate::solutions::of_program;
use crate::sparse::sum_text;
use model::Memory;
use std::alloc::Global;

/// Answers a line.
///
/// `solve`, `scale` and `costs` are followed by the allowed pivots and a linear program; `build` and `find` by a
/// question; `rank` by a shape of rules and its size; `many` by the measures of a linear program of many rows; `plus`
/// by a sparse row, a factor and a row; and the other calls by fractions.
pub(crate) fn answer(alloc: Global, line: &str) -> Result<String, Memory> {
    let Some((call, rest)) = line.split_once(' ') else {
        return String::from_str(alloc, line);
    };
    match call {
        "#" => String::from_str(alloc, line),
        "solve" | "scale" | "costs" => of_program(alloc, call, rest),
        "build" | "find" => of_question(alloc, call, rest),
        "rank" => rank(alloc, rest),
        "many" => many_rows(alloc, rest),
        "plus" => sum_text(alloc, rest),
        _ => computed(alloc, call, rest),
    }
}
