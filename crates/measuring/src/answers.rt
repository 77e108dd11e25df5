//! The answer to a line: a call, how often it is made, and its argument.

use crate::graphs::{edges_of, measure_components, measure_program, program};
use crate::problems::rank;
use crate::runs::{steps_read, steps_replayed};
use its_reader::read;
use model::Memory;
use poly_terms::{Expr, expand};
use sample_expressions::expression;
use std::alloc::Global;

/// Answers a line.
///
/// `expand` has an expression in reverse Polish notation as its argument; `cycle`, `components`, `graph`, `reached` and
/// `set` have edges; `read` and `read-cycle` the text of a program; `rank` a shape of rules and its size; and
/// `read-run` and `replay-run` a made run of a number of steps.
pub(crate) fn answer(alloc: Global, line: &str) -> Result<String, Memory> {
    let (call, after_call) = line.split_once(' ').unwrap_or((line, ""));
    let (word, rest) = after_call.split_once(' ').unwrap_or((after_call, ""));
    let times = number(word);
    match call {
        "#" => String::from_str(alloc, line),
        "expand" => {
            let expanded = measure_expansion(alloc, &expression(alloc, rest)?, times);
            format!(in alloc; "{expanded}")
        }
        "read" => format!(in alloc; "{}", measure_reading(alloc, rest, times)),
        "read-cycle" => match read(alloc, rest.as_bytes()) {
            Ok(p) => format!(in alloc; "{}", measure_program(alloc, "cycle", &p, times)?),
            Err(_) => String::from_str(alloc, "not read"),
        },
        "rank" => rank(alloc, rest, times),
        "read-run" => format!(in alloc; "{}", steps_read(alloc, number(rest), times)?),
        "replay-run" => format!(in alloc; "{}", steps_replayed(alloc, number(rest), times)?),
        "components" => format!(in alloc;
            "{}",
            measure_components(alloc, &edges_of(alloc, rest)?, times)?
        ),
        _ => {
            let p = program(alloc, &edges_of(alloc, rest)?)?;
            format!(in alloc; "{}", measure_program(alloc, call, &p, times)?)
        }
    }
}

/// A number that isn't negative; of other words, 0.
pub(crate) fn number(word: &str) -> u32 {
    word.parse::<u32>().unwrap_or(0)
}

// How often an expression has a polynomial.
fn measure_expansion(alloc: Global, e: &Expr, times: u32) -> u32 {
    let mut expanded = 0u32;
    for _ in 0..times {
        if expand(alloc, e).is_ok() {
            expanded = expanded.saturating_add(1);
        }
    }
    expanded
}

// How often a text is read as a program.
fn measure_reading(alloc: Global, text: &str, times: u32) -> u32 {
    let mut found = 0u32;
    for _ in 0..times {
        if read(alloc, text.as_bytes()).is_ok() {
            found = found.saturating_add(1);
        }
    }
    found
}
