//! The answer to a line: a call, and after a blank its argument.

use crate::certificates::{certified, point_text};
use crate::closures::{of_random, of_three};
use crate::expressions::{expanded, row, valued};
use crate::graphs::{of_graph, path};
use crate::rules::of_rule;
use crate::trees::{compared, many_trees};
use model::Memory;
use std::alloc::Global;

/// Answers a line.
///
/// `value`, `expand`, `fault`, `row` and `plain` are followed by an expression; `rows`, `cost-program`, `step` and
/// `cost` by a rule; `implies`, `empty` and `on-rows` by rows; and `cycle`, `before`, `set`, `parts`, `reached` and
/// `components` by edges. Other arguments of a call come first. `plain`, `random-trees`, `all-graphs-of-three` and
/// `random-graphs` compare answers with those of plain slow bodies, and `path` with the known answer on a long path.
pub(crate) fn answer(alloc: Global, line: &str) -> Result<String, Memory> {
    let Some((call, rest)) = line.split_once(' ') else {
        return String::from_str(alloc, line);
    };
    match call {
        "#" => String::from_str(alloc, line),
        "value" => valued(alloc, rest),
        "expand" | "fault" => expanded(alloc, call, rest),
        "plain" => compared(alloc, rest),
        "row" => row(alloc, rest),
        "rows" | "cost-program" | "step" | "cost" => of_rule(alloc, call, rest),
        "implies" | "empty" => certified(alloc, call, rest),
        "on-rows" => point_text(alloc, rest),
        "all-graphs-of-three" => of_three(alloc, rest),
        "random-graphs" => of_random(alloc, rest),
        "random-trees" => many_trees(alloc, rest),
        "path" => path(alloc, rest),
        _ => of_graph(alloc, call, rest),
    }
}
