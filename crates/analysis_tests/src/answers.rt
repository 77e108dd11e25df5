//! The answer to a line: a call, after a blank its argument, and after a semicolon rules from l0.

ghost use Rattle.its_model.specs.Valid.{IsValid};
ghost use Rattle.its_model.specs.Views.{program_of};

use crate::analysis::analysis_text;
use crate::locals::answer_in;
use crate::loops::components_text;
use crate::programs::program;
use crate::sizes::{Asked, sizes_text, uses_text};
use crate::words::{first_and_rest, number, result_variable};
use cert_types::{LimitCause, LimitHit, Question};
use its_model::Program;
use model::Memory;
use std::alloc::Global;

// How many pivots the question about a place may take if the one about its rule was given up.
const PIVOTS: u32 = 10_000;

/// Answers a line.
///
/// - `times`, `sizes`, `total`, `costs` and `counts` are followed by a number of pivots, and answered by what an
///   analysis finds.
/// - `local` is followed by a number of pivots and a place of a rule, and answered by the local bound; so is
///   `given-up`, where the question whether the rule's rows have a point hit a limit after so many pivots.
/// - `components` is followed by a sign for each rule, `+` where it is live, and answered by the components.
/// - `spread` and `cycle` are followed by places of rules and by a table, and answered by the size.
/// - `uses` is followed by numbers of lemmas, without rules, and answered by how they are cited.
pub(crate) fn answer(alloc: Global, line: &str) -> Result<String, Memory> {
    let (call, rest) = first_and_rest(line);
    if call == "uses" {
        return uses_text(alloc, rest);
    }
    let Some((written, rules)) = rest.split_once(';') else {
        return String::from_str(alloc, line);
    };
    if call == "#" {
        return String::from_str(alloc, line);
    }
    match program(alloc, rules)? {
        None => String::from_str(alloc, "not read"),
        Some(p) => about_program(alloc, &p, call, written.trim()),
    }
}

// Answers a call about a program.
fn about_program(alloc: Global, p: &Program, call: &str, written: &str) -> Result<String, Memory>
    requires { IsValid (program_of p.now) }
{
    let (first, second) = first_and_rest(written);
    let pivots = number(first);
    match call {
        "components" => components_text(alloc, p, written),
        "spread" => sizes_text(alloc, p, Asked::Alone, written),
        "cycle" => sizes_text(alloc, p, Asked::Looping, written),
        "local" => answer_in(alloc, p, result_variable(second), pivots, None),
        "given-up" => given_up(alloc, p, pivots, second),
        _ => analysis_text(alloc, p, call, pivots),
    }
}

// The local bound of a place of a rule, if the question whether its rows have a point may take this many pivots.
fn given_up(alloc: Global, p: &Program, pivots: u32, place: &str) -> Result<String, Memory>
    requires { IsValid (program_of p.now) }
{
    let result_variable = result_variable(place);
    let limit_hit = LimitHit {
        question: Question::Empty {
            rule: result_variable.rule,
        },
        cause: LimitCause::Budget { pivots },
    };
    answer_in(alloc, p, result_variable, PIVOTS, Some(limit_hit))
}
