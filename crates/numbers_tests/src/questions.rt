//! Questions, their linear programs, and the answers on them.

ghost use Rattle.simplex_core.specs.Problem.{IsProper};

use crate::solutions::costs_text;
use crate::words::{form, fraction_text, number, split_at_semicolon};
use frac128::Frac;
use lp_builder::{Cost, Goal, Row};
use model::Memory;
use sample_questions::{Part, Shape, problem_of, rank_problem};
use simplex_core::{Answer, Numerators, Problem, solve_scaled};
use std::alloc::Global;

// More pivots than any question here takes.
const PIVOTS: u32 = 9_999;

// The forms of a text, with commas between them.
fn forms(alloc: Global, text: &str) -> Result<Vec<Row>, Memory> {
    let mut rows = Vec::new(alloc);
    for words in text.split(',') {
        if !words.trim().is_empty() {
            rows.push(form(alloc, words)?)?;
        }
    }
    Ok(rows)
}

// The goals of a text, with commas between them; each is its parameter, a colon, and its form.
fn goals(alloc: Global, text: &str) -> Result<Vec<Goal>, Memory> {
    let mut goals = Vec::new(alloc);
    for goal in text.split(',') {
        if let Some((parameter, words)) = goal.split_once(':') {
            goals.push(Goal {
                parameter: number(parameter),
                form: form(alloc, words)?,
            })?;
        }
    }
    Ok(goals)
}

// The group of a text, whose parts semicolons divide: how many unknowns, the rows, the goals and the fixed form.
fn part(alloc: Global, text: &str) -> Result<Part, Memory> {
    let (unknowns, behind) = split_at_semicolon(text);
    let (rows, behind) = split_at_semicolon(behind);
    let (goal_forms, fixed) = split_at_semicolon(behind);
    Ok(Part {
        unknowns: number(unknowns),
        rows: forms(alloc, rows)?,
        goals: goals(alloc, goal_forms)?,
        fixed: form(alloc, fixed)?,
    })
}

// The costs of parameters, with commas between them; each is of the size and of the height.
fn costs(alloc: Global, text: &str) -> Result<Vec<Cost>, Memory> {
    let mut costs = Vec::new(alloc);
    for words in text.split(',') {
        if let Some((size, height)) = words.trim().split_once(' ') {
            costs.push(Cost {
                size: number(size),
                height: number(height),
            })?;
        }
    }
    Ok(costs)
}

/// The linear program of a question, or the answer on it. Bars divide the costs of the parameters and the groups.
pub(crate) fn of_question(alloc: Global, call: &str, text: &str) -> Result<String, Memory> {
    let (listed, groups) = text.split_once('|').unwrap_or((text, ""));
    let mut parts = Vec::new(alloc);
    for group in groups.split('|') {
        parts.push(part(alloc, group)?)?;
    }
    match problem_of(alloc, &parts, &costs(alloc, listed)?)? {
        None => String::from_str(alloc, "can't be written"),
        Some(problem) => if call == "build" {
            format!(in alloc; "{problem:?}")
        } else {
            format!(in alloc; "{:?}", solve_scaled(alloc, &problem, PIVOTS)?)
        },
    }
}

/// The measures of the rank question of a shape and a size, and the costs of its solution, also of that in integers.
pub(crate) fn rank(alloc: Global, text: &str) -> Result<String, Memory> {
    let (word, size) = text.split_once(' ').unwrap_or((text, ""));
    let shape = match word {
        "ring" => Shape::Ring,
        "chain" => Shape::Chain,
        _ => Shape::Loops,
    };
    match rank_problem(alloc, shape, size.parse::<u16>().unwrap_or(0))? {
        None => String::from_str(alloc, "can't be written"),
        Some(problem) => rank_text(alloc, &problem),
    }
}

// The measures of a problem and the costs of its solutions.
fn rank_text(alloc: Global, problem: &Problem) -> Result<String, Memory>
    requires { IsProper problem.now }
{
    let measures = costs_text(alloc, problem, PIVOTS)?;
    match solve_scaled(alloc, problem, PIVOTS)? {
        Answer::Solution(solution) => {
            let first = fraction_text(alloc, total(&problem.first, &solution))?;
            let second = fraction_text(alloc, total(&problem.second, &solution))?;
            format!(in alloc; "{measures}, in integers {first} {second}")
        }
        _ => String::from_str(alloc, "no function is found"),
    }
}

// The cost of a solution in integers.
fn total(costs: &[i128], solution: &Numerators) -> Option<Frac> {
    let mut sum = 0i128;
    for (cost, number) in costs.iter().zip(&solution.numbers) {
        sum = sum.checked_add(cost.checked_mul(i128::from(*number))?)?;
    }
    let den = i128::try_from(solution.den).ok()?;
    if den == 0 {
        return None;
    }
    Frac::new(sum, den).ok()
}
