//! The rank questions of rules over two variables, of which a rule may take 1 from the first one while that is at
//! least 1.

ghost use Rattle.std.specs.Prelude.{IfOk, IfSome};
ghost use Rattle.simplex_core.specs.Problem.{IsProper};

use crate::parts::{Part, problem_of};
use lp_builder::{Cost, Goal, Row};
use model::Memory;
use simplex_core::Problem;
use std::alloc::Global;

/// The shape of a graph of rules.
#[derive(Clone, Copy, Debug)]
pub enum Shape {
    /// A rule from each of this many symbols to the next, and from the last to the first; each rule takes 1.
    Ring,
    /// This many rules, each from a symbol to the next; none takes 1.
    Chain,
    /// A chain of one rule more, where each symbol between two of its rules has a rule of its own, which takes 1.
    Loops,
}

/// A rule from one symbol to another, which takes 1 or doesn't.
#[derive(Clone, Copy, Debug)]
struct Link {
    source: u16,
    target: u16,
    takes: bool,
}

/// A form in the two variables.
fn form(alloc: Global, first: i128, second: i128, constant: i128) -> Result<Row, Memory> {
    let mut coefs = Vec::new(alloc);
    coefs.push(first)?;
    coefs.push(second)?;
    Ok(Row { coefs, constant })
}

/// Adds the goal form of a symbol's coefficient: of place 0 or 1, or, as place 2, of its constant.
fn push_goal(goals: &mut Vec<Goal>, symbol: u16, place: u8, form: Row) -> Result<(), Memory> {
    goals.push(Goal {
        parameter: 3 * u32::from(symbol) + u32::from(place),
        form,
    })?;
    Ok(())
}

/// Adds the function's value at a symbol before a rule.
fn push_before(alloc: Global, goals: &mut Vec<Goal>, symbol: u16) -> Result<(), Memory> {
    push_goal(goals, symbol, 0, form(alloc, 1, 0, 0)?)?;
    push_goal(goals, symbol, 1, form(alloc, 0, 1, 0)?)?;
    push_goal(goals, symbol, 2, form(alloc, 0, 0, 1)?)
}

/// Subtracts the function's value at the target after a rule.
fn push_after(alloc: Global, goals: &mut Vec<Goal>, link: Link) -> Result<(), Memory> {
    let taken = if link.takes { 1 } else { 0 };
    push_goal(goals, link.target, 0, form(alloc, -1, 0, taken)?)?;
    push_goal(goals, link.target, 1, form(alloc, 0, -1, 0)?)?;
    push_goal(goals, link.target, 2, form(alloc, 0, 0, -1)?)
}

/// The goals of a move: the function's value before the rule, minus that after it.
fn move_goals(alloc: Global, link: Link) -> Result<Vec<Goal>, Memory> {
    let mut goals = Vec::new(alloc);
    if link.source < link.target {
        push_before(alloc, &mut goals, link.source)?;
        push_after(alloc, &mut goals, link)?;
    } else if link.source > link.target {
        push_after(alloc, &mut goals, link)?;
        push_before(alloc, &mut goals, link.source)?;
    } else {
        let taken = if link.takes { 1 } else { 0 };
        push_goal(&mut goals, link.source, 0, form(alloc, 0, 0, taken)?)?;
    }
    Ok(goals)
}

/// The rows of a rule: that the first variable is at least 1, where the rule takes 1.
fn rows_of(alloc: Global, link: Link) -> Result<Vec<Row>, Memory> {
    let mut rows = Vec::new(alloc);
    if link.takes {
        rows.push(form(alloc, 1, 0, -1)?)?;
    }
    Ok(rows)
}

/// The part of a rule's move, by which the function falls by at least this much.
fn move_part(alloc: Global, link: Link, fall: u8) -> Result<Part, Memory> {
    Ok(Part {
        unknowns: 2,
        rows: rows_of(alloc, link)?,
        goals: move_goals(alloc, link)?,
        fixed: form(alloc, 0, 0, -i128::from(fall))?,
    })
}

/// The part of the floor: where the rule may be used, the function is at least 1.
fn floor_part(alloc: Global, link: Link) -> Result<Part, Memory> {
    let mut goals = Vec::new(alloc);
    push_before(alloc, &mut goals, link.source)?;
    Ok(Part {
        unknowns: 2,
        rows: rows_of(alloc, link)?,
        goals,
        fixed: form(alloc, 0, 0, -1)?,
    })
}

/// The rules of a ring.
fn ring(alloc: Global, size: u16) -> Result<Vec<Link>, Memory> {
    let mut links = Vec::new(alloc);
    for source in 0..size {
        links.push(Link {
            source,
            target: if source + 1 == size { 0 } else { source + 1 },
            takes: true,
        })?;
    }
    Ok(links)
}

/// The rules of a chain, with those between them or without.
fn chain(alloc: Global, size: u16, has_loops: bool) -> Result<Vec<Link>, Memory> {
    let mut links = Vec::new(alloc);
    for source in 0..size {
        if has_loops && source > 0 {
            links.push(Link {
                source,
                target: source,
                takes: true,
            })?;
        }
        links.push(Link {
            source,
            target: source + 1,
            takes: false,
        })?;
    }
    Ok(links)
}

/// The cost of each coefficient: the first symbol is entered, so its places have the size 1 and its constant the height
/// 1.
fn costs(alloc: Global, symbols: u16) -> Result<Vec<Cost>, Memory> {
    let mut costs = Vec::new(alloc);
    for symbol in 0..symbols {
        let weight = if symbol == 0 { 1 } else { 0 };
        let place = Cost {
            size: weight,
            height: 0,
        };
        costs.push(place)?;
        costs.push(place)?;
        costs.push(Cost {
            size: 0,
            height: weight,
        })?;
    }
    Ok(costs)
}

/// The parts of the question for a function over the rules, by one of which it decreases.
fn rank_parts(alloc: Global, links: &[Link], strict: usize) -> Result<Vec<Part>, Memory> {
    let mut parts = Vec::new(alloc);
    for position in 0..links.len() {
        let fall = if position == strict { 1 } else { 0 };
        parts.push(move_part(alloc, links[position], fall)?)?;
    }
    if strict < links.len() {
        parts.push(floor_part(alloc, links[strict])?)?;
    }
    Ok(parts)
}

/// The rank problem of rules in a shape, of which the last has to decrease, if it can be written.
///
/// # Errors
///
/// `Memory` where an allocation fails.
pub fn rank_problem(alloc: Global, shape: Shape, size: u16) -> Result<Option<Problem>, Memory>
    ensures { IfOk result (λ found. IfSome found IsProper) }
{
    let links = match shape {
        Shape::Ring => ring(alloc, size)?,
        Shape::Chain => chain(alloc, size, false)?,
        Shape::Loops => chain(alloc, size.saturating_add(1), true)?,
    };
    let symbols = match shape {
        Shape::Ring => size,
        Shape::Chain => size.saturating_add(1),
        Shape::Loops => size.saturating_add(2),
    };
    let parts = rank_parts(alloc, links.as_slice(), links.len().saturating_sub(1))?;
    problem_of(alloc, parts.as_slice(), costs(alloc, symbols)?.as_slice())
}
