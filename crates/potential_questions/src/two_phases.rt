//! Two phases: each counted step lowers a first function, and raises a second one by at most the first.

ghost use Rattle.std.specs.Prelude.{◌≤◌};

use crate::asking::functions_in;
use crate::directions::Directions;
use crate::draft::Draft;
use crate::error::{SearchError, as_number, natural};
use crate::implication::{Implication, Multiplier, certificate};
use crate::layout::{SymbolTemplate, free_template, function_of, start_template, templates_of};
use crate::start_costs::add_start_sizes;
use crate::system::{PreparedRule, System, is_marked};
use integer_pivoting::{Answer, Solution, solve};
use potential_types::{CountedRule, PhaseMove, PhasesNode};
use std::alloc::Global;

/// The multipliers of the certificates of a rule, for both functions.
#[derive(Drop)]
struct MoveMultipliers {
    rule: u32,
    first: Vec<Multiplier>,
    second: Vec<Multiplier>,
}

/// The columns of a question on two phases.
#[derive(Drop)]
struct PhaseLayout {
    firsts: Vec<SymbolTemplate>,
    seconds: Vec<SymbolTemplate>,
    moves: Vec<MoveMultipliers>,
    floor: Vec<Multiplier>,
}

/// Two phases that count a rule, over all symbols that lead to it, if their linear program has a solution. `work`
/// says how many numbers of lines pivots may go through, and then how many are left.
///
/// # Errors
///
/// `Budget` where more numbers would have to be gone through; `Range` where a number is beyond 128 bits, or too
/// large for a lemma, or there is no such rule; `Memory` where an allocation fails.
pub fn ask_phases(
    alloc: Global,
    system: &System,
    rule: u32,
    directions: &Directions,
    work: &mut u64,
) -> Result<Option<PhasesNode>, SearchError>
    ensures spent { work.new ≤ work.old }
{
    let mut draft = Draft::new(alloc);
    let layout = phase_layout(alloc, system, rule, directions, &mut draft)?;
    match solve(alloc, &draft.finish(), work)? {
        Answer::Optimal(solution) => Ok(Some(phases_in(alloc, rule, &layout, &solution)?)),
        Answer::Infeasible | Answer::Unbounded => Ok(None),
    }
}

// Writes the linear program of two phases that count a rule.
fn phase_layout(
    alloc: Global,
    system: &System,
    rule: u32,
    directions: &Directions,
    draft: &mut Draft,
) -> Result<PhaseLayout, SearchError> {
    let counted = system.rule(rule).ok_or(SearchError::Range)?;
    let listed = system.leading_to(alloc, &[counted.source])?;
    let firsts = templates_of(alloc, system, (&listed, 1), &directions.lists, draft)?;
    let seconds = second_templates(alloc, system, &listed, directions, draft)?;
    let mut layout = PhaseLayout {
        firsts,
        seconds,
        moves: Vec::new(alloc),
        floor: Vec::new(alloc),
    };
    for number in 1..system.rule_end {
        if let Some(prepared) = system.rule(number) {
            if is_marked(&listed, prepared.target) {
                let is_counted = number == rule;
                let first = first_group(alloc, draft, &layout, prepared, is_counted)?;
                let second = second_group(alloc, draft, &layout, prepared, is_counted)?;
                layout.moves.push(MoveMultipliers {
                    rule: number,
                    first,
                    second,
                })?;
            }
        }
    }
    let mut floor = Implication::new(alloc, counted.unknowns, 1)?;
    add_source(&mut floor, &layout.seconds, counted)?;
    floor.add_number(-1, &[])?;
    layout.floor = floor.write(alloc, draft, counted)?;
    Ok(layout)
}

// The second functions; the start symbol's one costs little, since a root is taken of it.
fn second_templates(
    alloc: Global,
    system: &System,
    listed: &[bool],
    directions: &Directions,
    draft: &mut Draft,
) -> Result<Vec<SymbolTemplate>, SearchError> {
    let mut functions = Vec::new(alloc);
    for (index, places) in system.places.iter().enumerate() {
        let symbol = as_number(index)?;
        if is_marked(listed, symbol) {
            let template = if symbol == system.start {
                let template = start_template(alloc, draft, *places, 1)?;
                add_start_sizes(alloc, draft, &template, &directions.lists)?;
                template
            } else {
                free_template(alloc, draft, *places, 1)?
            };
            functions.push(SymbolTemplate { symbol, template })?;
        }
    }
    Ok(functions)
}

// Writes that the first function doesn't rise, and falls by 1 where the rule is counted.
fn first_group(
    alloc: Global,
    draft: &mut Draft,
    layout: &PhaseLayout,
    rule: &PreparedRule,
    is_counted: bool,
) -> Result<Vec<Multiplier>, SearchError> {
    let mut implication = Implication::new(alloc, rule.unknowns, 1)?;
    add_source(&mut implication, &layout.firsts, rule)?;
    take_target(&mut implication, &layout.firsts, rule)?;
    if is_counted {
        implication.add_number(-1, &[])?;
    }
    implication.write(alloc, draft, rule)
}

// Writes that the second function doesn't rise, and where the rule is counted falls by 1 less the first one.
fn second_group(
    alloc: Global,
    draft: &mut Draft,
    layout: &PhaseLayout,
    rule: &PreparedRule,
    is_counted: bool,
) -> Result<Vec<Multiplier>, SearchError> {
    let mut implication = Implication::new(alloc, rule.unknowns, 1)?;
    add_source(&mut implication, &layout.seconds, rule)?;
    take_target(&mut implication, &layout.seconds, rule)?;
    if is_counted {
        add_source(&mut implication, &layout.firsts, rule)?;
        implication.add_number(-1, &[])?;
    }
    implication.write(alloc, draft, rule)
}

// Adds the function of a rule's source.
fn add_source(
    implication: &mut Implication,
    functions: &[SymbolTemplate],
    rule: &PreparedRule,
) -> Result<(), SearchError> {
    match function_of(functions, rule.source) {
        Some(function) => function.add_to(implication, 1),
        None => Ok(()),
    }
}

// Takes the function of a rule's target away, behind the rule.
fn take_target(
    implication: &mut Implication,
    functions: &[SymbolTemplate],
    rule: &PreparedRule,
) -> Result<(), SearchError> {
    match function_of(functions, rule.target) {
        Some(function) => function.take_after(implication, &rule.new_values),
        None => Ok(()),
    }
}

// Reads a node from a solution.
fn phases_in(
    alloc: Global,
    rule: u32,
    layout: &PhaseLayout,
    solution: &Solution,
) -> Result<PhasesNode, SearchError> {
    let numerators = solution.numerators.as_slice();
    let mut moves = Vec::new(alloc);
    for step in &layout.moves {
        moves.push(PhaseMove {
            rule: step.rule,
            first: certificate(alloc, &step.first, numerators)?,
            second: certificate(alloc, &step.second, numerators)?,
        })?;
    }
    let floor = certificate(alloc, &layout.floor, numerators)?;
    let mut counted = Vec::new(alloc);
    counted.push(CountedRule { rule, floor })?;
    Ok(PhasesNode {
        firsts: functions_in(alloc, &layout.firsts, numerators)?,
        seconds: functions_in(alloc, &layout.seconds, numerators)?,
        den: natural(solution.den)?,
        moves,
        counted,
    })
}
