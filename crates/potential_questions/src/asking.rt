//! Asks a question: writes its linear program, solves it, and reads functions and certificates from the solution.

ghost use Rattle.std.specs.Prelude.{◌≤◌};

use crate::directions::Directions;
use crate::draft::Draft;
use crate::error::{SearchError, natural};
use crate::implication::{Implication, Multiplier, certificate};
use crate::layout::{SymbolTemplate, Template, add_poly, function_of, gain_template, templates_of};
use crate::polynomials::constant_of;
use crate::question::{Aim, PlannedMove, Question};
use crate::scaling::divided;
use crate::system::System;
use integer_pivoting::{Answer, Solution, solve};
use poly_terms::Poly;
use potential_types::{Charge, Move, PotentialTable, Summand, SymbolFunction};
use std::alloc::Global;

/// Functions with the certificates of their moves, none of which cites a fact yet, and of the aim: for each charge,
/// or for the covered polynomial, that the function is high enough and that an amount isn't negative.
#[derive(Drop)]
pub struct Found {
    pub potential: PotentialTable,
    pub floors: Vec<FloorCertificates>,
}

/// The certificates of a charge.
#[derive(Drop)]
pub struct FloorCertificates {
    pub floor: Vec<Summand>,
    pub positive: Vec<Summand>,
}

/// A question over the rules of a program.
#[derive(Clone, Copy)]
struct ProgramQuestion<'q> {
    system: &'q System,
    question: &'q Question,
}

/// The gain of a move, and the multipliers of its certificate.
#[derive(Drop)]
struct MoveLayout {
    rule: u32,
    keeps: bool,
    gain: Template,
    multipliers: Vec<Multiplier>,
}

/// The multipliers of the certificates of a charge.
#[derive(Drop)]
struct FloorLayout {
    floor: Vec<Multiplier>,
    positive: Vec<Multiplier>,
}

/// The columns of a question.
#[derive(Drop)]
struct Layout {
    functions: Vec<SymbolTemplate>,
    moves: Vec<MoveLayout>,
    floors: Vec<FloorLayout>,
}

/// An answer to a question, if its linear program has a solution. `work` says how many numbers of lines pivots may go
/// through, and then how many are left.
///
/// # Errors
///
/// `Budget` where more numbers would have to be gone through; `Range` where a number is beyond 128 bits, or too
/// large for a lemma; `Memory` where an allocation fails.
pub fn ask(
    alloc: Global,
    system: &System,
    question: &Question,
    directions: &Directions,
    work: &mut u64,
) -> Result<Option<Found>, SearchError>
    ensures spent { work.new ≤ work.old }
{
    let mut draft = Draft::new(alloc);
    let problem = ProgramQuestion { system, question };
    let layout = layout_of(alloc, problem, directions, &mut draft)?;
    match solve(alloc, &draft.finish(), work)? {
        Answer::Optimal(solution) => Ok(Some(found_in(alloc, &layout, &solution)?)),
        Answer::Infeasible | Answer::Unbounded => Ok(None),
    }
}

// Writes the linear program of a question.
fn layout_of(
    alloc: Global,
    problem: ProgramQuestion,
    directions: &Directions,
    draft: &mut Draft,
) -> Result<Layout, SearchError> {
    let question = problem.question;
    let lists = directions.only(question.toward);
    let functions = templates_of(
        alloc,
        problem.system,
        (&question.listed, question.degree),
        lists,
        draft,
    )?;
    let moves = moves_of(alloc, problem, &functions, draft)?;
    let floors = floors_of(alloc, problem, &functions, draft)?;
    Ok(Layout {
        functions,
        moves,
        floors,
    })
}

// Writes that the moves of a question hold.
fn moves_of(
    alloc: Global,
    problem: ProgramQuestion,
    functions: &[SymbolTemplate],
    draft: &mut Draft,
) -> Result<Vec<MoveLayout>, SearchError> {
    let mut moves = Vec::new(alloc);
    for planned in &problem.question.moves {
        let gain = gain_template(alloc, draft, &planned.offer)?;
        let multipliers = move_group(alloc, problem, functions, (planned, &gain), draft)?;
        moves.push(MoveLayout {
            rule: planned.rule,
            keeps: planned.keeps,
            gain,
            multipliers,
        })?;
    }
    Ok(moves)
}

// Writes that a question's functions reach its aim.
fn floors_of(
    alloc: Global,
    problem: ProgramQuestion,
    functions: &[SymbolTemplate],
    draft: &mut Draft,
) -> Result<Vec<FloorLayout>, SearchError> {
    let mut floors = Vec::new(alloc);
    match &problem.question.aim {
        Aim::Pay(charges) => {
            for charge in charges {
                let goal = (charge.rule, &charge.form);
                let floor = floor_group(alloc, problem, functions, goal, draft)?;
                let positive = amount_group(alloc, problem, charge, draft)?;
                floors.push(FloorLayout { floor, positive })?;
            }
        }
        Aim::Cover(rule, form) => {
            let floor = floor_group(alloc, problem, functions, (*rule, form), draft)?;
            let positive = Vec::new(alloc);
            floors.push(FloorLayout { floor, positive })?;
        }
    }
    Ok(floors)
}

// The amount that a rule is charged.
fn amount_of(aim: &Aim, rule: u32) -> Option<&Poly> {
    match aim {
        Aim::Pay(charges) => amount_among(charges, rule),
        Aim::Cover(_, _) => None,
    }
}

// The amount that a rule is charged among charges by ascending rules.
fn amount_among(charges: &[Charge], rule: u32) -> Option<&Poly> {
    let index = charges
        .binary_search_by_key(&rule, |charge| charge.rule)
        .ok()?;
    charges.get(index).map(|charge| &charge.form)
}

// Writes that a move holds: the function before it, where it keeps it, and the gain are at least the function behind
// it and the amount.
fn move_group(
    alloc: Global,
    problem: ProgramQuestion,
    functions: &[SymbolTemplate],
    planned: (&PlannedMove, &Template),
    draft: &mut Draft,
) -> Result<Vec<Multiplier>, SearchError> {
    let (plan, gain) = planned;
    let rule = problem.system.rule(plan.rule).ok_or(SearchError::Range)?;
    let mut implication = Implication::new(alloc, rule.unknowns, problem.question.degree)?;
    gain.add_to(&mut implication, 1)?;
    if let Some(target) = function_of(functions, rule.target) {
        target.take_after(&mut implication, &rule.new_values)?;
    }
    if plan.keeps {
        if let Some(source) = function_of(functions, rule.source) {
            source.add_to(&mut implication, 1)?;
        }
        if let Some(amount) = amount_of(&problem.question.aim, plan.rule) {
            add_poly(&mut implication, -1, amount)?;
        }
    }
    implication.write(alloc, draft, rule)
}

// Writes that the function before a rule is at least a form.
fn floor_group(
    alloc: Global,
    problem: ProgramQuestion,
    functions: &[SymbolTemplate],
    goal: (u32, &Poly),
    draft: &mut Draft,
) -> Result<Vec<Multiplier>, SearchError> {
    let rule = problem.system.rule(goal.0).ok_or(SearchError::Range)?;
    let mut implication = Implication::new(alloc, rule.unknowns, problem.question.degree)?;
    if let Some(source) = function_of(functions, rule.source) {
        source.add_to(&mut implication, 1)?;
    }
    add_poly(&mut implication, -1, goal.1)?;
    implication.write(alloc, draft, rule)
}

// Writes that an amount isn't negative.
fn amount_group(
    alloc: Global,
    problem: ProgramQuestion,
    charge: &Charge,
    draft: &mut Draft,
) -> Result<Vec<Multiplier>, SearchError> {
    let rule = problem.system.rule(charge.rule).ok_or(SearchError::Range)?;
    if constant_of(&charge.form).is_some() {
        return Ok(Vec::new(alloc));
    }
    let mut implication = Implication::new(alloc, rule.unknowns, problem.question.degree)?;
    add_poly(&mut implication, 1, &charge.form)?;
    implication.write(alloc, draft, rule)
}

// Reads the functions, their moves and their certificates from a solution.
fn found_in(alloc: Global, layout: &Layout, solution: &Solution) -> Result<Found, SearchError> {
    let numerators = solution.numerators.as_slice();
    let den = natural(solution.den)?;
    let mut moves = Vec::new(alloc);
    for step in &layout.moves {
        moves.push(Move {
            rule: step.rule,
            keeps: step.keeps,
            gain: step.gain.poly(alloc, numerators)?,
            cited: None,
            certificate: certificate(alloc, &step.multipliers, numerators)?,
        })?;
    }
    let mut floors = Vec::new(alloc);
    for charge in &layout.floors {
        let positive = certificate(alloc, &charge.positive, numerators)?;
        floors.push(FloorCertificates {
            floor: certificate(alloc, &charge.floor, numerators)?,
            positive: divided(alloc, &positive, den)?,
        })?;
    }
    let functions = functions_in(alloc, &layout.functions, numerators)?;
    Ok(Found {
        potential: PotentialTable {
            functions,
            den,
            moves,
        },
        floors,
    })
}

/// The functions of templates, with the numbers of a solution as coefficients.
pub(crate) fn functions_in(
    alloc: Global,
    templates: &[SymbolTemplate],
    numerators: &[i128],
) -> Result<Vec<SymbolFunction>, SearchError> {
    let mut functions = Vec::new(alloc);
    for function in templates {
        functions.push(SymbolFunction {
            symbol: function.symbol,
            form: function.template.poly(alloc, numerators)?,
        })?;
    }
    Ok(functions)
}
