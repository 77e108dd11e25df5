//! Translates a while program into an integer transition system.

ghost use Rattle.std.specs.Prelude.{◌≡◌, ◌≤◌, ◌<◌, ◌^◌, length, map, IfOk};
ghost use Rattle.while_model.specs.model.Limits.{place_limit};
ghost use Rattle.while_model.specs.Translation.{program_of as translation_of, program_by, points_of as points_of_moves};
ghost use Rattle.while_model.specs.Translation.{rule_of as rule_of_move, symbol_of as symbol_of_point};
ghost use Rattle.its_model.specs.Views.{name_of, symbol_of, rule_of, program_of};
ghost use Rattle.its_model.specs.Valid.{IsValid};
ghost use Rattle.while_tree.specs.Views.{statements_of};
ghost use Rattle.while_front.specs.Views.{move_of};
ghost use Rattle.while_tree.specs.Readable.{IsReadable};
ghost use Rattle.while_front.specs.Readable.{HasRoom};

use crate::free_name::free_name;
use crate::moves::{Move, push_moves, size_of};
use crate::points::{number_in, points_of};
use crate::rules::{rule_from, symbol_from};
use its_model::{Name, Program, Rule, Symbol};
use poly_terms::Memory;
use program_copies::copied_names;
use std::alloc::Global;
use while_tree::Whole;

/// The integer transition system of a while program. The executions of the program correspond to the runs of the
/// system, with the same number of steps and the same values.
///
/// Statements are numbered from 0 in the order of their first bytes. Statement k is the symbol `p` followed by k, and
/// the end is `p` followed by the number of statements. Rules come by statement: a test has one rule with the test as
/// its guard, and then one for each negation of its atoms. The free variable of a choice is called `h`, with as many
/// `_` as make it no input.
///
/// # Errors
///
/// `Memory` if an allocation fails.
pub fn translate(alloc: Global, w: &Whole) -> Result<Program, Memory>
    requires { IsReadable (map name_of w.now.names.items) (statements_of w.now.body.items) }
    ensures program { IfOk result (λ p. program_of p
        ≡ translation_of (map name_of w.now.names.items) (statements_of w.now.body.items)) }
    ensures valid { IfOk result (λ p. IsValid (program_of p)) }
{
    translated(alloc, w)
}

// The integer transition system of a while program.
#[tactic(auto, using(crate::proofs::ValidPrograms::readable_size, crate::proofs::ValidPrograms::room_for))]
fn translated(alloc: Global, w: &Whole) -> Result<Program, Memory>
    requires { IsReadable (map name_of w.now.names.items) (statements_of w.now.body.items) }
    ensures { IfOk result (λ p. program_of p
        ≡ translation_of (map name_of w.now.names.items) (statements_of w.now.body.items)) }
{
    let after = size_of(&w.body);
    let mut moves = Vec::new(alloc);
    push_moves(alloc, &mut moves, &w.body, 0, after)?;
    program_from(alloc, &w.names, moves)
}

// The program of moves over these inputs, which starts at point 0.
fn program_from(alloc: Global, inputs: &[Name], moves: Vec<Move>) -> Result<Program, Memory>
    requires { HasRoom (map name_of inputs.now) (map move_of moves.items) }
    ensures { IfOk result (λ p. program_of p ≡ program_by (map name_of inputs.now) (map move_of moves.items)) }
{
    let points = points_of(alloc, &moves)?;
    let symbols = symbols_of(alloc, inputs, &points)?;
    let rules = rules_of(alloc, inputs, &points, moves)?;
    Ok(Program {
        symbols,
        start: number_in(&points, 0),
        start_names: copied_names(alloc, inputs)?,
        rules,
    })
}

// The symbols of points.
fn symbols_of(alloc: Global, inputs: &[Name], points: &[u32]) -> Result<Vec<Symbol>, Memory>
    requires { length inputs.now ≤ place_limit }
    ensures { IfOk result
        (λ symbols. map symbol_of symbols.items ≡ map (symbol_of_point (map name_of inputs.now)) points.now) }
{
    let mut symbols = Vec::new(alloc);
    for k in points {
        symbols.push(symbol_from(alloc, inputs, *k)?)?;
    }
    Ok(symbols)
}

// The rules of moves.
fn rules_of(
    alloc: Global,
    inputs: &[Name],
    points: &[u32],
    moves: Vec<Move>,
) -> Result<Vec<Rule>, Memory>
    requires few_inputs { length inputs.now ≤ place_limit }
    requires few_points { length points.now < 2 ^ 32 }
    ensures { IfOk result (λ rules. map rule_of rules.items
        ≡ map (rule_of_move (map name_of inputs.now) points.now) (map move_of moves.items)) }
{
    let free = free_name(alloc, inputs)?;
    let mut rules = Vec::new(alloc);
    for taken in moves {
        rules.push(rule_from(alloc, inputs, &free, points, taken)?)?;
    }
    Ok(rules)
}
