//! The moves between the points of statements.

ghost use Rattle.std.specs.Prelude.{◌≡◌, ◌+◌, ◌<◌, ◌^◌, ◌==◌, if◌then◌else◌, [], ◌∷◌, ◌++◌, map, OnOk};
ghost use Rattle.while_model.specs.Statements.{size};
ghost use Rattle.while_model.specs.Moves.{first, moves as moves_of_statements, moves_by, passing};
ghost use Rattle.its_model.specs.Views.{atom_of};
ghost use Rattle.while_tree.specs.Views.{stmt_of, statements_of};
ghost use Rattle.while_front.specs.Views.{statement_size, statement_moves, action_of, move_of};

use crate::negations::negations;
use its_model::Atom;
use poly_terms::{Expr, Memory};
use program_copies::{copied_atoms, copied_expr};
use std::alloc::Global;
use while_tree::Stmt;

/// The action of a move: a variable takes the value of an expression or any integer, or nothing happens.
#[derive(PartialEq, Eq, Drop)]
pub(crate) enum Action {
    Assign(u32, Expr),
    Choose(u32),
    Skip,
}

/// A move from a point to a point, which is possible if its guard holds.
#[derive(PartialEq, Eq, Drop)]
pub(crate) struct Move {
    pub(crate) from: u32,
    pub(crate) to: u32,
    pub(crate) guard: Vec<Atom>,
    pub(crate) action: Action,
}

/// The point of a test, the point that follows if the test holds, and the one that follows if it fails.
#[derive(Clone, Copy, PartialEq, Eq)]
pub(crate) struct Fork {
    pub(crate) at: u32,
    pub(crate) holds: u32,
    pub(crate) fails: u32,
}

// The number of statements, including those in blocks.
#[cycle(sized)]
#[tactic(auto, using(crate::proofs::Statements::size_before))]
pub(crate) fn size_of(body: &[Stmt]) -> u32
    requires { size (statements_of body.now) < 2 ^ 32 }
    ensures { result ≡ size (statements_of body.now) }
{
    let mut count = 0;
    for stmt in body {
        count += statement_size_of(stmt);
    }
    count
}

// One more than the number of statements in the blocks of a statement: it counts itself too.
#[cycle(sized)]
fn statement_size_of(stmt: &Stmt) -> u32
    requires { statement_size (stmt_of stmt.now) < 2 ^ 32 }
    ensures { result ≡ statement_size (stmt_of stmt.now) }
{
    match stmt {
        Stmt::Assign(_, _) => 1,
        Stmt::Any(_) => 1,
        Stmt::Skip => 1,
        Stmt::While(_, block) => 1 + size_of(block),
        Stmt::If(_, block, other) => 1 + size_of(block) + size_of(other),
    }
}

// The first point of statements that are numbered from `at` on, or `after` if there are none.
#[tactic(auto, using(crate::proofs::Statements::first_some, crate::proofs::Statements::first_none))]
fn first_of(at: u32, after: u32, body: &[Stmt]) -> u32
    ensures { result ≡ first at after (statements_of body.now) }
{
    if body.is_empty() { after } else { at }
}

// The point after a statement: that of the next one, or the one after all if no statement is left.
fn next_point(left: usize, behind: u32, after: u32) -> u32
    ensures { result ≡ (if left == 0 then after else behind) }
{
    if left == 0 { after } else { behind }
}

// Appends the moves of statements that are numbered from `at` on and followed by the point `after`.
#[cycle(moved)]
pub(crate) fn push_moves(
    alloc: Global,
    moves: &mut Vec<Move>,
    body: &[Stmt],
    at: u32,
    after: u32,
) -> Result<(), Memory>
    requires { at + size (statements_of body.now) < 2 ^ 32 }
    ensures { OnOk result (map move_of moves.new.items
        ≡ map move_of moves.old.items ++ moves_of_statements at after (statements_of body.now)) }
{
    let mut here = at;
    let mut left = body.len();
    for stmt in body {
        let behind = here + statement_size_of(stmt);
        left -= 1;
        let next = next_point(left, behind, after);
        push_statement(alloc, moves, stmt, here, next)?;
        here = behind;
    }
    Ok(())
}

// Appends the moves of one statement that is followed by the point `next`.
#[cycle(moved)]
fn push_statement(
    alloc: Global,
    moves: &mut Vec<Move>,
    stmt: &Stmt,
    at: u32,
    next: u32,
) -> Result<(), Memory>
    requires { at + statement_size (stmt_of stmt.now) < 2 ^ 32 }
    ensures { OnOk result (map move_of moves.new.items
        ≡ map move_of moves.old.items ++ statement_moves at next (stmt_of stmt.now)) }
{
    match stmt {
        Stmt::Assign(x, e) => {
            let action = Action::Assign(*x, copied_expr(alloc, e)?);
            push_action(alloc, moves, at, next, action)
        }
        Stmt::Any(x) => push_action(alloc, moves, at, next, Action::Choose(*x)),
        Stmt::Skip => push_action(alloc, moves, at, next, Action::Skip),
        Stmt::While(test, block) => {
            let begins = at + 1;
            let holds = first_of(begins, at, block);
            let fork = Fork {
                at,
                holds,
                fails: next,
            };
            push_test(alloc, moves, test, fork)?;
            push_moves(alloc, moves, block, begins, at)
        }
        Stmt::If(test, block, other) => {
            let begins = at + 1;
            let otherwise = begins + size_of(block);
            let holds = first_of(begins, next, block);
            let fails = first_of(otherwise, next, other);
            push_test(alloc, moves, test, Fork { at, holds, fails })?;
            push_moves(alloc, moves, block, begins, next)?;
            push_moves(alloc, moves, other, otherwise, next)
        }
    }
}

// Appends the move of an action, without a guard.
fn push_action(
    alloc: Global,
    moves: &mut Vec<Move>,
    from: u32,
    to: u32,
    action: Action,
) -> Result<(), Memory>
    ensures { OnOk result (map move_of moves.new.items ≡ map move_of moves.old.items
        ++ record { from = from; to = to; guard = []; action = action_of action } ∷ []) }
{
    let guard = Vec::new(alloc);
    moves.push(Move {
        from,
        to,
        guard,
        action,
    })?;
    Ok(())
}

// Appends the moves of a test: one for the test, and then one for each negation of its atoms.
fn push_test(alloc: Global, moves: &mut Vec<Move>, test: &[Atom], fork: Fork) -> Result<(), Memory>
    ensures { OnOk result (map move_of moves.new.items
        ≡ map move_of moves.old.items ++ moves_by fork.at (map atom_of test.now) fork.holds fork.fails) }
{
    let guard = copied_atoms(alloc, test)?;
    push_passing(moves, fork.at, guard, fork.holds)?;
    let negated = negations(alloc, test)?;
    push_negated(alloc, moves, negated, fork.at, fork.fails)
}

// Appends a move without an action.
fn push_passing(moves: &mut Vec<Move>, from: u32, guard: Vec<Atom>, to: u32) -> Result<(), Memory>
    ensures { OnOk result (map move_of moves.new.items
        ≡ map move_of moves.old.items ++ passing from (map atom_of guard.items) to ∷ []) }
{
    let action = Action::Skip;
    moves.push(Move {
        from,
        to,
        guard,
        action,
    })?;
    Ok(())
}

// Appends a move for each of these atoms, with the atom as its guard.
fn push_negated(
    alloc: Global,
    moves: &mut Vec<Move>,
    negated: Vec<Atom>,
    from: u32,
    to: u32,
) -> Result<(), Memory>
    ensures { OnOk result (map move_of moves.new.items ≡ map move_of moves.old.items
        ++ map (λ atom. passing from (atom ∷ []) to) (map atom_of negated.items)) }
{
    for atom in negated {
        let mut guard = Vec::new(alloc);
        guard.push(atom)?;
        push_passing(moves, from, guard, to)?;
    }
    Ok(())
}
