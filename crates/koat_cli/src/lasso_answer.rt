//! Answers whether the turn of a lasso leads back, or moves on.

ghost use Rattle.std.specs.Prelude.{◌≡◌, ◌++◌, IfOk, IfSome, IsErr, None, OnOk};
ghost use Rattle.its_model.specs.Valid.{IsValid};
ghost use Rattle.its_model.specs.Views.{program_of};
ghost use Rattle.lasso_forms.specs.lasso_check.CheckAnswers as back;
ghost use Rattle.lasso_forms.specs.lasso_check.Spelled.{IsWithin};
ghost use Rattle.lasso_forms.specs.Files.{lasso_in};
ghost use Rattle.lasso_forms.specs.Views.{file_of, turn_of, obstacle_to_back, obstacle_in};
ghost use Rattle.call_plans.specs.Plans.{HasRow};
ghost use Rattle.koat_cli.specs.Commands.Lasso.{lasso_answers};
ghost use Rattle.koat_cli.specs.LassoTexts.{back_text, turn_text, rule_line, rule_lines, cost_line, open_text};
ghost use Rattle.koat_cli.specs.LassoTexts.{obstacle_text};

use crate::moving_text::{moving_lines, stop_lines};
use crate::replay_text::push_value;
use crate::run_refusal::{bad_step_at, failed_atom_text};
use call_plans::{Status, StatusText};
use itoa::Buffer;
use its_model::Program;
use lasso_forms::{
    EndlessTurn, LassoError, LassoFile, Turn, TurnError, check_lasso_file,
    endless_turns_have_no_time,
};
use model::Memory;
use std::alloc::{AllocError, Global};

/// The rules of a lasso's turn and what it costs, if it leads back or is shown to move on, in that case with its
/// differences; or what prevents this.
pub(crate) fn lasso_answer(
    alloc: Global,
    program: &Program,
    file: &LassoFile,
) -> Result<StatusText, Memory>
    requires valid { IsValid (program_of program.now) }
    requires within { IsWithin (program_of program.now) (lasso_in (file_of file.now)) }
    ensures { IfOk result (λ reply.
        HasRow (lasso_answers (program_of program.now) (file_of file.now)) reply.status reply.text.items) }
{
    endless_turns_have_no_time();
    match check_lasso_file(alloc, program, file) {
        Ok(turn) => Ok(StatusText {
            status: Status::Done,
            text: turn_lines(alloc, &turn)?,
        }),
        Err(error) => Ok(StatusText {
            status: Status::NotARun,
            text: obstacle_lines(alloc, &error)?,
        }),
    }
}

// The text of a turn that can be repeated.
fn turn_lines(alloc: Global, turn: &EndlessTurn) -> Result<Vec<u8>, Memory>
    ensures { IfOk result (λ text. text.items ≡ turn_text (turn_of turn.now)) }
{
    match turn {
        EndlessTurn::Back(turn) => back_lines(alloc, turn),
        EndlessTurn::On(moving) => moving_lines(alloc, moving),
    }
}

// The text of a turn that leads back.
fn back_lines(alloc: Global, turn: &Turn) -> Result<Vec<u8>, Memory>
    ensures { IfOk result (λ text. text.items ≡ back_text (back.turn_of turn.now)) }
{
    let mut text = Vec::from_slice(alloc, b"endless\n")?;
    push_rules(&mut text, &turn.rules)?;
    push_cost(&mut text, turn.cost)?;
    Ok(text)
}

/// A line for each rule.
pub(crate) fn push_rules(text: &mut Vec<u8>, rules: &[u32]) -> Result<(), Memory>
    ensures { OnOk result (text.new.items ≡ text.old.items ++ rule_lines rules.now) }
{
    for rule in rules {
        push_rule(text, *rule)?;
    }
    Ok(())
}

// The line of a rule.
fn push_rule(text: &mut Vec<u8>, rule: u32) -> Result<(), Memory>
    ensures { OnOk result (text.new.items ≡ text.old.items ++ rule_line rule) }
{
    text.extend_from_slice(b"rule ")?;
    text.extend_from_slice(Buffer::new().format(rule).as_bytes())?;
    text.extend_from_slice(b"\n")
}

/// The line of what a turn costs.
pub(crate) fn push_cost(text: &mut Vec<u8>, cost: u128) -> Result<(), Memory>
    ensures { OnOk result (text.new.items ≡ text.old.items ++ cost_line cost) }
{
    text.extend_from_slice(b"turn cost ")?;
    push_value(text, cost)?;
    text.extend_from_slice(b"\n")
}

// The text of what prevents that a turn is repeated, or is shown to be.
fn obstacle_lines(alloc: Global, error: &TurnError) -> Result<Vec<u8>, Memory>
    ensures result_is { IfOk result (λ text. IfSome (obstacle_in error.now) (λ o. text.items ≡ obstacle_text o)) }
    ensures memory { obstacle_in error.now ≡ None → IsErr result }
{
    match error {
        TurnError::FirstForm(error) => open_lines(alloc, error),
        TurnError::SecondForm(error) => stop_lines(alloc, error),
    }
}

// The text of the first bad step, and of a turn that stays open.
fn open_lines(alloc: Global, error: &LassoError) -> Result<Vec<u8>, Memory>
    ensures result_is { IfOk result (λ text.
        IfSome (obstacle_to_back error.now) (λ o. text.items ≡ obstacle_text o)) }
    ensures memory { obstacle_to_back error.now ≡ None → IsErr result }
{
    match error {
        LassoError::WrongRule { step } => bad_step_at(alloc, *step, b"wrong rule"),
        LassoError::GuardFails { step, atom } => {
            let fault = failed_atom_text(alloc, *atom)?;
            bad_step_at(alloc, *step, &fault)
        }
        LassoError::PassedRange { step } => bad_step_at(alloc, *step, b"value passes 128 bits"),
        LassoError::Open { place } => open_turn_text(alloc, *place),
        LassoError::Memory => Err(AllocError),
    }
}

// The text of a turn that stays open at a place.
fn open_turn_text(alloc: Global, place: u64) -> Result<Vec<u8>, Memory>
    ensures { IfOk result (λ text. text.items ≡ open_text place) }
{
    let mut text = Vec::from_slice(alloc, b"not a run: open at place ")?;
    text.extend_from_slice(Buffer::new().format(place).as_bytes())?;
    text.extend_from_slice(b"\n")?;
    Ok(text)
}
