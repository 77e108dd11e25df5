//! Prints nodes of two phases.

ghost use Rattle.std.specs.Prelude.{◌≡◌, ◌++◌, map, codes, OnOk};
ghost use Rattle.section_writer.specs.Lists.{each_behind, separated};
ghost use Rattle.potential_types.specs.Views.{counted_of, phase_move_of};
ghost use Rattle.potential_writer.specs.Lemmas.{counted_text, counts_text, phase_move_text};

use crate::certificates::push_certificate;
use crate::numbers::push_number;
use model::Memory;
use potential_types::{CountedRule, PhaseMove};

/// The moves, with a semicolon and a blank between them.
pub(crate) fn push_phase_moves(text: &mut Vec<u8>, moves: &[PhaseMove]) -> Result<(), Memory>
    ensures { OnOk result (text.new.items
        ≡ text.old.items ++ separated (codes "; ") (map phase_move_text (map phase_move_of moves.now))) }
{
    let Some((first, others)) = moves.split_first() else {
        return Ok(());
    };
    push_phase_move(text, first)?;
    push_more_phase_moves(text, others)
}

// A semicolon and a blank before each move.
fn push_more_phase_moves(text: &mut Vec<u8>, moves: &[PhaseMove]) -> Result<(), Memory>
    ensures { OnOk result (text.new.items
        ≡ text.old.items ++ each_behind (codes "; ") (map phase_move_text (map phase_move_of moves.now))) }
{
    for step in moves {
        text.extend_from_slice(b"; ")?;
        push_phase_move(text, step)?;
    }
    Ok(())
}

// A move, with the certificates for both functions.
fn push_phase_move(text: &mut Vec<u8>, step: &PhaseMove) -> Result<(), Memory>
    ensures { OnOk result (text.new.items ≡ text.old.items ++ phase_move_text (phase_move_of step.now)) }
{
    push_number(text, step.rule)?;
    text.extend_from_slice(b" ")?;
    push_certificate(text, &step.first)?;
    text.extend_from_slice(b" ")?;
    push_certificate(text, &step.second)
}

/// The counted rules.
#[tactic(auto, unfolding(crate::specs::Lemmas::counts_text))]
pub(crate) fn push_counts(text: &mut Vec<u8>, counted: &[CountedRule]) -> Result<(), Memory>
    ensures { OnOk result (text.new.items ≡ text.old.items ++ counts_text (map counted_of counted.now)) }
{
    text.extend_from_slice(b" counts [")?;
    push_separated_counted(text, counted)?;
    text.extend_from_slice(b"]")
}

// The counted rules, with a semicolon and a blank between them.
fn push_separated_counted(text: &mut Vec<u8>, counted: &[CountedRule]) -> Result<(), Memory>
    ensures { OnOk result (text.new.items
        ≡ text.old.items ++ separated (codes "; ") (map counted_text (map counted_of counted.now))) }
{
    let Some((first, others)) = counted.split_first() else {
        return Ok(());
    };
    push_counted_rule(text, first)?;
    push_more_counted(text, others)
}

// A semicolon and a blank before each counted rule.
fn push_more_counted(text: &mut Vec<u8>, counted: &[CountedRule]) -> Result<(), Memory>
    ensures { OnOk result (text.new.items
        ≡ text.old.items ++ each_behind (codes "; ") (map counted_text (map counted_of counted.now))) }
{
    for rule in counted {
        text.extend_from_slice(b"; ")?;
        push_counted_rule(text, rule)?;
    }
    Ok(())
}

// A counted rule.
fn push_counted_rule(text: &mut Vec<u8>, rule: &CountedRule) -> Result<(), Memory>
    ensures { OnOk result (text.new.items ≡ text.old.items ++ counted_text (counted_of rule.now)) }
{
    push_number(text, rule.rule)?;
    text.extend_from_slice(b" ")?;
    push_certificate(text, &rule.floor)
}
