//! The sizes of a round: tries each component with a place without a size, over the sizes found so far.

ghost use Rattle.std.specs.Prelude.{◌≡◌, ◌++◌, map, IfOk, IfSome, OnOk, true, false};
ghost use Rattle.cert_types.specs.Views.{result_variable_of};
ghost use Rattle.rvg_components.specs.Flows.{Locals};
ghost use Rattle.size_bounds.specs.Tables.{table_of};
ghost use Rattle.bound_fixpoint.specs.Keys.{Bounds};
ghost use Rattle.bound_fixpoint.specs.Answers.{are_open as are_open_of};
ghost use Rattle.bound_fixpoint.specs.Laws.{AreUniform};
ghost use Rattle.size_bounds.specs.Tables.{bounds_in};
ghost use Rattle.bound_derivations.specs.Books.{AreDerivedBounds, AreOpen};
ghost use Rattle.bound_derivations.specs.Views.{derivations_of, node_of};
ghost use Rattle.time_bounds.specs.Questions.{BelongsTogether, program_in};
ghost use Rattle.time_bounds.specs.Candidates.{IsRightCandidate, AreCandidatesOf, result_variables_in};
ghost use Rattle.time_bounds.specs.Attempts.{IsSizeStep, ArePlacesOf, attempt_by, derivations_by as derivations_by_of, node_in};
ghost use Rattle.time_bounds.specs.Attempts.{has_side_bounds};
ghost use Rattle.time_bounds.specs.EarlierAnswers.{ReasonIsTrue, IsTrueAnswerAt, IsStillTrue, WereAttempts};
ghost use Rattle.time_bounds.specs.RoundsMade.{known_with, AreMadeWithTimes, AreSizesMade};

use crate::candidates::{Candidate, SideBounds};
use crate::context::Context;
use bound_derivations::{Derivation, DerivedBounds, Node, is_known};
use cert_types::ResultVariable;
use model::Memory;
use size_bounds::{Table, copied_member, copied_members};
use size_nodes::{Sizing, sized_cycle, sized_spread};
use std::alloc::Global;

/// The result of a round for a component.
#[derive(Drop)]
pub(crate) enum ComponentAttempt {
    /// All its places already had sizes.
    Known,
    /// Its places have a size now.
    Found,
    /// Its places have no size, since one of them has no side bounds.
    HasNoSideBound,
    /// Its places have no size, by this answer.
    Failed(Sizing),
}

/// Tries each component with a place without a size, in order, and adds the sizes that are found to the derived bounds.
/// `before` has the last round's attempts, if there was one: an answer whose reason remains true is reused.
pub(crate) fn try_components(
    cx: &Context,
    candidates: &[Candidate],
    before: &[ComponentAttempt],
    derived: &mut DerivedBounds,
) -> Result<Vec<ComponentAttempt>, Memory>
    requires ready { BelongsTogether cx.now }
    requires candidates { AreCandidatesOf (program_in cx.now) cx.now.pivots candidates.now }
    requires before { (first : Bounds) × WereAttempts (program_in cx.now) cx.now.pivots first
        (known_with cx.now derived.old.derivations.items) candidates.now before.now }
    requires made { AreMadeWithTimes cx.now derived.old.derivations.items }
    requires derived { AreDerivedBounds (program_in cx.now) derived.old.table derived.old.derivations.items }
    ensures sizes { IfOk result (λ attempts. AreSizesMade cx.now candidates.now derived.old.derivations.items
        derived.new.derivations.items attempts.items) }
    ensures derived { OnOk result (AreDerivedBounds (program_in cx.now) derived.new.table derived.new.derivations.items) }
{
    let mut attempts = Vec::new(cx.alloc);
    for candidate in candidates {
        let again = standing(&derived.table, before, attempts.len());
        attempts.push(try_component(cx, candidate, again, derived)?)?;
    }
    Ok(attempts)
}

// The earlier answer for the component at a position, if there is one and its reason remains true over the table.
fn standing(table: &Table, before: &[ComponentAttempt], position: usize) -> Option<Sizing>
    ensures { IfSome result (λ a. IsTrueAnswerAt (table_of table.now) before.now position a) }
{
    if position >= before.len() {
        return None;
    }
    match &before[position] {
        ComponentAttempt::Known => None,
        ComponentAttempt::Found => None,
        ComponentAttempt::HasNoSideBound => None,
        ComponentAttempt::Failed(answer) => again(table, answer),
    }
}

// An answer without a size, if its reason remains true over the table.
fn again(table: &Table, answer: &Sizing) -> Option<Sizing>
    ensures { IfSome result (λ a. (a ≡ answer.now) × ReasonIsTrue (table_of table.now) a) }
{
    match answer {
        Sizing::Found { .. } => None,
        Sizing::Missing(result_variable) => match table.stored_size(
            result_variable.rule,
            result_variable.place,
        ) {
            Some(_) => None,
            None => Some(Sizing::Missing(*result_variable)),
        },
        Sizing::Nonlinear(result_variable) => Some(Sizing::Nonlinear(*result_variable)),
        Sizing::Untimed { rule } => match table.stored_time(*rule) {
            Some(_) => None,
            None => Some(Sizing::Untimed { rule: *rule }),
        },
        Sizing::Large { nodes } => Some(Sizing::Large { nodes: *nodes }),
    }
}

// Tries a component, if a place of it has no size and there is no earlier answer for it that remains valid.
fn try_component(
    cx: &Context,
    candidate: &Candidate,
    again: Option<Sizing>,
    derived: &mut DerivedBounds,
) -> Result<ComponentAttempt, Memory>
    requires ready { BelongsTogether cx.now }
    requires candidate { (local : Locals) × IsRightCandidate (program_in cx.now) cx.now.pivots local candidate.now }
    requires within { ArePlacesOf (program_in cx.now) candidate.now }
    requires uniform { AreUniform (known_with cx.now derived.old.derivations.items) (result_variables_in candidate.now) }
    requires again { IfSome again (λ a. IsStillTrue (program_in cx.now) cx.now.pivots
        (known_with cx.now derived.old.derivations.items) candidate.now a) }
    requires derived { AreDerivedBounds (program_in cx.now) derived.old.table derived.old.derivations.items }
    ensures step { IfOk result (λ x. IsSizeStep (program_in cx.now) cx.now.pivots derived.old.derivations.items candidate.now x
        derived.new.derivations.items) }
    ensures derived { OnOk result (AreDerivedBounds (program_in cx.now) derived.new.table derived.new.derivations.items) }
{
    if !are_open(&derived.table, &candidate.result_variables) {
        return Ok(ComponentAttempt::Known);
    }
    match again {
        Some(answer) => Ok(ComponentAttempt::Failed(answer)),
        None => try_side_bounds(cx, candidate, derived),
    }
}

// Tries a component of which a place has no size, by the side bounds of its members.
fn try_side_bounds(
    cx: &Context,
    candidate: &Candidate,
    derived: &mut DerivedBounds,
) -> Result<ComponentAttempt, Memory>
    requires ready { BelongsTogether cx.now }
    requires candidate { (local : Locals) × IsRightCandidate (program_in cx.now) cx.now.pivots local candidate.now }
    requires within { ArePlacesOf (program_in cx.now) candidate.now }
    requires uniform { AreUniform (known_with cx.now derived.old.derivations.items) (result_variables_in candidate.now) }
    requires lacking { are_open_of (known_with cx.now derived.old.derivations.items) (result_variables_in candidate.now) ≡ true }
    requires derived { AreDerivedBounds (program_in cx.now) derived.old.table derived.old.derivations.items }
    ensures step { IfOk result (λ x. IsSizeStep (program_in cx.now) cx.now.pivots derived.old.derivations.items candidate.now x
        derived.new.derivations.items) }
    ensures derived { OnOk result (AreDerivedBounds (program_in cx.now) derived.new.table derived.new.derivations.items) }
{
    match &candidate.side_bounds {
        SideBounds::Lacking(_) => Ok(ComponentAttempt::HasNoSideBound),
        SideBounds::Alone(member) => {
            let sizing = sized_spread(
                cx.alloc,
                &cx.graph,
                &cx.prepared_rules,
                &derived.table,
                member,
            )?;
            take(cx, candidate, sizing, derived)
        }
        SideBounds::Loop(members) => {
            let sizing = sized_cycle(
                cx.alloc,
                &cx.graph,
                &cx.prepared_rules,
                &derived.table,
                members,
            )?;
            take(cx, candidate, sizing, derived)
        }
    }
}

// Whether one of these places has no size.
fn are_open(table: &Table, result_variables: &[ResultVariable]) -> bool
    ensures { result ≡ are_open_of (bounds_in table.now) (map result_variable_of result_variables.now) }
{
    for result_variable in result_variables {
        let known = is_known(table, *result_variable);
        if !known {
            return true;
        }
    }
    false
}

// Takes an answer for a component with side bounds: if it has a size, this is added to the derived bounds for all
// places.
fn take(
    cx: &Context,
    candidate: &Candidate,
    sizing: Sizing,
    derived: &mut DerivedBounds,
) -> Result<ComponentAttempt, Memory>
    requires side_bounds { has_side_bounds candidate.now.side_bounds ≡ true }
    requires open { AreOpen (program_in cx.now) (derivations_of derived.old.derivations.items) (result_variables_in candidate.now) }
    requires derived { AreDerivedBounds (program_in cx.now) derived.old.table derived.old.derivations.items }
    ensures attempt { IfOk result (λ x. x ≡ attempt_by sizing) }
    ensures derivations { OnOk result (derivations_of derived.new.derivations.items ≡ derivations_of derived.old.derivations.items
        ++ derivations_by_of (result_variables_in candidate.now) (node_in candidate.now.side_bounds) sizing) }
    ensures derived { OnOk result (AreDerivedBounds (program_in cx.now) derived.new.table derived.new.derivations.items) }
{
    match sizing {
        Sizing::Found { premises, bound } => {
            let result_variables = Vec::from_slice(cx.alloc, &candidate.result_variables)?;
            let node = node_by(cx.alloc, &candidate.side_bounds)?;
            let derivation = Derivation {
                keys: result_variables,
                node,
                premises,
                bound,
            };
            derived.take(cx.alloc, derivation)?;
            Ok(ComponentAttempt::Found)
        }
        Sizing::Missing(result_variable) => Ok(ComponentAttempt::Failed(Sizing::Missing(
            result_variable,
        ))),
        Sizing::Nonlinear(result_variable) => Ok(ComponentAttempt::Failed(Sizing::Nonlinear(
            result_variable,
        ))),
        Sizing::Untimed { rule } => Ok(ComponentAttempt::Failed(Sizing::Untimed { rule })),
        Sizing::Large { nodes } => Ok(ComponentAttempt::Failed(Sizing::Large { nodes })),
    }
}

// The node that side bounds give.
fn node_by(alloc: Global, side_bounds: &SideBounds) -> Result<Node, Memory>
    requires { has_side_bounds side_bounds.now ≡ true }
    ensures { IfOk result (λ node. node_of node ≡ node_in side_bounds.now) }
{
    match side_bounds {
        SideBounds::Lacking(_) => unreachable!(),
        SideBounds::Alone(member) => Ok(Node::Spread(copied_member(alloc, member)?)),
        SideBounds::Loop(members) => Ok(Node::Cycle(copied_members(alloc, members)?)),
    }
}
