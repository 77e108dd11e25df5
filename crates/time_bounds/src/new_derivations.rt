//! Takes derivations into the table, one after the other.

ghost use Rattle.std.specs.Prelude.{◌≡◌, ◌+◌, ◌<◌, ◌^◌, ◌++◌, length, map, IfOk, OnOk};
ghost use Rattle.bound_derivations.specs.Books.{AreDerivedBounds};
ghost use Rattle.bound_derivations.specs.Views.{derivations_of};
ghost use Rattle.time_bounds.specs.Questions.{program_in};
ghost use Rattle.time_bounds.specs.OpenDerivations.{AreOpenAfter};
ghost use Rattle.time_bounds.specs.TriedRules.{derivation_in, derivations_in, kept_in};

use crate::asking::AnsweredRankQuestion;
use crate::context::Context;
use crate::premises::time_keys;
use crate::tried_rules::RuleAttempt;
use bound_derivations::{Derivation, DerivedBounds, Node};
use model::Memory;
use std::alloc::Global;

/// Takes derivations whose keys are open, each after those before it.
pub(crate) fn take_all(
    cx: &Context,
    derived: &mut DerivedBounds,
    derivations: Vec<Derivation>,
) -> Result<(), Memory>
    requires derived { AreDerivedBounds (program_in cx.now) derived.old.table derived.old.derivations.items }
    requires open { AreOpenAfter (program_in cx.now) (derivations_of derived.old.derivations.items) (derivations_of derivations.items) }
    ensures derivations { OnOk result (derivations_of derived.new.derivations.items
        ≡ derivations_of derived.old.derivations.items ++ derivations_of derivations.items) }
    ensures derived { OnOk result (AreDerivedBounds (program_in cx.now) derived.new.table derived.new.derivations.items) }
{
    for derivation in derivations {
        derived.take(cx.alloc, derivation)?;
    }
    Ok(())
}

/// The result of a round for the rules: the queries of those that have no time, and the derivations of the times that
/// were found.
#[derive(Drop)]
pub(crate) struct SplitRules {
    pub asked: Vec<Option<AnsweredRankQuestion>>,
    pub derivations: Vec<Derivation>,
}

/// Splits the attempts at rules into queries and derivations.
pub(crate) fn part_all(alloc: Global, tries: Vec<RuleAttempt>) -> Result<SplitRules, Memory>
    requires { length tries.items < 2 ^ 31 }
    ensures asked { IfOk result (λ parts. parts.asked.items ≡ map kept_in tries.items) }
    ensures derivations { IfOk result (λ parts. derivations_of parts.derivations.items ≡ derivations_in 1 tries.items) }
{
    let mut asked = Vec::new(alloc);
    let mut derivations = Vec::new(alloc);
    for tried in tries {
        let rule = asked.len() as u32 + 1;
        let question = part(alloc, rule, tried, &mut derivations)?;
        asked.push(question)?;
    }
    Ok(SplitRules { asked, derivations })
}

// Appends the derivation of a rule, if its time was found, and returns its query otherwise.
fn part(
    alloc: Global,
    rule: u32,
    tried: RuleAttempt,
    derivations: &mut Vec<Derivation>,
) -> Result<Option<AnsweredRankQuestion>, Memory>
    ensures kept { IfOk result (λ question. question ≡ kept_in tried) }
    ensures derivations { OnOk result (derivations_of derivations.new.items ≡ derivations_of derivations.old.items ++ derivation_in rule tried) }
{
    match tried {
        RuleAttempt::Known => Ok(None),
        RuleAttempt::Found {
            node,
            premises,
            bound,
        } => {
            derivations.push(Derivation {
                keys: time_keys(alloc, rule)?,
                node: Node::Rank(node),
                premises,
                bound,
            })?;
            Ok(None)
        }
        RuleAttempt::Missing(question) => Ok(Some(question)),
    }
}
