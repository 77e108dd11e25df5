//! Sizes of places and of loops as text.

use cert_types::{Fact, Member, Proof};
use model::Memory;
use size_bounds::SizeAnswer;
use std::alloc::Global;

/// An answer as text; for a node that was found, whether it is of these members, its premises and its facts.
pub(crate) fn answer_text(
    alloc: Global,
    answer: &SizeAnswer,
    members: &[Member],
) -> Result<String, Memory> {
    match answer {
        SizeAnswer::Found { node, facts } => node_text(alloc, node, facts, members),
        other => format!(in alloc; "{other:?}"),
    }
}

// A node with its facts as text.
fn node_text(
    alloc: Global,
    node: &Proof,
    facts: &[Fact],
    members: &[Member],
) -> Result<String, Memory> {
    match node {
        Proof::Spread(spread) => {
            let is_same = match members {
                [only] => {
                    only.result_variable == spread.result_variable && only.local == spread.local
                }
                _ => false,
            };
            let kind = if is_same {
                "spread"
            } else {
                "spread of another"
            };
            format!(in alloc; "{kind} by {:?}: {facts:?}", spread.uses)
        }
        Proof::Cycle(cycle) => {
            let is_same = cycle.members.as_slice() == members;
            let kind = if is_same { "cycle" } else { "cycle of others" };
            format!(in alloc; "{kind} by {:?}: {facts:?}", cycle.uses)
        }
        _ => String::from_str(alloc, "another node"),
    }
}
