//! Builds the facts on members from their size.

ghost use Rattle.std.specs.Prelude.{map, MatchResult};
ghost use Rattle.check_sizes.specs.SizeAnswers.{IsFaultOf, StatesSizes};
ghost use Rattle.cert_types.specs.Views.{member_of};

use cert_context::NodeFault;
use cert_types::{Fact, Member, Reason};
use size_nodes::{Sizing, size_facts};
use std::alloc::Global;

/// The facts that this is the size of each member, if a size was found.
///
/// # Errors
///
/// `Refused` with the reason why no size was found; `Memory` where an allocation fails.
pub(crate) fn stated(
    alloc: Global,
    members: &[Member],
    sizing: Sizing,
) -> Result<Vec<Fact>, NodeFault>
    ensures { MatchResult result
        (λ facts. StatesSizes (map member_of members.now) sizing facts)
        (λ fault. IsFaultOf sizing fault) }
{
    match sizing {
        Sizing::Found { premises: _, bound } => Ok(size_facts(alloc, members, &bound)?),
        Sizing::Missing(result_variable) => Err(NodeFault::Refused(Reason::MissingSize {
            rule: result_variable.rule,
            place: result_variable.place,
        })),
        Sizing::Nonlinear(result_variable) => Err(NodeFault::Refused(Reason::Nonlinear {
            rule: result_variable.rule,
            place: result_variable.place,
        })),
        Sizing::Untimed { rule } => Err(NodeFault::Refused(Reason::MissingTime { rule })),
        Sizing::Large { nodes } => Err(NodeFault::Refused(Reason::Large { nodes })),
    }
}
