//! Checks nodes on the size of a place that doesn't loop.

ghost use Rattle.std.specs.Prelude.{◌≡◌, ◌∷◌, [], IfOk, MatchResult};
ghost use Rattle.model.specs.Facts.{Size};
ghost use Rattle.cert_context.specs.CheckContexts.{IsCheckContext, setting};
ghost use Rattle.cert_context.specs.NodeAnswers.{Refuses, States};
ghost use Rattle.check_sizes.specs.SizeAnswers.{spread_member};
ghost use Rattle.cert_types.specs.Views.{member_of};
ghost use Rattle.cert_types.specs.cert_rules.AcceptsSizes.{spread_size};
ghost use Rattle.cert_types.specs.cert_rules.Checks.{spread_checks};

use crate::members::{accepts_low, accepts_up, has_member_shape};
use crate::stating::stated;
use cert_context::{CheckContext, NodeFault};
use cert_types::{Fact, Known, Member, Reason, SpreadNode, copied_local};
use model::Memory;
use size_nodes::sized_spread;
use std::alloc::Global;
use std::slice::from_ref;

// The contents of a node on a size, without its premises, as a member.
fn member_in(alloc: Global, node: &SpreadNode) -> Result<Member, Memory>
    ensures { IfOk result (λ member. member_of member ≡ spread_member node.now) }
{
    let local = copied_local(alloc, &node.local)?;
    Ok(Member {
        result_variable: node.result_variable,
        local,
    })
}

/// The fact of a node on the size of a place that doesn't loop.
///
/// # Errors
///
/// `Refused` with the first reason why the node isn't accepted; `Memory` where an allocation fails.
pub fn spread_facts<K: Known>(
    alloc: Global,
    context: &CheckContext,
    node: &SpreadNode,
    known: &K,
) -> Result<Vec<Fact>, NodeFault>
    requires { IsCheckContext context.now }
    ensures { MatchResult result
        (λ facts. States (spread_checks (setting context.now) (K.table known.now) (spread_member node.now))
        (Size node.now.result_variable.rule node.now.result_variable.place ((setting context.now).rewrite
        (spread_size (setting context.now) (K.table known.now) (spread_member node.now))) ∷ []) facts)
        (λ fault. Refuses (spread_checks (setting context.now) (K.table known.now) (spread_member node.now)) fault) }
{
    let member = member_in(alloc, node)?;
    member_facts(alloc, context, &member, known)
}

// The fact of a member that doesn't loop.
fn member_facts<K: Known>(
    alloc: Global,
    context: &CheckContext,
    member: &Member,
    known: &K,
) -> Result<Vec<Fact>, NodeFault>
    requires { IsCheckContext context.now }
    ensures { MatchResult result
        (λ facts. States (spread_checks (setting context.now) (K.table known.now) (member_of member.now))
        (Size member.now.result_variable.rule member.now.result_variable.place ((setting context.now).rewrite
        (spread_size (setting context.now) (K.table known.now) (member_of member.now))) ∷ []) facts)
        (λ fault. Refuses (spread_checks (setting context.now) (K.table known.now) (member_of member.now)) fault) }
{
    if !has_member_shape(context, member) {
        return Err(NodeFault::Refused(Reason::Shape));
    }
    let has_up = accepts_up(alloc, context, member)?;
    if !has_up {
        return Err(NodeFault::Refused(Reason::SideBoundUp {
            rule: member.result_variable.rule,
            place: member.result_variable.place,
        }));
    }
    let has_low = accepts_low(alloc, context, member)?;
    if !has_low {
        return Err(NodeFault::Refused(Reason::SideBoundLow {
            rule: member.result_variable.rule,
            place: member.result_variable.place,
        }));
    }
    let sizing = sized_spread(
        alloc,
        &context.graph,
        &context.prepared_rules,
        known,
        member,
    )?;
    stated(alloc, from_ref(member), sizing)
}
