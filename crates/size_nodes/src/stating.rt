//! States the sizes of members as facts.

ghost use Rattle.std.specs.Prelude.{◌≡◌, map, IfOk};
ghost use Rattle.bound_expr.specs.Views.{bound_of};
ghost use Rattle.cert_types.specs.Views.{facts_of, member_of};
ghost use Rattle.cert_types.specs.cert_rules.AcceptsSizes.{cycle_facts};

use bound_expr::{Bound, Memory};
use cert_types::{Fact, Member};
use std::alloc::Global;

/// The facts that this is the size of each member.
///
/// # Errors
///
/// `Memory` if an allocation fails.
pub fn size_facts(alloc: Global, members: &[Member], bound: &Bound) -> Result<Vec<Fact>, Memory>
    ensures { IfOk result (λ facts. facts_of facts.items ≡ cycle_facts (bound_of bound.now) (map member_of
        members.now)) }
{
    let mut facts = Vec::new(alloc);
    for member in members {
        facts.push(Fact::Size {
            rule: member.result_variable.rule,
            place: member.result_variable.place,
            bound: bound.copied(alloc)?,
        })?;
    }
    Ok(facts)
}
