//! The rules of the members of a loop.

ghost use Rattle.std.specs.Prelude.{◌≡◌, map, IfOk};
ghost use Rattle.cert_types.specs.Views.{member_of};
ghost use Rattle.size_nodes.specs.Flows.{rules_after};

use bound_expr::Memory;
use cert_types::Member;
use std::alloc::Global;

/// The rules of members that ascend, each once, ascending. Rules count from 1.
///
/// # Errors
///
/// `Memory` if an allocation fails.
pub(crate) fn rules_in(alloc: Global, members: &[Member]) -> Result<Vec<u32>, Memory>
    ensures { IfOk result (λ rules. rules.items ≡ rules_after 0 (map member_of members.now)) }
{
    let mut rules = Vec::new(alloc);
    let mut last = 0;
    for member in members {
        let rule = member.result_variable.rule;
        if rule != last {
            rules.push(rule)?;
            last = rule;
        }
    }
    Ok(rules)
}
