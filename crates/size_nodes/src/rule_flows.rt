//! The flows of one rule.

ghost use Rattle.std.specs.Prelude.{◌≡◌, ◌<◌, ◌≤◌, length, map};
ghost use Rattle.std.specs.List.{AllWithin};
ghost use Rattle.std.specs.List.Sorted.{IsNonDecreasingBy};
ghost use Rattle.size_nodes.specs.Flows.{flow_of};
ghost use Rattle.size_nodes.specs.Growths.{growth_by_flows};

use crate::flow::Flow;

/// The flows of a rule. They are consecutive, since flows are ordered by members, which ascend.
pub(crate) fn flows_of_rule(flows: &[Flow], rule: u32) -> &[Flow]
    requires { IsNonDecreasingBy (λ f. f.rule) flows.now }
    ensures { growth_by_flows (map flow_of result.now) rule ≡ growth_by_flows (map flow_of flows.now) rule }
{
    let (_, rest) = flows.split_at(count_below(flows, u64::from(rule)));
    let (found, _) = rest.split_at(count_below(rest, u64::from(rule) + 1));
    found
}

// How many of the flows are of rules below this one.
fn count_below(flows: &[Flow], rule: u64) -> usize
    requires { IsNonDecreasingBy (λ f. f.rule) flows.now }
    ensures bound { result ≤ length flows.now }
    ensures below { AllWithin (λ f. f.rule < rule) flows.now 0 result }
    ensures behind { AllWithin (λ f. rule ≤ f.rule) flows.now result (length flows.now) }
{
    flows.partition_point(|f| u64::from(f.rule) < rule)
}
