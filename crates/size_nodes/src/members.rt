//! The members of a loop, by the rules that they are places after.

ghost use Rattle.std.specs.Prelude.{◌≡◌, ◌+◌, ◌<◌, ◌≤◌, length, map};
ghost use Rattle.std.specs.List.{AllWithin};
ghost use Rattle.std.specs.List.Sorted.{IsNonDecreasingBy};
ghost use Rattle.cert_types.specs.cert_rules.AcceptsSizes.{AreAscending};
ghost use Rattle.cert_types.specs.cert_rules.ComposedSizes.{is_member};
ghost use Rattle.cert_types.specs.Views.{member_of};

use cert_types::Member;

/// The members of a loop, which ascend.
#[derive(Clone, Copy)]
pub(crate) struct LoopMembers<'a> {
    pub members: &'a [Member],
    ghost ascending: { IsNonDecreasingBy (λ m. m.result_variable.rule) members.now },
}

impl<'a> LoopMembers<'a> {
    /// The members of a loop, given in ascending order.
    pub(crate) fn new(members: &'a [Member]) -> LoopMembers<'a>
        requires { AreAscending (map member_of members.now) }
        ensures { result.members.now ≡ members.now }
    {
        LoopMembers { members }
    }

    /// The members that are places after a rule; they are consecutive.
    pub(crate) fn after(&self, rule: u32) -> &[Member]
        ensures { is_member (map member_of result.now) rule ≡ is_member (map member_of self.now.members.now) rule }
    {
        members_after(self.members, rule)
    }
}

// The members that are places after a rule, found by binary search.
fn members_after(members: &[Member], rule: u32) -> &[Member]
    requires { IsNonDecreasingBy (λ m. m.result_variable.rule) members.now }
    ensures { is_member (map member_of result.now) rule ≡ is_member (map member_of members.now) rule }
{
    let (_, rest) = members.split_at(count_below(members, u64::from(rule)));
    let (found, _) = rest.split_at(count_below(rest, u64::from(rule) + 1));
    found
}

// How many of the members are places after rules below this one.
fn count_below(members: &[Member], rule: u64) -> usize
    requires { IsNonDecreasingBy (λ m. m.result_variable.rule) members.now }
    ensures bound { result ≤ length members.now }
    ensures below { AllWithin (λ m. m.result_variable.rule < rule) members.now 0 result }
    ensures behind { AllWithin (λ m. rule ≤ m.result_variable.rule) members.now result (length members.now) }
{
    members.partition_point(|m| u64::from(m.result_variable.rule) < rule)
}
