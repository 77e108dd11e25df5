//! Worked values of plans.

ghost use Rattle.call_plans.specs.Worked.{PlansAreWorkedOut, StatusesHaveMeanings, PlansEnd};
ghost use Rattle.call_plans.specs.WorkedPairs.{PairsAreWorkedOut, PairStatusesHaveMeanings, PairsEnd};

/// Worked values of the answers of plans with one and with two files of a toy kind: for a file that is lacking, too
/// long, bad, or good, and for a second one, which is fetched only after a good first one; of the meanings of their
/// statuses; and of the status with which a call ends on these files. The function has no code: its contract is these
/// values.
pub fn worked_plans_hold()
    ensures answers { PlansAreWorkedOut }
    ensures meanings { StatusesHaveMeanings }
    ensures ends { PlansEnd }
    ensures two_answers { PairsAreWorkedOut }
    ensures two_meanings { PairStatusesHaveMeanings }
    ensures two_ends { PairsEnd }
{}
