//! The first fault of a section.

/// The first fault of a section of a program. Copies, branches, the facts of a copy, and the ends of all paths,
/// including those that end nowhere, are numbered from 1.
#[derive(Clone, Copy, Debug, PartialEq, Eq)]
pub enum SectionFault {
    /// There is no copy, or the first one is of another symbol than the start symbol, or has facts.
    Start,
    /// A fact of this copy doesn't have a coefficient for each place of its symbol.
    Facts { copy: u64 },
    /// This branch isn't the required one, or one is missing at the end: for each copy and each rule that leaves its
    /// symbol there has to be one branch, by copy and then by rule.
    Branch { branch: u64 },
    /// A test of this branch doesn't have a coefficient for each variable of the rule.
    Test { branch: u64 },
    /// This end isn't at a copy of the rule's target, or doesn't have a list of multipliers for each fact of the copy;
    /// or a list of its multipliers doesn't have a number for each row, or has one over the limit.
    Shape { end: u64 },
    /// There are more than 1,000 ends at copies, or none of them leaves the first copy.
    Rules,
    /// The rule of this end, or of one of its obligations, is over the limits of rules.
    Limit { end: u64 },
    /// The multipliers of this end don't show that its rows have no point.
    Never { end: u64 },
    /// The multipliers for this fact of the end's copy don't show that the rows have no point if the fact fails after
    /// the rule.
    Fact { end: u64, fact: u64 },
}

/// Why a section isn't accepted.
#[derive(Clone, Copy, Debug, PartialEq, Eq)]
pub enum AcceptError {
    /// The section has this first fault.
    Wrong(SectionFault),
    /// An allocation failed.
    Memory,
}
