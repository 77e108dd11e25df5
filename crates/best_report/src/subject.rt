//! Subjects of a report's lines.

/// What a bound is on. Rules and places are numbered from 1.
#[derive(Clone, Copy, Debug, PartialEq, Eq, Hash)]
pub enum Subject {
    /// How often a rule occurs.
    Time(u64),
    /// What the steps of a rule cost together.
    Cost(u64),
    /// What all steps cost together.
    Total,
    /// The value at a place after a rule.
    Above(u64, u64),
    /// The negation of that value.
    Below(u64, u64),
}
