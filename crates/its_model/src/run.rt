//! Configurations, which are the states of a run, and steps.

/// A configuration: a symbol, and one value for each of its places.
#[derive(Debug, PartialEq, Eq, Drop)]
pub struct Config {
    pub at: u32,
    pub values: Vec<i128>,
}

/// A use of a rule, by its number from 1, with one value for each of its free variables.
#[derive(Debug, PartialEq, Eq, Drop)]
pub struct Step {
    pub rule: u32,
    pub free: Vec<i128>,
}
