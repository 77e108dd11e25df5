//! Tests of the public calls on proof nodes.
#![tactic(auto)]

#[cfg(test)]
mod composed;
#[cfg(test)]
mod facts;
#[cfg(test)]
mod side_bounds;
#[cfg(test)]
mod times;
