//! Tests of the text of reports by public calls alone.
#![tactic(auto)]

#[cfg(test)]
mod reports;
