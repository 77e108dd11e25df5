//! Facts at the locations (symbols) of a program: lower bounds on values, and on differences of two values, that hold
//! whenever a run is at the symbol. They are found as a greatest fixpoint (as in Houdini) by linear programs.
//!
//! Builds on `simplex_core` and `rule_questions`. Main guarantee: `facts` finds exactly the facts that are kept within
//! a number of pivots (`AreKept`; there is at most one such list, `kept_facts_are_one`), with faultless proofs.
//! `facts_fault` reports no fault exactly for facts and proofs without one (`AreProved`), and otherwise the first
//! (`faults_are_decided`). Such facts hold on every run (`proved_facts_hold`). The program that `strengthen` builds
//! from facts that hold has the same runs (`strengthening_changes_no_run`).
#![tactic(auto)]

mod asking;
mod candidates;
mod checks;
mod copies;
mod elements;
mod fact;
mod faults;
mod implied;
mod laws;
mod rounds;
mod rows;
mod rules;
mod shown;
mod strengthening;
mod tables;

pub use fact::{FactFault, FactProof, LocFact, LocFacts};
pub use faults::facts_fault;
pub use laws::{
    answers_decide_implied, candidates_are_listed, facts_are_as_worked_out,
    faults_are_as_worked_out, faults_are_decided, kept_facts_are_as_worked_out, kept_facts_are_one,
    proved_facts_hold, strengthening_changes_no_run,
};
pub use rounds::facts;
pub use strengthening::{facts_at, greatest_least, strengthen};
