//! Defines programs, runs, bounds and facts as plain data over unbounded integers, in `specs/`, and proves laws of
//! them.
//!
//! Every other crate reads its own types as this plain data and states its contracts over it; this crate uses no other
//! one. Main guarantee: the definitions give the worked values of small programs, and the laws hold
//! (`runs_are_determined`, `runs_go_step_by_step`). The functions here have no code: the contract of each is a law or a
//! set of worked values. The only type of the code is the error for running out of memory, which all crates share.
#![tactic(auto)]

mod costs;
mod limits;
mod runs;

ghost use Rattle.model.specs.Laws.{RunsAreDetermined, EntryOccursOnce};
ghost use Rattle.model.specs.Worked.{ExpressionsHaveTheirValues, BoundsHaveTheirValues, StepsAreCounted};
ghost use Rattle.model.specs.Worked.{RelationsHold, StepsLead, PlacesAndRulesCount};
ghost use Rattle.model.specs.WorkedRuns.{RelationsHoldBelowZero, StepsAreSteps, RunsAreRuns};
ghost use Rattle.model.specs.WorkedFacts.{StepsAndPlacesAreCounted, TimesHold, LengthsHold, SizesHold};

pub use costs::{costs_add_up, costs_go_step_by_step, worked_costs_hold};
pub use limits::{
    ATOM_LIMIT, COEFFICIENT_LIMIT, DEGREE_LIMIT, MONOMIAL_LIMIT, NAME_LIMIT, PLACE_LIMIT,
    RULE_LIMIT, TOKEN_LIMIT, VARIABLE_LIMIT, limits_are_as_defined,
};
pub use runs::{entries_are_listed, paths_are_as_worked_out, runs_go_step_by_step};

/// The error that memory ran out.
pub type Memory = std::alloc::AllocError;

/// The start values and the steps of a run (with the values of their free variables) determine the configuration that
/// the run reaches.
pub fn runs_are_determined()
    ensures { RunsAreDetermined }
{}

/// In every run the virtual entry, rule 0, occurs exactly once.
pub fn entry_occurs_once()
    ensures { EntryOccursOnce }
{}

/// Worked values: expressions, bounds, relations, steps, places and rules have the expected values.
pub fn worked_values_hold()
    ensures expressions { ExpressionsHaveTheirValues }
    ensures bounds { BoundsHaveTheirValues }
    ensures steps { StepsAreCounted }
    ensures relations { RelationsHold }
    ensures leading { StepsLead }
    ensures numbering { PlacesAndRulesCount }
{}

/// Worked values: exactly the expected steps and runs of a small program with a loop.
pub fn worked_runs_hold()
    ensures relations { RelationsHoldBelowZero }
    ensures steps { StepsAreSteps }
    ensures runs { RunsAreRuns }
{}

/// Worked values: bounds that hold on all runs of a small program, and bounds one too small, which don't.
pub fn worked_facts_hold()
    ensures counting { StepsAndPlacesAreCounted }
    ensures times { TimesHold }
    ensures lengths { LengthsHold }
    ensures sizes { SizesHold }
{}
