//! Analyses a program with the facts at its locations.

ghost use Rattle.std.specs.Prelude.{length, IfOk};
ghost use Rattle.its_model.specs.Valid.{IsValid};
ghost use Rattle.its_model.specs.Views.{program_of};
ghost use Rattle.outcome.specs.Printing.{IsPrintableOutcome};
ghost use Rattle.outcome.specs.Views.{report_of};
ghost use Rattle.cert_types.specs.Composing.{AreRowsOf};
ghost use Rattle.facts_report.specs.WithFacts.{IsFoundWithFacts};

use guard_prep::{RuleRows, rows};
use its_model::Program;
use location_facts::{LocFact, facts, strengthen};
use model::Memory;
use outcome::Outcome;
use std::alloc::Global;

/// The analysis of a program with the facts at its locations.
#[derive(Debug, Drop)]
pub struct WithFacts {
    /// The facts that are kept, in order.
    pub kept: Vec<LocFact>,
    /// The outcome of the analysis of the program strengthened by them.
    pub outcome: Outcome,
}

/// Finds the facts that are kept at a program's locations, and analyses the program strengthened by them, where each
/// linear program may take this many pivots.
///
/// # Errors
///
/// `Memory` where an allocation fails, and where the number of a symbol has more than 32 bits.
pub fn analyse(alloc: Global, p: &Program, pivots: u32) -> Result<WithFacts, Memory>
    requires { IsValid (program_of p.now) }
    ensures found { IfOk result (λ w.
        IsFoundWithFacts (program_of p.now) pivots w.kept.items (report_of w.outcome)) }
    ensures printable { IfOk result (λ w. IsPrintableOutcome (length p.now.start_names.items) w.outcome) }
{
    let prepared_rules = all_rows(alloc, p)?;
    let found = facts(alloc, p, &prepared_rules, pivots)?;
    let stronger = strengthen(alloc, p, &found)?;
    let outcome = time_bounds::analyse(alloc, &stronger, pivots)?;
    Ok(WithFacts {
        kept: found.kept,
        outcome,
    })
}

// The rows of each rule, in order.
fn all_rows(alloc: Global, p: &Program) -> Result<Vec<RuleRows>, Memory>
    requires { IsValid (program_of p.now) }
    ensures { IfOk result (λ prepared_rules. AreRowsOf prepared_rules.items (program_of p.now)) }
{
    let mut prepared_rules = Vec::new(alloc);
    for rule in &p.rules {
        prepared_rules.push(rows(alloc, rule)?)?;
    }
    Ok(prepared_rules)
}
