//! The analysis of a program.

ghost use Rattle.its_model.specs.Valid.{IsValid};
ghost use Rattle.its_model.specs.Views.{program_of};

use its_model::Program;
use model::Memory;
use outcome::{CostEntry, Outcome};
use std::alloc::Global;
use time_bounds::analyse;

/// The result of the analysis with this many pivots: the times, the sizes, the total, the costs and the total, or how
/// many lemmas and gaps there are.
pub(crate) fn analysis_text(
    alloc: Global,
    p: &Program,
    call: &str,
    pivots: u32,
) -> Result<String, Memory>
    requires { IsValid (program_of p.now) }
{
    let outcome = analyse(alloc, p, pivots)?;
    match call {
        "times" => format!(in alloc; "{:?}", outcome.times),
        "sizes" => format!(in alloc; "{:?}", outcome.sizes),
        "total" => format!(in alloc; "{:?}", outcome.total),
        "costs" => costs_text(alloc, &outcome),
        _ => format!(in alloc;
            "{} lemmas, {} gaps",
            outcome.lemmas.len(),
            outcome.gaps.len()
        ),
    }
}

// The costs of all rules and the total.
fn costs_text(alloc: Global, outcome: &Outcome) -> Result<String, Memory> {
    let mut text = String::new(alloc);
    for cost in &outcome.costs {
        text.push_str(&cost_text(alloc, cost.as_ref())?)?;
        text.push_str(", ")?;
    }
    match &outcome.total {
        Some(total) => text.push_str(&format!(in alloc; "total {total:?}")?)?,
        None => text.push_str("no total")?,
    }
    Ok(text)
}

// The cost of a rule.
fn cost_text(alloc: Global, cost: Option<&CostEntry>) -> Result<String, Memory> {
    match cost {
        None => String::from_str(alloc, "no cost"),
        Some(CostEntry::Known(stored)) => {
            let (bound, lemma) = (&stored.bound, stored.lemma);
            format!(in alloc; "{bound:?} by {lemma}")
        }
        Some(CostEntry::UnboundedSide(side)) => format!(in alloc; "{side:?}"),
        Some(entry) => format!(in alloc; "{entry:?}"),
    }
}
