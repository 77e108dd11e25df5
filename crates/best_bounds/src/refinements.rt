//! The refined programs over which searches look for bounds.

ghost use Rattle.its_model.specs.Valid.{IsValid};
ghost use Rattle.its_model.specs.Views.{program_of};

use crate::candidates::rows_of_rules;
use fact_makers::{section_by_symbol, section_with_facts};
use found_claims::rules_in;
use its_model::Program;
use poly_terms::Memory;
use refined_programs::Section;
use section_makers::{section_by_guards, section_by_last_rule};
use std::alloc::Global;

/// How a program is refined before a search.
#[derive(Clone, Copy, Debug, PartialEq, Eq)]
pub(crate) enum Refinement {
    /// Not at all.
    Itself,
    /// One copy of each symbol, with facts.
    Facts,
    /// A copy for each way in which the guards that leave a symbol can hold, with facts.
    Guards,
    /// A copy for each rule that leads to a symbol, with facts.
    LastRule,
}

/// The most rules of a split program that is searched.
const RULE_LIMIT: usize = 300;

/// How many times as many rules it may have as the program.
const SPLIT_LIMIT: usize = 8;

/// A program over which a search looks for bounds.
#[derive(Drop)]
pub(crate) enum Refined {
    /// The program itself.
    Itself,
    /// The one that a section spells.
    By(Section),
    /// One that is so large that it isn't searched.
    TooLarge,
}

/// The refined program of a kind. Copies that are split are too large where they have more than 300 rules, or more than
/// eight times as many as the program.
///
/// # Errors
///
/// `Memory` where an allocation fails.
pub(crate) fn refine(alloc: Global, p: &Program, kind: Refinement) -> Result<Refined, Memory>
    requires { IsValid (program_of p.now) }
{
    let rows = rows_of_rules(alloc, p)?;
    let section = match kind {
        Refinement::Itself => return Ok(Refined::Itself),
        Refinement::Facts => section_by_symbol(alloc, p)?,
        Refinement::Guards => section_by_guards(alloc, p, &rows)?,
        Refinement::LastRule => section_by_last_rule(alloc, p)?,
    };
    if kind != Refinement::Facts && is_too_large(p, &section) {
        return Ok(Refined::TooLarge);
    }
    Ok(Refined::By(section_with_facts(alloc, p, &rows, section)?))
}

// Whether a split program has too many rules.
fn is_too_large(p: &Program, section: &Section) -> bool {
    let rules = rules_in(section) as usize;
    rules > RULE_LIMIT || rules > p.rules.len().saturating_mul(SPLIT_LIMIT)
}
