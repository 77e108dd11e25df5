//! The entries of a set of rules.

ghost use Rattle.std.specs.Prelude.{◌≡◌, ℕ, ◌<◌, ◌-◌, ◌^◌, ◌||◌, List, length, IfOk, OnOk, Some};
ghost use Rattle.std.specs.BTreeSet.{contains};
ghost use Rattle.std.specs.Ordering.{nat_cmp};
ghost use Rattle.poly_terms.specs.model.Programs.{Program as PlainProgram};
ghost use Rattle.poly_terms.specs.model.Paths.{source_of as source_of_rule, target_of as target_of_rule, same_symbol};
ghost use Rattle.its_model.specs.Views.{program_of};
ghost use Rattle.poly_terms.specs.model.Entries.{enters as enters_set, entries as entries_of, is_left_by};
ghost use Rattle.cert_types.specs.NumberSets.{HasJust, HasSources};

use bound_expr::Memory;
use its_model::Program;
use std::alloc::Global;
use std::collections::BTreeSet;

/// The symbol that a rule comes from, where there is such a rule; the virtual entry comes from none.
#[tactic(auto, using(crate::proofs::Rules::source_found, crate::proofs::Rules::source_none))]
pub fn source_of(p: &Program, rule: u32) -> Option<u32>
    ensures { result ≡ source_of_rule (program_of p.now) rule }
{
    if rule == 0 || rule as usize > p.rules.len() {
        return None;
    }
    let r = &p.rules[rule as usize - 1];
    Some(r.source)
}

/// The symbol that a rule leads to, where there is such a rule; the virtual entry leads to the start symbol.
#[tactic(auto, using(crate::proofs::Rules::target_found, crate::proofs::Rules::target_start, crate::proofs::Rules::target_none))]
pub fn target_of(p: &Program, rule: u32) -> Option<u32>
    ensures { result ≡ target_of_rule (program_of p.now) rule }
{
    if rule == 0 {
        return Some(p.start);
    }
    if rule as usize > p.rules.len() {
        return None;
    }
    let r = &p.rules[rule as usize - 1];
    Some(r.target)
}

// The numbers of a list, as a set.
fn set_of(alloc: Global, numbers: &[u32]) -> Result<BTreeSet<u32>, Memory>
    ensures { IfOk result (λ set. HasJust set numbers.now) }
{
    let mut set = BTreeSet::new(alloc);
    for number in numbers {
        set.insert(*number)?;
    }
    Ok(set)
}

// The symbols that the rules of a set leave.
fn sources_of(alloc: Global, p: &Program, set: &[u32]) -> Result<BTreeSet<u32>, Memory>
    ensures { IfOk result (λ sources. HasSources (program_of p.now) sources set.now) }
{
    let mut sources = BTreeSet::new(alloc);
    for rule in set {
        insert_source(&mut sources, source_of(p, *rule))?;
    }
    Ok(sources)
}

// Adds a symbol to a set, where there is one.
fn insert_source(sources: &mut BTreeSet<u32>, source: Option<u32>) -> Result<(), Memory>
    ensures { OnOk result ((a : ℕ) → contains nat_cmp sources.new a
        ≡ (contains nat_cmp sources.old a || same_symbol (Some a) source)) }
{
    if let Some(symbol) = source {
        sources.insert(symbol)?;
    }
    Ok(())
}

// Whether a rule of a set with these source symbols leaves the symbol.
fn is_left(sources: &BTreeSet<u32>, symbol: Option<u32>) -> bool
    ensures { (p : PlainProgram) (set : List ℕ) → HasSources p sources.now set → result ≡ is_left_by p set symbol }
{
    match symbol {
        Some(number) => sources.contains(&number),
        None => false,
    }
}

// Whether a rule is an entry of the set of these rules, which have these sources.
fn enters(p: &Program, members: &BTreeSet<u32>, sources: &BTreeSet<u32>, rule: u32) -> bool
    ensures { (set : List ℕ) → HasJust members.now set → HasSources (program_of p.now) sources.now set
        → result ≡ enters_set (program_of p.now) set rule }
{
    !members.contains(&rule) && is_left(sources, target_of(p, rule))
}

/// The entries of a set of rules, ascending: the rules outside it, and the virtual entry, 0, that lead to where a rule
/// of the set comes from. The time is near-linear in the rules.
///
/// # Errors
///
/// `Memory` where an allocation fails.
#[tactic(auto, using(crate::proofs::Rules::entry_pushed, crate::proofs::Rules::entry_passed, crate::proofs::Rules::entries_whole))]
pub fn entries(alloc: Global, p: &Program, set: &[u32]) -> Result<Vec<u32>, Memory>
    requires { length p.now.rules.items < 2 ^ 32 - 1 }
    ensures { IfOk result (λ es. es.items ≡ entries_of (program_of p.now) set.now) }
{
    let members = set_of(alloc, set)?;
    let sources = sources_of(alloc, p, set)?;
    let mut found = Vec::new(alloc);
    for rule in 0..p.rules.len() as u32 + 1 {
        let is_entry = enters(p, &members, &sources, rule);
        if is_entry {
            found.push(rule)?;
        }
    }
    Ok(found)
}
