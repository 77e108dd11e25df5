//! The section that location facts make.

ghost use Rattle.std.specs.Prelude.{◌≡◌, ◌+◌, ◌++◌, ◌∷◌, [], IfOk, length, map, slice_index_or};
ghost use Rattle.its_model.specs.Views.{program_of, rule_of};
ghost use Rattle.refined_programs.specs.Views.{annotated_of, copy_of as plain_copy, section_of};
ghost use Rattle.facts_section.specs.Copies.{IsSectionOfFacts};
ghost use Rattle.facts_section.specs.Counted.{HasFactsShape, counted_at, counted_branch, counted_branches, needed_counts};
ghost use Rattle.facts_section.specs.Lists.{counted_of, needed_count};
ghost use Rattle.facts_section.specs.Needed.{needed_facts};

use crate::copies::{all_copies, copy_number, rule_number, to_u32};
use crate::multipliers::multipliers_of_proof;
use crate::shares::{NeededFact, SymbolFacts, symbol_facts};
use guard_prep::RuleRows;
use its_model::{Program, Rule};
use location_facts::{FactProof, LocFact, LocFacts};
use poly_terms::Memory;
use refined_programs::{Branch, Cases, Multipliers, Section, SymbolCopy};
use std::alloc::Global;

/// The section in which each symbol has one copy, with the facts of it that are needed, and each rule leads to the copy
/// of its target; the prepared rows are those of the rules, in order. The certificates of the facts become its
/// multipliers: a branch has a list of them for each fact of the copy that it leads to. Whether the section is accepted
/// has to be checked.
///
/// # Errors
///
/// `Memory` where an allocation fails, where there are 2^32 symbols or rules or more, and where a fact's least is -2^63.
pub fn facts_section(
    alloc: Global,
    p: &Program,
    prepared_rules: &[RuleRows],
    f: &LocFacts,
) -> Result<Section, Memory>
    ensures of_facts { IfOk result
        (λ section. IsSectionOfFacts (program_of p.now) f.now.kept.items (section_of section)) }
    ensures shape { IfOk result
        (λ section. HasFactsShape (program_of p.now) f.now.kept.items (annotated_of section)) }
{
    let copies = all_copies(alloc, p, &f.kept)?;
    let symbols = facts_by_symbol(alloc, p, &f.kept)?;
    let earlier_into_target = earlier_into_targets(alloc, p)?;
    let certified = Certified {
        prepared_rules,
        proofs: &f.proofs,
        symbols: &symbols,
        earlier_into_target: &earlier_into_target,
    };
    let branches = all_branches(alloc, p, certified, &copies)?;
    Ok(Section { copies, branches })
}

// The facts of each symbol, in order.
fn facts_by_symbol(alloc: Global, p: &Program, kept: &[LocFact]) -> Result<Vec<SymbolFacts>, Memory>
    ensures { IfOk result (λ symbols. map needed_count symbols.items ≡ needed_counts (program_of p.now) kept.now) }
{
    let mut symbols = Vec::new(alloc);
    for symbol in 0..to_u32(p.symbols.len())? {
        push_facts(alloc, &mut symbols, p, symbol, kept)?;
    }
    Ok(symbols)
}

// Appends the facts of a symbol.
fn push_facts(
    alloc: Global,
    symbols: &mut Vec<SymbolFacts>,
    p: &Program,
    symbol: u32,
    kept: &[LocFact],
) -> Result<(), Memory>
    ensures { IfOk result (λ _. map needed_count symbols.new.items
        ≡ map needed_count symbols.old.items ++ length (needed_facts (program_of p.now) kept.now symbol) ∷ []) }
{
    symbols.push(symbol_facts(alloc, p, symbol, kept)?)?;
    Ok(())
}

// For each rule, how many rules before it lead to its target.
fn earlier_into_targets(alloc: Global, p: &Program) -> Result<Vec<usize>, Memory> {
    let mut counts = vec![in alloc; 0usize; p.symbols.len()]?;
    let mut earlier = Vec::new(alloc);
    for rule in &p.rules {
        let target = rule.target as usize;
        if target < counts.len() {
            earlier.push(counts[target])?;
            counts[target] = counts[target].saturating_add(1);
        } else {
            earlier.push(0)?;
        }
    }
    Ok(earlier)
}

// The rows of a program's rules, and the facts of its symbols with their certificates.
#[derive(Clone, Copy)]
struct Certified<'a> {
    prepared_rules: &'a [RuleRows],
    proofs: &'a [Vec<FactProof>],
    symbols: &'a [SymbolFacts],
    // For each rule, how many rules before it lead to its target.
    earlier_into_target: &'a [usize],
}

// The branches at all copies, in order.
fn all_branches(
    alloc: Global,
    p: &Program,
    certified: Certified<'_>,
    copies: &[SymbolCopy],
) -> Result<Vec<Branch>, Memory>
    ensures { IfOk result (λ branches. map counted_of branches.items
        ≡ counted_branches (program_of p.now) (map needed_count certified.entry.symbols.now)
        (map plain_copy copies.now)) }
{
    let mut branches = Vec::new(alloc);
    for copy in copies {
        push_branches(alloc, &mut branches, p, certified, copy.over)?;
    }
    Ok(branches)
}

// Appends the branches of the rules that leave a symbol.
fn push_branches(
    alloc: Global,
    branches: &mut Vec<Branch>,
    p: &Program,
    certified: Certified<'_>,
    symbol: u32,
) -> Result<(), Memory>
    ensures { IfOk result (λ _. map counted_of branches.new.items ≡ map counted_of branches.old.items
        ++ counted_at (program_of p.now) (map needed_count certified.entry.symbols.now) symbol 1
        (map rule_of p.now.rules.items)) }
{
    for (i, rule) in p.rules.iter().enumerate() {
        if rule.source == symbol {
            branches.push(branch(alloc, p, certified, i, rule)?)?;
        }
    }
    Ok(())
}

// The branch of the rule at a position.
fn branch(
    alloc: Global,
    p: &Program,
    certified: Certified<'_>,
    position: usize,
    rule: &Rule,
) -> Result<Branch, Memory>
    ensures { IfOk result (λ b. counted_of b
        ≡ counted_branch (program_of p.now) (map needed_count certified.entry.symbols.now) (position + 1)
        (rule_of rule.now)) }
{
    let cases = Cases::To {
        copy: copy_number(p, rule.target),
        by: multiplier_lists(alloc, certified, position, rule)?,
    };
    Ok(Branch {
        source: copy_number(p, rule.source),
        rule: rule_number(position)?,
        cases,
    })
}

// The multipliers for each needed fact of the rule's target.
#[tactic(auto, using(crate::proofs::CountedLists::count_there, crate::proofs::CountedLists::count_missing))]
fn multiplier_lists(
    alloc: Global,
    certified: Certified<'_>,
    position: usize,
    rule: &Rule,
) -> Result<Vec<Multipliers>, Memory>
    ensures { IfOk result (λ found. length found.items
        ≡ slice_index_or (map needed_count certified.entry.symbols.now) rule.now.target 0) }
{
    match certified.symbols.get(rule.target as usize) {
        Some(target) => lists_for_facts(alloc, certified, position, rule.source, &target.needed),
        None => Ok(Vec::new(alloc)),
    }
}

// The multipliers of the rule at a position that leaves a symbol, for each of these facts.
fn lists_for_facts(
    alloc: Global,
    certified: Certified<'_>,
    position: usize,
    source: u32,
    facts: &[NeededFact],
) -> Result<Vec<Multipliers>, Memory>
    ensures { IfOk result (λ found. length found.items ≡ length facts.now) }
{
    let mut found = Vec::new(alloc);
    for fact in facts {
        found.push(multipliers_for(alloc, certified, position, source, fact)?)?;
    }
    Ok(found)
}

// The multipliers of the rule at a position that leaves a symbol, for a fact; none where its certificate is missing.
fn multipliers_for(
    alloc: Global,
    certified: Certified<'_>,
    position: usize,
    source: u32,
    needed: &NeededFact,
) -> Result<Multipliers, Memory> {
    let none = Multipliers {
        numbers: Vec::new(alloc),
    };
    let Some(rows) = certified.prepared_rules.get(position) else {
        return Ok(none);
    };
    let Some(source_facts) = certified.symbols.get(source as usize) else {
        return Ok(none);
    };
    match proof_of(certified, needed.position, position) {
        Some(proof) => multipliers_of_proof(alloc, rows, source_facts, &needed.fact, proof),
        None => Ok(none),
    }
}

// The certificate of the fact at a position for the rule at a position that leads to its symbol.
fn proof_of<'a>(certified: Certified<'a>, fact: usize, rule: usize) -> Option<&'a FactProof> {
    let proofs = certified.proofs.get(fact)?;
    proofs.get(*certified.earlier_into_target.get(rule)?)
}
