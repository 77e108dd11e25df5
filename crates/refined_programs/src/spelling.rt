//! The program that a section spells.

ghost use Rattle.std.specs.Prelude.{◌≡◌, ◌++◌, map, IfOk, OnOk, option_map};
ghost use Rattle.refinement.specs.model.Programs.{rule_at as rule_numbered, arity_of as arity_in_program};
ghost use Rattle.refinement.specs.Sections.{passes as atom_passes, facts_of, symbol_by, rule_along as along, copies_by};
ghost use Rattle.refinement.specs.Sections.{rule_copies, spelled};
ghost use Rattle.its_model.specs.Views.{name_of, symbol_of, atom_of, rule_of, program_of};
ghost use Rattle.refined_programs.specs.Ends.{ends as ends_of, end_of, paths_of, path_of, goal_of};
ghost use Rattle.refined_programs.specs.Views.{copy_of, branch_of, section_of, annotated_cases};

use crate::ends::{End, Goal, passes, push_ends};
use crate::section::{Branch, Section, SymbolCopy};
use its_model::{Atom, Program, Rule, Symbol};
use poly_terms::Memory;
use program_copies::{copied_atoms, copied_name, copied_names, copied_rule};
use std::alloc::Global;

/// The program that a section spells over a program: a symbol for each copy, with the places of the symbol below, the
/// first copy as the start, and for each branch in order, and each of its paths to a copy in order, a rule: that of the
/// branch, with the facts of its source and the atoms along the path added to its guard.
///
/// # Errors
///
/// `Memory` where an allocation fails, and where a form has 2^32 coefficients or more.
pub fn spell(alloc: Global, p: &Program, section: &Section) -> Result<Program, Memory>
    ensures { IfOk result (λ q. program_of q ≡ spelled (program_of p.now) (section_of section.now)) }
{
    let symbols = symbols_of(alloc, p, &section.copies)?;
    let start_names = copied_names(alloc, &p.start_names)?;
    let rules = rules_of(alloc, p, section)?;
    Ok(Program {
        symbols,
        start: 0,
        start_names,
        rules,
    })
}

// The symbols that copies become.
fn symbols_of(alloc: Global, p: &Program, copies: &[SymbolCopy]) -> Result<Vec<Symbol>, Memory>
    ensures { IfOk result
        (λ symbols. map symbol_of symbols.items ≡ map (symbol_by (program_of p.now)) (map copy_of copies.now)) }
{
    let mut symbols = Vec::new(alloc);
    for copy in copies {
        let name = copied_name(alloc, &copy.name)?;
        let arity = arity_of(p, copy.over);
        symbols.push(Symbol { name, arity })?;
    }
    Ok(symbols)
}

/// The number of places of a symbol, 0 if there is none.
pub fn arity_of(p: &Program, symbol: u32) -> u32
    ensures { result ≡ arity_in_program (program_of p.now) symbol }
{
    match p.symbols.get(symbol as usize) {
        Some(s) => s.arity,
        None => 0,
    }
}

// The rules of all branches, in order.
fn rules_of(alloc: Global, p: &Program, section: &Section) -> Result<Vec<Rule>, Memory>
    ensures { IfOk result (λ rules. map rule_of rules.items
        ≡ map (λ c. c.rule) (rule_copies (program_of p.now) (section_of section.now) (section_of section.now).branches)) }
{
    let mut rules = Vec::new(alloc);
    for branch in &section.branches {
        push_branch(alloc, &mut rules, p, section, branch)?;
    }
    Ok(rules)
}

// Appends the rules of a branch.
fn push_branch(
    alloc: Global,
    rules: &mut Vec<Rule>,
    p: &Program,
    section: &Section,
    branch: &Branch,
) -> Result<(), Memory>
    ensures { OnOk result (map rule_of rules.new.items ≡ map rule_of rules.old.items
        ++ map (λ c. c.rule) (copies_by (program_of p.now) (section_of section.now) (branch_of branch.now))) }
{
    match rule_at(p, branch.rule) {
        None => Ok(()),
        Some(rule) => {
            let ends = branch_ends(alloc, section, branch)?;
            push_rules(alloc, rules, branch.source, rule, &ends)
        }
    }
}

/// The rule with a number, from 1 on, if there is one.
pub fn rule_at(p: &Program, number: u32) -> Option<&Rule>
    ensures { option_map (λ r. rule_of r.now) result ≡ rule_numbered (program_of p.now) number }
{
    if number == 0 {
        None
    } else {
        p.rules.get(number as usize - 1)
    }
}

/// The ends of a branch, in order, after the facts of its source.
///
/// # Errors
///
/// `Memory` where an allocation fails, and where a form has 2^32 coefficients or more.
pub fn branch_ends(alloc: Global, section: &Section, branch: &Branch) -> Result<Vec<End>, Memory>
    ensures { IfOk result (λ found. map end_of found.items
        ≡ ends_of (map atom_passes (facts_of (section_of section.now) branch.now.source))
        (annotated_cases branch.now.cases)) }
{
    let atoms = fact_atoms(alloc, section, branch.source)?;
    let mut ends = Vec::new(alloc);
    push_ends(alloc, &mut ends, atoms, &branch.cases)?;
    Ok(ends)
}

// The facts of a copy as atoms, none if there is no copy.
fn fact_atoms(alloc: Global, section: &Section, copy: u32) -> Result<Vec<Atom>, Memory>
    ensures { IfOk result
        (λ atoms. map atom_of atoms.items ≡ map atom_passes (facts_of (section_of section.now) copy)) }
{
    match section.copies.get(copy as usize) {
        None => Ok(Vec::new(alloc)),
        Some(c) => atoms_of(alloc, c),
    }
}

// The facts of a copy as atoms.
fn atoms_of(alloc: Global, copy: &SymbolCopy) -> Result<Vec<Atom>, Memory>
    ensures { IfOk result (λ atoms. map atom_of atoms.items ≡ map atom_passes (copy_of copy.now).facts) }
{
    let mut atoms = Vec::new(alloc);
    for fact in &copy.facts {
        atoms.push(passes(alloc, fact)?)?;
    }
    Ok(atoms)
}

// Appends the rules of the ends that are at copies.
fn push_rules(
    alloc: Global,
    rules: &mut Vec<Rule>,
    source: u32,
    rule: &Rule,
    ends: &[End],
) -> Result<(), Memory>
    ensures { OnOk result (map rule_of rules.new.items ≡ map rule_of rules.old.items
        ++ map (along source (rule_of rule.now)) (paths_of (map end_of ends.now))) }
{
    for end in ends {
        push_rule(alloc, rules, source, rule, end)?;
    }
    Ok(())
}

// Appends the rule of an end, if it is at a copy.
fn push_rule(
    alloc: Global,
    rules: &mut Vec<Rule>,
    source: u32,
    rule: &Rule,
    end: &End,
) -> Result<(), Memory>
    ensures { OnOk result (map rule_of rules.new.items ≡ map rule_of rules.old.items
        ++ map (along source (rule_of rule.now)) (path_of (map atom_of end.now.atoms.items) (goal_of end.now.goal))) }
{
    match &end.goal {
        Goal::Nowhere { by: _ } => Ok(()),
        Goal::Copy { copy, by: _ } => {
            let mut made = rule_along(alloc, rule, &end.atoms)?;
            made.source = source;
            made.target = *copy;
            rules.push(made)?;
            Ok(())
        }
    }
}

/// The rule with the guard along a path: its own, and then these atoms.
///
/// # Errors
///
/// `Memory` where an allocation fails.
pub fn rule_along(alloc: Global, rule: &Rule, atoms: &[Atom]) -> Result<Rule, Memory>
    ensures { IfOk result (λ made. rule_of made
        ≡ record (rule_of rule.now) { guard = (rule_of rule.now).guard ++ map atom_of atoms.now }) }
{
    let mut made = copied_rule(alloc, rule)?;
    let mut more = copied_atoms(alloc, atoms)?;
    made.guard.append(&mut more)?;
    Ok(made)
}
