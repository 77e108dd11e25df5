//! Strengthens programs: adds the facts at the source of each rule to its guard.

ghost use Rattle.std.specs.Prelude.{◌≡◌, ◌++◌, ◌&&◌, ◌↔◌, nat_eq, if◌then◌else◌, map, IfOk, Option, None, Some};
ghost use Rattle.std.specs.Prelude.{List, ℤ};
ghost use Rattle.std.specs.List.{range_with_len};
ghost use Rattle.poly_terms.specs.Views.{term_of};
ghost use Rattle.poly_terms.specs.model.Runs.{Config as PlainConfig, Step as PlainStep, IsRun};
ghost use Rattle.its_model.specs.Valid.{IsValid};
ghost use Rattle.its_model.specs.Views.{atom_of, rule_of, program_of};
ghost use Rattle.location_facts.specs.Laws.{AreHeld};
ghost use Rattle.location_facts.specs.Rows.{facts_at as facts_of_symbol};
ghost use Rattle.location_facts.specs.Strengthening.{difference_term, fact_atom as atom_of_fact, greater as greater_of};
ghost use Rattle.location_facts.specs.Strengthening.{greatest_least as greatest_of, atom_by, atoms_with_plus};
ghost use Rattle.location_facts.specs.Strengthening.{strongest_atoms as atoms_of_facts, room_for as room_of};
ghost use Rattle.location_facts.specs.Strengthening.{strengthened_rule as rule_with_facts, strengthened};

use crate::copies::{copied_atoms, copied_cost, copied_exprs, copied_names, copied_symbols};
use crate::fact::{LocFact, LocFacts};
use its_model::{Atom, Program, Rel, Rule};
use model::ATOM_LIMIT;
use poly_terms::{Expr, Memory};
use std::alloc::Global;

/// The strengthened program. The guard of each rule is followed by atoms: for each plus and minus with kept facts at
/// the rule's source, that of the strongest of these facts, in order, as long as there are at most 64 atoms; a cost
/// counts as one. The kept facts must be candidates that hold on every run; so the program has the same runs, and each
/// of its bounds holds for the program itself (`strengthening_changes_no_run`).
///
/// # Errors
///
/// `Memory` if an allocation fails.
pub fn strengthen(alloc: Global, p: &Program, f: &LocFacts) -> Result<Program, Memory>
    requires valid { IsValid (program_of p.now) }
    requires held { AreHeld (program_of p.now) f.now.kept.items }
    ensures exact { IfOk result (λ q. program_of q ≡ strengthened f.now.kept.items (program_of p.now)) }
    ensures still_valid { IfOk result (λ q. IsValid (program_of q)) }
    ensures same_runs { IfOk result (λ q. (start : List ℤ) (steps : List PlainStep) (c : PlainConfig)
        → IsRun (program_of p.now) start steps c ↔ IsRun (program_of q) start steps c) }
{
    strengthened_program(alloc, p, &f.kept)
}

// The strengthened program, for any facts.
fn strengthened_program(alloc: Global, p: &Program, kept: &[LocFact]) -> Result<Program, Memory>
    ensures { IfOk result (λ q. program_of q ≡ strengthened kept.now (program_of p.now)) }
{
    Ok(Program {
        symbols: copied_symbols(alloc, &p.symbols)?,
        start: p.start,
        start_names: copied_names(alloc, &p.start_names)?,
        rules: strengthened_rules(alloc, &p.rules, kept)?,
    })
}

// Rules with the atoms of facts appended.
fn strengthened_rules(alloc: Global, rules: &[Rule], kept: &[LocFact]) -> Result<Vec<Rule>, Memory>
    ensures { IfOk result (λ rs. map rule_of rs.items ≡ map (rule_with_facts kept.now) (map rule_of rules.now)) }
{
    let mut made = Vec::new(alloc);
    for rule in rules {
        made.push(strengthened_rule(alloc, rule, kept)?)?;
    }
    Ok(made)
}

// A rule with the atoms of facts appended.
fn strengthened_rule(alloc: Global, rule: &Rule, kept: &[LocFact]) -> Result<Rule, Memory>
    ensures { IfOk result (λ r. rule_of r ≡ rule_with_facts kept.now (rule_of rule.now)) }
{
    let guard = strengthened_guard(alloc, rule, kept)?;
    Ok(Rule {
        source: rule.source,
        target: rule.target,
        left: rule.left,
        free: rule.free,
        names: copied_names(alloc, &rule.names)?,
        updates: copied_exprs(alloc, &rule.updates)?,
        guard,
        cost: copied_cost(alloc, &rule.cost)?,
    })
}

// The atoms of a rule, followed by those of the facts at its source.
fn strengthened_guard(alloc: Global, rule: &Rule, kept: &[LocFact]) -> Result<Vec<Atom>, Memory>
    ensures { IfOk result (λ guard. map atom_of guard.items ≡ (rule_with_facts kept.now (rule_of rule.now)).guard) }
{
    let facts = facts_at(alloc, rule.source, kept)?;
    let mut added = strongest_atoms(alloc, &facts)?;
    added.truncate(room_for(rule));
    let mut guard = copied_atoms(alloc, &rule.guard)?;
    guard.append(&mut added)?;
    Ok(guard)
}

// How many more atoms a rule can have.
fn room_for(rule: &Rule) -> usize
    ensures { result ≡ room_of (rule_of rule.now) }
{
    let limit = match rule.cost {
        None => ATOM_LIMIT,
        Some(_) => ATOM_LIMIT - 1,
    };
    limit.saturating_sub(rule.guard.len())
}

/// The facts of a symbol, in order.
///
/// # Errors
///
/// `Memory` if an allocation fails.
pub fn facts_at(alloc: Global, symbol: u32, kept: &[LocFact]) -> Result<Vec<LocFact>, Memory>
    ensures { IfOk result (λ facts. facts.items ≡ facts_of_symbol symbol kept.now) }
{
    let mut found = Vec::new(alloc);
    for fact in kept {
        if fact.symbol == symbol {
            found.push(*fact)?;
        }
    }
    Ok(found)
}

// For each plus and minus with facts, the atom with the greatest `least`, in order.
fn strongest_atoms(alloc: Global, facts: &[LocFact]) -> Result<Vec<Atom>, Memory>
    ensures { IfOk result (λ atoms. map atom_of atoms.items ≡ atoms_of_facts facts.now) }
{
    let mut atoms = Vec::new(alloc);
    for plus in 0..9 {
        push_with_plus(alloc, &mut atoms, facts, plus)?;
    }
    Ok(atoms)
}

// Appends the atoms with this plus.
fn push_with_plus(
    alloc: Global,
    atoms: &mut Vec<Atom>,
    facts: &[LocFact],
    plus: u32,
) -> Result<(), Memory>
    ensures { IfOk result (λ _. map atom_of atoms.new.items
        ≡ map atom_of atoms.old.items ++ atoms_with_plus facts.now plus (range_with_len 0 9)) }
{
    for minus in 0..9 {
        push_atom(
            alloc,
            atoms,
            plus,
            minus,
            greatest_least(facts, plus, minus),
        )?;
    }
    Ok(())
}

// Appends the atom of two places, if they have a `least`.
fn push_atom(
    alloc: Global,
    atoms: &mut Vec<Atom>,
    plus: u32,
    minus: u32,
    found: Option<i64>,
) -> Result<(), Memory>
    ensures { IfOk result (λ _. map atom_of atoms.new.items
        ≡ map atom_of atoms.old.items ++ atom_by plus minus found) }
{
    match found {
        None => Ok(()),
        Some(least) => {
            atoms.push(fact_atom(alloc, plus, minus, least)?)?;
            Ok(())
        }
    }
}

// The atom that says that the value at one place less that at another is at least a number.
fn fact_atom(alloc: Global, plus: u32, minus: u32, least: i64) -> Result<Atom, Memory>
    ensures { IfOk result (λ atom. atom_of atom ≡ atom_of_fact plus minus least) }
{
    let left = difference(alloc, plus, minus)?;
    Ok(Atom::Compare {
        left,
        rel: Rel::Ge,
        right: Expr::Num(i128::from(least)),
    })
}

// The value at one place less that at another, over the left variables of a rule.
#[tactic(auto, using(crate::proofs::AtomLists::plus_alone, crate::proofs::AtomLists::both_places))]
fn difference(alloc: Global, plus: u32, minus: u32) -> Result<Expr, Memory>
    ensures { IfOk result (λ e. term_of e ≡ difference_term plus minus) }
{
    if plus == 0 {
        return negation(alloc, minus);
    }
    if minus == 0 {
        return Ok(Expr::Var(plus - 1));
    }
    let left = Box::new(alloc, Expr::Var(plus - 1))?;
    let right = Box::new(alloc, Expr::Var(minus - 1))?;
    Ok(Expr::Sub(left, right))
}

// The negation of the value at a place.
#[tactic(auto, using(crate::proofs::AtomLists::no_places, crate::proofs::AtomLists::minus_alone))]
fn negation(alloc: Global, minus: u32) -> Result<Expr, Memory>
    ensures { IfOk result (λ e. term_of e ≡ difference_term 0 minus) }
{
    if minus == 0 {
        return Ok(Expr::Num(0));
    }
    Ok(Expr::Neg(Box::new(alloc, Expr::Var(minus - 1))?))
}

/// The greatest `least` of the facts with these places, if there is one.
pub fn greatest_least(facts: &[LocFact], plus: u32, minus: u32) -> Option<i64>
    ensures { result ≡ greatest_of plus minus None facts.now }
{
    let mut best = None;
    for fact in facts {
        best = better(*fact, plus, minus, best);
    }
    best
}

// The best number so far, or the `least` of a fact with these places if that is greater.
fn better(fact: LocFact, plus: u32, minus: u32, best: Option<i64>) -> Option<i64>
    ensures { result ≡ (if nat_eq fact.plus plus && nat_eq fact.minus minus
        then Some (greater_of fact.least best) else best) }
{
    if fact.plus == plus && fact.minus == minus {
        Some(greater(fact.least, best))
    } else {
        best
    }
}

// The greater of a number and an optional one.
fn greater(least: i64, best: Option<i64>) -> i64
    ensures { result ≡ greater_of least best }
{
    match best {
        None => least,
        Some(other) => { if least < other { other } else { least } }
    }
}
