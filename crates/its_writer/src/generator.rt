//! Generates the program with a given number.

ghost use Rattle.std.specs.Prelude.{◌≡◌, ◌≤◌, [], ◌∷◌, map, IfOk};
ghost use Rattle.its_text.specs.expr_text.text_core.Names.{name_of};
ghost use Rattle.its_text.specs.expr_text.its_model.Valid.{IsValid};
ghost use Rattle.its_text.specs.Spelling.{SpellsWithin};
ghost use Rattle.its_model.specs.poly_terms.Views.{term_of};
ghost use Rattle.its_model.specs.Views.{symbol_of, rule_of, program_of, atom_of};
ghost use Rattle.its_writer.specs.Texts.{canonical_text};
ghost use Rattle.its_writer.specs.Generated as plain;
ghost use Rattle.its_writer.specs.Generated.{generated, generated_rules};

use crate::bytes::write_number;
use its_model::{Atom, Name, Program, Rel, Rule, Symbol};
use poly_terms::{Expr, Memory};
use std::alloc::Global;

// The name of the location with this number.
fn location_name(alloc: Global, number: u32) -> Result<Name, Memory>
    ensures { IfOk result (λ name. name_of name ≡ (plain.location number).name) }
{
    let mut bytes = b"l".to_vec(alloc)?;
    write_number(&mut bytes, number)?;
    Ok(Name { bytes })
}

// The locations with the numbers below a count.
fn locations(alloc: Global, count: u32) -> Result<Vec<Symbol>, Memory>
    ensures { IfOk result (λ symbols. map symbol_of symbols.items ≡ plain.locations count) }
{
    let mut symbols = Vec::new(alloc);
    for number in 0..count {
        symbols.push(Symbol {
            name: location_name(alloc, number)?,
            arity: 2,
        })?;
    }
    Ok(symbols)
}

// The variables `A` and `B`.
fn two_names(alloc: Global) -> Result<Vec<Name>, Memory>
    ensures { IfOk result (λ names. map name_of names.items ≡ plain.two_names) }
{
    let mut names = Vec::new(alloc);
    names.push(Name {
        bytes: b"A".to_vec(alloc)?,
    })?;
    names.push(Name {
        bytes: b"B".to_vec(alloc)?,
    })?;
    Ok(names)
}

// Two expressions.
fn two_updates(alloc: Global, first: Expr, second: Expr) -> Result<Vec<Expr>, Memory>
    ensures { IfOk result (λ updates. map term_of updates.items ≡ term_of first ∷ term_of second ∷ []) }
{
    let mut updates = Vec::new(alloc);
    updates.push(first)?;
    updates.push(second)?;
    Ok(updates)
}

// The first rule.
fn entry_rule(alloc: Global) -> Result<Rule, Memory>
    ensures { IfOk result (λ r. rule_of r ≡ plain.entry_rule) }
{
    Ok(Rule {
        source: 0,
        target: 1,
        left: 2,
        free: 0,
        names: two_names(alloc)?,
        updates: two_updates(alloc, Expr::Var(0), Expr::Var(1))?,
        guard: Vec::new(alloc),
        cost: None,
    })
}

// The guard of the rule that counts down.
fn at_least_one(alloc: Global) -> Result<Vec<Atom>, Memory>
    ensures { IfOk result (λ guard. map atom_of guard.items ≡ (plain.counting_rule 1).guard) }
{
    let mut guard = Vec::new(alloc);
    guard.push(Atom::Compare {
        left: Expr::Var(0),
        rel: Rel::Ge,
        right: Expr::Num(1),
    })?;
    Ok(guard)
}

// The rule that counts down at a location.
fn counting_rule(alloc: Global, number: u32) -> Result<Rule, Memory>
    ensures { IfOk result (λ r. rule_of r ≡ plain.counting_rule number) }
{
    let one_less = Expr::Sub(
        Box::new(alloc, Expr::Var(0))?,
        Box::new(alloc, Expr::Num(1))?,
    );
    Ok(Rule {
        source: number,
        target: number,
        left: 2,
        free: 0,
        names: two_names(alloc)?,
        updates: two_updates(alloc, one_less, Expr::Var(1))?,
        guard: at_least_one(alloc)?,
        cost: None,
    })
}

// The rule that leads from a location to the next one.
fn leaving_rule(alloc: Global, number: u32) -> Result<Rule, Memory>
    requires { number ≤ 1000 }
    ensures { IfOk result (λ r. rule_of r ≡ plain.leaving_rule number) }
{
    Ok(Rule {
        source: number,
        target: number + 1,
        left: 2,
        free: 0,
        names: two_names(alloc)?,
        updates: two_updates(alloc, Expr::Var(1), Expr::Var(1))?,
        guard: Vec::new(alloc),
        cost: None,
    })
}

// The first rule, and two rules for each number from 1 to n.
fn rules(alloc: Global, n: u32) -> Result<Vec<Rule>, Memory>
    requires { n ≤ 1000 }
    ensures { IfOk result (λ rules. map rule_of rules.items ≡ generated_rules n) }
{
    let mut rules = Vec::new(alloc);
    rules.push(entry_rule(alloc)?)?;
    for before in 0..n {
        rules.push(counting_rule(alloc, before + 1)?)?;
        rules.push(leaving_rule(alloc, before + 1)?)?;
    }
    Ok(rules)
}

/// The generated program of a number: over `A` and `B`, with a chain of n loops after the start symbol `l0`, each of
/// which counts `A` down. Its printed text spells it within the limits.
///
/// # Errors
///
/// `Memory` if an allocation fails.
pub fn generate(alloc: Global, n: u32) -> Result<Program, Memory>
    requires { n ≤ 100 }
    ensures program { IfOk result (λ p. program_of p ≡ generated n) }
    ensures spelled { IfOk result (λ p. SpellsWithin (canonical_text (program_of p)) (program_of p)) }
    ensures valid { IfOk result (λ p. IsValid (program_of p)) }
{
    Ok(Program {
        symbols: locations(alloc, n + 2)?,
        start: 0,
        start_names: two_names(alloc)?,
        rules: rules(alloc, n)?,
    })
}
