//! Leaves out the atoms of guards that have large numbers.

ghost use Rattle.std.specs.Prelude.{◌≡◌, ◌++◌, ◌&&◌, map, filter, IfOk, OnOk, if◌then◌else◌, ◌∷◌, []};
ghost use Rattle.poly_terms.specs.Views.{term_of};
ghost use Rattle.its_model.specs.Views.{atom_of, rule_of, program_of};
ghost use Rattle.section_makers.specs.Lighter.{has_small_numbers, is_small_atom, lighter_rule, lighter};
ghost use Rattle.section_makers.specs.Laws.{LighterProgramsKeepBounds};

use its_model::{Atom, Program, Rule};
use poly_terms::{Expr, Memory};
use program_copies::{copied_atom, copied_cost, copied_exprs, copied_names, copied_symbols};
use std::alloc::Global;

/// The program with only those atoms in its guards in which each number is at most a limit. It has the same rules with
/// weaker guards, so its bounds are bounds of the program.
///
/// # Errors
///
/// `Memory` where an allocation fails.
pub fn without_large_atoms(alloc: Global, p: &Program, limit: u64) -> Result<Program, Memory>
    ensures { IfOk result (λ q. program_of q ≡ lighter limit (program_of p.now)) }
{
    let mut rules = Vec::new(alloc);
    for rule in &p.rules {
        rules.push(rule_without_large_atoms(alloc, rule, limit)?)?;
    }
    Ok(Program {
        symbols: copied_symbols(alloc, &p.symbols)?,
        start: p.start,
        start_names: copied_names(alloc, &p.start_names)?,
        rules,
    })
}

// A rule without its atoms that have large numbers.
fn rule_without_large_atoms(alloc: Global, rule: &Rule, limit: u64) -> Result<Rule, Memory>
    ensures { IfOk result (λ r. rule_of r ≡ lighter_rule limit (rule_of rule.now)) }
{
    Ok(Rule {
        source: rule.source,
        target: rule.target,
        left: rule.left,
        free: rule.free,
        names: copied_names(alloc, &rule.names)?,
        updates: copied_exprs(alloc, &rule.updates)?,
        guard: small_atoms(alloc, &rule.guard, limit)?,
        cost: copied_cost(alloc, &rule.cost)?,
    })
}

// The atoms in which each number is at most the limit, in order.
fn small_atoms(alloc: Global, atoms: &[Atom], limit: u64) -> Result<Vec<Atom>, Memory>
    ensures { IfOk result (λ kept. map atom_of kept.items ≡ filter (is_small_atom limit) (map atom_of atoms.now)) }
{
    let mut kept = Vec::new(alloc);
    for atom in atoms {
        push_if_small(alloc, &mut kept, atom, limit)?;
    }
    Ok(kept)
}

// Appends a copy of an atom, if each of its numbers is at most the limit.
fn push_if_small(alloc: Global, kept: &mut Vec<Atom>, atom: &Atom, limit: u64) -> Result<(), Memory>
    ensures { OnOk result (map atom_of kept.new.items ≡ map atom_of kept.old.items
        ++ (if is_small_atom limit (atom_of atom.now) then atom_of atom.now ∷ [] else [])) }
{
    if is_small(atom, limit) {
        kept.push(copied_atom(alloc, atom)?)?;
    }
    Ok(())
}

// Whether each number of an atom is at most the limit.
fn is_small(atom: &Atom, limit: u64) -> bool
    ensures { result ≡ is_small_atom limit (atom_of atom.now) }
{
    match atom {
        Atom::Always => true,
        Atom::Compare {
            left,
            rel: _,
            right,
        } => has_only_small_numbers(left, limit) && has_only_small_numbers(right, limit),
    }
}

// Whether each number of an expression is at most the limit in absolute value.
fn has_only_small_numbers(e: &Expr, limit: u64) -> bool
    ensures { result ≡ has_small_numbers limit (term_of e.now) }
{
    match e {
        Expr::Num(z) => z.unsigned_abs() <= limit as u128,
        Expr::Var(_) => true,
        Expr::Neg(e) => has_only_small_numbers(e, limit),
        Expr::Add(d, e) => has_only_small_numbers(d, limit) && has_only_small_numbers(e, limit),
        Expr::Sub(d, e) => has_only_small_numbers(d, limit) && has_only_small_numbers(e, limit),
        Expr::Mul(d, e) => has_only_small_numbers(d, limit) && has_only_small_numbers(e, limit),
        Expr::Pow(e, _) => has_only_small_numbers(e, limit),
    }
}

/// A program without its atoms that have large numbers keeps the bounds of the program: each run of the program is one
/// of its runs. It has no code: its contract is the law.
pub fn lighter_programs_keep_bounds()
    ensures { LighterProgramsKeepBounds }
{}
