//! Copies of atoms and of rules.

ghost use Rattle.std.specs.Prelude.{◌≡◌, IfOk, map};
ghost use Rattle.its_model.specs.Views.{atom_of, rule_of};

use crate::exprs::{copied_cost, copied_expr, copied_exprs};
use crate::names::copied_names;
use its_model::{Atom, Rule};
use poly_terms::Memory;
use std::alloc::Global;

/// A copy of an atom.
///
/// # Errors
///
/// `Memory` where an allocation fails.
pub fn copied_atom(alloc: Global, atom: &Atom) -> Result<Atom, Memory>
    ensures { IfOk result (λ copy. atom_of copy ≡ atom_of atom.now) }
{
    match atom {
        Atom::Always => Ok(Atom::Always),
        Atom::Compare { left, rel, right } => Ok(Atom::Compare {
            left: copied_expr(alloc, left)?,
            rel: *rel,
            right: copied_expr(alloc, right)?,
        }),
    }
}

/// Copies of atoms, in order.
///
/// # Errors
///
/// `Memory` where an allocation fails.
pub fn copied_atoms(alloc: Global, atoms: &[Atom]) -> Result<Vec<Atom>, Memory>
    ensures { IfOk result (λ copies. map atom_of copies.items ≡ map atom_of atoms.now) }
{
    let mut copies = Vec::new(alloc);
    for atom in atoms {
        copies.push(copied_atom(alloc, atom)?)?;
    }
    Ok(copies)
}

/// A copy of a rule.
///
/// # Errors
///
/// `Memory` where an allocation fails.
pub fn copied_rule(alloc: Global, rule: &Rule) -> Result<Rule, Memory>
    ensures { IfOk result (λ copy. rule_of copy ≡ rule_of rule.now) }
{
    Ok(Rule {
        source: rule.source,
        target: rule.target,
        left: rule.left,
        free: rule.free,
        names: copied_names(alloc, &rule.names)?,
        updates: copied_exprs(alloc, &rule.updates)?,
        guard: copied_atoms(alloc, &rule.guard)?,
        cost: copied_cost(alloc, &rule.cost)?,
    })
}
