//! Copies of parts of programs, in memory of their own. The only error is that memory ran out.

ghost use Rattle.std.specs.Prelude.{◌≡◌, IfOk, map, take};
ghost use Rattle.poly_terms.specs.Views.{term_of};
ghost use Rattle.its_model.specs.Views.{name_of, symbol_of, atom_of};

use crate::guard::Atom;
use crate::program::{Rule, Symbol};
use poly_terms::{Expr, Memory};
use std::alloc::Global;
use text_core::Name;

// A copy of a name.
fn copied_name(alloc: Global, name: &Name) -> Result<Name, Memory>
    ensures { IfOk result (λ n. name_of n ≡ name_of name.now) }
{
    Ok(Name {
        bytes: name.bytes.as_slice().to_vec(alloc)?,
    })
}

// Copies of names, in order.
pub(crate) fn copied_names(alloc: Global, names: &[Name]) -> Result<Vec<Name>, Memory>
    ensures { IfOk result (λ copies. map name_of copies.items ≡ map name_of names.now) }
{
    let mut copies = Vec::new(alloc);
    for name in names {
        copies.push(copied_name(alloc, name)?)?;
    }
    Ok(copies)
}

/// Copies of the names of a rule's left variables, in order.
///
/// # Errors
///
/// `Memory` if an allocation fails.
pub fn left_names(alloc: Global, rule: &Rule) -> Result<Vec<Name>, Memory>
    ensures { IfOk result (λ names. map name_of names.items ≡ take rule.now.left (map name_of rule.now.names.items)) }
{
    let mut names = copied_names(alloc, &rule.names)?;
    names.truncate(rule.left as usize);
    Ok(names)
}

// A copy of an expression.
#[cycle(copied)]
pub(crate) fn copied_expr(alloc: Global, e: &Expr) -> Result<Expr, Memory>
    ensures { IfOk result (λ t. term_of t ≡ term_of e.now) }
{
    match e {
        Expr::Num(z) => Ok(Expr::Num(*z)),
        Expr::Var(i) => Ok(Expr::Var(*i)),
        Expr::Neg(e) => Ok(Expr::Neg(boxed(alloc, e)?)),
        Expr::Add(d, e) => Ok(Expr::Add(boxed(alloc, d)?, boxed(alloc, e)?)),
        Expr::Sub(d, e) => Ok(Expr::Sub(boxed(alloc, d)?, boxed(alloc, e)?)),
        Expr::Mul(d, e) => Ok(Expr::Mul(boxed(alloc, d)?, boxed(alloc, e)?)),
        Expr::Pow(e, exponent) => Ok(Expr::Pow(boxed(alloc, e)?, *exponent)),
    }
}

// A copy of an expression in a box.
#[cycle(copied)]
fn boxed(alloc: Global, e: &Expr) -> Result<Box<Expr>, Memory>
    ensures { IfOk result (λ b. term_of b.value ≡ term_of e.now) }
{
    Ok(Box::new(alloc, copied_expr(alloc, e)?)?)
}

// A copy of a symbol.
pub(crate) fn copied_symbol(alloc: Global, symbol: &Symbol) -> Result<Symbol, Memory>
    ensures { IfOk result (λ s. symbol_of s ≡ symbol_of symbol.now) }
{
    Ok(Symbol {
        name: copied_name(alloc, &symbol.name)?,
        arity: symbol.arity,
    })
}

// A copy of an atom.
fn copied_atom(alloc: Global, atom: &Atom) -> Result<Atom, Memory>
    ensures { IfOk result (λ a. atom_of a ≡ atom_of atom.now) }
{
    match atom {
        Atom::Always => Ok(Atom::Always),
        Atom::Compare { left, rel, right } => Ok(Atom::Compare {
            left: copied_expr(alloc, left)?,
            rel: *rel,
            right: copied_expr(alloc, right)?,
        }),
    }
}

// Copies of atoms, in order.
pub(crate) fn copied_atoms(alloc: Global, atoms: &[Atom]) -> Result<Vec<Atom>, Memory>
    ensures { IfOk result (λ copies. map atom_of copies.items ≡ map atom_of atoms.now) }
{
    let mut copies = Vec::new(alloc);
    for atom in atoms {
        copies.push(copied_atom(alloc, atom)?)?;
    }
    Ok(copies)
}
