//! Copies of parts of programs and of rows, in newly allocated memory. The only error is that memory ran out.

ghost use Rattle.std.specs.Prelude.{◌≡◌, IfOk, map, option_map};
ghost use Rattle.poly_terms.specs.Views.{term_of, form_of};
ghost use Rattle.its_model.specs.Views.{name_of, symbol_of, atom_of};

use its_model::{Atom, Name, Symbol};
use poly_terms::{Expr, Memory, Row};
use std::alloc::Global;

// A copy of a name.
fn copied_name(alloc: Global, name: &Name) -> Result<Name, Memory>
    ensures { IfOk result (λ n. name_of n ≡ name_of name.now) }
{
    Ok(Name {
        bytes: name.bytes.as_slice().to_vec(alloc)?,
    })
}

/// Copies of names, in order.
pub(crate) fn copied_names(alloc: Global, names: &[Name]) -> Result<Vec<Name>, Memory>
    ensures { IfOk result (λ copies. map name_of copies.items ≡ map name_of names.now) }
{
    let mut copies = Vec::new(alloc);
    for name in names {
        copies.push(copied_name(alloc, name)?)?;
    }
    Ok(copies)
}

// A copy of a symbol.
fn copied_symbol(alloc: Global, symbol: &Symbol) -> Result<Symbol, Memory>
    ensures { IfOk result (λ s. symbol_of s ≡ symbol_of symbol.now) }
{
    Ok(Symbol {
        name: copied_name(alloc, &symbol.name)?,
        arity: symbol.arity,
    })
}

/// Copies of symbols, in order.
pub(crate) fn copied_symbols(alloc: Global, symbols: &[Symbol]) -> Result<Vec<Symbol>, Memory>
    ensures { IfOk result (λ copies. map symbol_of copies.items ≡ map symbol_of symbols.now) }
{
    let mut copies = Vec::new(alloc);
    for symbol in symbols {
        copies.push(copied_symbol(alloc, symbol)?)?;
    }
    Ok(copies)
}

// A copy of an expression.
#[cycle(copied)]
fn copied_expr(alloc: Global, e: &Expr) -> Result<Expr, Memory>
    ensures { IfOk result (λ t. term_of t ≡ term_of e.now) }
{
    match e {
        Expr::Num(z) => Ok(Expr::Num(*z)),
        Expr::Var(i) => Ok(Expr::Var(*i)),
        Expr::Neg(e) => Ok(Expr::Neg(boxed(alloc, e)?)),
        Expr::Add(d, e) => Ok(Expr::Add(boxed(alloc, d)?, boxed(alloc, e)?)),
        Expr::Sub(d, e) => Ok(Expr::Sub(boxed(alloc, d)?, boxed(alloc, e)?)),
        Expr::Mul(d, e) => Ok(Expr::Mul(boxed(alloc, d)?, boxed(alloc, e)?)),
        Expr::Pow(e, exponent) => Ok(Expr::Pow(boxed(alloc, e)?, *exponent)),
    }
}

// A copy of an expression, in a box.
#[cycle(copied)]
fn boxed(alloc: Global, e: &Expr) -> Result<Box<Expr>, Memory>
    ensures { IfOk result (λ b. term_of b.value ≡ term_of e.now) }
{
    Ok(Box::new(alloc, copied_expr(alloc, e)?)?)
}

/// Copies of expressions, in order.
pub(crate) fn copied_exprs(alloc: Global, exprs: &[Expr]) -> Result<Vec<Expr>, Memory>
    ensures { IfOk result (λ copies. map term_of copies.items ≡ map term_of exprs.now) }
{
    let mut copies = Vec::new(alloc);
    for expr in exprs {
        copies.push(copied_expr(alloc, expr)?)?;
    }
    Ok(copies)
}

/// A copy of a cost, if one is written.
pub(crate) fn copied_cost(alloc: Global, cost: &Option<Expr>) -> Result<Option<Expr>, Memory>
    ensures { IfOk result (λ c. option_map term_of c ≡ option_map term_of cost.now) }
{
    match cost {
        Some(expr) => Ok(Some(copied_expr(alloc, expr)?)),
        None => Ok(None),
    }
}

// A copy of an atom.
fn copied_atom(alloc: Global, atom: &Atom) -> Result<Atom, Memory>
    ensures { IfOk result (λ a. atom_of a ≡ atom_of atom.now) }
{
    match atom {
        Atom::Always => Ok(Atom::Always),
        Atom::Compare { left, rel, right } => Ok(Atom::Compare {
            left: copied_expr(alloc, left)?,
            rel: *rel,
            right: copied_expr(alloc, right)?,
        }),
    }
}

/// Copies of atoms, in order.
pub(crate) fn copied_atoms(alloc: Global, atoms: &[Atom]) -> Result<Vec<Atom>, Memory>
    ensures { IfOk result (λ copies. map atom_of copies.items ≡ map atom_of atoms.now) }
{
    let mut copies = Vec::new(alloc);
    for atom in atoms {
        copies.push(copied_atom(alloc, atom)?)?;
    }
    Ok(copies)
}

/// A copy of a row.
pub(crate) fn copied_row(alloc: Global, row: &Row) -> Result<Row, Memory>
    ensures { IfOk result (λ copy. form_of copy ≡ form_of row.now) }
{
    Ok(Row {
        coefs: row.coefs.as_slice().to_vec(alloc)?,
        constant: row.constant,
    })
}

/// Copies of rows, in order.
pub(crate) fn copied_rows(alloc: Global, rows: &[Row]) -> Result<Vec<Row>, Memory>
    ensures { IfOk result (λ copies. map form_of copies.items ≡ map form_of rows.now) }
{
    let mut copies = Vec::new(alloc);
    for row in rows {
        copies.push(copied_row(alloc, row)?)?;
    }
    Ok(copies)
}
