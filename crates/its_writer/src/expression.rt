//! Prints expressions and guards.

ghost use Rattle.std.specs.Prelude.{◌≡◌, ◌++◌, codes, map, OnOk};
ghost use Rattle.its_model.specs.poly_terms.Views.{term_of};
ghost use Rattle.its_text.specs.expr_text.text_core.Names.{name_of};
ghost use Rattle.its_model.specs.Views.{relation_of, atom_of};
ghost use Rattle.its_writer.specs.Layout.{bracketed_then};
ghost use Rattle.its_writer.specs.Expressions as plain;
ghost use Rattle.its_writer.specs.Expressions.{expression_then, operand_then, atom_then, guard_then};
ghost use Rattle.its_writer.specs.Printing.{WritesAll};

use crate::bytes::{write_bytes, write_integer, write_name};
use its_model::{Atom, Name, Rel};
use poly_terms::{Expr, Memory};

// Whether an expression is an operation.
fn is_operation(e: &Expr) -> bool
    ensures { result ≡ plain.is_operation (term_of e.now) }
{
    !matches!(e, Expr::Num(_) | Expr::Var(_))
}

/// Writes an expression over variables with these names. The recursion is as deep as the expression.
///
/// # Errors
///
/// `Memory` if an allocation fails; the contents of `text` are then unspecified.
#[cycle(write)]
pub(crate) fn write_expression(text: &mut Vec<u8>, names: &[Name], e: &Expr) -> Result<(), Memory>
    ensures { OnOk result (WritesAll text.old.items text.new.items
        (expression_then (map name_of names.now) (term_of e.now))) }
{
    match e {
        Expr::Num(z) => write_integer(text, *z),
        Expr::Var(i) => write_name(text, names, *i),
        Expr::Neg(e) => {
            write_bytes(text, b"-")?;
            write_operand(text, names, e)
        }
        Expr::Add(d, e) => {
            write_operand(text, names, d)?;
            write_bytes(text, b"+")?;
            write_operand(text, names, e)
        }
        Expr::Sub(d, e) => {
            write_operand(text, names, d)?;
            write_bytes(text, b"-")?;
            write_operand(text, names, e)
        }
        Expr::Mul(d, e) => {
            write_operand(text, names, d)?;
            write_bytes(text, b"*")?;
            write_operand(text, names, e)
        }
        Expr::Pow(e, exponent) => {
            write_operand(text, names, e)?;
            write_bytes(text, b"^")?;
            write_integer(text, i128::from(*exponent))
        }
    }
}

// Writes an operand, in brackets if it is an operation.
#[cycle(write)]
fn write_operand(text: &mut Vec<u8>, names: &[Name], e: &Expr) -> Result<(), Memory>
    ensures { OnOk result (WritesAll text.old.items text.new.items
        (operand_then (map name_of names.now) (term_of e.now))) }
{
    if is_operation(e) {
        write_bytes(text, b"(")?;
        write_expression(text, names, e)?;
        write_bytes(text, b")")
    } else {
        write_expression(text, names, e)
    }
}

// The sign of a relation, with a blank on each side.
fn sign_of(rel: Rel) -> &'static [u8]
    ensures { result.now ≡ plain.sign_of (relation_of rel) }
{
    match rel {
        Rel::Ge => b" >= ",
        Rel::Gt => b" > ",
        Rel::Le => b" <= ",
        Rel::Lt => b" < ",
        Rel::Eq => b" = ",
    }
}

// Writes an atom.
fn write_atom(text: &mut Vec<u8>, names: &[Name], atom: &Atom) -> Result<(), Memory>
    ensures { OnOk result (WritesAll text.old.items text.new.items
        (atom_then (map name_of names.now) (atom_of atom.now))) }
{
    match atom {
        Atom::Always => write_bytes(text, b"TRUE"),
        Atom::Compare { left, rel, right } => {
            write_expression(text, names, left)?;
            write_bytes(text, sign_of(*rel))?;
            write_expression(text, names, right)
        }
    }
}

/// Writes a guard: nothing if it has no atoms.
///
/// # Errors
///
/// `Memory` if an allocation fails; the contents of `text` are then unspecified.
pub(crate) fn write_guard(text: &mut Vec<u8>, names: &[Name], guard: &[Atom]) -> Result<(), Memory>
    ensures { OnOk result (WritesAll text.old.items text.new.items
        (guard_then (map name_of names.now) (map atom_of guard.now))) }
{
    let Some((first, others)) = guard.split_first() else {
        return Ok(());
    };
    write_bytes(text, b" :|: ")?;
    write_atom(text, names, first)?;
    for atom in others {
        write_bytes(text, b" && ")?;
        write_atom(text, names, atom)?;
    }
    Ok(())
}
