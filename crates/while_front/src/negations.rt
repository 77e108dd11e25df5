//! The negations of tests: a test fails if one of these atoms holds.

ghost use Rattle.std.specs.Prelude.{◌≡◌, ◌++◌, ◌∷◌, [], map, IfOk, OnOk};
ghost use Rattle.while_model.specs.model.Programs.{Compare};
ghost use Rattle.while_model.specs.Moves.{negations as negations_in, negations_of as negations_of_atom};
ghost use Rattle.poly_terms.specs.Views.{term_of};
ghost use Rattle.its_model.specs.Views.{relation_of, atom_of};

use its_model::{Atom, Rel};
use poly_terms::{Expr, Memory};
use program_copies::copied_expr;
use std::alloc::Global;

// The negations of the atoms of a test, atom by atom.
pub(crate) fn negations(alloc: Global, test: &[Atom]) -> Result<Vec<Atom>, Memory>
    ensures { IfOk result (λ atoms. map atom_of atoms.items ≡ negations_in (map atom_of test.now)) }
{
    let mut atoms = Vec::new(alloc);
    for atom in test {
        push_negations(alloc, &mut atoms, atom)?;
    }
    Ok(atoms)
}

// Appends the negations of an atom: those of an equation are `<`, and then `>`.
fn push_negations(alloc: Global, atoms: &mut Vec<Atom>, atom: &Atom) -> Result<(), Memory>
    ensures { OnOk result
        (map atom_of atoms.new.items ≡ map atom_of atoms.old.items ++ negations_of_atom (atom_of atom.now)) }
{
    match atom {
        Atom::Always => Ok(()),
        Atom::Compare { left, rel, right } => match rel {
            Rel::Ge => push_comparison(alloc, atoms, left, Rel::Lt, right),
            Rel::Gt => push_comparison(alloc, atoms, left, Rel::Le, right),
            Rel::Le => push_comparison(alloc, atoms, left, Rel::Gt, right),
            Rel::Lt => push_comparison(alloc, atoms, left, Rel::Ge, right),
            Rel::Eq => {
                push_comparison(alloc, atoms, left, Rel::Lt, right)?;
                push_comparison(alloc, atoms, left, Rel::Gt, right)
            }
        },
    }
}

// Appends a comparison of copies of the two expressions.
fn push_comparison(
    alloc: Global,
    atoms: &mut Vec<Atom>,
    left: &Expr,
    rel: Rel,
    right: &Expr,
) -> Result<(), Memory>
    ensures { OnOk result (map atom_of atoms.new.items ≡ map atom_of atoms.old.items
        ++ Compare (term_of left.now) (relation_of rel) (term_of right.now) ∷ []) }
{
    let left = copied_expr(alloc, left)?;
    let right = copied_expr(alloc, right)?;
    atoms.push(Atom::Compare { left, rel, right })?;
    Ok(())
}
