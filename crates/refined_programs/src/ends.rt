//! The ends of all paths through cases.

ghost use Rattle.std.specs.Prelude.{◌≡◌, ◌++◌, ◌∷◌, [], map, IfOk, OnOk};
ghost use Rattle.refinement.specs.Sections.{passes as atom_passes, fails as atom_fails};
ghost use Rattle.poly_terms.specs.Views.{term_of};
ghost use Rattle.its_model.specs.Views.{atom_of};
ghost use Rattle.refined_programs.specs.Affine.{affine_of};
ghost use Rattle.refined_programs.specs.Ends.{ends as ends_of, end_of, lists_of};
ghost use Rattle.refined_programs.specs.Views.{annotated_cases};

use crate::affine::Affine;
use crate::section::{Cases, Multipliers};
use its_model::{Atom, Rel};
use poly_terms::{Expr, Memory};
use program_copies::copied_atoms;
use std::alloc::Global;

/// The end of a path.
#[derive(Debug, PartialEq, Eq, Drop)]
pub enum Goal {
    /// At a copy, with multipliers for each of its facts.
    Copy { copy: u32, by: Vec<Multipliers> },
    /// Nowhere, with multipliers for the guard along the path.
    Nowhere { by: Multipliers },
}

/// The end of a path, with the atoms that hold along it.
#[derive(Debug, PartialEq, Eq, Drop)]
pub struct End {
    pub atoms: Vec<Atom>,
    pub goal: Goal,
}

/// The atom that says that a form is at least 0.
///
/// # Errors
///
/// `Memory` where an allocation fails, and where the form has 2^32 coefficients or more.
pub fn passes(alloc: Global, form: &Affine) -> Result<Atom, Memory>
    ensures { IfOk result (λ a. atom_of a ≡ atom_passes (affine_of form.now)) }
{
    Ok(Atom::Compare {
        left: form.expr(alloc)?,
        rel: Rel::Ge,
        right: Expr::Num(0),
    })
}

/// The atom that says that a form is below 0.
///
/// # Errors
///
/// `Memory` where an allocation fails, and where the form has 2^32 coefficients or more.
pub fn fails(alloc: Global, form: &Affine) -> Result<Atom, Memory>
    ensures { IfOk result (λ a. atom_of a ≡ atom_fails (affine_of form.now)) }
{
    Ok(below_zero(form.expr(alloc)?))
}

/// The atom that says that an expression is below 0.
pub fn below_zero(e: Expr) -> Atom
    ensures { atom_of result ≡ atom_fails (term_of e) }
{
    Atom::Compare {
        left: e,
        rel: Rel::Lt,
        right: Expr::Num(0),
    }
}

// A copy of atoms, with one more.
fn with_atom(alloc: Global, atoms: &[Atom], atom: Atom) -> Result<Vec<Atom>, Memory>
    ensures { IfOk result (λ more. map atom_of more.items ≡ map atom_of atoms.now ++ atom_of atom ∷ []) }
{
    let mut more = copied_atoms(alloc, atoms)?;
    more.push(atom)?;
    Ok(more)
}

// A copy of multipliers.
fn copied(alloc: Global, by: &Multipliers) -> Result<Multipliers, Memory>
    ensures { IfOk result (λ m. m.numbers.items ≡ by.now.numbers.items) }
{
    Ok(Multipliers {
        numbers: by.numbers.as_slice().to_vec(alloc)?,
    })
}

// Copies of lists of multipliers, in order.
fn copied_lists(alloc: Global, by: &[Multipliers]) -> Result<Vec<Multipliers>, Memory>
    ensures { IfOk result (λ copies. lists_of copies.items ≡ lists_of by.now) }
{
    let mut copies = Vec::new(alloc);
    for list in by {
        copies.push(copied(alloc, list)?)?;
    }
    Ok(copies)
}

/// Appends the ends of the paths after these atoms, in order.
///
/// # Errors
///
/// `Memory` where an allocation fails, and where a form has 2^32 coefficients or more.
pub fn push_ends(
    alloc: Global,
    ends: &mut Vec<End>,
    atoms: Vec<Atom>,
    cases: &Cases,
) -> Result<(), Memory>
    ensures { OnOk result (map end_of ends.new.items
        ≡ map end_of ends.old.items ++ ends_of (map atom_of atoms.items) (annotated_cases cases.now)) }
{
    match cases {
        Cases::To { copy, by } => {
            let by = copied_lists(alloc, by)?;
            let goal = Goal::Copy { copy: *copy, by };
            ends.push(End { atoms, goal })?;
            Ok(())
        }
        Cases::Never { by } => {
            let by = copied(alloc, by)?;
            let goal = Goal::Nowhere { by };
            ends.push(End { atoms, goal })?;
            Ok(())
        }
        Cases::If { test, yes, no } => {
            let below = with_atom(alloc, &atoms, fails(alloc, test)?)?;
            let mut above = atoms;
            above.push(passes(alloc, test)?)?;
            push_ends(alloc, ends, above, yes)?;
            push_ends(alloc, ends, below, no)
        }
    }
}
