//! Whether the guard of a rule is within the limits of rules.

ghost use Rattle.std.specs.Prelude.{◌≡◌, ◌+◌, length, nat_le, map, is_none, IfOk};
ghost use Rattle.std.specs.List.{list_all};
ghost use Rattle.refined_programs.specs.model.Limits.{atom_limit};
ghost use Rattle.refined_programs.specs.model.Programs.{Compare};
ghost use Rattle.refined_programs.specs.poly_terms.Answers.{Answers};
ghost use Rattle.refined_programs.specs.poly_terms.Expanding.{expanded};
ghost use Rattle.refined_programs.specs.poly_terms.Faults.{first_fault};
ghost use Rattle.refined_programs.specs.poly_terms.Views.{term_of};
ghost use Rattle.refined_programs.specs.its_model.Valid.{difference_of, cost_atoms};
ghost use Rattle.refined_programs.specs.its_model.Views.{atom_of, relation_of, rule_of};
ghost use Rattle.section_decide.specs.Deciding.{is_within_limits as within_limits, is_valid_atom as valid_atom};
ghost use Rattle.section_decide.specs.Deciding.{reads_below as reads_under};

use its_model::{Atom, Rel, Rule};
use model::ATOM_LIMIT;
use poly_terms::{Expr, Memory, Poly, PolyError, expand_difference, expand_strict_difference};
use std::alloc::{AllocError, Global};

/// Whether a rule has at most 64 atoms, its cost counted as one, and each is over its variables and can be expanded.
///
/// # Errors
///
/// `Memory` where an allocation fails.
pub(crate) fn is_within_limits(alloc: Global, rule: &Rule) -> Result<bool, Memory>
    ensures { IfOk result (λ within. within ≡ within_limits (rule_of rule.now)) }
{
    if !has_few_atoms(rule) {
        return Ok(false);
    }
    are_valid_atoms(alloc, &rule.guard, rule.left as u64 + rule.free as u64)
}

// Whether a rule has at most 64 atoms, its cost counted as one.
fn has_few_atoms(rule: &Rule) -> bool
    ensures { result ≡ nat_le (length (rule_of rule.now).guard + cost_atoms (rule_of rule.now).cost) atom_limit }
{
    match rule.cost {
        None => rule.guard.len() <= ATOM_LIMIT,
        Some(_) => rule.guard.len() < ATOM_LIMIT,
    }
}

// Whether atoms are over this many variables and can be expanded.
fn are_valid_atoms(alloc: Global, atoms: &[Atom], variables: u64) -> Result<bool, Memory>
    ensures { IfOk result (λ valid. valid ≡ list_all (valid_atom variables) (map atom_of atoms.now)) }
{
    for atom in atoms {
        let valid = is_valid_atom(alloc, atom, variables)?;
        if !valid {
            return Ok(false);
        }
    }
    Ok(true)
}

// Whether an atom is over this many variables and can be expanded.
fn is_valid_atom(alloc: Global, atom: &Atom, variables: u64) -> Result<bool, Memory>
    ensures { IfOk result (λ valid. valid ≡ valid_atom variables (atom_of atom.now)) }
{
    match atom {
        Atom::Always => Ok(true),
        Atom::Compare { left, rel, right } => is_valid_comparison(
            alloc, left, *rel, right, variables,
        ),
    }
}

// Whether a comparison is over this many variables and can be expanded.
fn is_valid_comparison(
    alloc: Global,
    left: &Expr,
    rel: Rel,
    right: &Expr,
    variables: u64,
) -> Result<bool, Memory>
    ensures { IfOk result (λ valid. valid
        ≡ valid_atom variables (Compare (term_of left.now) (relation_of rel) (term_of right.now))) }
{
    if !reads_below(left, variables) {
        return Ok(false);
    }
    if !reads_below(right, variables) {
        return Ok(false);
    }
    expands(alloc, left, rel, right)
}

// Whether each variable of an expression is below a number.
fn reads_below(e: &Expr, variables: u64) -> bool
    ensures { result ≡ reads_under variables (term_of e.now) }
{
    match e {
        Expr::Num(_) => true,
        Expr::Var(i) => (*i as u64) < variables,
        Expr::Neg(e) => reads_below(e, variables),
        Expr::Add(d, e) => reads_below(d, variables) && reads_below(e, variables),
        Expr::Sub(d, e) => reads_below(d, variables) && reads_below(e, variables),
        Expr::Mul(d, e) => reads_below(d, variables) && reads_below(e, variables),
        Expr::Pow(e, _) => reads_below(e, variables),
    }
}

// Whether the difference of a comparison can be expanded.
fn expands(alloc: Global, d: &Expr, rel: Rel, e: &Expr) -> Result<bool, Memory>
    ensures { IfOk result
        (λ valid. valid ≡ is_none (first_fault (difference_of (term_of d.now) (relation_of rel) (term_of e.now)))) }
{
    match difference(alloc, d, rel, e) {
        Ok(_) => Ok(true),
        Err(PolyError::CoefTooLarge) => Ok(false),
        Err(PolyError::TooManyTerms) => Ok(false),
        Err(PolyError::DegreeTooHigh) => Ok(false),
        Err(PolyError::Memory) => Err(AllocError),
    }
}

// The expanded difference of a comparison, or why it has none.
fn difference(alloc: Global, d: &Expr, rel: Rel, e: &Expr) -> Result<Poly, PolyError>
    ensures { let whole = difference_of (term_of d.now) (relation_of rel) (term_of e.now) in
        Answers result (first_fault whole) (expanded whole) }
{
    match rel {
        Rel::Ge => expand_difference(alloc, d, e),
        Rel::Gt => expand_strict_difference(alloc, d, e),
        Rel::Le => expand_difference(alloc, e, d),
        Rel::Lt => expand_strict_difference(alloc, e, d),
        Rel::Eq => expand_difference(alloc, d, e),
    }
}
