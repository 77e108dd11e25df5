//! The faults of values and atoms: whether their forms can be expanded.

ghost use Rattle.std.specs.Prelude.{◌≡◌, IfOk, Option, pos};
ghost use Rattle.model.specs.Programs.{Compare};
ghost use Rattle.model.specs.Terms.{Literal, Subtraction};
ghost use Rattle.poly_terms.specs.Answers.{Says};
ghost use Rattle.poly_terms.specs.Faults.{Fault, first_fault, or_else};
ghost use Rattle.while_tree.specs.while_model.Moves.{negations_of};
ghost use Rattle.poly_terms.specs.Views.{term_of};
ghost use Rattle.its_model.specs.Views.{relation_of};
ghost use Rattle.expr_reader.specs.Faults.{fault_of};
ghost use Rattle.while_text.specs.Faults as faults;

use crate::kind::{Kind, WhileKind};
use expr_reader::{Unexpanded, expansion_fault};
use its_model::Rel;
use poly_terms::{Expr, Memory, PolyError, expand_difference, expand_strict_difference};
use std::alloc::{AllocError, Global};

// The kind of refusal for a fault of an expansion.
fn kind_in(fault: Option<Unexpanded>) -> Option<Kind>
    ensures { result ≡ faults.kind_in (fault_of fault) }
{
    match fault {
        None => None,
        Some(Unexpanded::CoefTooLarge) => Some(Kind::NumberTooLarge),
        Some(Unexpanded::TooManyTerms) => Some(Kind::Limit(WhileKind::Terms)),
        Some(Unexpanded::DegreeTooHigh) => Some(Kind::Limit(WhileKind::Degree)),
    }
}

// The fault of an expansion that gave this error.
fn fault_in(error: PolyError) -> Result<Option<Unexpanded>, Memory>
    ensures { (fault : Option Fault) → Says error fault → IfOk result (λ found. fault_of found ≡ fault) }
{
    match error {
        PolyError::CoefTooLarge => Ok(Some(Unexpanded::CoefTooLarge)),
        PolyError::TooManyTerms => Ok(Some(Unexpanded::TooManyTerms)),
        PolyError::DegreeTooHigh => Ok(Some(Unexpanded::DegreeTooHigh)),
        PolyError::Memory => Err(AllocError),
    }
}

// The first of two faults, or the other one if there is no first.
fn or_other(first: Option<Unexpanded>, other: Option<Unexpanded>) -> Option<Unexpanded>
    ensures { fault_of result ≡ or_else (fault_of first) (fault_of other) }
{
    match first {
        None => other,
        Some(fault) => Some(fault),
    }
}

// The lesser of two optional faults; none if both are absent.
fn lesser(one: Option<Unexpanded>, other: Option<Unexpanded>) -> Option<Unexpanded>
    ensures { fault_of result ≡ faults.lesser (fault_of one) (fault_of other) }
{
    match (one, other) {
        (None, other) => other,
        (one, None) => one,
        (Some(Unexpanded::CoefTooLarge), _) => Some(Unexpanded::CoefTooLarge),
        (Some(Unexpanded::TooManyTerms), Some(Unexpanded::CoefTooLarge)) => {
            Some(Unexpanded::CoefTooLarge)
        }
        (Some(Unexpanded::TooManyTerms), _) => Some(Unexpanded::TooManyTerms),
        (Some(Unexpanded::DegreeTooHigh), other) => other,
    }
}

/// The kind of the fault of a value, if it has one.
///
/// # Errors
///
/// `Memory` if an allocation fails.
pub fn value_fault(alloc: Global, value: &Expr) -> Result<Option<Kind>, Memory>
    ensures { IfOk result (λ kind. kind ≡ faults.kind_in (first_fault (term_of value.now))) }
{
    Ok(kind_in(expansion_fault(alloc, value)?))
}

// The fault of the difference of two expressions.
fn difference_fault(alloc: Global, d: &Expr, e: &Expr) -> Result<Option<Unexpanded>, Memory>
    ensures { IfOk result (λ fault. fault_of fault ≡ first_fault (Subtraction (term_of d.now) (term_of e.now))) }
{
    match expand_difference(alloc, d, e) {
        Ok(_) => Ok(None),
        Err(error) => fault_in(error),
    }
}

// The fault of the difference of two expressions plus 1.
fn strict_fault(alloc: Global, d: &Expr, e: &Expr) -> Result<Option<Unexpanded>, Memory>
    ensures { IfOk result (λ fault. fault_of fault
        ≡ first_fault (Subtraction (Subtraction (term_of d.now) (term_of e.now)) (Literal (pos 1)))) }
{
    match expand_strict_difference(alloc, d, e) {
        Ok(_) => Ok(None),
        Err(error) => fault_in(error),
    }
}

// The fault of an atom.
fn atom_fault(
    alloc: Global,
    left: &Expr,
    rel: Rel,
    right: &Expr,
) -> Result<Option<Unexpanded>, Memory>
    ensures { IfOk result (λ fault. fault_of fault
        ≡ faults.fault_of_atom (Compare (term_of left.now) (relation_of rel) (term_of right.now))) }
{
    match rel {
        Rel::Ge => difference_fault(alloc, left, right),
        Rel::Gt => strict_fault(alloc, left, right),
        Rel::Le => difference_fault(alloc, right, left),
        Rel::Lt => strict_fault(alloc, right, left),
        Rel::Eq => {
            let one = difference_fault(alloc, left, right)?;
            let other = difference_fault(alloc, right, left)?;
            Ok(or_other(one, other))
        }
    }
}

// The least fault of the negations of an atom.
fn negations_fault(
    alloc: Global,
    left: &Expr,
    rel: Rel,
    right: &Expr,
) -> Result<Option<Unexpanded>, Memory>
    ensures { IfOk result (λ fault. fault_of fault
        ≡ faults.least_of (negations_of (Compare (term_of left.now) (relation_of rel) (term_of right.now)))) }
{
    match rel {
        Rel::Ge => atom_fault(alloc, left, Rel::Lt, right),
        Rel::Gt => atom_fault(alloc, left, Rel::Le, right),
        Rel::Le => atom_fault(alloc, left, Rel::Gt, right),
        Rel::Lt => atom_fault(alloc, left, Rel::Ge, right),
        Rel::Eq => {
            let below = atom_fault(alloc, left, Rel::Lt, right)?;
            let above = atom_fault(alloc, left, Rel::Gt, right)?;
            Ok(lesser(below, above))
        }
    }
}

/// The kind of the fault of the forms of an atom, if it has one: the atom's own form and those of its negations.
///
/// # Errors
///
/// `Memory` if an allocation fails.
pub fn forms_fault(
    alloc: Global,
    left: &Expr,
    rel: Rel,
    right: &Expr,
) -> Result<Option<Kind>, Memory>
    ensures { IfOk result (λ kind. kind ≡ faults.kind_in
        (faults.fault_of_forms (Compare (term_of left.now) (relation_of rel) (term_of right.now)))) }
{
    let own = atom_fault(alloc, left, rel, right)?;
    let negated = negations_fault(alloc, left, rel, right)?;
    Ok(kind_in(lesser(own, negated)))
}
