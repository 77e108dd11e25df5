//! The fault that prevents the expansion of an expression, or of the difference of an atom.

ghost use Rattle.std.specs.Prelude.{◌≡◌, IfOk, IsTrue, pos};
ghost use Rattle.model.specs.Terms.{Literal, Subtraction};
ghost use Rattle.poly_terms.specs.Views.{term_of};
ghost use Rattle.poly_terms.specs.Faults.{first_fault, or_else};
ghost use Rattle.its_model.specs.Views.{relation_of};
ghost use Rattle.expr_text.specs.Differences.{differences, first_of_all};
ghost use Rattle.expr_reader.specs.Faults.{fault_of, is_difference};

use crate::Memory;
use its_model::Rel;
use poly_terms::{Expr, PolyError, expand};
use std::alloc::{AllocError, Global};

/// Why an expression isn't expanded.
#[derive(Clone, Copy, Debug, PartialEq, Eq)]
pub enum Unexpanded {
    CoefTooLarge,
    TooManyTerms,
    DegreeTooHigh,
}

/// The fault that prevents the expansion of an expression, if there is one.
///
/// # Errors
///
/// `Memory` if an allocation fails.
pub fn expansion_fault(alloc: Global, e: &Expr) -> Result<Option<Unexpanded>, Memory>
    ensures { IfOk result (λ fault. fault_of fault ≡ first_fault (term_of e.now)) }
{
    match expand(alloc, e) {
        Ok(_) => Ok(None),
        Err(PolyError::CoefTooLarge) => Ok(Some(Unexpanded::CoefTooLarge)),
        Err(PolyError::TooManyTerms) => Ok(Some(Unexpanded::TooManyTerms)),
        Err(PolyError::DegreeTooHigh) => Ok(Some(Unexpanded::DegreeTooHigh)),
        Err(PolyError::Memory) => Err(AllocError),
    }
}

/// Two expressions, and the fault that prevents the expansion of a difference of them.
#[derive(Drop)]
pub struct Subtracted {
    pub minuend: Expr,
    pub subtrahend: Expr,
    pub fault: Option<Unexpanded>,
}

// The two sides of a difference.
fn sides(whole: Expr) -> (Expr, Expr)
    requires { IsTrue (is_difference (term_of whole)) }
    ensures { term_of whole ≡ Subtraction (term_of result.0) (term_of result.1) }
{
    match whole {
        Expr::Sub(minuend, subtrahend) => (Box::into_inner(minuend), Box::into_inner(subtrahend)),
        _ => unreachable!(),
    }
}

// The difference of two expressions, and the fault that prevents its expansion.
fn minus(alloc: Global, minuend: Expr, subtrahend: Expr) -> Result<Subtracted, Memory>
    ensures minuend { IfOk result (λ found. term_of found.minuend ≡ term_of minuend) }
    ensures subtrahend { IfOk result (λ found. term_of found.subtrahend ≡ term_of subtrahend) }
    ensures fault { IfOk result (λ found.
        fault_of found.fault ≡ first_fault (Subtraction (term_of minuend) (term_of subtrahend))) }
{
    let whole = Expr::difference(alloc, minuend, subtrahend)?;
    let fault = expansion_fault(alloc, &whole)?;
    let (minuend, subtrahend) = sides(whole);
    Ok(Subtracted {
        minuend,
        subtrahend,
        fault,
    })
}

// The difference of two expressions, less 1, and the fault that prevents its expansion.
fn minus_one(alloc: Global, minuend: Expr, subtrahend: Expr) -> Result<Subtracted, Memory>
    ensures minuend { IfOk result (λ found. term_of found.minuend ≡ term_of minuend) }
    ensures subtrahend { IfOk result (λ found. term_of found.subtrahend ≡ term_of subtrahend) }
    ensures fault { IfOk result (λ found. fault_of found.fault
        ≡ first_fault (Subtraction (Subtraction (term_of minuend) (term_of subtrahend)) (Literal (pos 1)))) }
{
    let plain = Expr::difference(alloc, minuend, subtrahend)?;
    let whole = Expr::difference(alloc, plain, Expr::Num(1))?;
    let fault = expansion_fault(alloc, &whole)?;
    let (plain, _) = sides(whole);
    let (minuend, subtrahend) = sides(plain);
    Ok(Subtracted {
        minuend,
        subtrahend,
        fault,
    })
}

// Swaps the two sides.
fn turned(found: Subtracted) -> Subtracted
    ensures minuend { result.minuend ≡ found.subtrahend }
    ensures subtrahend { result.subtrahend ≡ found.minuend }
    ensures fault { result.fault ≡ found.fault }
{
    Subtracted {
        minuend: found.subtrahend,
        subtrahend: found.minuend,
        fault: found.fault,
    }
}

// The two differences of an equality, with the fault of the first, or else that of the second.
fn both(alloc: Global, left: Expr, right: Expr) -> Result<Subtracted, Memory>
    ensures minuend { IfOk result (λ found. term_of found.minuend ≡ term_of left) }
    ensures subtrahend { IfOk result (λ found. term_of found.subtrahend ≡ term_of right) }
    ensures fault { IfOk result (λ found. fault_of found.fault
        ≡ or_else (first_fault (Subtraction (term_of left) (term_of right)))
        (first_fault (Subtraction (term_of right) (term_of left)))) }
{
    let once = minus(alloc, left, right)?;
    if once.fault.is_some() {
        return Ok(once);
    }
    let again = minus(alloc, once.subtrahend, once.minuend)?;
    Ok(turned(again))
}

/// The sides of an atom, and the fault that prevents the expansion of its differences.
///
/// # Errors
///
/// `Memory` if an allocation fails.
pub fn compared(alloc: Global, left: Expr, rel: Rel, right: Expr) -> Result<Subtracted, Memory>
    ensures minuend { IfOk result (λ found. term_of found.minuend ≡ term_of left) }
    ensures subtrahend { IfOk result (λ found. term_of found.subtrahend ≡ term_of right) }
    ensures fault { IfOk result (λ found.
        fault_of found.fault ≡ first_of_all (differences (term_of left) (relation_of rel) (term_of right))) }
{
    match rel {
        Rel::Ge => minus(alloc, left, right),
        Rel::Gt => minus_one(alloc, left, right),
        Rel::Le => Ok(turned(minus(alloc, right, left)?)),
        Rel::Lt => Ok(turned(minus_one(alloc, right, left)?)),
        Rel::Eq => both(alloc, left, right),
    }
}
