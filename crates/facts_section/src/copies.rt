//! Copies of symbols with the facts of them that are needed.

ghost use Rattle.std.specs.Prelude.{◌≡◌, ◌+◌, ◌++◌, ◌∷◌, [], IfOk, if◌then◌else◌, map, nat_eq};
ghost use Rattle.std.specs.List.{range_with_len};
ghost use Rattle.its_model.specs.Views.{program_of};
ghost use Rattle.refined_programs.specs.Views.{affine_form, annotated_copy};
ghost use Rattle.facts_section.specs.Copies.{coefficient as coefficient_at, copy_number as number_of_copy};
ghost use Rattle.facts_section.specs.Counted.{fact_form, form_copies, form_copy_at};

use crate::needed::needed_at;
use its_model::Program;
use location_facts::LocFact;
use poly_terms::Memory;
use program_copies::copied_name;
use refined_programs::{Affine, SymbolCopy, arity_of};
use std::alloc::{AllocError, Global};

/// The number of the copy of a symbol: the start symbol's is the first one, and the others follow in order.
#[tactic(auto, using(crate::proofs::CopyLists::if_same, crate::proofs::CopyLists::number_before_start, crate::proofs::CopyLists::number_after_start))]
pub(crate) fn copy_number(p: &Program, symbol: u32) -> u32
    ensures { result ≡ number_of_copy (program_of p.now) symbol }
{
    if symbol == p.start {
        0
    } else if symbol < p.start {
        symbol + 1
    } else {
        symbol
    }
}

/// The copies of all symbols, that of the start symbol first.
///
/// # Errors
///
/// `Memory` where an allocation fails, where there are 2^32 symbols or more, and where a fact's least is -2^63.
#[tactic(auto, using(crate::proofs::CopyLists::copy_pushed_unless_start))]
pub(crate) fn all_copies(
    alloc: Global,
    p: &Program,
    kept: &[LocFact],
) -> Result<Vec<SymbolCopy>, Memory>
    ensures { IfOk result (λ copies. map annotated_copy copies.items ≡ form_copies (program_of p.now) kept.now) }
{
    let mut copies = Vec::new(alloc);
    copies.push(copy(alloc, p, p.start, kept)?)?;
    for symbol in 0..to_u32(p.symbols.len())? {
        push_unless_start(alloc, &mut copies, p, symbol, kept)?;
    }
    Ok(copies)
}

/// A count as a number of 32 bits.
///
/// # Errors
///
/// `Memory` where it has more.
pub(crate) fn to_u32(count: usize) -> Result<u32, Memory>
    ensures { IfOk result (λ n. n ≡ count) }
{
    u32::try_from(count).map_err(|_| AllocError)
}

/// The number of the rule at a position.
///
/// # Errors
///
/// `Memory` where it has more than 32 bits.
pub(crate) fn rule_number(position: usize) -> Result<u32, Memory>
    ensures { IfOk result (λ n. n ≡ position + 1) }
{
    match to_u32(position)?.checked_add(1) {
        Some(number) => Ok(number),
        None => Err(AllocError),
    }
}

// Appends the copy of a symbol other than the start symbol.
#[tactic(auto, using(crate::proofs::CopyLists::if_same, crate::proofs::CopyLists::if_other))]
fn push_unless_start(
    alloc: Global,
    copies: &mut Vec<SymbolCopy>,
    p: &Program,
    symbol: u32,
    kept: &[LocFact],
) -> Result<(), Memory>
    ensures { IfOk result (λ _. map annotated_copy copies.new.items ≡ map annotated_copy copies.old.items
        ++ (if nat_eq symbol p.now.start then [] else form_copy_at (program_of p.now) kept.now symbol ∷ [])) }
{
    if symbol != p.start {
        copies.push(copy(alloc, p, symbol, kept)?)?;
    }
    Ok(())
}

// The copy of a symbol, with its own name.
fn copy(alloc: Global, p: &Program, symbol: u32, kept: &[LocFact]) -> Result<SymbolCopy, Memory>
    ensures { IfOk result (λ c. annotated_copy c ≡ form_copy_at (program_of p.now) kept.now symbol) }
{
    let name = match p.symbols.get(symbol as usize) {
        Some(s) => copied_name(alloc, &s.name)?,
        None => return Err(AllocError),
    };
    let needed = needed_at(alloc, p, symbol, kept)?;
    Ok(SymbolCopy {
        name,
        over: symbol,
        facts: forms_of(alloc, arity_of(p, symbol), &needed)?,
    })
}

// Facts as forms over this number of places.
fn forms_of(alloc: Global, arity: u32, facts: &[LocFact]) -> Result<Vec<Affine>, Memory>
    ensures { IfOk result (λ forms. map affine_form forms.items ≡ map (fact_form arity) facts.now) }
{
    let mut forms = Vec::new(alloc);
    for fact in facts {
        forms.push(form_of(alloc, arity, fact)?)?;
    }
    Ok(forms)
}

// A fact as a form over this number of places.
fn form_of(alloc: Global, arity: u32, fact: &LocFact) -> Result<Affine, Memory>
    ensures { IfOk result (λ form. affine_form form ≡ fact_form arity fact.now) }
{
    if fact.least == i64::MIN {
        return Err(AllocError);
    }
    let constant = -fact.least;
    let coefs = coefficients(alloc, arity, fact)?;
    Ok(Affine { coefs, constant })
}

// The coefficients of this number of places, in the difference that a fact is on.
#[tactic(auto, using(crate::proofs::CopyLists::coefficient_pushed))]
fn coefficients(alloc: Global, arity: u32, fact: &LocFact) -> Result<Vec<i64>, Memory>
    ensures { IfOk result (λ coefs. coefs.items ≡ map (coefficient_at fact.now) (range_with_len 1 arity)) }
{
    let mut coefs = Vec::new(alloc);
    for before in 0..arity {
        coefs.push(coefficient(fact, before + 1))?;
    }
    Ok(coefs)
}

// The coefficient of a place, from 1, in the difference that a fact is on.
#[tactic(auto, using(crate::proofs::CopyLists::if_same, crate::proofs::CopyLists::if_other))]
fn coefficient(fact: &LocFact, place: u32) -> i64
    ensures { result ≡ coefficient_at fact.now place }
{
    if place == fact.plus {
        1
    } else if place == fact.minus {
        -1
    } else {
        0
    }
}
