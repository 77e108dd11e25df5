//! The facts at the symbols of a program by a section.

ghost use Rattle.std.specs.Prelude.{◌≡◌, ◌++◌, map, IfOk, OnOk};
ghost use Rattle.its_model.specs.Views.{program_of, symbol_of};
ghost use Rattle.poly_terms.specs.Views.{monomial_of, monomials_of};
ghost use Rattle.refined_programs.specs.Views.{annotated_copy, annotated_of};
ghost use Rattle.symbol_facts.specs.Common.{symbol_facts as facts_by, facts_at, fact_at as fact_by, common, copies_of};
ghost use Rattle.symbol_facts.specs.Common.{summand, summands as summands_from};
ghost use Rattle.symbol_facts.specs.Views.{fact_of, form_of, forms_of};

use crate::common::{CommonFact, common_facts};
use crate::fact::SymbolFact;
use its_model::{Program, Symbol};
use poly_terms::{Memory, Monomial, Poly};
use refined_programs::{Section, SymbolCopy};
use std::alloc::{AllocError, Global};

/// The facts at the symbols of a program by a section, in the order of the symbols: those that all copies of a symbol
/// have, where it has one. Two facts are the same here if their coefficients are; of a copy the strongest counts, and of
/// the copies the weakest. If the section is accepted for a valid program, each of them holds whenever a run of the
/// program is at its symbol (`symbol_facts_hold`).
///
/// The time is near-linear in the section's facts; each symbol is compared with each copy once.
///
/// # Errors
///
/// `Memory` where an allocation fails, and where a fact has 2^32 coefficients or more.
pub fn symbol_facts(
    alloc: Global,
    program: &Program,
    section: &Section,
) -> Result<Vec<SymbolFact>, Memory>
    ensures { IfOk result (λ facts.
        map fact_of facts.items ≡ facts_by (program_of program.now) (annotated_of section.now)) }
{
    facts_at_symbols(alloc, &program.symbols, &section.copies)
}

// The facts at these symbols.
fn facts_at_symbols(
    alloc: Global,
    symbols: &[Symbol],
    copies: &[SymbolCopy],
) -> Result<Vec<SymbolFact>, Memory>
    ensures { IfOk result (λ facts.
        map fact_of facts.items ≡ facts_at (map annotated_copy copies.now) 0 (map symbol_of symbols.now)) }
{
    let mut facts = Vec::new(alloc);
    for (symbol, _) in symbols.iter().enumerate() {
        push_facts(alloc, &mut facts, symbol, copies)?;
    }
    Ok(facts)
}

// Appends the facts at a symbol.
fn push_facts(
    alloc: Global,
    facts: &mut Vec<SymbolFact>,
    symbol: usize,
    copies: &[SymbolCopy],
) -> Result<(), Memory>
    ensures { OnOk result (map fact_of facts.new.items
        ≡ map fact_of facts.old.items ++ map (fact_by symbol) (common (copies_of symbol (map annotated_copy copies.now)))) }
{
    let known = common_facts(alloc, copies, symbol)?;
    push_forms(alloc, facts, symbol, &known)
}

// Appends a fact at a symbol for each of some forms.
fn push_forms(
    alloc: Global,
    facts: &mut Vec<SymbolFact>,
    symbol: usize,
    known: &[CommonFact<'_>],
) -> Result<(), Memory>
    ensures { OnOk result (map fact_of facts.new.items
        ≡ map fact_of facts.old.items ++ map (fact_by symbol) (forms_of known.now)) }
{
    for fact in known {
        facts.push(fact_at(alloc, symbol, fact)?)?;
    }
    Ok(())
}

// The fact at a symbol that a form is at least 0 there.
fn fact_at(alloc: Global, symbol: usize, fact: &CommonFact<'_>) -> Result<SymbolFact, Memory>
    ensures { IfOk result (λ found. fact_of found ≡ fact_by symbol (form_of fact.now)) }
{
    let terms = summands(alloc, fact.coefs)?;
    Ok(SymbolFact {
        symbol,
        form: Poly { terms },
        least: -i128::from(fact.constant),
    })
}

// The products of coefficients that aren't 0 with their variables.
fn summands(alloc: Global, coefs: &[i64]) -> Result<Vec<Monomial>, Memory>
    ensures { IfOk result (λ terms. monomials_of terms.items ≡ summands_from 0 coefs.now) }
{
    let mut terms = Vec::new(alloc);
    for (i, coef) in coefs.iter().enumerate() {
        push_summand(alloc, &mut terms, i, *coef)?;
    }
    Ok(terms)
}

// Appends the product of a coefficient with its variable, if it isn't 0.
fn push_summand(
    alloc: Global,
    terms: &mut Vec<Monomial>,
    variable: usize,
    coef: i64,
) -> Result<(), Memory>
    ensures { OnOk result (monomials_of terms.new.items ≡ monomials_of terms.old.items ++ summand variable coef) }
{
    if coef == 0 {
        return Ok(());
    }
    let mut vars = Vec::new(alloc);
    vars.push(variable_number(variable)?)?;
    terms.push(Monomial {
        coef: i128::from(coef),
        vars,
    })?;
    Ok(())
}

// The number of a variable; `Memory` if it has more than 32 bits.
fn variable_number(position: usize) -> Result<u32, Memory>
    ensures { IfOk result (λ number. number ≡ position) }
{
    u32::try_from(position).map_err(|_| AllocError)
}
