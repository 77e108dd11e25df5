//! The facts that all copies of a symbol have.

ghost use Rattle.std.specs.Prelude.{◌≡◌, ◌++◌, map, option_map, IfOk, OnOk};
ghost use Rattle.refined_programs.specs.Views.{affine_form, annotated_copy};
ghost use Rattle.symbol_facts.specs.Common.{common, copies_of, join_facts, weaker};
ghost use Rattle.symbol_facts.specs.Tables.{forms_in, facts_with_copy};
ghost use Rattle.symbol_facts.specs.Views.{form_of, forms_of};

use crate::strongest::{constant_in, strongest_facts};
use indexmap::IndexMap;
use poly_terms::Memory;
use refined_programs::{Affine, SymbolCopy};
use std::alloc::Global;

/// A form that is at least 0 at copies: coefficients of one of them, and a constant.
#[derive(Clone, Copy, Debug)]
pub(crate) struct CommonFact<'a> {
    pub(crate) coefs: &'a [i64],
    pub(crate) constant: i64,
}

/// The facts that all copies of a symbol have.
///
/// # Errors
///
/// `Memory` where an allocation fails.
pub(crate) fn common_facts<'a>(
    alloc: Global,
    copies: &'a [SymbolCopy],
    symbol: usize,
) -> Result<Vec<CommonFact<'a>>, Memory>
    ensures { IfOk result (λ facts.
        forms_of facts.items ≡ common (copies_of symbol (map annotated_copy copies.now))) }
{
    let mut known = None;
    for copy in copies {
        if copy.over as usize == symbol {
            known = Some(facts_at_copy(alloc, known, &copy.facts)?);
        }
    }
    match known {
        Some(facts) => Ok(facts),
        None => Ok(Vec::new(alloc)),
    }
}

// The facts that the copies passed so far have in common, with one more copy, which has these.
fn facts_at_copy<'a>(
    alloc: Global,
    known: Option<Vec<CommonFact<'a>>>,
    facts: &'a [Affine],
) -> Result<Vec<CommonFact<'a>>, Memory>
    ensures { IfOk result (λ left. forms_of left.items
        ≡ facts_with_copy (option_map (λ v. forms_of v.items) known.entry) (map affine_form facts.now)) }
{
    let table = strongest_facts(alloc, facts)?;
    match known {
        None => facts_of_table(alloc, &table),
        Some(known) => join_with_table(alloc, &known, &table),
    }
}

// The facts of a table, in order.
fn facts_of_table<'a>(
    alloc: Global,
    table: &IndexMap<&'a [i64], i64>,
) -> Result<Vec<CommonFact<'a>>, Memory>
    ensures { IfOk result (λ facts. forms_of facts.items ≡ forms_in (λ k. k.now) table.now.entries) }
{
    let mut facts = Vec::new(alloc);
    for (coefs, constant) in table {
        facts.push(CommonFact {
            coefs: *coefs,
            constant: *constant,
        })?;
    }
    Ok(facts)
}

// The join of facts with those of a table: what holds wherever either does.
fn join_with_table<'a>(
    alloc: Global,
    known: &[CommonFact<'a>],
    table: &IndexMap<&'a [i64], i64>,
) -> Result<Vec<CommonFact<'a>>, Memory>
    ensures { IfOk result (λ left. forms_of left.items
        ≡ join_facts (forms_of known.now) (forms_in (λ k. k.now) table.now.entries)) }
{
    let mut left = Vec::new(alloc);
    for fact in known {
        push_weaker(&mut left, fact, constant_in(table, fact.coefs))?;
    }
    Ok(left)
}

// Appends the weaker of a fact and one with this constant, if there is one.
fn push_weaker<'a>(
    left: &mut Vec<CommonFact<'a>>,
    fact: &CommonFact<'a>,
    constant: Option<i64>,
) -> Result<(), Memory>
    ensures { OnOk result (forms_of left.new.items ≡ forms_of left.old.items ++ weaker (form_of fact.now) constant) }
{
    if let Some(other) = constant {
        left.push(CommonFact {
            coefs: fact.coefs,
            constant: fact.constant.max(other),
        })?;
    }
    Ok(())
}
