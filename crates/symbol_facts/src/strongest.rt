//! The strongest facts of a copy, by their coefficients.

ghost use Rattle.std.specs.Prelude.{◌≡◌, map, IfOk, OnOk};
ghost use Rattle.refined_programs.specs.Views.{affine_form};
ghost use Rattle.symbol_facts.specs.Common.{strongest, with_fact, constant_of};
ghost use Rattle.symbol_facts.specs.Tables.{forms_in, lesser_of};

use indexmap::IndexMap;
use poly_terms::Memory;
use refined_programs::Affine;
use std::alloc::Global;

/// The strongest facts among some: a table from coefficients to the least constant, in the order in which coefficients
/// first come. The time is near-linear in the facts.
///
/// # Errors
///
/// `Memory` where an allocation fails.
pub(crate) fn strongest_facts<'a>(
    alloc: Global,
    facts: &'a [Affine],
) -> Result<IndexMap<&'a [i64], i64>, Memory>
    ensures { IfOk result (λ table. forms_in (λ k. k.now) table.entries ≡ strongest (map affine_form facts.now)) }
{
    let mut table = IndexMap::new(alloc);
    for fact in facts {
        add_fact(&mut table, fact)?;
    }
    Ok(table)
}

// Adds a fact, with the lesser of its constant and the one that the table has for its coefficients.
fn add_fact<'a>(table: &mut IndexMap<&'a [i64], i64>, fact: &'a Affine) -> Result<(), Memory>
    ensures { OnOk result (forms_in (λ k. k.now) table.new.entries
        ≡ with_fact (forms_in (λ k. k.now) table.old.entries) (affine_form fact.now)) }
{
    let coefs = fact.coefs.as_slice();
    let least = lesser(fact, constant_in(table, coefs));
    table.insert(coefs, least)?;
    Ok(())
}

/// The constant of the fact with these coefficients, if there is one.
pub(crate) fn constant_in(table: &IndexMap<&[i64], i64>, coefs: &[i64]) -> Option<i64>
    ensures { result ≡ constant_of coefs.now (forms_in (λ k. k.now) table.now.entries) }
{
    match table.get(&coefs) {
        Some(constant) => Some(*constant),
        None => None,
    }
}

// The lesser of the constant of a fact and of another one, if there is one.
fn lesser(fact: &Affine, other: Option<i64>) -> i64
    ensures { result ≡ lesser_of fact.now.constant other }
{
    match other {
        Some(least) => fact.constant.min(least),
        None => fact.constant,
    }
}
