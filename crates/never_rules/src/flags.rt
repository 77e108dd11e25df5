//! Flags of the rules that facts say never occur.

ghost use Rattle.std.specs.Prelude.{◌≡◌, ◌++◌, ◌&&◌, ◌||◌, ◌==◌, ◌<◌, List, [], ◌∷◌, ℕ, length, map, IfOk};
ghost use Rattle.std.specs.Prelude.{slice_index_or, false, replicate};
ghost use Rattle.potential_nodes.specs.Facts as plain;
ghost use Rattle.potential_types.specs.Views.{charge_of, fact_view};
ghost use Rattle.never_rules.specs.Never.{TellNever, first_rule as rule_of_first, charged_rule as rule_of_charge};

use poly_terms::Memory;
use potential_types::{Charge, SignedFact, is_never};
use std::alloc::Global;
use std::slice::from_ref;

// The rule of the first charge, if there is one.
fn first_rule(charges: &[Charge]) -> Option<u32>
    ensures { result ≡ rule_of_first (map charge_of charges.now) }
{
    match charges.split_first() {
        None => None,
        Some((charge, _)) => Some(charge.rule),
    }
}

// The rule of the first charge of a fact on a sum, if there is one.
fn charged_rule(fact: &SignedFact) -> Option<u32>
    ensures { result ≡ rule_of_charge (fact_view fact.now) }
{
    match fact {
        SignedFact::Sum(charges, _) => first_rule(charges),
        SignedFact::Peak(_, _, _) => None,
        SignedFact::Size(_, _, _) => None,
    }
}

// Sets the flag at a position, if there is one and a test says yes.
fn set_if(flags: &mut Vec<bool>, position: u32, test: bool)
    ensures length { length flags.new.items ≡ length flags.old.items }
    ensures flags { (t : ℕ) → t < length flags.old.items → slice_index_or flags.new.items t false
        ≡ (slice_index_or flags.old.items t false || (test && (position == t))) }
{
    if !test {
        return;
    }
    let index = position as usize;
    if index >= flags.len() {
        return;
    }
    flags[index] = true;
}

/// Sets the flag of the rule that one more fact says never occurs, if the rule has a flag.
pub fn mark_never(never: &mut Vec<bool>, fact: &SignedFact)
    ensures length { length never.new.items ≡ length never.old.items }
    ensures tell { (facts : List plain.SignedFact) → TellNever facts never.old.items
        → TellNever (facts ++ fact_view fact.now ∷ []) never.new.items }
{
    let Some(rule) = charged_rule(fact) else {
        return;
    };
    let is_said = is_never(from_ref(fact), rule);
    set_if(never, rule, is_said);
}

/// For each number of a rule, from 0 on and below `count`, whether some fact says that the rule never occurs.
///
/// # Errors
///
/// `Memory` where an allocation fails.
pub fn never_flags(alloc: Global, facts: &[SignedFact], count: usize) -> Result<Vec<bool>, Memory>
    ensures counted { IfOk result (λ flags. length flags.items ≡ count) }
    ensures tell { IfOk result (λ flags. TellNever (map fact_view facts.now) flags.items) }
{
    let mut never = no_flags(alloc, count)?;
    for fact in facts {
        mark_never(&mut never, fact);
    }
    Ok(never)
}

// So many flags, none set.
fn no_flags(alloc: Global, count: usize) -> Result<Vec<bool>, Memory>
    ensures { IfOk result (λ flags. flags.items ≡ replicate count false) }
{
    let flags = vec![in alloc; false; count]?;
    Ok(flags)
}
