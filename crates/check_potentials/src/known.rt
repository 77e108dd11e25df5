//! What is known after accepted lemmas: their facts, and the rules that they say never occur.

ghost use Rattle.std.specs.Prelude.{◌≡◌, ◌<◌, length, map, IfOk, slice_index_or, false};
ghost use Rattle.potential_nodes.specs.Facts.{is_never as is_said_never};
ghost use Rattle.potential_types.specs.Views.{fact_view};
ghost use Rattle.never_rules.specs.Never.{TellNever};
ghost use Rattle.check_potentials.specs.Grounds.{IsPrepared};

use crate::ground::Ground;
use never_rules::never_flags;
use poly_terms::Memory;
use potential_types::SignedFact;
use std::alloc::Global;

/// Facts, and the flags of rules: the flag at a number says whether some fact says that the rule with this number never
/// occurs, so no lemma has to go through all facts.
#[derive(Clone, Copy)]
pub struct Known<'a> {
    pub facts: &'a [SignedFact],
    pub never: &'a [bool],
}

// The flag at a position, and false if there is none.
fn is_set(flags: &[bool], position: u32) -> bool
    ensures { result ≡ slice_index_or flags.now position false }
{
    match flags.get(position as usize) {
        Some(flag) => *flag,
        None => false,
    }
}

/// Whether some fact says that a rule never occurs.
pub(crate) fn is_never(known: Known, rule: u32) -> bool
    requires tell { TellNever (map fact_view known.facts.now) known.never.now }
    requires flagged { rule < length known.never.now }
    ensures { result ≡ is_said_never (map fact_view known.entry.facts.now) rule }
{
    is_set(known.never, rule)
}

/// The flags of facts, one for 0 and one for each rule of a program.
///
/// # Errors
///
/// `Memory` where an allocation fails.
#[tactic(auto, using(crate::proofs::GroundLaws::rules_few))]
pub(crate) fn flags_of(
    alloc: Global,
    ground: Ground,
    facts: &[SignedFact],
) -> Result<Vec<bool>, Memory>
    requires { IsPrepared ground }
    ensures all { IfOk result (λ flags. length ground.entry.program.now.rules.items < length flags.items) }
    ensures tell { IfOk result (λ flags. TellNever (map fact_view facts.now) flags.items) }
{
    let count = ground.program.rules.len() + 1;
    let flags = never_flags(alloc, facts, count)?;
    Ok(flags)
}
