//! The set of shut places.

ghost use Rattle.std.specs.Prelude.{◌≡◌, IfOk};
ghost use Rattle.rank_search.specs.ShutPlaces.{is_listed, HasShut};
ghost use Rattle.rule_questions.specs.ProgramQuestions.{places_of};

use poly_terms::Memory;
use std::alloc::Global;
use std::collections::BTreeSet;

/// The places of a list, as a set in which each is found in logarithmic time.
pub(crate) fn shut_set(alloc: Global, shut: &[(u32, u32)]) -> Result<BTreeSet<(u32, u32)>, Memory>
    ensures { IfOk result (λ set. HasShut set (places_of shut.now)) }
{
    let mut set = BTreeSet::new(alloc);
    for place in shut {
        set.insert(*place)?;
    }
    Ok(set)
}

/// Whether the place of a symbol is listed in the set.
pub(crate) fn is_among(set: &BTreeSet<(u32, u32)>, symbol: u32, place: u32) -> bool
    ensures { result ≡ is_listed set.now symbol place }
{
    set.contains(&(symbol, place))
}
