//! Facts, and which rules they say never occur.

ghost use Rattle.std.specs.Prelude.{◌≡◌, map};
ghost use Rattle.potential_nodes.specs.Facts.{is_never as is_said_never};
ghost use Rattle.potential_types.specs.Views.{fact_view};
ghost use Rattle.claims_check.specs.Tables.{IsKnown};

use potential_types::SignedFact;

/// Facts, and for each number of a rule, from 0 on, whether some fact says that the rule never occurs.
#[derive(Clone, Copy)]
pub(crate) struct Known<'a> {
    pub facts: &'a [SignedFact],
    pub never: &'a [bool],
}

// Whether some fact says that a rule never occurs.
pub(crate) fn is_never(known: Known, rule: u32) -> bool
    requires { IsKnown known }
    ensures { result ≡ is_said_never (map fact_view known.entry.facts.now) rule }
{
    match known.never.get(rule as usize) {
        Some(flag) => *flag,
        None => potential_types::is_never(known.facts, rule),
    }
}
