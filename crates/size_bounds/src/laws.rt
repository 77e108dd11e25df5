//! The law that a size that is found is accepted after the lemmas that it cites.

ghost use Rattle.size_bounds.specs.Laws.{FoundSizesAreAccepted};

/// After any lists of lemmas that state only known bounds, and each bound of a table by its number in the table, the
/// node that `spread` or `cycle` finds over the table is accepted, and states the facts found with it. The contract is
/// the law; the function has no code.
pub fn found_sizes_are_accepted()
    ensures { FoundSizesAreAccepted }
{}
