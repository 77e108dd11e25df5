//! Facts at symbols hold, and worked values.

ghost use Rattle.symbol_facts.specs.Laws.{SymbolFactsHold};
ghost use Rattle.symbol_facts.specs.Worked.{FactsAreWorkedOut};

/// The law that by a section that is accepted for a valid program each fact at a symbol holds whenever a run of the
/// program itself is there, from any integers and by any choice of rules. It has no code but the law of accepted
/// sections.
pub fn symbol_facts_hold()
    ensures { SymbolFactsHold }
{
    section_checks::accepted_sections_are_certified();
}

/// Worked values of the facts at symbols. The function has no code: its contract is these values.
pub fn worked_facts_hold()
    ensures { FactsAreWorkedOut }
{}
