//! Each run of a program is the projection of a run of a program that simulates it, so the bounds of that one carry
//! over. A section consists of copies of the program's symbols and of cases for its rules; it spells such a program if
//! certain guards are unsatisfiable. The functions here have no code: the contract of each is a law, or values that
//! were worked out by hand.
#![tactic(auto)]

ghost use Rattle.model.specs.Runs.{Config};
ghost use Rattle.refinement.specs.Laws.{SimulationKeepsBounds, RightSectionsKeepBounds, ShownSectionsKeepBounds};
ghost use Rattle.refinement.specs.Laws.{WeakerGuardsKeepBounds};
ghost use Rattle.refinement.specs.Worked.{SectionsSpell, ExpressionsAreMoved, SectionsAreShown, FactsHoldAtSymbols};
ghost use Rattle.refinement.specs.Worked.{ProgramsSimulate, CostsAreKept};

/// A notion of facts: a property of the configurations of a simulating program.
pub trait Facts {
    ghost HasFacts: { Config → Type 0 };
}

/// Each run of a program lifts to a run of a program that simulates it, of as many steps, with the same values, in
/// which the facts hold. So bounds carry over: the sum of the bounds on the copies of a rule bounds how often the rule
/// occurs, and what its steps cost; their maximum bounds the sizes after it; and a bound on whole runs is one for the
/// program.
pub fn simulations_keep_bounds<F: Facts>()
    ensures { SimulationKeepsBounds F.HasFacts }
{}

/// If facts follow along the paths of a section's cases, the program that it spells simulates the program, and so its
/// bounds carry over; each of its runs projects to a run of the program. What follows from the facts of each copy of a
/// symbol holds at the symbol.
pub fn right_sections_keep_bounds()
    ensures { RightSectionsKeepBounds }
{}

/// A section is right if no values meet the guard along a path to nowhere, and none meet the guard along a path to a
/// copy such that one of the copy's facts fails at the new values; so the program that it spells keeps runs and bounds.
pub fn shown_sections_keep_bounds()
    ensures { ShownSectionsKeepBounds }
{}

/// Bounds of a program with weaker guards, for example with fewer atoms, are bounds of the program.
pub fn weaker_guards_keep_bounds()
    ensures { WeakerGuardsKeepBounds }
{}

/// Worked values: a section of a small program, with a test, spells the expected program, and is shown. With a fact
/// that is too strong by 1, a rule that can be used and leads nowhere, a missing branch, or a fact at the start, it
/// isn't. Facts hold at symbols, programs simulate others, and bounds of programs with costs carry over.
pub fn worked_values_hold()
    ensures spelled { SectionsSpell }
    ensures moved { ExpressionsAreMoved }
    ensures shown { SectionsAreShown }
    ensures facts { FactsHoldAtSymbols }
    ensures simulated { ProgramsSimulate }
    ensures costs { CostsAreKept }
{}
