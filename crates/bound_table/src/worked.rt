//! Worked values of the cases on powers and products, and of whole rewritings.

ghost use Rattle.bound_table.specs.Worked.{PowersAreEvaluated, PowersAreShifted, PowersAreMerged};
ghost use Rattle.bound_table.specs.Worked.{ProductsAreMultipliedOut, LimitsOfProductsAreMet, TablesAreWorkedOut};
ghost use Rattle.bound_table.specs.WorkedBelow.{ConstantsAreBelow, SumsAreBelow, MaximumsAreBelow, PowersAreBelow};
ghost use Rattle.bound_table.specs.WorkedBelow.{ProductsAreBelow};
ghost use Rattle.bound_table.specs.WorkedParts.{PartsAreSpliced, ConstantsAreFolded, ProductsWithZeroAreZero};
ghost use Rattle.bound_table.specs.WorkedParts.{NeutralPartsAreDropped, PartsAreSorted, LikePartsAreJoined};
ghost use Rattle.bound_table.specs.WorkedParts.{DominatedPartsAreDropped, FewPartsAreSimple};

/// Worked values of the cases that evaluate, shift and merge powers, of which products are multiplied out and to what,
/// and of four bounds rewritten by both tables. Its contract is these values; it has no code.
pub fn cases_are_as_worked_out()
    ensures evaluated { PowersAreEvaluated }
    ensures shifted { PowersAreShifted }
    ensures merged { PowersAreMerged }
    ensures multiplied { ProductsAreMultipliedOut }
    ensures limits { LimitsOfProductsAreMet }
    ensures tables { TablesAreWorkedOut }
{}

/// Worked values of the cases that splice, fold, drop, sort or join parts: their results on small bounds, and what they
/// leave unchanged. Its contract is these values; it does nothing.
pub fn parts_are_as_worked_out()
    ensures spliced { PartsAreSpliced }
    ensures folded { ConstantsAreFolded }
    ensures zero { ProductsWithZeroAreZero }
    ensures neutral { NeutralPartsAreDropped }
    ensures sorted { PartsAreSorted }
    ensures likes { LikePartsAreJoined }
    ensures dominated { DominatedPartsAreDropped }
    ensures few { FewPartsAreSimple }
{}

/// Worked values of the test `below`: small bounds that are below each other, and others that aren't. Its contract is
/// these values; it does nothing.
pub fn lower_bounds_are_as_worked_out()
    ensures constants { ConstantsAreBelow }
    ensures sums { SumsAreBelow }
    ensures maximums { MaximumsAreBelow }
    ensures powers { PowersAreBelow }
    ensures products { ProductsAreBelow }
{}
