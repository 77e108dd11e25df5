//! Worked values of why bounds are missing: small programs and reports for which each reason is right, and for which it
//! isn't: a limit hit by a question itself or by the one for a point, `missing`, `bent`, `untimed`, `large`, and an
//! unbounded side. Worked values of gaps are in `time_bounds`.
//!
//! No crate depends on this one, so its proofs delay no other. Main guarantee: the values themselves.
#![tactic(auto)]

ghost use Rattle.worked_reasons.specs.CostOutcomes.{CostOutcomesAreWorkedOut};
ghost use Rattle.worked_reasons.specs.Costs.{CostsAreWorkedOut};
ghost use Rattle.worked_reasons.specs.FirstReasons.{FirstReasonsAreWorkedOut};
ghost use Rattle.worked_reasons.specs.FirstHitsLimit.{FirstHitsLimitAreWorkedOut};
ghost use Rattle.worked_reasons.specs.FirstUntimed.{FirstUntimedIsWorkedOut};
ghost use Rattle.worked_reasons.specs.Growths.{GrowthsAreWorkedOut};
ghost use Rattle.worked_reasons.specs.Limits.{LimitsAreWorkedOut};
ghost use Rattle.worked_reasons.specs.UnboundedPlaces.{UnboundedPlacesAreWorkedOut};
ghost use Rattle.worked_reasons.specs.PointHitsLimit.{PointHitsLimitAreWorkedOut};
ghost use Rattle.worked_reasons.specs.Products.{ProductsAreWorkedOut};
ghost use Rattle.worked_reasons.specs.Scales.{ScalesAreWorkedOut};
ghost use Rattle.worked_reasons.specs.Squares.{SquaresAreWorkedOut};
ghost use Rattle.worked_reasons.specs.HitsLimit.{HitsLimitAreWorkedOut};

/// Worked values, on small programs, of why rules have no time and places no size: linear programs that exceed a limit
/// of pivots, of numbers, of a table's size or of a point's integers, which of several rules is reported, and the one
/// for a point if no function and no form is found; places that are unbounded on a side; sizes that depend on others,
/// that are nonlinear in a loop, that grow by a rule without a time, and that are too large, which of several such
/// reasons is reported, and of several such rules the first; a time that is too large; a cost that is unbounded, or
/// whose linear program exceeds a limit; and which outcome a cost has, by its rows, of several missing sizes, and where
/// a limit is exceeded. The function has no code: its contract is these values.
pub fn missing_bounds_are_as_worked_out()
    ensures hits_limit { HitsLimitAreWorkedOut }
    ensures first_hits_limit { FirstHitsLimitAreWorkedOut }
    ensures point_hits_limit { PointHitsLimitAreWorkedOut }
    ensures limits { LimitsAreWorkedOut }
    ensures scales { ScalesAreWorkedOut }
    ensures unbounded_places { UnboundedPlacesAreWorkedOut }
    ensures squares { SquaresAreWorkedOut }
    ensures products { ProductsAreWorkedOut }
    ensures growths { GrowthsAreWorkedOut }
    ensures first_reasons { FirstReasonsAreWorkedOut }
    ensures first_untimed { FirstUntimedIsWorkedOut }
    ensures costs { CostsAreWorkedOut }
    ensures cost_outcomes { CostOutcomesAreWorkedOut }
{}
