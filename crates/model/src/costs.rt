//! What steps cost, and what runs spend.

ghost use Rattle.model.specs.Costs.{RunsAreAtTheirValues, PlainRulesSpendTheirCount, CostsChangeNoRun};
ghost use Rattle.model.specs.Costs.{SpendingIsByRules, PlainTotalsAreLengths};
ghost use Rattle.model.specs.WorkedCosts.{StepsCost, RunsSpend, CostsHold};
ghost use Rattle.model.specs.WorkedTotals.{TotalsHold};

/// Each step of a run is charged at the values before it: those to which the earlier steps lead from the start values.
/// A rule without a cost spends in every run as much as it occurs. Costs neither prevent steps nor change values.
pub fn costs_go_step_by_step()
    ensures values { RunsAreAtTheirValues }
    ensures plain { PlainRulesSpendTheirCount }
    ensures runs { CostsChangeNoRun }
{}

/// What all steps cost is the sum over the rules of what each rule spends. If no rule has a cost, a run costs as much
/// as it has steps, so a bound on its cost is a bound on its length, and conversely.
pub fn costs_add_up()
    ensures by_rules { SpendingIsByRules }
    ensures plain { PlainTotalsAreLengths }
{}

/// Worked values: what steps cost and runs spend in small programs. Bounds on the cost of a rule and of all steps
/// together hold on all runs, and bounds that are too small don't.
pub fn worked_costs_hold()
    ensures steps { StepsCost }
    ensures runs { RunsSpend }
    ensures facts { CostsHold }
    ensures totals { TotalsHold }
{}
