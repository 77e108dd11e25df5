//! Bounds the cost of a rule.

ghost use Rattle.std.specs.Prelude.{◌≡◌, IfOk};
ghost use Rattle.guard_prep.specs.Views.{prepared_of};
ghost use Rattle.its_graph.specs.Graphs.{IsGraphOf};
ghost use Rattle.its_model.specs.Valid.{IsValid};
ghost use Rattle.its_model.specs.Views.{program_of};
ghost use Rattle.model.specs.Costs.{HasCost};
ghost use Rattle.model.specs.Programs as plain;
ghost use Rattle.cert_types.specs.Lookups.{optional_bound};
ghost use Rattle.cost_nodes.specs.CostRules.{IsPreparedCost};
ghost use Rattle.rank_search.specs.rule_questions.EmptyAnswers.{IsEmptyAnswer, SaysEmpty};
ghost use Rattle.size_bounds.specs.Tables.{table_of, number_at};
ghost use Rattle.cost_bounds.specs.CostAnswers.{IsCostAnswer};
ghost use Rattle.cost_bounds.specs.CostOutcomes.{is_zero_time as is_zero_time_of};

use crate::answer::CostAnswer;
use crate::bounding::cost_by_step;
use crate::stating::{empty_cost, never_cost};
use bound_expr::Bound;
use cert_types::{GuardFeasibility, Known, ResultVariable};
use cost_nodes::{PreparedCost, cost_rows};
use its_graph::Graph;
use its_model::Program;
use local_size::local;
use model::Memory;
use rank_search::guard_feasibility;
use size_bounds::Table;
use size_nodes::is_zero;
use std::alloc::Global;

/// A bound on what all steps by a rule with a cost cost together, over known times and sizes, where each linear program
/// may take this many pivots: the first of these answers that applies. `Found` with the bound 0, where the rows of the
/// cost rule (those of the guard, and that the cost is at least 0) have no point, or else the rule's time is 0.
/// `UnboundedSide`, where no affine function of the arguments bounds the cost of one step, with a ray and a point of
/// the rows; or `OutOfLimits`, where a linear program for such a function, or for a point, exceeds a limit; the
/// question of the limit is the cost of the rule. `Missing`, the first size that the upper bound of one step needs and
/// that isn't known, by the rules that can come before, ascending, and then by places; `Untimed`, where the rule has no
/// time; `Large`, where the composed bound is too large; and else `Found` with the time times the upper bound of one
/// step. The node that is found cites the lemmas of its premises: that of the time, and then those of the sizes.
///
/// # Errors
///
/// `Memory` where an allocation fails.
pub fn cost(
    alloc: Global,
    p: &Program,
    g: &Graph,
    t: &Table,
    rule: u32,
    pivots: u32,
) -> Result<CostAnswer, Memory>
    requires valid { IsValid (program_of p.now) }
    requires graph { IsGraphOf g.now (program_of p.now) }
    requires costs { HasCost (program_of p.now) rule }
    ensures { IfOk result (λ a. IsCostAnswer (program_of p.now) pivots (table_of t.now) (number_at t.now) rule a) }
{
    let rows = cost_rows(alloc, p, rule)?;
    let cost = PreparedCost {
        graph: g,
        rule,
        rows: &rows,
    };
    cost_by_rows(alloc, &cost, t, pivots)
}

// The bound on a cost, by whether the rows of its cost rule have a point.
fn cost_by_rows(
    alloc: Global,
    cost: &PreparedCost,
    t: &Table,
    pivots: u32,
) -> Result<CostAnswer, Memory>
    requires { (p : plain.Program) × IsPreparedCost p cost.now }
    ensures { IfOk result (λ a. (p : plain.Program) → IsPreparedCost p cost.now
        → IsCostAnswer p pivots (table_of t.now) (number_at t.now) cost.now.rule a) }
{
    let feasibility = guard_feasibility(alloc, cost.rows, cost.rule, pivots)?;
    match &feasibility {
        GuardFeasibility::Empty(node) => empty_cost(alloc, cost.rule, &node.multipliers),
        GuardFeasibility::Point(_) => cost_by_time(alloc, cost, t, &feasibility, pivots),
        GuardFeasibility::OutOfLimits(_) => cost_by_time(alloc, cost, t, &feasibility, pivots),
    }
}

// The bound on a cost whose rows weren't found to have no point, by whether the rule's time is 0.
fn cost_by_time(
    alloc: Global,
    cost: &PreparedCost,
    t: &Table,
    feasibility: &GuardFeasibility,
    pivots: u32,
) -> Result<CostAnswer, Memory>
    requires cost { (p : plain.Program) × IsPreparedCost p cost.now }
    requires answered { IsEmptyAnswer (prepared_of cost.now.rows.now) cost.now.rule pivots feasibility.now }
    requires may_run { ¬ SaysEmpty feasibility.now }
    ensures { IfOk result (λ a. (p : plain.Program) → IsPreparedCost p cost.now
        → IsCostAnswer p pivots (table_of t.now) (number_at t.now) cost.now.rule a) }
{
    if is_zero_time(t.time(cost.rule)) {
        return never_cost(alloc, cost.rule, t);
    }
    let place = ResultVariable {
        rule: cost.rule,
        place: 1,
    };
    let step = local(alloc, cost.rows, place, feasibility, pivots)?;
    cost_by_step(alloc, cost, t, step)
}

// Whether a time is known, and is 0.
fn is_zero_time(time: Option<&Bound>) -> bool
    ensures { result ≡ is_zero_time_of (optional_bound time.entry) }
{
    match time {
        Some(bound) => is_zero(bound),
        None => false,
    }
}
