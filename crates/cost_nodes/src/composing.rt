//! Composes the bound on the cost of all steps by a rule.

ghost use Rattle.std.specs.Prelude.{◌≡◌, IfOk};
ghost use Rattle.bound_expr.specs.Views.{bound_of};
ghost use Rattle.bound_table.specs.RewriteResult.{answer_of, rewritten_within};
ghost use Rattle.model.specs.Bounds.{ProductOf};
ghost use Rattle.model.specs.Programs.{Program};
ghost use Rattle.cert_types.specs.Composing.{HasFewPlaces, IsReadable, optional_poly};
ghost use Rattle.cert_types.specs.Views.{side_bound_of};
ghost use Rattle.cert_types.specs.cert_program.Setting.{setting_of};
ghost use Rattle.cert_types.specs.cert_rules.AcceptsCosts.{side_bound_cost};
ghost use Rattle.cert_types.specs.cert_rules.Composed.{both_parts};
ghost use Rattle.cost_nodes.specs.ComposedCosts.{step_over};
ghost use Rattle.cost_nodes.specs.CostRules.{IsPreparedCost};

use crate::prepared_cost::PreparedCost;
use bound_expr::Bound;
use bound_table::{RewriteResult, rewrite_within};
use cert_types::{Known, SideBound, composed_side_bound, known_or_zero, nonlinear_update};
use model::Memory;
use poly_terms::Poly;
use std::alloc::Global;

/// The bound on what all steps by a rule cost: its time, times the maximum, over the rules that can come before, of the
/// side bound at the sizes after that rule; rewritten, or its number of nodes if it is too large. A time or a size that
/// isn't known counts as 0.
///
/// # Errors
///
/// `Memory` if an allocation fails.
pub fn composed_cost<K: Known>(
    alloc: Global,
    cost: &PreparedCost,
    side_bound: &SideBound,
    known: &K,
) -> Result<RewriteResult, Memory>
    requires cost { (p : Program) × IsPreparedCost p cost.now }
    requires readable { IsReadable side_bound.now }
    ensures { IfOk result (λ within. (p : Program) → IsPreparedCost p cost.now → answer_of within
        ≡ rewritten_within (side_bound_cost (setting_of p) (K.table known.now) cost.now.rule (side_bound_of side_bound.now))) }
{
    let before = cost.graph.pre(cost.rule);
    let poly = nonlinear_update(cost.rows, 0);
    let time = known_or_zero(alloc, known.time(cost.rule))?;
    let step = step_bound(alloc, side_bound, poly, before, known)?;
    let product = product_of(alloc, time, step)?;
    rewrite_within(alloc, &product)
}

// An upper bound on the cost of a step: the maximum, over these rules, of the side bound at the sizes after each.
fn step_bound<K: Known>(
    alloc: Global,
    side_bound: &SideBound,
    poly: Option<&Poly>,
    before: &[u32],
    known: &K,
) -> Result<Bound, Memory>
    requires readable { IsReadable side_bound.now }
    requires few { HasFewPlaces poly }
    ensures { IfOk result (λ bound. bound_of bound
        ≡ step_over (optional_poly poly.entry) (side_bound_of side_bound.now) (K.table known.now).size before.now) }
{
    let mut parts = Vec::new(alloc);
    for rule in before {
        let part = composed_side_bound(alloc, side_bound, poly, known, *rule, &[])?;
        parts.push(part)?;
    }
    Ok(Bound::Max(parts))
}

// The product of two bounds.
fn product_of(alloc: Global, first: Bound, second: Bound) -> Result<Bound, Memory>
    ensures { IfOk result (λ bound. bound_of bound ≡ ProductOf (both_parts (bound_of first) (bound_of second))) }
{
    let mut factors = Vec::new(alloc);
    factors.push(first)?;
    factors.push(second)?;
    Ok(Bound::Prod(factors))
}
