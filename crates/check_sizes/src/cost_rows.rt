//! Rules with costs, and the shapes of the numbers that certify them.

ghost use Rattle.std.specs.Prelude.{◌↔◌, length, IsTrue};
ghost use Rattle.check_sizes.specs.Costs.{AreRowMultipliers, HasNumbersBy};
ghost use Rattle.cert_types.specs.Views.{cost_by_of};

use crate::side_bound_numbers::has_side_bound_numbers;
use cert_context::{CheckContext, are_within_limit};
use cert_types::CostBy;
use guard_prep::RuleRows;

/// A rule with a cost, and the prepared rows of its cost rule. The rows are those of the guard and of the atom that the
/// cost is at least 0, and the cost is the only new value.
#[derive(Drop)]
pub struct CostRule<'a> {
    pub context: &'a CheckContext<'a>,
    pub rule: u32,
    pub prepared: &'a RuleRows,
}

/// Whether the numbers that certify a cost have the right shape.
pub(crate) fn has_cost_numbers(prepared: &RuleRows, by: &CostBy) -> bool
    ensures { IsTrue result
        ↔ HasNumbersBy (length prepared.now.rows.items) prepared.now.left (cost_by_of by.now) }
{
    match by {
        CostBy::Empty(multipliers) => are_row_multipliers(multipliers, prepared.rows.len()),
        CostBy::Never => true,
        CostBy::SideBound(side_bound) => has_side_bound_numbers(
            side_bound,
            prepared.left,
            prepared.rows.len(),
        ),
    }
}

// Whether there are multipliers for this many rows, within the limit.
fn are_row_multipliers(multipliers: &[u64], rows: usize) -> bool
    ensures { IsTrue result ↔ AreRowMultipliers rows multipliers.now }
{
    if multipliers.len() != rows {
        return false;
    }
    are_within_limit(multipliers)
}
