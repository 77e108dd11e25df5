//! The costs of the columns.

ghost use Rattle.std.specs.Prelude.{◌≡◌, ℕ, ◌++◌, pos, map, replicate, IfOk};
ghost use Rattle.simplex_core.specs.linear_forms.Questions.{on_both, on_plus};

use crate::description::Cost;
use model::Memory;
use std::alloc::Global;

/// The first costs: each size for both columns of its parameter, and 0 for the columns of the groups.
pub(crate) fn first_costs(alloc: Global, costs: &[Cost], columns: u32) -> Result<Vec<i128>, Memory>
    ensures { IfOk result (λ v. v.items ≡ on_both (map (λ c. c.size) costs.now) ++ replicate columns (pos 0)) }
{
    let mut first = Vec::new(alloc);
    for cost in costs {
        let size = i128::from(cost.size);
        first.push(size)?;
        first.push(size)?;
    }
    with_zeros(first, columns)
}

/// The second costs: each height for the plus column of its parameter, and 0 for all other columns.
pub(crate) fn second_costs(alloc: Global, costs: &[Cost], columns: u32) -> Result<Vec<i128>, Memory>
    ensures { IfOk result (λ v. v.items ≡ on_plus (map (λ c. c.height) costs.now) ++ replicate columns (pos 0)) }
{
    let mut second = Vec::new(alloc);
    for cost in costs {
        let height = i128::from(cost.height);
        second.push(height)?;
        second.push(0)?;
    }
    with_zeros(second, columns)
}

/// Numbers followed by this many zeros.
fn with_zeros(numbers: Vec<i128>, zeros: u32) -> Result<Vec<i128>, Memory>
    ensures { IfOk result (λ v. v.items ≡ numbers.items ++ replicate zeros (pos 0)) }
{
    let mut all = numbers;
    let mut left = zeros;
    while left > 0 {
        all.push(0)?;
        left -= 1;
    }
    Ok(all)
}
