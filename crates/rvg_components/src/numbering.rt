//! The places of live rules, numbered in the order of rules and places.

ghost use Rattle.std.specs.Prelude.{◌≡◌, ℕ, ◌++◌, ◌<◌, ◌^◌, cond, map, length, IfOk, OnOk};
ghost use Rattle.std.specs.List.{sum};
ghost use Rattle.cert_types.specs.Views.{result_variable_of};
ghost use Rattle.rvg_components.specs.Listing.{answer_lists};
ghost use Rattle.rvg_components.specs.Numbering.{widths, firsts_from, places_of, result_variables_by_width};

use cert_types::ResultVariable;
use local_size::LocalAnswer;
use model::Memory;
use std::alloc::Global;

// The number of places of a rule: this many if it is live, else none.
fn width_of(is_live: bool, count: usize) -> usize
    ensures { result ≡ cond is_live count 0 }
{
    if is_live { count } else { 0 }
}

/// The number of places of each rule: as many as answers if it is live, else none.
pub(crate) fn widths_of(
    alloc: Global,
    locals: &[Vec<LocalAnswer>],
    live: &[bool],
) -> Result<Vec<usize>, Memory>
    requires { length locals.now ≡ length live.now }
    ensures { IfOk result (λ found. found.items ≡ widths (answer_lists locals.now) live.now) }
{
    let mut found = Vec::with_capacity(alloc, live.len())?;
    for (position, is_live) in live.iter().enumerate() {
        found.push(width_of(*is_live, locals[position].len()))?;
    }
    Ok(found)
}

/// The number of the first place of each rule.
pub(crate) fn first_places(alloc: Global, widths: &[usize]) -> Result<Vec<u32>, Memory>
    requires { sum widths.now < 2 ^ 31 }
    ensures { IfOk result (λ firsts. firsts.items ≡ firsts_from 0 widths.now) }
{
    let mut firsts = Vec::with_capacity(alloc, widths.len())?;
    let mut next = 0u32;
    for width in widths {
        firsts.push(next)?;
        next += *width as u32;
    }
    Ok(firsts)
}

// This many places of a rule, from the first on.
fn push_places(
    result_variables: &mut Vec<ResultVariable>,
    rule: u32,
    count: usize,
) -> Result<(), Memory>
    requires { count < 2 ^ 31 }
    ensures { OnOk result (map result_variable_of result_variables.new.items ≡ map result_variable_of result_variables.old.items ++ places_of rule 1 count) }
{
    for position in 0..count {
        let place = position as u32 + 1;
        result_variables.push(ResultVariable { rule, place })?;
    }
    Ok(())
}

/// The place with each number.
pub(crate) fn numbered_places(
    alloc: Global,
    widths: &[usize],
) -> Result<Vec<ResultVariable>, Memory>
    requires few { length widths.now < 2 ^ 31 }
    requires sum { sum widths.now < 2 ^ 31 }
    ensures { IfOk result (λ result_variables. map result_variable_of result_variables.items ≡ result_variables_by_width 1 widths.now) }
{
    let mut result_variables = Vec::new(alloc);
    for (position, width) in widths.iter().enumerate() {
        push_places(&mut result_variables, position as u32 + 1, *width)?;
    }
    Ok(result_variables)
}
