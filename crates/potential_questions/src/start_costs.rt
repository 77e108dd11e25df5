//! What the start symbol's function costs: about what its bound comes to at the directions.

use crate::draft::Draft;
use crate::error::{SearchError, as_number, negation, product};
use crate::layout::{Template, weight};
use integer_pivoting::Entry;
use std::alloc::Global;

/// What a unit costs at a direction, for each unit of the value at 1,000 times the direction.
const UNIT: i128 = 100;

/// How far below 0 the constant, and the part of a lower degree, are worth something.
const FLOOR: i128 = 10;

/// A constant below the floor is still worth a little for each unit, down to the opposite of this: so little that no
/// constant is worth a place.
const DEEP_UNIT: i128 = 2;

const DEEP_FLOOR: i128 = 1_000;

/// What the part of a degree costs: a price for each unit over the opposite of a floor.
#[derive(Clone, Copy)]
struct PartCost {
    degree: usize,
    price: i128,
    floor: i128,
}

/// Writes what the start function costs: at each direction the value of its part of each degree, where it is
/// positive, for lower degrees where it is over -10; and the constant, where it is over -10, and a little below that.
pub(crate) fn add_start_costs(
    alloc: Global,
    draft: &mut Draft,
    template: &Template,
    degree: u32,
    lists: &[Vec<i128>],
) -> Result<(), SearchError> {
    let count = i128::from(as_number(lists.len())?);
    let constant = PartCost {
        degree: 0,
        price: product(UNIT, count)?,
        floor: FLOOR,
    };
    add_cost(alloc, draft, template, &[], constant)?;
    let deep = PartCost {
        degree: 0,
        price: DEEP_UNIT,
        floor: DEEP_FLOOR,
    };
    add_cost(alloc, draft, template, &[], deep)?;
    let linear = PartCost {
        degree: 1,
        price: product(UNIT, weight(1))?,
        floor: if degree >= 2 { FLOOR } else { 0 },
    };
    let square = PartCost {
        degree: 2,
        price: product(UNIT, weight(2))?,
        floor: 0,
    };
    for list in lists {
        add_cost(alloc, draft, template, list, linear)?;
        if degree >= 2 {
            add_cost(alloc, draft, template, list, square)?;
        }
    }
    Ok(())
}

/// Writes what a start function costs of which a root is taken: at each direction its value, where it is positive, a
/// hundredth of the price of others.
pub(crate) fn add_start_sizes(
    alloc: Global,
    draft: &mut Draft,
    template: &Template,
    lists: &[Vec<i128>],
) -> Result<(), SearchError> {
    let linear = PartCost {
        degree: 1,
        price: weight(1),
        floor: 0,
    };
    for list in lists {
        add_cost(alloc, draft, template, list, linear)?;
    }
    Ok(())
}

// Writes the cost of the part of a degree at a direction.
fn add_cost(
    alloc: Global,
    draft: &mut Draft,
    template: &Template,
    list: &[i128],
    cost: PartCost,
) -> Result<(), SearchError> {
    let value = draft.column(cost.price, false)?;
    let slack = draft.column(0, false)?;
    let mut entries = Vec::new(alloc);
    entries.push(entry(value, 1))?;
    entries.push(entry(slack, -1))?;
    for coefficient in &template.coefficients {
        if coefficient.vars.len() == cost.degree {
            let number = monomial_at(&coefficient.vars, list)?;
            if let Some(plus) = coefficient.plus {
                entries.push(entry(plus, negation(number)?))?;
            }
            if let Some(minus) = coefficient.minus {
                entries.push(entry(minus, number))?;
            }
        }
    }
    draft.equation(entries, cost.floor)
}

// A number at a column.
fn entry(column: u32, value: i128) -> Entry {
    Entry { column, value }
}

// The product of the values of variables.
fn monomial_at(vars: &[u32], list: &[i128]) -> Result<i128, SearchError> {
    let mut value = 1;
    for variable in vars {
        value = product(value, list.get(*variable as usize).copied().unwrap_or(0))?;
    }
    Ok(value)
}
