//! Whether values solve a linear program.

ghost use Rattle.std.specs.Prelude.{◌≡◌, true, pos, IfSome, slice_index_or};
ghost use Rattle.std.specs.List.{AllByRecursion};
ghost use Rattle.integer_pivoting.specs.Solutions.{sum_of, Meets, AreSigned, IsSolution};

use crate::program::{Column, Entry, Equation, LinearProgram, Solution};

/// Whether a solution has a value for each column, over a positive denominator, each at least 0 but for the free ones, and
/// meets each equation. False also where a number is beyond 128 bits.
pub(crate) fn is_solution(program: &LinearProgram, solution: &Solution) -> bool
    ensures { result ≡ true → IsSolution program.now solution.now }
{
    if solution.den <= 0 {
        return false;
    }
    are_signed(&program.columns, &solution.numerators)
        && are_met(&program.equations, &solution.numerators, solution.den)
}

// Whether there is a value for each column, at least 0 but for the free ones.
fn are_signed(columns: &[Column], values: &[i128]) -> bool
    ensures { result ≡ true → AreSigned columns.now values.now }
{
    match (columns.split_first(), values.split_first()) {
        (None, None) => true,
        (Some((column, columns)), Some((value, values))) => {
            (column.is_free || *value >= 0) && are_signed(columns, values)
        }
        _ => false,
    }
}

// Whether the values meet each equation.
fn are_met(equations: &[Equation], values: &[i128], den: i128) -> bool
    ensures { result ≡ true → AllByRecursion (Meets values.now den) equations.now }
{
    match equations.split_first() {
        None => true,
        Some((first, others)) => is_met(first, values, den) && are_met(others, values, den),
    }
}

// Whether the values meet an equation.
fn is_met(equation: &Equation, values: &[i128], den: i128) -> bool
    ensures { result ≡ true → Meets values.now den equation.now }
{
    let Some(sum) = sum_at(&equation.entries, values) else {
        return false;
    };
    match equation.right.checked_mul(den) {
        Some(right) => sum == right,
        None => false,
    }
}

// The sum of entries at values, where it is within 128 bits.
fn sum_at(entries: &[Entry], values: &[i128]) -> Option<i128>
    ensures { IfSome result (λ sum. sum ≡ sum_of entries.now values.now) }
{
    match entries.split_first() {
        None => Some(0),
        Some((first, others)) => {
            let product = first.value.checked_mul(value_at(values, first.column))?;
            product.checked_add(sum_at(others, values)?)
        }
    }
}

// The value of a column, 0 where there is none.
fn value_at(values: &[i128], column: u32) -> i128
    ensures { result ≡ slice_index_or values.now column (pos 0) }
{
    match values.get(column as usize) {
        Some(value) => *value,
        None => 0,
    }
}
