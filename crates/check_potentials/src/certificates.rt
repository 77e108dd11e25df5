//! Certificates: whether multiples of rows and of products of rows show that an expression is never negative.

ghost use Rattle.std.specs.Prelude.{◌≡◌, IfOk};
ghost use Rattle.poly_terms.specs.Views.{term_of};
ghost use Rattle.signed_bounds.specs.Safe.{expands_to_squares as expands};
ghost use Rattle.potential_nodes.specs.Certificates.{shows as is_shown, summand_term, rest as what_is_left};
ghost use Rattle.potential_nodes.specs.Certificates.{are_opposite as is_opposite, all_opposite as each_opposite};
ghost use Rattle.potential_nodes.specs.Certificates.{is_never_negative as is_natural_everywhere};
ghost use Rattle.check_potentials.specs.Grounds.{list_terms};
ghost use Rattle.potential_types.specs.Views.{summand_of, summands_of};

use crate::expressions::listed_row;
use crate::ground::RowList;
use affine_constants::is_natural_constant;
use poly_terms::{Expr, Memory};
use potential_types::Summand;
use signed_within::expands_to_squares;
use std::alloc::Global;

// The maximum number of unknowns of a rule.
const UNKNOWN_LIMIT: u32 = 96;

/// Whether the summands show the goal over the rows: the two rows that each summand says are opposites have a sum of at
/// most 0, and the goal less all summands is never negative.
///
/// # Errors
///
/// `Memory` where an allocation fails.
pub(crate) fn shows(
    alloc: Global,
    rows: RowList,
    summands: &[Summand],
    goal: Expr,
) -> Result<bool, Memory>
    ensures { IfOk result (λ r. r
        ≡ is_shown expands (list_terms rows.entry) (summands_of summands.now) (term_of goal)) }
{
    if !all_opposite(alloc, rows, summands)? {
        return Ok(false);
    }
    let left = rest(alloc, rows, summands, goal)?;
    is_never_negative(alloc, &left)
}

// Whether an expression expands to squares, or is affine in the unknowns and has the same natural number as its value
// everywhere.
fn is_never_negative(alloc: Global, e: &Expr) -> Result<bool, Memory>
    ensures { IfOk result (λ r. r ≡ is_natural_everywhere expands (term_of e.now)) }
{
    if expands_to_squares(alloc, e)? {
        return Ok(true);
    }
    is_natural_constant(alloc, UNKNOWN_LIMIT, e)
}

// Whether the rows that each summand says are opposites have a sum of at most 0.
fn all_opposite(alloc: Global, rows: RowList, summands: &[Summand]) -> Result<bool, Memory>
    ensures { IfOk result (λ r. r ≡ each_opposite expands (list_terms rows.entry) (summands_of summands.now)) }
{
    for summand in summands {
        if !are_opposite(alloc, rows, *summand)? {
            return Ok(false);
        }
    }
    Ok(true)
}

fn are_opposite(alloc: Global, rows: RowList, summand: Summand) -> Result<bool, Memory>
    ensures { IfOk result (λ r. r ≡ is_opposite expands (list_terms rows.entry) (summand_of summand)) }
{
    match summand {
        Summand::OneRow { .. } | Summand::TwoRows { .. } => Ok(true),
        Summand::ZeroRow { row, opposite, .. } => {
            let first = listed_row(alloc, rows, row)?;
            let second = listed_row(alloc, rows, opposite)?;
            let sum = Expr::sum(alloc, first, second)?;
            let negated = Expr::negation(alloc, sum)?;
            is_never_negative(alloc, &negated)
        }
    }
}

// The goal less each summand.
fn rest(alloc: Global, rows: RowList, summands: &[Summand], goal: Expr) -> Result<Expr, Memory>
    ensures { IfOk result (λ e. term_of e
        ≡ what_is_left (list_terms rows.entry) (summands_of summands.now) (term_of goal)) }
{
    match summands.split_first() {
        None => Ok(goal),
        Some((summand, others)) => {
            let term = summand_expr(alloc, rows, *summand)?;
            let left = Expr::difference(alloc, goal, term)?;
            rest(alloc, rows, others, left)
        }
    }
}

// A summand as an expression.
fn summand_expr(alloc: Global, rows: RowList, summand: Summand) -> Result<Expr, Memory>
    ensures { IfOk result (λ e. term_of e ≡ summand_term (list_terms rows.entry) (summand_of summand)) }
{
    match summand {
        Summand::OneRow { times, row } => {
            let row = listed_row(alloc, rows, row)?;
            Expr::product(alloc, Expr::Num(times as i128), row)
        }
        Summand::TwoRows {
            times,
            first,
            second,
        } => {
            let first = listed_row(alloc, rows, first)?;
            let second = listed_row(alloc, rows, second)?;
            let product = Expr::product(alloc, first, second)?;
            Expr::product(alloc, Expr::Num(times as i128), product)
        }
        Summand::ZeroRow {
            times,
            row,
            variable,
            ..
        } => {
            let row = listed_row(alloc, rows, row)?;
            let product = Expr::product(alloc, Expr::Var(variable), row)?;
            Expr::product(alloc, Expr::Num(times as i128), product)
        }
    }
}
