//! Nodes that bound a form of a rule by a number.

ghost use Rattle.std.specs.Prelude.{◌≡◌, IfOk, option_map};
ghost use Rattle.signed_bounds.specs.Bounds.{Constant};
ghost use Rattle.signed_bounds.specs.Safe.{expands_to_squares as expands};
ghost use Rattle.signed_bounds.specs.Within.{within};
ghost use Rattle.signed_bounds.specs.Views.{signed_of};
ghost use Rattle.potential_nodes.specs.Checks.{first_refused};
ghost use Rattle.potential_nodes.specs.PlainPeaks.{row_checks};
ghost use Rattle.potential_types.specs.Views.{reason_of, row_node_of};
ghost use Rattle.check_potentials.specs.Grounds.{IsPrepared, plain_ground};
ghost use Rattle.check_potentials.specs.Stages.{row_floor};

use crate::certificates::shows;
use crate::expressions::form_expr;
use crate::ground::{Ground, rows_of, variables_of};
use poly_terms::{Expr, Memory};
use potential_types::{Reason, RowNode, reads_below};
use signed_bounds::Signed;
use signed_within::is_within;
use std::alloc::Global;

/// The first reason why a node with a stated bound isn't accepted; `None` if it is accepted.
///
/// # Errors
///
/// `Memory` where an allocation fails.
pub(crate) fn row_refusal(
    alloc: Global,
    ground: Ground,
    node: &RowNode,
    bound: &Signed,
) -> Result<Option<Reason>, Memory>
    requires { IsPrepared ground }
    ensures { IfOk result (λ o. option_map reason_of o
        ≡ first_refused (row_checks (plain_ground ground.entry) (row_node_of node.now) (signed_of bound.now))) }
{
    let is_right = reads_below(variables_of(ground, node.rule), &node.form);
    if !is_right {
        return Ok(Some(Reason::BadShape));
    }
    let is_shown = is_row_shown(alloc, ground, node)?;
    if !is_shown {
        return Ok(Some(Reason::BadFloor(node.rule)));
    }
    let is_high = is_number_within(alloc, node.number, bound)?;
    if !is_high {
        return Ok(Some(Reason::LowBound));
    }
    Ok(None)
}

// Whether the certificate of a node shows that the polynomial is at most the number.
fn is_row_shown(alloc: Global, ground: Ground, node: &RowNode) -> Result<bool, Memory>
    requires { IsPrepared ground }
    ensures { IfOk result (λ r. r ≡ (row_floor (plain_ground ground.entry) (row_node_of node.now)).holds) }
{
    let form = form_expr(alloc, &node.form.terms)?;
    let goal = Expr::difference(alloc, Expr::Num(node.number as i128), form)?;
    shows(alloc, rows_of(ground, node.rule), &node.certificate, goal)
}

/// A number as a bound.
pub(crate) fn number_bound(number: u64) -> Signed
    ensures { signed_of result ≡ Constant number }
{
    Signed::Const(u128::from(number))
}

// Whether a bound is at least a number.
fn is_number_within(alloc: Global, number: u64, bound: &Signed) -> Result<bool, Memory>
    ensures { IfOk result (λ r. r ≡ within expands 1 (Constant number) (signed_of bound.now)) }
{
    let least = number_bound(number);
    is_within(alloc, 1, &least, bound)
}
