//! Statements one by one: their subjects, their order, and copies.

ghost use Rattle.std.specs.Prelude.{◌≡◌, ◌≤◌, true, IfOk};
ghost use Rattle.claims_check.specs.Views.{stated_of};
ghost use Rattle.best_bounds.specs.Subjects.{subject_of, one_if_on_steps};

use claims_check::Statement;
use poly_terms::Memory;
use potential_types::copied_bound;
use program_copies::copied_expr;
use signed_bounds::Signed;
use std::alloc::Global;

/// Whether two statements are bounds on the same subject. A fact at a symbol isn't.
pub(crate) fn is_on_same(statement: &Statement, other: &Statement) -> bool
    ensures { result ≡ true → subject_of (stated_of statement.now) ≡ subject_of (stated_of other.now) }
{
    match (statement, other) {
        (Statement::Time(rule, _), Statement::Time(number, _)) => *rule == *number,
        (Statement::Cost(rule, _), Statement::Cost(number, _)) => *rule == *number,
        (Statement::Total(_), Statement::Total(_)) => true,
        (Statement::Above(rule, place, _), Statement::Above(number, at, _)) => {
            *rule == *number && *place == *at
        }
        (Statement::Below(rule, place, _), Statement::Below(number, at, _)) => {
            *rule == *number && *place == *at
        }
        _ => false,
    }
}

/// Whether a statement comes before another one in an ordered list: times, costs, the total, values from above, values
/// from below, and facts, each by rules or symbols, and then by places.
pub(crate) fn comes_before(statement: &Statement, other: &Statement) -> bool {
    let (kind, owner, place) = position_of(statement);
    let (other_kind, other_owner, other_place) = position_of(other);
    if kind != other_kind {
        return kind < other_kind;
    }
    if owner != other_owner {
        return owner < other_owner;
    }
    place < other_place
}

// Where a statement stands in an ordered list: which kind it is of, its rule or symbol, and its place.
fn position_of(statement: &Statement) -> (u32, u32, u32) {
    match statement {
        Statement::Time(rule, _) => (0, *rule, 0),
        Statement::Cost(rule, _) => (1, *rule, 0),
        Statement::Total(_) => (2, 0, 0),
        Statement::Above(rule, place, _) => (3, *rule, *place),
        Statement::Below(rule, place, _) => (4, *rule, *place),
        Statement::AtSymbol(symbol, _) => (5, *symbol, 0),
    }
}

/// The bound of a statement; none of a fact at a symbol.
pub(crate) fn bound_in(statement: &Statement) -> Option<&Signed> {
    match statement {
        Statement::Time(_, bound) => Some(bound),
        Statement::Cost(_, bound) => Some(bound),
        Statement::Total(bound) => Some(bound),
        Statement::Above(_, _, bound) => Some(bound),
        Statement::Below(_, _, bound) => Some(bound),
        Statement::AtSymbol(_, _) => None,
    }
}

/// 1 for a bound on a time, on a cost or on all costs, and 0 for another statement.
pub(crate) fn one_if_bounds_steps(statement: &Statement) -> usize
    ensures value { result ≡ one_if_on_steps (stated_of statement.now) }
    ensures small { result ≤ 1 }
{
    match statement {
        Statement::Time(_, _) | Statement::Cost(_, _) | Statement::Total(_) => 1,
        Statement::Above(_, _, _) | Statement::Below(_, _, _) | Statement::AtSymbol(_, _) => 0,
    }
}

/// A copy of a statement.
///
/// # Errors
///
/// `Memory` where an allocation fails.
pub(crate) fn copied(alloc: Global, statement: &Statement) -> Result<Statement, Memory>
    ensures { IfOk result (λ copy. stated_of copy ≡ stated_of statement.now) }
{
    match statement {
        Statement::Time(rule, bound) => Ok(Statement::Time(*rule, copied_bound(alloc, bound)?)),
        Statement::Cost(rule, bound) => Ok(Statement::Cost(*rule, copied_bound(alloc, bound)?)),
        Statement::Total(bound) => Ok(Statement::Total(copied_bound(alloc, bound)?)),
        Statement::Above(rule, place, bound) => Ok(Statement::Above(
            *rule,
            *place,
            copied_bound(alloc, bound)?,
        )),
        Statement::Below(rule, place, bound) => Ok(Statement::Below(
            *rule,
            *place,
            copied_bound(alloc, bound)?,
        )),
        Statement::AtSymbol(symbol, fact) => Ok(Statement::AtSymbol(
            *symbol,
            copied_expr(alloc, fact)?,
        )),
    }
}
