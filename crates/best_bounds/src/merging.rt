//! The best statement on each subject, of those of two lists.

ghost use Rattle.std.specs.Prelude.{◌≡◌, ◌⊎◌, ◌++◌, ◌∷◌, map, IfOk, OnOk};
ghost use Rattle.claims_check.specs.Views.{stated_of};
ghost use Rattle.best_bounds.specs.Subjects.{KeepsSubjects};

use crate::comparing::{Comparison, Measure};
use crate::statements::{bound_in, comes_before, copied, is_on_same};
use claims_check::Statement;
use poly_terms::Memory;
use std::alloc::Global;

/// The statements of two ordered lists in one ordered list. Of two on one subject it has the second list's where its bound
/// is less by the margin, and else the first list's.
///
/// # Errors
///
/// `Memory` where an allocation fails.
pub(crate) fn merged(
    alloc: Global,
    known: &[Statement],
    found: &[Statement],
    comparison: Comparison<'_>,
) -> Result<Vec<Statement>, Memory>
    ensures { IfOk result (λ merged. KeepsSubjects
        (map stated_of known.now ++ map stated_of found.now) (map stated_of merged.items)) }
{
    let mut merged = Vec::new(alloc);
    let mut left = found;
    for statement in known {
        let behind = push_earlier(alloc, &mut merged, statement, left)?;
        let Choice {
            statement: best,
            left: others,
        } = better_statement(statement, behind, comparison);
        merged.push(copied(alloc, best)?)?;
        left = others;
    }
    push_all(alloc, &mut merged, left)?;
    Ok(merged)
}

// Appends copies of the statements of an ordered list that come before a statement, and gives the others.
fn push_earlier<'a>(
    alloc: Global,
    merged: &mut Vec<Statement>,
    statement: &Statement,
    found: &'a [Statement],
) -> Result<&'a [Statement], Memory>
    ensures { IfOk result (λ left. map stated_of merged.new.items ++ map stated_of left.now
        ≡ map stated_of merged.old.items ++ map stated_of found.now) }
{
    let mut left = found;
    while let Some((first, others)) = left.split_first() {
        if !comes_before(first, statement) {
            break;
        }
        merged.push(copied(alloc, first)?)?;
        left = others;
    }
    Ok(left)
}

// The chosen statement, and the remaining statements of the other list.
#[derive(Clone, Copy)]
struct Choice<'a> {
    statement: &'a Statement,
    left: &'a [Statement],
}

// The better one of a statement and of the first one of a list, if that is on the same subject; else the statement.
#[tactic(auto, using(crate::proofs::SubjectLists::keeps_own, crate::proofs::SubjectLists::keeps_one))]
fn better_statement<'a>(
    statement: &'a Statement,
    found: &'a [Statement],
    comparison: Comparison<'_>,
) -> Choice<'a>
    ensures { KeepsSubjects (stated_of statement.now ∷ map stated_of found.now)
        (stated_of result.statement.now ∷ map stated_of result.left.now) }
{
    match found.split_first() {
        None => Choice {
            statement,
            left: found,
        },
        Some((rival, others)) => {
            if is_on_same(statement, rival) {
                Choice {
                    statement: with_lesser_bound(statement, rival, comparison),
                    left: others,
                }
            } else {
                Choice {
                    statement,
                    left: found,
                }
            }
        }
    }
}

// Of two statements the second one where its bound is less by the margin, and else the first one.
fn with_lesser_bound<'a>(
    statement: &'a Statement,
    rival: &'a Statement,
    comparison: Comparison<'_>,
) -> &'a Statement
    ensures { (result.now ≡ statement.now) ⊎ (result.now ≡ rival.now) }
{
    if replaces(rival, statement, comparison) {
        rival
    } else {
        statement
    }
}

// Whether the bound of a statement is less than that of another one by the margin.
fn replaces(statement: &Statement, other: &Statement, comparison: Comparison<'_>) -> bool {
    match (bound_in(statement), bound_in(other)) {
        (Some(bound), Some(most)) => {
            let measure = Measure::of_bound(bound, comparison);
            measure.replaces(Measure::of_bound(most, comparison), comparison.margin)
        }
        _ => false,
    }
}

// Appends copies of statements.
fn push_all(
    alloc: Global,
    merged: &mut Vec<Statement>,
    statements: &[Statement],
) -> Result<(), Memory>
    ensures { OnOk result (map stated_of merged.new.items
        ≡ map stated_of merged.old.items ++ map stated_of statements.now) }
{
    for statement in statements {
        merged.push(copied(alloc, statement)?)?;
    }
    Ok(())
}
