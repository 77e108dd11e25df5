//! Facts as rows over the unknowns of a rule.

ghost use Rattle.std.specs.Prelude.{◌≡◌, ◌++◌, map, IfOk};
ghost use Rattle.std.specs.List.{All};
ghost use Rattle.poly_terms.specs.Views.{form_of};
ghost use Rattle.rule_questions.specs.SmallForms.{IsSmall, IsDifferenceSmall};
ghost use Rattle.location_facts.specs.CombinedRows.{IsGoalSmall};
ghost use Rattle.location_facts.specs.Rows.{value_before as before, value_after as after, lowered, margin};
ghost use Rattle.location_facts.specs.Rows.{row_before as row_of, row_after as goal_of, facts_at as facts_of_symbol};

use crate::copies::{copied_row, copied_rows};
use crate::fact::LocFact;
use crate::strengthening::facts_at;
use poly_terms::{Memory, Row};
use rule_questions::{constant_row, difference, unit_row};
use std::alloc::Global;

// The value at a place before a rule.
#[tactic(auto, using(crate::proofs::RowForms::before_none, crate::proofs::RowForms::before_unknown, crate::proofs::RowForms::none_small, crate::proofs::RowForms::unknown_small))]
fn value_before(alloc: Global, place: u32) -> Result<Row, Memory>
    ensures same { IfOk result (λ row. form_of row ≡ before place) }
    ensures small { IfOk result (λ row. IsSmall (form_of row)) }
{
    if place == 0 {
        return Ok(constant_row(alloc, 0));
    }
    unit_row(alloc, place - 1)
}

// The value at a place after a rule with these new values.
#[tactic(auto, using(crate::proofs::RowForms::after_none, crate::proofs::RowForms::after_found, crate::proofs::RowForms::after_missing, crate::proofs::RowForms::none_small, crate::proofs::RowForms::after_small))]
fn value_after(alloc: Global, new_values: &[Row], place: u32) -> Result<Row, Memory>
    requires { All (λ r. IsSmall (form_of r)) new_values.now }
    ensures same { IfOk result (λ row. form_of row ≡ after (map form_of new_values.now) place) }
    ensures small { IfOk result (λ row. IsSmall (form_of row)) }
{
    if place == 0 {
        return Ok(constant_row(alloc, 0));
    }
    match new_values.get(place as usize - 1) {
        Some(row) => {
            let copy = copied_row(alloc, row)?;
            Ok(copy)
        }
        None => Ok(constant_row(alloc, 0)),
    }
}

// A form less a number.
#[tactic(auto, using(crate::proofs::RowForms::lowered_small))]
fn lowered_row(row: Row, least: i64) -> Row
    requires { IsDifferenceSmall (form_of row) }
    ensures same { form_of result ≡ lowered (form_of row) least }
    ensures small { IsGoalSmall (form_of result) }
{
    let Row { coefs, constant } = row;
    Row {
        coefs,
        constant: constant - i128::from(least),
    }
}

// The margin of a fact, given the values at its places: how much the difference exceeds its `least`.
#[tactic(auto, using(crate::proofs::RowForms::margin_made))]
fn margin_row(alloc: Global, plus: &Row, minus: &Row, least: i64) -> Result<Row, Memory>
    requires plus { IsSmall (form_of plus.now) }
    requires minus { IsSmall (form_of minus.now) }
    ensures same { IfOk result (λ row. form_of row ≡ margin (form_of plus.now) (form_of minus.now) least) }
    ensures small { IfOk result (λ row. IsGoalSmall (form_of row)) }
{
    let row = difference(alloc, plus, minus)?;
    Ok(lowered_row(row, least))
}

/// A fact at the source of a rule, as a row.
#[tactic(auto, using(crate::proofs::RowForms::row_before_made))]
pub(crate) fn row_before(alloc: Global, fact: LocFact) -> Result<Row, Memory>
    ensures { IfOk result (λ row. form_of row ≡ row_of fact) }
{
    let plus = value_before(alloc, fact.plus)?;
    let minus = value_before(alloc, fact.minus)?;
    margin_row(alloc, &plus, &minus, fact.least)
}

/// A fact at the target of a rule with these new values, as a goal.
#[tactic(auto, using(crate::proofs::RowForms::row_after_made))]
pub(crate) fn row_after(alloc: Global, new_values: &[Row], fact: LocFact) -> Result<Row, Memory>
    requires { All (λ r. IsSmall (form_of r)) new_values.now }
    ensures same { IfOk result (λ row. form_of row ≡ goal_of (map form_of new_values.now) fact) }
    ensures small { IfOk result (λ row. IsGoalSmall (form_of row)) }
{
    let plus = value_after(alloc, new_values, fact.plus)?;
    let minus = value_after(alloc, new_values, fact.minus)?;
    margin_row(alloc, &plus, &minus, fact.least)
}

/// The combined rows of a rule: its own rows, followed by those of the facts at its source, in order.
pub(crate) fn combined_rows(
    alloc: Global,
    own: &[Row],
    source: u32,
    kept: &[LocFact],
) -> Result<Vec<Row>, Memory>
    ensures { IfOk result (λ rows. map form_of rows.items
        ≡ map form_of own.now ++ map row_of (facts_of_symbol source kept.now)) }
{
    let facts = facts_at(alloc, source, kept)?;
    let mut rows = copied_rows(alloc, own)?;
    push_facts(alloc, &mut rows, &facts)?;
    Ok(rows)
}

// Appends facts as rows.
fn push_facts(alloc: Global, rows: &mut Vec<Row>, facts: &[LocFact]) -> Result<(), Memory>
    ensures { IfOk result (λ _. map form_of rows.new.items ≡ map form_of rows.old.items ++ map row_of facts.now) }
{
    for fact in facts {
        rows.push(row_before(alloc, *fact)?)?;
    }
    Ok(())
}
