//! Checks whether multipliers certify that a form follows from rows.

ghost use Rattle.std.specs.Prelude.{◌≡◌, ℕ, ◌<◌, ◌≤◌, ◌↔◌, map, length, All, IsTrue};
ghost use Rattle.linear_forms.specs.Forms.{at};
ghost use Rattle.linear_forms.specs.Certificates.{Implies, combined_coef, minus_one};
ghost use Rattle.poly_terms.specs.Views.{form_of};
ghost use Rattle.farkas_cert.specs.Sizes.{AreSmall, AreWithinLimit};
ghost use Rattle.farkas_cert.specs.declared.combination.Column.{Column};
ghost use Rattle.farkas_cert.specs.Columns.{HaveAtMost};

use crate::combination::{Column, coefficient, combined};
use poly_terms::Row;

/// Whether the goal follows from the rows by these multipliers: there is one for each row, and the goal less the sum of
/// the rows times their multipliers has only coefficients 0 and a constant of at least 0.
///
/// Coefficients that a row doesn't list are 0. It allocates no memory, and no sum overflows.
pub fn implies(rows: &[Row], multipliers: &[u64], goal: &Row) -> bool
    requires multipliers_small { AreWithinLimit multipliers.now }
    requires rows_small { AreSmall (map form_of rows.now) }
    ensures { IsTrue result ↔ Implies (map form_of rows.now) multipliers.now (form_of goal.now) }
{
    follows(rows, multipliers, &goal.coefs, goal.constant)
}

/// Whether the multipliers show that the rows have no rational point: `implies` with the goal -1.
pub fn empty(rows: &[Row], multipliers: &[u64]) -> bool
    requires multipliers_small { AreWithinLimit multipliers.now }
    requires rows_small { AreSmall (map form_of rows.now) }
    ensures { IsTrue result ↔ Implies (map form_of rows.now) multipliers.now minus_one }
{
    follows(rows, multipliers, &[], -1)
}

// Whether the form with these coefficients and this constant follows from the rows by the multipliers.
fn follows(rows: &[Row], multipliers: &[u64], coefs: &[i128], constant: i128) -> bool
    requires multipliers_small { AreWithinLimit multipliers.now }
    requires rows_small { AreSmall (map form_of rows.now) }
    ensures { IsTrue result
        ↔ Implies (map form_of rows.now) multipliers.now (record { coefs = coefs.now; constant = constant }) }
{
    multipliers.len() == rows.len()
        && combined(rows, multipliers, Column::Constants) <= constant
        && has_coefs(rows, multipliers, coefs)
}

// Whether the sum of the rows, each times its multiplier, has these coefficients.
fn has_coefs(rows: &[Row], multipliers: &[u64], coefs: &[i128]) -> bool
    requires multipliers_small { AreWithinLimit multipliers.now }
    requires rows_small { AreSmall (map form_of rows.now) }
    ensures { IsTrue result ↔ ((u : ℕ) → at coefs.now u ≡ combined_coef multipliers.now (map form_of rows.now) u) }
{
    for unknown in 0..widest(rows).max(coefs.len()) {
        if combined(rows, multipliers, Column::Unknown(unknown)) != coefficient(coefs, unknown) {
            return false;
        }
    }
    true
}

// The greatest number of coefficients of a row.
fn widest(rows: &[Row]) -> usize
    ensures { HaveAtMost result (map form_of rows.now) }
{
    let mut width = 0;
    for row in rows {
        width = row.coefs.len().max(width);
    }
    width
}
