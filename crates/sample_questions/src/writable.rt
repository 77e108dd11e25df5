//! Whether the parts of a group can be written.

ghost use Rattle.std.specs.Prelude.{◌≤◌, ◌<◌, ◌^◌, IsTrue, unsigned_abs, length};
ghost use Rattle.std.specs.List.{All};
ghost use Rattle.lp_builder.specs.poly_terms.Views.{form_of};
ghost use Rattle.lp_builder.specs.Descriptions.{AreParameters, IsWritable};

use lp_builder::{Goal, Row};

/// Whether each number can be negated in 128 bits.
fn are_narrow(numbers: &[i128]) -> bool
    ensures { IsTrue result → All (λ a. unsigned_abs a < 2 ^ 127) numbers.now }
{
    for number in numbers {
        if number.unsigned_abs() >= 1 << 127 {
            return false;
        }
    }
    true
}

/// Whether a form has no coefficient past its unknowns, and its numbers can be negated.
pub(crate) fn is_writable(unknowns: u32, form: &Row) -> bool
    ensures { IsTrue result → IsWritable unknowns (form_of form.now) }
{
    form.coefs.len() <= unknowns as usize
        && are_narrow(&form.coefs)
        && form.constant.unsigned_abs() < 1 << 127
}

/// Whether each row can be written.
pub(crate) fn are_rows_writable(unknowns: u32, rows: &[Row]) -> bool
    ensures { IsTrue result → All (λ r. IsWritable unknowns (form_of r)) rows.now }
{
    for row in rows {
        if !is_writable(unknowns, row) {
            return false;
        }
    }
    true
}

/// Whether each goal's form can be written.
pub(crate) fn are_goals_writable(unknowns: u32, goals: &[Goal]) -> bool
    ensures { IsTrue result → All (λ g. IsWritable unknowns (form_of g.form)) goals.now }
{
    for goal in goals {
        if !is_writable(unknowns, &goal.form) {
            return false;
        }
    }
    true
}

/// Whether the parameters of the goals ascend, and there are this many.
pub(crate) fn are_parameters(count: u32, goals: &[Goal]) -> bool
    ensures { IsTrue result → AreParameters count goals.now }
{
    let mut next = 0;
    for position in 0..goals.len() {
        let parameter = goals[position].parameter;
        if parameter < next || parameter >= count {
            return false;
        }
        next = parameter + 1;
    }
    true
}
