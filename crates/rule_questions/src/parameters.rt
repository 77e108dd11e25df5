//! The parameters in a solution.

ghost use Rattle.std.specs.Prelude.{◌≡◌, ◌+◌, ◌*◌, ◌≤◌, length, nat_abs};
ghost use Rattle.poly_terms.specs.linear_forms.Forms.{at};
ghost use Rattle.poly_terms.specs.linear_forms.Limits.{certificate_limit};
ghost use Rattle.poly_terms.specs.linear_forms.QuestionLaws.{parameters_of};
ghost use Rattle.lp_builder.specs.simplex_core.Scaling.{AreWithin};

/// A parameter in a solution: its plus column less its minus column.
pub fn parameter_at(numbers: &[i64], parameter: u32) -> i64
    requires { AreWithin certificate_limit (length numbers.now) numbers.now }
    ensures { result ≡ parameters_of (at numbers.now) parameter }
{
    let plus = 2 * parameter as usize;
    column_at(numbers, plus) - column_at(numbers, plus + 1)
}

// The number of a column, or 0 past the last one.
fn column_at(numbers: &[i64], column: usize) -> i64
    requires { AreWithin certificate_limit (length numbers.now) numbers.now }
    ensures value { result ≡ at numbers.now column }
    ensures small { nat_abs result ≤ certificate_limit }
{
    match numbers.get(column) {
        Some(number) => *number,
        None => 0,
    }
}
