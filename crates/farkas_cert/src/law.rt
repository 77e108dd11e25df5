//! Laws of sizes: the rows of one rule are small enough for certificates, and worked values of limits.

ghost use Rattle.std.specs.Prelude.{◌≡◌};
ghost use Rattle.linear_forms.specs.Limits.{certificate_limit};
ghost use Rattle.farkas_cert.specs.Sizes.{RowsOfARuleAreSmall};
ghost use Rattle.farkas_cert.specs.WorkedSizes.{SizesAreWorkedOut};

use linear_forms::CERTIFICATE_LIMIT as LIMIT;

/// At most 128 rows with numbers of at most 2^63-1 in absolute value satisfy the condition on sums, as the rows of each
/// rule do. The function has no code: its contract is the law.
pub fn rows_of_a_rule_are_small()
    ensures { RowsOfARuleAreSmall }
{}

/// Worked values of the conditions on multipliers, rows, columns and parts at their limits, on both sides. The function
/// has no code: its contract is the law.
pub fn sizes_are_as_worked_out()
    ensures { SizesAreWorkedOut }
{}

/// The constant of the code is the limit of the definitions.
pub fn limit_is_as_defined()
    ensures { LIMIT ≡ certificate_limit }
{}
