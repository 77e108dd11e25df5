//! Checks numbers against their limits: multipliers, coefficients and constants.

ghost use Rattle.std.specs.Prelude.{◌↔◌, IsTrue, nat_abs};
ghost use Rattle.std.specs.List.{All};
ghost use Rattle.cert_context.specs.CheckContexts.{IsCheckContext, program, setting};
ghost use Rattle.cert_types.specs.cert_rules.AcceptsPlain.{AreMultipliers, IsRule};
ghost use Rattle.cert_types.specs.cert_rules.Limits.{AreInLimit, IsInLimit};

use crate::context::{CheckContext, prepared_rule};
use farkas_cert::LIMIT;

/// Whether there is a multiplier for each row of a rule, and all are within the limit.
pub fn are_multipliers(context: &CheckContext, rule: u32, multipliers: &[u64]) -> bool
    requires context { IsCheckContext context.now }
    requires rule { IsRule (program context.now) rule }
    ensures { IsTrue result ↔ AreMultipliers (setting context.now) rule multipliers.now }
{
    multipliers.len() == prepared_rule(context, rule).rows.len() && are_within_limit(multipliers)
}

/// Whether multipliers are within the limit.
pub fn are_within_limit(multipliers: &[u64]) -> bool
    ensures { IsTrue result ↔ AreInLimit multipliers.now }
{
    for multiplier in multipliers {
        if *multiplier > LIMIT {
            return false;
        }
    }
    true
}

/// Whether a coefficient or a constant is within the limit.
pub fn is_within(number: i64) -> bool
    ensures { IsTrue result ↔ IsInLimit (nat_abs number) }
{
    number.unsigned_abs() <= LIMIT
}

/// Whether coefficients are within the limit.
pub fn are_within(coefs: &[i64]) -> bool
    ensures { IsTrue result ↔ All (λ c. IsInLimit (nat_abs c)) coefs.now }
{
    for coef in coefs {
        if coef.unsigned_abs() > LIMIT {
            return false;
        }
    }
    true
}
