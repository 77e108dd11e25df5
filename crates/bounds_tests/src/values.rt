//! Values of bounds at small numbers.

use bound_expr::Bound;

/// The arguments at which values are compared.
pub(crate) const POINTS: [[u128; 4]; 4] = [[0, 0, 0, 0], [1, 0, 2, 5], [3, 4, 1, 0], [2, 2, 7, 1]];

/// The value of a bound at small numbers.
pub(crate) fn value(bound: &Bound, at: &[u128]) -> u128 {
    match bound {
        Bound::Const(number) => *number,
        Bound::Var(i) => at.get(*i as usize).copied().unwrap_or(0),
        Bound::Sum(parts) => {
            let mut total = 0u128;
            for part in parts {
                total = total.saturating_add(value(part, at));
            }
            total
        }
        Bound::Prod(parts) => {
            let mut product = 1u128;
            for part in parts {
                product = product.saturating_mul(value(part, at));
            }
            product
        }
        Bound::Max(parts) => {
            let mut maximum = 0u128;
            for part in parts {
                maximum = maximum.max(value(part, at));
            }
            maximum
        }
        Bound::Power(base, exponent) => {
            let mut product = 1u128;
            for _ in 0..value(exponent, at).min(200) {
                product = product.saturating_mul(u128::from(*base));
            }
            product
        }
    }
}
