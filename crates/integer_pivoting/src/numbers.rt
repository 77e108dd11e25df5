//! Arithmetic in 128 bits that answers when it leaves them.

use crate::error::SolveError;
use int_laws::greatest_common_divisor;

/// The negation of a number.
pub(crate) fn negation(value: i128) -> Result<i128, SolveError> {
    value.checked_neg().ok_or(SolveError::Range)
}

/// The product of two numbers.
pub(crate) fn product(a: i128, b: i128) -> Result<i128, SolveError> {
    a.checked_mul(b).ok_or(SolveError::Range)
}

/// A product less another.
pub(crate) fn difference_of_products(
    a: i128,
    b: i128,
    c: i128,
    d: i128,
) -> Result<i128, SolveError> {
    product(a, b)?
        .checked_sub(product(c, d)?)
        .ok_or(SolveError::Range)
}

/// The greatest common divisor of two numbers; 1 where it would be 0 or beyond the positive numbers.
pub(crate) fn common_divisor(a: i128, b: i128) -> i128 {
    let divisor = greatest_common_divisor(a.unsigned_abs(), b.unsigned_abs());
    match i128::try_from(divisor) {
        Ok(divisor) => divisor.max(1),
        Err(_) => 1,
    }
}

/// The quotient by a positive number, rounded towards 0; the number itself where the divisor isn't positive.
pub(crate) fn divided(value: i128, divisor: i128) -> i128 {
    if divisor > 1 { value / divisor } else { value }
}
