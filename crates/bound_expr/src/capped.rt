//! The value of a bound, capped at 2^127.

ghost use Rattle.std.specs.Prelude.{◌≡◌, ◌*◌, ◌+◌, ◌%◌, ◌≤◌, ◌^◌, max, length};
ghost use Rattle.model.specs.Bounds.{val_sum, val_product, val_maximum};
ghost use Rattle.bound_expr.specs.Views.{bound_of, bounds_of, parts_of};
ghost use Rattle.bound_expr.specs.Numbers.{ReadsBelow, AllReadBelow};
ghost use Rattle.bound_expr.specs.Limits.{cap};
ghost use Rattle.bound_expr.specs.Capped.{capped, capped_val};

use crate::bound::Bound;
use crate::limits::CAP;

impl Bound {
    /// The value of this bound where variable i is `at[i]`, or 2^127 where the value is greater.
    ///
    /// It allocates no memory, and its time doesn't grow with the exponents.
    pub fn capped_value(&self, at: &[u128]) -> u128
        requires { ReadsBelow (length at.now) (bound_of self.now) }
        ensures { result ≡ capped_val (bound_of self.now) at.now }
    {
        value_of(self, at)
    }
}

#[cycle(value)]
fn value_of(bound: &Bound, at: &[u128]) -> u128
    requires { ReadsBelow (length at.now) (bound_of bound.now) }
    ensures { result ≡ capped_val (bound_of bound.now) at.now }
{
    match bound {
        Bound::Const(c) => (*c).min(CAP),
        Bound::Var(i) => at[*i as usize].min(CAP),
        Bound::Sum(parts) => capped_sum(parts, at),
        Bound::Prod(parts) => capped_product(parts, at),
        Bound::Max(parts) => capped_maximum(parts, at),
        Bound::Power(base, exponent) => capped_power(u128::from(*base), value_of(exponent, at)),
    }
}

#[cycle(value)]
fn capped_sum(parts: &[Bound], at: &[u128]) -> u128
    requires { AllReadBelow (length at.now) (parts_of (bounds_of parts.now)) }
    ensures { result ≡ capped (val_sum (parts_of (bounds_of parts.now)) at.now) }
{
    let mut total = 0;
    for part in parts {
        total = capped_add(total, value_of(part, at));
    }
    total
}

#[cycle(value)]
fn capped_product(parts: &[Bound], at: &[u128]) -> u128
    requires { AllReadBelow (length at.now) (parts_of (bounds_of parts.now)) }
    ensures { result ≡ capped (val_product (parts_of (bounds_of parts.now)) at.now) }
{
    let mut product = 1;
    for part in parts {
        product = capped_multiply(product, value_of(part, at));
    }
    product
}

#[cycle(value)]
fn capped_maximum(parts: &[Bound], at: &[u128]) -> u128
    requires { AllReadBelow (length at.now) (parts_of (bounds_of parts.now)) }
    ensures { result ≡ capped (val_maximum (parts_of (bounds_of parts.now)) at.now) }
{
    let mut maximum = 0u128;
    for part in parts {
        maximum = maximum.max(value_of(part, at));
    }
    maximum
}

/// The sum of two numbers, or 2^127 where it is greater.
pub fn capped_add(a: u128, b: u128) -> u128
    ensures { result ≡ capped (a + b) }
{
    a.saturating_add(b).min(CAP)
}

/// The product of two numbers, or 2^127 where it is greater.
pub fn capped_multiply(a: u128, b: u128) -> u128
    ensures { result ≡ capped (a * b) }
{
    a.saturating_mul(b).min(CAP)
}

/// The power of a base, with exponent 0 giving 1, or 2^127 where it is greater.
///
/// It takes as many iterations as the exponent has bits.
pub fn capped_power(base: u128, exponent: u128) -> u128
    ensures { result ≡ capped (base ^ exponent) }
{
    let mut outcome = 1;
    let mut square = base;
    let mut rest = exponent;
    while rest > 0 {
        outcome = with_odd_factor(outcome, square, rest);
        square = capped_multiply(square, square);
        rest /= 2;
    }
    outcome
}

// The outcome with the square as one more factor, where the exponent that is left is odd.
fn with_odd_factor(outcome: u128, square: u128, rest: u128) -> u128
    requires { outcome ≤ cap }
    ensures { result ≡ capped (outcome * square ^ (rest % 2)) }
{
    if rest % 2 == 0 {
        return outcome;
    }
    capped_multiply(outcome, square)
}
