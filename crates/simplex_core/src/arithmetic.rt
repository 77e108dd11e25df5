//! The arithmetic of a pivot. The fractions of a tableau within the limit are below 2^31, so no number in a formula
//! exceeds 127 bits.

ghost use Rattle.std.specs.Prelude.{◌≡◌, ◌≢◌, ℕ, ◌^◌, ◌<◌, ℤ, pos, ◌-ℤ◌, ◌*ℤ◌, ◌<ℤ◌, negsuc, if◌then◌else◌};
ghost use Rattle.std.specs.Prelude.{unsigned_abs, MatchBool};
ghost use Rattle.frac128.specs.Fraction.{IsFraction};
ghost use Rattle.simplex_core.specs.Tableau.{sign_of};
ghost use Rattle.simplex_core.specs.Sizes.{number_limit, IsBelow};

use frac128::Frac;

/// The strict limit on the absolute values of a problem's numbers, and of numerators and denominators of a tableau:
/// 2^31.
pub(crate) const NUMBER_LIMIT: u128 = 1 << 31;

/// Whether numerator and denominator are below 2^31.
pub(crate) fn is_small(number: Frac) -> bool
    ensures { MatchBool result (IsBelow 31 number) (¬ IsBelow 31 number) }
{
    number.num.unsigned_abs() < NUMBER_LIMIT && number.den.unsigned_abs() < NUMBER_LIMIT
}

/// A number of a problem, with the sign that makes its row's right side at least 0.
pub(crate) fn signed(value: i128, right: i128) -> i128
    requires { unsigned_abs value < number_limit }
    ensures value { result ≡ sign_of right *ℤ value }
    ensures bounded { unsigned_abs result < number_limit }
{
    if right < 0 { -value } else { value }
}

/// 1 less a number of a tableau, or the negation of that.
pub(crate) fn one_less(number: Frac, is_negated: bool) -> Frac
    requires { IsBelow 31 number }
    ensures { IsFraction result ((if is_negated then negsuc 0 else pos 1) *ℤ (number.den -ℤ number.num)) number.den }
{
    if is_negated {
        difference(number, Frac::whole(1))
    } else {
        difference(Frac::whole(1), number)
    }
}

/// The quotient of two numbers of a tableau.
pub(crate) fn quotient(a: Frac, b: Frac) -> Frac
    requires a_small { IsBelow 31 a }
    requires b_small { IsBelow 31 b }
    requires positive { pos 0 <ℤ b.num }
    ensures exact { IsFraction result (a.num *ℤ b.den) (a.den *ℤ b.num) }
    ensures bounded { IsBelow 62 result }
{
    let over = small_product(a.num, b.den);
    let under = small_product(a.den, b.num);
    lowest(over, under)
}

/// A number of a tableau less another.
pub(crate) fn difference(a: Frac, b: Frac) -> Frac
    requires a_small { IsBelow 31 a }
    requires b_small { IsBelow 31 b }
    ensures { IsFraction result (a.num *ℤ b.den -ℤ b.num *ℤ a.den) (a.den *ℤ b.den) }
{
    match a.sub(b) {
        Ok(difference) => difference,
        Err(_) => unreachable!(),
    }
}

/// A number of a tableau less the product of a factor, which is a quotient of two, and another number. The result is
/// computed over the product of all three denominators unless they are 1.
pub(crate) fn less_multiple(a: Frac, factor: Frac, b: Frac) -> Frac
    requires a_small { IsBelow 31 a }
    requires factor_small { IsBelow 31 factor }
    requires b_bounded { IsBelow 62 b }
    ensures { IsFraction result ((a.num *ℤ factor.den) *ℤ b.den -ℤ (factor.num *ℤ b.num) *ℤ a.den)
        ((a.den *ℤ factor.den) *ℤ b.den) }
{
    if a.den == 1 && factor.den == 1 && b.den == 1 {
        return less_whole_multiple(a.num, factor.num, b.num);
    }
    let left = triple_product(a.num, factor.den, b.den);
    let right = triple_product(factor.num, a.den, b.num);
    let under = triple_product(a.den, factor.den, b.den);
    lowest(large_difference(left, right), under)
}

/// An integer less a multiple of another one.
fn less_whole_multiple(a: i128, factor: i128, b: i128) -> Frac
    requires a_small { unsigned_abs a < number_limit }
    requires factor_small { unsigned_abs factor < number_limit }
    requires b_bounded { unsigned_abs b < 2 ^ 62 }
    ensures num { result.num ≡ a -ℤ factor *ℤ b }
    ensures den { result.den ≡ pos 1 }
{
    Frac::whole(large_difference(a, large_product(factor, b)))
}

/// The fraction `over / under` in lowest terms.
pub(crate) fn lowest(over: i128, under: i128) -> Frac
    requires over_bounded { unsigned_abs over < 2 ^ 125 }
    requires under_bounded { unsigned_abs under < 2 ^ 125 }
    requires nonzero { under ≢ pos 0 }
    ensures { IsFraction result over under }
{
    match Frac::new(over, under) {
        Ok(fraction) => fraction,
        Err(_) => unreachable!(),
    }
}

/// The product of two numerators or denominators of a tableau.
fn small_product(a: i128, b: i128) -> i128
    requires a_small { unsigned_abs a < number_limit }
    requires b_small { unsigned_abs b < number_limit }
    ensures value { result ≡ a *ℤ b }
    ensures bounded { unsigned_abs result < 2 ^ 62 }
{
    a * b
}

/// The product of two such products.
fn large_product(a: i128, b: i128) -> i128
    requires a_small { unsigned_abs a < 2 ^ 62 }
    requires b_small { unsigned_abs b < 2 ^ 62 }
    ensures value { result ≡ a *ℤ b }
    ensures bounded { unsigned_abs result < 2 ^ 124 }
{
    a * b
}

/// The product of two numerators or denominators of a tableau and one of a quotient of two numbers of a tableau.
fn triple_product(a: i128, b: i128, c: i128) -> i128
    requires a_small { unsigned_abs a < number_limit }
    requires b_small { unsigned_abs b < number_limit }
    requires c_bounded { unsigned_abs c < 2 ^ 62 }
    ensures value { result ≡ (a *ℤ b) *ℤ c }
    ensures bounded { unsigned_abs result < 2 ^ 124 }
{
    large_product(small_product(a, b), c)
}

/// The difference of two such products.
fn large_difference(a: i128, b: i128) -> i128
    requires a_bounded { unsigned_abs a < 2 ^ 124 }
    requires b_bounded { unsigned_abs b < 2 ^ 124 }
    ensures value { result ≡ a -ℤ b }
    ensures bounded { unsigned_abs result < 2 ^ 125 }
{
    a - b
}

/// The numerator of the product of a and b when it is brought to the product of the four denominators of a, b, c and d.
pub(crate) fn cross_product(a: Frac, b: Frac, c: Frac, d: Frac) -> i128
    requires a_small { IsBelow 31 a }
    requires b_small { IsBelow 31 b }
    requires c_small { IsBelow 31 c }
    requires d_small { IsBelow 31 d }
    ensures { result ≡ (a.num *ℤ b.num) *ℤ (c.den *ℤ d.den) }
{
    large_product(small_product(a.num, b.num), small_product(c.den, d.den))
}
