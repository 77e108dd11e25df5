//! Fractions in lowest terms.

ghost use Rattle.std.specs.Prelude.{◌≡◌, ◌≢◌, ℕ, ℤ, pos, ◌<ℤ◌, neg_ℤ};
ghost use Rattle.frac128.specs.Narrow.{IsNarrow};
ghost use Rattle.frac128.specs.Lowest.{IsLowest};

use crate::divisor::{exact_quotient, signed_divisor};
use crate::narrow::{Range, difference, product, sum};
use std::cmp::Ordering;

/// An exact fraction in lowest terms, with a denominator of at least 1.
#[derive(Clone, Copy, Debug, PartialEq, Eq, Hash)]
pub struct Frac {
    /// The numerator, which has the fraction's sign.
    pub num: i128,
    /// The denominator, at least 1.
    pub den: i128,
    ghost narrow: { IsNarrow num },
    ghost positive: { pos 0 <ℤ den },
    ghost lowest: { IsLowest num den },
}

impl Frac {
    ghost use Rattle.std.specs.Prelude.{◌+ℤ◌, ◌-ℤ◌, ◌*ℤ◌, [], ◌∷◌};
    ghost use Rattle.frac128.specs.Fraction.{IsFraction, IsExactOrRange, IsOrderOrRange, IsFloor, IsCeiling};

    /// The fraction `num / den`, reduced.
    ///
    /// # Errors
    ///
    /// `Range` exactly if `num` or `den` is -2^127.
    pub fn new(num: i128, den: i128) -> Result<Frac, Range>
        requires { den ≢ pos 0 }
        ensures { IsExactOrRange result (num ∷ den ∷ []) num den }
    {
        if num == i128::MIN || den == i128::MIN {
            Err(Range)
        } else {
            Ok(Frac::reduced(num, den))
        }
    }

    /// The fraction `over / under` in lowest terms.
    fn reduced(over: i128, under: i128) -> Frac
        requires over_narrow { IsNarrow over }
        requires under_narrow { IsNarrow under }
        requires nonzero { under ≢ pos 0 }
        ensures { IsFraction result over under }
    {
        if under == 1 {
            return Frac::whole(over);
        }
        let divisor = signed_divisor(over, under);
        Frac {
            num: exact_quotient(over, divisor),
            den: exact_quotient(under, divisor),
        }
    }

    /// The integer `num`, whose absolute value is at most 2^127 - 1.
    pub fn whole(num: i128) -> Frac
        requires { IsNarrow num }
        ensures { (result.num ≡ num) × (result.den ≡ pos 1) }
    {
        Frac { num, den: 1 }
    }

    /// The sum: `(a*d + c*b)/(b*d)` for a/b and c/d.
    ///
    /// # Errors
    ///
    /// `Range` exactly if not all of `a*d`, `c*b`, their sum and `b*d` are within -2^127 + 1 and 2^127 - 1.
    #[tactic(auto, using(crate::proofs::Outcomes::exits))]
    pub fn add(self, other: Frac) -> Result<Frac, Range>
        ensures { let left = self.num *ℤ other.den in
            let right = other.num *ℤ self.den in
            let under = self.den *ℤ other.den in
            IsExactOrRange result (left ∷ right ∷ (left +ℤ right) ∷ under ∷ []) (left +ℤ right) under }
    {
        if self.num == 0 {
            return Ok(other);
        }
        if other.num == 0 {
            return Ok(self);
        }
        if self.den == 1 && other.den == 1 {
            return Ok(Frac::whole(sum(self.num, other.num)?));
        }
        let left = product(self.num, other.den)?;
        let right = product(other.num, self.den)?;
        let over = sum(left, right)?;
        let under = product(self.den, other.den)?;
        Ok(Frac::reduced(over, under))
    }

    /// The difference: `(a*d - c*b)/(b*d)` for a/b and c/d.
    ///
    /// # Errors
    ///
    /// `Range` exactly if not all of `a*d`, `c*b`, their difference and `b*d` are within -2^127 + 1 and 2^127 - 1.
    #[tactic(auto, using(crate::proofs::Outcomes::exits))]
    pub fn sub(self, other: Frac) -> Result<Frac, Range>
        ensures { let left = self.num *ℤ other.den in
            let right = other.num *ℤ self.den in
            let under = self.den *ℤ other.den in
            IsExactOrRange result (left ∷ right ∷ (left -ℤ right) ∷ under ∷ []) (left -ℤ right) under }
    {
        if self.num == 0 {
            return Ok(other.negated());
        }
        if other.num == 0 {
            return Ok(self);
        }
        if self.den == 1 && other.den == 1 {
            return Ok(Frac::whole(difference(self.num, other.num)?));
        }
        let left = product(self.num, other.den)?;
        let right = product(other.num, self.den)?;
        let over = difference(left, right)?;
        let under = product(self.den, other.den)?;
        Ok(Frac::reduced(over, under))
    }

    /// The product: `(a*c)/(b*d)` for a/b and c/d.
    ///
    /// # Errors
    ///
    /// `Range` exactly if not all of `a*c` and `b*d` are within -2^127 + 1 and 2^127 - 1.
    #[tactic(auto, using(crate::proofs::Outcomes::exits))]
    pub fn mul(self, other: Frac) -> Result<Frac, Range>
        ensures { let over = self.num *ℤ other.num in
            let under = self.den *ℤ other.den in
            IsExactOrRange result (over ∷ under ∷ []) over under }
    {
        if self.num == 0 {
            return Ok(self);
        }
        if other.num == 0 {
            return Ok(other);
        }
        if self.den == 1 && other.den == 1 {
            return Ok(Frac::whole(product(self.num, other.num)?));
        }
        let over = product(self.num, other.num)?;
        let under = product(self.den, other.den)?;
        Ok(Frac::reduced(over, under))
    }

    /// The quotient: `(a*d)/(b*c)` for a/b and c/d. The divisor isn't 0.
    ///
    /// # Errors
    ///
    /// `Range` exactly if not all of `a*d` and `b*c` are within -2^127 + 1 and 2^127 - 1.
    #[tactic(auto, using(crate::proofs::Outcomes::exits))]
    pub fn div(self, other: Frac) -> Result<Frac, Range>
        requires { other.num ≢ pos 0 }
        ensures { let over = self.num *ℤ other.den in
            let under = self.den *ℤ other.num in
            IsExactOrRange result (over ∷ under ∷ []) over under }
    {
        if self.num == 0 {
            return Ok(self);
        }
        let over = product(self.num, other.den)?;
        let under = product(self.den, other.num)?;
        Ok(Frac::reduced(over, under))
    }

    /// The order of two fractions, by the comparison of `a*d` with `c*b` for a/b and c/d.
    ///
    /// # Errors
    ///
    /// `Range` exactly if not all of `a*d` and `c*b` are within -2^127 + 1 and 2^127 - 1.
    pub fn cmp(self, other: Frac) -> Result<Ordering, Range>
        ensures { IsOrderOrRange result (self.num *ℤ other.den) (other.num *ℤ self.den) }
    {
        let left = product(self.num, other.den)?;
        let right = product(other.num, self.den)?;
        Ok(left.cmp(&right))
    }

    /// The negation of the fraction.
    fn negated(self) -> Frac
        ensures { (result.num ≡ neg_ℤ self.num) × (result.den ≡ self.den) }
    {
        Frac {
            num: -self.num,
            den: self.den,
        }
    }

    /// The greatest integer that is at most the fraction.
    pub fn floor(self) -> i128
        ensures { IsFloor self result }
    {
        self.num.div_euclid(self.den)
    }

    /// The least integer that is at least the fraction.
    pub fn ceil(self) -> i128
        ensures { IsCeiling self result }
    {
        -((-self.num).div_euclid(self.den))
    }
}

impl Default for Frac {
    ghost use Rattle.std.specs.Prelude.{◌≡◌};
    ghost use Rattle.frac128.specs.Zero.{zero};

    ghost is_default = { λ f. f ≡ zero };

    /// The fraction 0.
    fn default() -> Frac {
        Frac::whole(0)
    }
}
