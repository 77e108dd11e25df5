//! Affine values, which change by the same amount in each turn of a lasso.

ghost use Rattle.std.specs.Prelude.{◌≡◌, pos};
ghost use Rattle.affine_turns.specs.Affine.{constant, with_both, opposite, sum, difference, scaled, product, power};

use crate::within;

/// An integer that changes by the same amount in each turn: its value in the first turn, and the change in each turn.
#[derive(Clone, Copy, Debug, PartialEq, Eq)]
pub struct Affine {
    pub first: i128,
    pub slope: i128,
}

impl Affine {
    /// The affine value that is `z` in each turn.
    pub(crate) fn constant(z: i128) -> Affine
        ensures { result ≡ constant z }
    {
        Affine { first: z, slope: 0 }
    }

    // The affine value with these two numbers, if both are there.
    fn with(first: Option<i128>, slope: Option<i128>) -> Option<Affine>
        ensures { result ≡ with_both first slope }
    {
        match (first, slope) {
            (Some(first), Some(slope)) => Some(Affine { first, slope }),
            _ => None,
        }
    }

    /// The opposite, or `None` if a number exceeds 128 bits, as in the functions below.
    pub(crate) fn opposite(self) -> Option<Affine>
        ensures { result ≡ opposite self }
    {
        Affine::with(within::opposite(self.first), within::opposite(self.slope))
    }

    /// The sum.
    pub(crate) fn plus(self, other: Affine) -> Option<Affine>
        ensures { result ≡ sum self other }
    {
        let first = within::sum(self.first, other.first);
        Affine::with(first, within::sum(self.slope, other.slope))
    }

    /// The difference.
    pub(crate) fn minus(self, other: Affine) -> Option<Affine>
        ensures { result ≡ difference self other }
    {
        let first = within::difference(self.first, other.first);
        Affine::with(first, within::difference(self.slope, other.slope))
    }

    // The product with an integer that doesn't change.
    fn scaled(self, factor: i128) -> Option<Affine>
        ensures { result ≡ scaled factor self }
    {
        let first = within::product(factor, self.first);
        Affine::with(first, within::product(factor, self.slope))
    }

    /// The product, or `None` unless one factor has slope 0.
    pub(crate) fn times(self, other: Affine) -> Option<Affine>
        ensures { result ≡ product self other }
    {
        if self.slope == 0 {
            other.scaled(self.first)
        } else if other.slope == 0 {
            self.scaled(other.first)
        } else {
            None
        }
    }

    /// The power, or `None` unless the base has slope 0.
    pub(crate) fn power(self, exponent: u32) -> Option<Affine>
        ensures { result ≡ power self exponent }
    {
        if self.slope == 0 {
            Affine::with(within::power(self.first, exponent), Some(0))
        } else {
            None
        }
    }
}
