//! The parts of a bound, by its kind, for the comparison of shapes.

ghost use Rattle.std.specs.Prelude.{◌≡◌, ℕ, false, MatchOption};
ghost use Rattle.poly_terms.specs.Views.{poly_of};
ghost use Rattle.poly_terms.specs.model.Polynomials.{Polynomial};
ghost use Rattle.signed_bounds.specs.Bounds as plain;
ghost use Rattle.signed_bounds.specs.Bounds.{Constant, PositivePart, SumOf, ProductOf, MaximumOf, MinimumOf};
ghost use Rattle.signed_bounds.specs.Bounds.{Quotient, Root, PowerOf, SignedParts};
ghost use Rattle.signed_bounds.specs.Views.{signed_of, signeds_of, parts_of};
ghost use Rattle.signed_bounds.specs.Safe.{expands_to_squares as expands};
ghost use Rattle.signed_bounds.specs.Fits.{fits};

use poly_terms::Poly;
use signed_bounds::Signed;

/// The number of a constant; a bound of another kind has none, and a constant fits only constants.
pub(crate) fn constant(b: &Signed) -> Option<u128>
    ensures { MatchOption result ((m : ℕ) → fits expands (Constant m) (signed_of b.now) ≡ false)
        (λ n. signed_of b.now ≡ Constant n) }
{
    match b {
        Signed::Const(n) => Some(*n),
        Signed::Part(_)
        | Signed::Sum(_)
        | Signed::Prod(_)
        | Signed::Max(_)
        | Signed::Min(_, _)
        | Signed::Quotient(_, _)
        | Signed::Root(_)
        | Signed::Power(_, _) => None,
    }
}

/// The polynomial of a positive part; a bound of another kind has none, and a positive part fits only positive parts.
pub(crate) fn polynomial(b: &Signed) -> Option<&Poly>
    ensures { MatchOption result ((f : Polynomial) → fits expands (PositivePart f) (signed_of b.now) ≡ false)
        (λ p. signed_of b.now ≡ PositivePart (poly_of p.now)) }
{
    match b {
        Signed::Part(p) => Some(p),
        Signed::Const(_)
        | Signed::Sum(_)
        | Signed::Prod(_)
        | Signed::Max(_)
        | Signed::Min(_, _)
        | Signed::Quotient(_, _)
        | Signed::Root(_)
        | Signed::Power(_, _) => None,
    }
}

/// The parts of a sum; a bound of another kind has none, and a sum fits only sums.
pub(crate) fn sum_parts(b: &Signed) -> Option<&[Signed]>
    ensures { MatchOption result ((ps : SignedParts) → fits expands (SumOf ps) (signed_of b.now) ≡ false)
        (λ bs. signed_of b.now ≡ SumOf (parts_of (signeds_of bs.now))) }
{
    match b {
        Signed::Sum(parts) => Some(parts),
        Signed::Const(_)
        | Signed::Part(_)
        | Signed::Prod(_)
        | Signed::Max(_)
        | Signed::Min(_, _)
        | Signed::Quotient(_, _)
        | Signed::Root(_)
        | Signed::Power(_, _) => None,
    }
}

/// The parts of a product; a bound of another kind has none, and a product fits only products.
pub(crate) fn product_parts(b: &Signed) -> Option<&[Signed]>
    ensures { MatchOption result ((ps : SignedParts) → fits expands (ProductOf ps) (signed_of b.now) ≡ false)
        (λ bs. signed_of b.now ≡ ProductOf (parts_of (signeds_of bs.now))) }
{
    match b {
        Signed::Prod(parts) => Some(parts),
        Signed::Const(_)
        | Signed::Part(_)
        | Signed::Sum(_)
        | Signed::Max(_)
        | Signed::Min(_, _)
        | Signed::Quotient(_, _)
        | Signed::Root(_)
        | Signed::Power(_, _) => None,
    }
}

/// The parts of a maximum; a bound of another kind has none, and a maximum fits only maxima.
pub(crate) fn parts_of_maximum(b: &Signed) -> Option<&[Signed]>
    ensures { MatchOption result ((ps : SignedParts) → fits expands (MaximumOf ps) (signed_of b.now) ≡ false)
        (λ bs. signed_of b.now ≡ MaximumOf (parts_of (signeds_of bs.now))) }
{
    match b {
        Signed::Max(parts) => Some(parts),
        Signed::Const(_)
        | Signed::Part(_)
        | Signed::Sum(_)
        | Signed::Prod(_)
        | Signed::Min(_, _)
        | Signed::Quotient(_, _)
        | Signed::Root(_)
        | Signed::Power(_, _) => None,
    }
}

/// The first part and the others of a minimum; a bound of another kind has none, and a minimum fits only minima.
pub(crate) fn minimum_parts(b: &Signed) -> Option<(&Signed, &[Signed])>
    ensures { MatchOption result
        ((p : plain.Signed) (ps : SignedParts) → fits expands (MinimumOf p ps) (signed_of b.now) ≡ false)
        (λ bs. signed_of b.now ≡ MinimumOf (signed_of bs.0.now) (parts_of (signeds_of bs.1.now))) }
{
    match b {
        Signed::Min(first, parts) => Some((first, parts)),
        Signed::Const(_)
        | Signed::Part(_)
        | Signed::Sum(_)
        | Signed::Prod(_)
        | Signed::Max(_)
        | Signed::Quotient(_, _)
        | Signed::Root(_)
        | Signed::Power(_, _) => None,
    }
}

/// The numerator and the divisor of a quotient; a bound of another kind has none, and a quotient fits only quotients.
pub(crate) fn quotient(b: &Signed) -> Option<(&Signed, u128)>
    ensures { MatchOption result
        ((p : plain.Signed) (m : ℕ) → fits expands (Quotient p m) (signed_of b.now) ≡ false)
        (λ q. signed_of b.now ≡ Quotient (signed_of q.0.now) q.1) }
{
    match b {
        Signed::Quotient(part, divisor) => Some((part, *divisor)),
        Signed::Const(_)
        | Signed::Part(_)
        | Signed::Sum(_)
        | Signed::Prod(_)
        | Signed::Max(_)
        | Signed::Min(_, _)
        | Signed::Root(_)
        | Signed::Power(_, _) => None,
    }
}

/// The bound under a root; a bound of another kind has none, and a root fits only roots.
pub(crate) fn radicand(b: &Signed) -> Option<&Signed>
    ensures { MatchOption result ((p : plain.Signed) → fits expands (Root p) (signed_of b.now) ≡ false)
        (λ r. signed_of b.now ≡ Root (signed_of r.now)) }
{
    match b {
        Signed::Root(part) => Some(part),
        Signed::Const(_)
        | Signed::Part(_)
        | Signed::Sum(_)
        | Signed::Prod(_)
        | Signed::Max(_)
        | Signed::Min(_, _)
        | Signed::Quotient(_, _)
        | Signed::Power(_, _) => None,
    }
}

/// The base and the exponent of a power; a bound of another kind has none, and a power fits only powers.
pub(crate) fn power(b: &Signed) -> Option<(u64, &Signed)>
    ensures { MatchOption result
        ((m : ℕ) (p : plain.Signed) → fits expands (PowerOf m p) (signed_of b.now) ≡ false)
        (λ q. signed_of b.now ≡ PowerOf q.0 (signed_of q.1.now)) }
{
    match b {
        Signed::Power(base, exponent) => Some((*base, exponent)),
        Signed::Const(_)
        | Signed::Part(_)
        | Signed::Sum(_)
        | Signed::Prod(_)
        | Signed::Max(_)
        | Signed::Min(_, _)
        | Signed::Quotient(_, _)
        | Signed::Root(_) => None,
    }
}
