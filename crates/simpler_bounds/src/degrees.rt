//! The degree of a bound.

use poly_terms::Poly;
use signed_bounds::Signed;

/// The degree of a power, for each degree of its exponent: greater than that of any polynomial a search makes.
const POWER_DEGREE: u32 = 1_000;

/// The degree of a bound as a function of the start values; that of a power is only greater than a polynomial's.
#[cycle(degrees)]
pub fn degree(bound: &Signed) -> u32 {
    match bound {
        Signed::Const(_) => 0,
        Signed::Part(p) => poly_degree(p),
        Signed::Sum(parts) | Signed::Max(parts) => greatest_degree(parts),
        Signed::Prod(parts) => degree_sum(parts),
        Signed::Min(first, parts) => least_degree(parts, degree(first)),
        Signed::Quotient(part, _) | Signed::Root(part) => degree(part),
        Signed::Power(_, exponent) => degree(exponent).saturating_mul(POWER_DEGREE),
    }
}

// The degree of a polynomial.
fn poly_degree(p: &Poly) -> u32 {
    let mut most = 0u32;
    for term in &p.terms {
        most = most.max(u32::try_from(term.vars.len()).unwrap_or(u32::MAX));
    }
    most
}

#[cycle(degrees)]
fn greatest_degree(parts: &[Signed]) -> u32 {
    let mut most = 0u32;
    for part in parts {
        most = most.max(degree(part));
    }
    most
}

#[cycle(degrees)]
fn degree_sum(parts: &[Signed]) -> u32 {
    let mut sum = 0u32;
    for part in parts {
        sum = sum.saturating_add(degree(part));
    }
    sum
}

#[cycle(degrees)]
fn least_degree(parts: &[Signed], first: u32) -> u32 {
    let mut least = first;
    for part in parts {
        least = least.min(degree(part));
    }
    least
}
