//! Expanded polynomials, and rows of coefficients.

/// A monomial: a coefficient, and variables in ascending order, each as often as it is a factor.
#[derive(Debug, PartialEq, Eq, Drop)]
pub struct Monomial {
    pub coef: i128,
    pub vars: Vec<u32>,
}

/// An expanded polynomial: monomials with distinct lists of variables and without the coefficient 0. They are in
/// ascending order of these lists, in which a proper prefix comes first.
#[derive(Debug, PartialEq, Eq, Drop)]
pub struct Poly {
    pub terms: Vec<Monomial>,
}

/// An affine form: one coefficient for each unknown, and a constant.
#[derive(Debug, PartialEq, Eq, Drop)]
pub struct Row {
    pub coefs: Vec<i128>,
    pub constant: i128,
}
