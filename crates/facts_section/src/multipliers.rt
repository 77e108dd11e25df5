//! The certificate of a fact after a rule, as multipliers of the rows of the rule, of the facts at its source that are
//! needed, and of the denied fact.

use crate::shares::{SymbolFacts, number_at};
use guard_prep::RuleRows;
use int_laws::greatest_common_divisor;
use location_facts::{FactProof, LocFact};
use poly_terms::{Memory, Poly};
use refined_programs::Multipliers;
use std::alloc::Global;

/// The multipliers by which no values meet the rows such that the fact fails after the rule: those of the certificate
/// for the rule's rows; for the needed facts of its source those of all its facts, shared out; and one for the denied
/// fact if it has a row. Where the fact's difference is a constant after the rule at which the fact is met, the denied
/// fact alone has no values: its row has 1, and all others 0.
///
/// # Errors
///
/// `Memory` where an allocation fails.
pub(crate) fn multipliers_of_proof(
    alloc: Global,
    rows: &RuleRows,
    source: &SymbolFacts,
    fact: &LocFact,
    proof: &FactProof,
) -> Result<Multipliers, Memory> {
    let none = Vec::new(alloc);
    let (proved, den) = match proof {
        FactProof::Empty(multipliers) => (multipliers, 0),
        FactProof::Implied(multipliers, den) => (multipliers, *den),
    };
    let (multipliers, last) = match denied_row(rows, fact) {
        Denied::WithoutRow => (proved, None),
        Denied::Contradiction => (&none, Some(1)),
        Denied::Divided(divisor) => (proved, Some(den.saturating_mul(divisor))),
    };
    let own = rows.rows.len();
    let mut numbers = Vec::new(alloc);
    for i in 0..own {
        numbers.push(number_at(multipliers, i))?;
    }
    let mut shares = source.shares_of_needed(alloc, multipliers, own)?;
    numbers.append(&mut shares)?;
    if let Some(number) = last {
        numbers.push(number)?;
    }
    Ok(Multipliers { numbers })
}

// What the denied fact adds to the rows of a rule.
enum Denied {
    // No row: the new value of the fact's difference isn't affine, or is a constant at which the fact fails.
    WithoutRow,
    // The row -1: the new value is a constant at which the fact is met.
    Contradiction,
    // A row that was divided by this number.
    Divided(u64),
}

// What a denied fact adds to the rows of a rule.
fn denied_row(rows: &RuleRows, fact: &LocFact) -> Denied {
    let change = Change {
        plus: poly_at(rows, fact.plus),
        minus: poly_at(rows, fact.minus),
    };
    if !change.is_affine() {
        return Denied::WithoutRow;
    }
    let common = change.common_divisor();
    if common != 0 {
        return Denied::Divided(common);
    }
    if change.coefficient(&[]) < i128::from(fact.least) {
        Denied::WithoutRow
    } else {
        Denied::Contradiction
    }
}

// The polynomial that is the new value of a place, from 1 on; none for place 0, which stands for the value 0.
fn poly_at(rows: &RuleRows, place: u32) -> Option<&Poly> {
    if place == 0 {
        return None;
    }
    rows.polys.get(place as usize - 1)
}

// The difference of two polynomials; an absent one counts as 0.
#[derive(Clone, Copy)]
struct Change<'a> {
    plus: Option<&'a Poly>,
    minus: Option<&'a Poly>,
}

impl Change<'_> {
    // The coefficient of the monomial of these variables.
    fn coefficient(&self, vars: &[u32]) -> i128 {
        coefficient_in(self.plus, vars).saturating_sub(coefficient_in(self.minus, vars))
    }

    // Whether the difference is affine.
    fn is_affine(&self) -> bool {
        self.has_none_of_degree_2(self.plus) && self.has_none_of_degree_2(self.minus)
    }

    // Whether the coefficients of the monomials of a polynomial that have degree 2 or more are 0 in the difference.
    fn has_none_of_degree_2(&self, of: Option<&Poly>) -> bool {
        let Some(poly) = of else {
            return true;
        };
        for term in &poly.terms {
            if term.vars.len() > 1 && self.coefficient(&term.vars) != 0 {
                return false;
            }
        }
        true
    }

    // The greatest common divisor of the coefficients of the variables, or 0 if all are 0.
    fn common_divisor(&self) -> u64 {
        let found = self.with_divisors_of(0, self.plus);
        u64::try_from(self.with_divisors_of(found, self.minus)).unwrap_or(u64::MAX)
    }

    // The greatest common divisor of a number and of the coefficients, in the difference, of the variables that a
    // polynomial has.
    fn with_divisors_of(&self, number: u128, of: Option<&Poly>) -> u128 {
        let Some(poly) = of else {
            return number;
        };
        let mut found = number;
        for term in &poly.terms {
            if term.vars.len() == 1 {
                let coefficient = self.coefficient(&term.vars).unsigned_abs();
                found = greatest_common_divisor(found, coefficient);
            }
        }
        found
    }
}

// The coefficient of the monomial of these variables, or 0 if there is none.
fn coefficient_in(poly: Option<&Poly>, vars: &[u32]) -> i128 {
    let Some(poly) = poly else {
        return 0;
    };
    for term in &poly.terms {
        if term.vars.as_slice() == vars {
            return term.coef;
        }
    }
    0
}
