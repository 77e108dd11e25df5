//! Questions that had no answer.

use poly_terms::{Memory, Poly};
use potential_questions::{Aim, PlannedMove, Question};
use std::alloc::Global;
use std::collections::BTreeSet;

/// What stands before a monomial in a key, before a charge, and before a polynomial that is covered.
const MONOMIAL: i128 = -1;

const CHARGE: i128 = -2;

const COVER: i128 = -3;

/// What stands before a direction in a key.
const TOWARD: i128 = -4;

/// What stands before a rule in the key of a question on two phases.
const PHASES: i128 = -5;

/// The keys of the questions that had no answer. Which gains cost what, and at which direction the
/// start function is judged, isn't in a key, since that decides only which answer is taken.
#[derive(Drop)]
pub(crate) struct Unanswered {
    keys: BTreeSet<Vec<i128>>,
}

impl Unanswered {
    /// Nothing was asked yet.
    pub(crate) fn new(alloc: Global) -> Unanswered {
        Unanswered {
            keys: BTreeSet::new(alloc),
        }
    }

    /// Whether the question with a key had no answer.
    pub(crate) fn has(&self, key: &Vec<i128>) -> bool {
        self.keys.contains(key)
    }

    /// Says that the question with a key had no answer.
    pub(crate) fn add(&mut self, key: Vec<i128>) -> Result<(), Memory> {
        self.keys.insert(key)?;
        Ok(())
    }
}

/// What tells a question from all those that have other answers: its degree, its symbols, what moves may gain, and its
/// aim.
///
/// # Errors
///
/// `Memory` where an allocation fails.
pub(crate) fn key_of(alloc: Global, question: &Question) -> Result<Vec<i128>, Memory> {
    let mut key = Vec::new(alloc);
    key.push(i128::from(question.degree))?;
    for is_listed in &question.listed {
        key.push(i128::from(*is_listed))?;
    }
    for step in &question.moves {
        push_move(&mut key, step)?;
    }
    match &question.aim {
        Aim::Pay(charges) => {
            for charge in charges {
                key.push(CHARGE)?;
                key.push(i128::from(charge.rule))?;
                push_poly(&mut key, &charge.form)?;
            }
        }
        Aim::Cover(rule, form) => {
            key.push(COVER)?;
            key.push(i128::from(*rule))?;
            push_poly(&mut key, form)?;
        }
    }
    Ok(key)
}

/// The key of a question that is judged at one direction, or at all of them where there is none: for those whose answer
/// wasn't found by these costs.
///
/// # Errors
///
/// `Memory` where an allocation fails.
pub(crate) fn key_toward(key: Vec<i128>, toward: Option<usize>) -> Result<Vec<i128>, Memory> {
    let mut key = key;
    key.push(TOWARD)?;
    if let Some(direction) = toward {
        key.push(direction as i128)?;
    }
    Ok(key)
}

/// The key of the question for two phases that count a rule.
///
/// # Errors
///
/// `Memory` where an allocation fails.
pub(crate) fn phases_key(alloc: Global, rule: u32) -> Result<Vec<i128>, Memory> {
    let mut key = Vec::new(alloc);
    key.push(PHASES)?;
    key.push(i128::from(rule))?;
    Ok(key)
}

// Appends what a move may do.
fn push_move(key: &mut Vec<i128>, step: &PlannedMove) -> Result<(), Memory> {
    key.push(i128::from(step.rule))?;
    key.push(i128::from(step.keeps))?;
    key.push(i128::from(step.offer.constant.is_some()))?;
    key.push(step.offer.places.len() as i128)?;
    for place in &step.offer.places {
        key.push(i128::from(place.place))?;
        key.push(place.sign)?;
    }
    Ok(())
}

// Appends the monomials of a polynomial.
fn push_poly(key: &mut Vec<i128>, form: &Poly) -> Result<(), Memory> {
    for term in &form.terms {
        key.push(MONOMIAL)?;
        key.push(term.coef)?;
        for variable in &term.vars {
            key.push(i128::from(*variable))?;
        }
    }
    Ok(())
}
