//! Lemmas of potentials that pay for charges.

use crate::lemmas::stated;
use crate::plans::Plan;
use crate::search::{LEVELS, Search};
use poly_terms::Poly;
use potential_questions::{
    Aim, FloorCertificates, Found, GainOffer, PlannedMove, Question, SearchError, constant_of,
    is_marked,
};
use potential_types::{
    Charge, FallNode, Move, Payment, PotentialTable, SignedLemma, SignedNode, SymbolFunction,
    copied_poly,
};
use signed_bounds::Signed;

impl Search<'_> {
    /// The lemma of a potential that pays for charges, where there is one whose gains all have a bound.
    pub(crate) fn fall(
        &mut self,
        plan: &Plan,
        charges: Vec<Charge>,
        degree: u32,
    ) -> Result<Option<SignedLemma>, SearchError> {
        self.look_for_places(plan, LEVELS)?;
        let question = Question {
            listed: plan.listed.as_slice().to_vec(self.alloc)?,
            moves: self.planned(plan)?,
            aim: Aim::Pay(charges),
            degree,
            toward: plan.toward,
        };
        let Some(found) = self.ask(&question)? else {
            return Ok(None);
        };
        let Found { potential, floors } = found;
        let mut potential = potential;
        for step in &mut potential.moves {
            if !is_never_positive(&step.gain) {
                self.cite_sum(step)?;
                if step.cited.is_none() {
                    return Ok(None);
                }
            }
        }
        self.fall_lemma(potential, question.aim, floors)
    }

    /// The lemma of a potential without gains that pays for a polynomial of a rule.
    pub(crate) fn plain_fall(
        &mut self,
        listed: &[bool],
        rule: u32,
        form: &Poly,
        degree: u32,
    ) -> Result<Option<SignedLemma>, SearchError> {
        let mut charges = Vec::new(self.alloc);
        charges.push(self.charge(rule, form)?)?;
        let question = Question {
            listed: listed.to_vec(self.alloc)?,
            moves: self.plain_moves(listed)?,
            aim: Aim::Pay(charges),
            degree,
            toward: None,
        };
        match self.ask(&question)? {
            Some(found) => self.fall_lemma(found.potential, question.aim, found.floors),
            None => Ok(None),
        }
    }

    // The moves of rules that gain nothing: those from a listed symbol keep the function, all others set it anew.
    fn plain_moves(&self, listed: &[bool]) -> Result<Vec<PlannedMove>, SearchError> {
        let mut moves = Vec::new(self.alloc);
        for number in 1..self.system.rule_end {
            if let Some(rule) = self.system.rule(number) {
                if is_marked(listed, rule.target) {
                    moves.push(PlannedMove {
                        rule: number,
                        keeps: is_marked(listed, rule.source),
                        offer: GainOffer {
                            constant: None,
                            places: Vec::new(self.alloc),
                        },
                    })?;
                }
            }
        }
        Ok(moves)
    }

    // The lemma of a potential whose gains are cited.
    fn fall_lemma(
        &self,
        potential: PotentialTable,
        aim: Aim,
        floors: Vec<FloorCertificates>,
    ) -> Result<Option<SignedLemma>, SearchError> {
        let first = self.start_part(&potential.functions)?;
        let composed = self.lemmas.with_cited(self.alloc, first, &potential.moves)?;
        let bound = stated(self.alloc, u128::from(potential.den), composed)?;
        let Aim::Pay(charges) = aim else {
            return Ok(None);
        };
        let mut payments = Vec::new(self.alloc);
        for (charge, certificates) in charges.into_iter().zip(floors.into_iter()) {
            let Charge { rule, form } = charge;
            let FloorCertificates { floor, positive } = certificates;
            payments.push(Payment {
                rule,
                amount: form,
                floor,
                positive,
            })?;
        }
        let node = SignedNode::Fall(FallNode {
            potential,
            payments,
        });
        Ok(Some(SignedLemma { node, bound }))
    }

    // The positive part of the start symbol's function, 0 where it has none.
    fn start_part(&self, functions: &[SymbolFunction]) -> Result<Signed, SearchError> {
        match self.start_form(functions) {
            Some(form) => Ok(Signed::Part(copied_poly(self.alloc, form)?)),
            None => Ok(Signed::Const(0)),
        }
    }

    /// The start symbol's function.
    pub(crate) fn start_form<'f>(&self, functions: &'f [SymbolFunction]) -> Option<&'f Poly> {
        let start = self.system.start;
        functions
            .iter()
            .find(|function| function.symbol == start)
            .map(|function| &function.form)
    }
}

/// Whether a polynomial is a number that is at most 0.
pub(crate) fn is_never_positive(form: &Poly) -> bool {
    match constant_of(form) {
        Some(constant) => constant <= 0,
        None => false,
    }
}
