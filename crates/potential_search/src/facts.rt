//! Bounds on sums and on peaks of polynomials, which gains cite. Questions about gains lead to further ones, at most so
//! many levels deep as is said.

use crate::falls::is_never_positive;
use crate::lemmas::TimeAndPeak;
use crate::plans::{Counted, Gains, Plan};
use crate::search::{Candidate, Search};
use poly_terms::Poly;
use potential_questions::{
    Aim, FloorCertificates, Found, Question, SearchError, constant_of, is_marked, lone_poly,
};
use potential_types::{
    Charge, Move, PeakNode, PotentialTable, SignedLemma, SignedNode, Summand, copied_poly,
};

impl Search<'_> {
    /// The lemma on the sum of a polynomial over the steps of a rule.
    #[cycle(facts)]
    pub(crate) fn sum(
        &mut self,
        rule: u32,
        form: &Poly,
        levels: u32,
    ) -> Result<Option<u32>, SearchError> {
        if !self.lemmas.sums.has(rule, form) {
            self.lemmas.sums.begin(self.alloc, rule, form)?;
            let found = self.new_sum(rule, form, levels)?;
            self.lemmas.sums.finish(rule, form, found);
        }
        Ok(self.lemmas.sums.lemma(rule, form))
    }

    // Looks for a bound on the sum of a polynomial: its rule's time and its peak, or a potential that pays for it.
    #[cycle(facts)]
    fn new_sum(&mut self, rule: u32, form: &Poly, levels: u32) -> Result<Option<u32>, SearchError> {
        let mut by_peak = None;
        if let (Some(time), Some(below)) = (self.lemmas.time(rule), levels.checked_sub(1)) {
            if let Some(peak) = self.peak(rule, form, below)? {
                let cited = TimeAndPeak { time, peak };
                by_peak = self.lemmas.push_times(self.alloc, rule, form, cited)?;
            }
        }
        self.better_sum(rule, form, by_peak)
    }

    // The better bound on the sum of a polynomial: this one, or that of a potential that pays for it.
    fn better_sum(
        &mut self,
        rule: u32,
        form: &Poly,
        known: Option<u32>,
    ) -> Result<Option<u32>, SearchError> {
        if constant_of(form).is_some() {
            return Ok(known);
        }
        let paid = self.paid_sum(rule, form)?;
        let value = match known.and_then(|number| self.lemmas.bound(number)) {
            Some(bound) => self.judged(bound),
            None => return self.keep(paid),
        };
        match paid {
            Some(paid) if paid.value < value => self.keep(Some(paid)),
            _ => Ok(known),
        }
    }

    // The best potential that pays for a polynomial of a rule, without gains, of degree 1 or 2.
    fn paid_sum(&mut self, rule: u32, form: &Poly) -> Result<Option<Candidate>, SearchError> {
        let Some(prepared) = self.system.rule(rule) else {
            return Ok(None);
        };
        let listed = self.system.leading_to(self.alloc, &[prepared.source])?;
        let has_few_products = self.has_few_products(&listed);
        let linear = self.plain_fall(&listed, rule, form, 1)?;
        let best = self.better(None, linear);
        if !has_few_products {
            return Ok(best);
        }
        let square = self.plain_fall(&listed, rule, form, 2)?;
        Ok(self.better(best, square))
    }

    /// The lemma on the peak of a polynomial at the steps of a rule.
    #[cycle(facts)]
    pub(crate) fn peak(
        &mut self,
        rule: u32,
        form: &Poly,
        levels: u32,
    ) -> Result<Option<u32>, SearchError> {
        if !self.lemmas.peaks.has(rule, form) {
            self.lemmas.peaks.begin(self.alloc, rule, form)?;
            let found = match constant_of(form) {
                Some(constant) => self.constant_peak(rule, form, constant)?,
                None => self.new_peak(rule, form, levels)?,
            };
            self.lemmas.peaks.finish(rule, form, found);
        }
        Ok(self.lemmas.peaks.lemma(rule, form))
    }

    // The lemma on the peak of a constant.
    fn constant_peak(
        &mut self,
        rule: u32,
        form: &Poly,
        constant: i128,
    ) -> Result<Option<u32>, SearchError> {
        match u64::try_from(constant.max(0)) {
            Ok(number) => Ok(Some(self.lemmas.push_row(self.alloc, rule, form, number)?)),
            Err(_) => Ok(None),
        }
    }

    // Looks for a bound on the peak of a polynomial: without gains; with constant ones; of the component alone; with
    // multiples of places. Where the question over all that leads to the rule would be large, that over the component
    // comes first, and that with multiples of places isn't asked.
    #[cycle(facts)]
    fn new_peak(
        &mut self,
        rule: u32,
        form: &Poly,
        levels: u32,
    ) -> Result<Option<u32>, SearchError> {
        let Some(prepared) = self.system.rule(rule) else {
            return Ok(None);
        };
        let source = prepared.source;
        let mut plan = self.peak_plan(source)?;
        let is_large = self.is_large(&plan.listed);
        let mut found = None;
        if is_large {
            found = self.local_peak(rule, form, levels)?;
        }
        if found.is_none() {
            found = self.covering(&plan, rule, form, levels)?;
        }
        if found.is_none() {
            plan.gains = Gains::Constants;
            found = self.covering(&plan, rule, form, levels)?;
        }
        if found.is_none() && !is_large {
            found = self.local_peak(rule, form, levels)?;
        }
        if found.is_none() && !is_large && levels > 0 {
            plan.gains = Gains::Affine;
            found = self.covering(&plan, rule, form, levels)?;
        }
        match found {
            Some(lemma) => Ok(Some(self.lemmas.push(lemma)?)),
            None => Ok(None),
        }
    }

    // Looks for a bound on the peak of a polynomial by functions of the component of the rule's source alone; what enters
    // it, and what sets the polynomial's places without reading them, sets the function anew.
    #[cycle(facts)]
    fn local_peak(
        &mut self,
        rule: u32,
        form: &Poly,
        levels: u32,
    ) -> Result<Option<SignedLemma>, SearchError> {
        if levels == 0 {
            return Ok(None);
        }
        let Some(prepared) = self.system.rule(rule) else {
            return Ok(None);
        };
        let source = prepared.source;
        let mut plan = self.peak_plan(source)?;
        plan.gains = Gains::Constants;
        plan.listed = self.system.component_of(self.alloc, source)?;
        plan.resets = self.setting_rules(&plan.listed, form)?;
        self.covering(&plan, rule, form, levels)
    }

    // A plan for a peak at the steps of rules that leave a symbol, without gains.
    fn peak_plan(&self, source: u32) -> Result<Plan, SearchError> {
        Ok(Plan {
            listed: self.system.leading_to(self.alloc, &[source])?,
            gains: Gains::Nothing,
            counted: Counted::Peaks,
            resets: Vec::new(self.alloc),
            without: 0,
            toward: None,
        })
    }

    // The lemma of a potential that covers a polynomial of a rule, where there is one whose gains all have a bound.
    #[cycle(facts)]
    fn covering(
        &mut self,
        plan: &Plan,
        rule: u32,
        form: &Poly,
        levels: u32,
    ) -> Result<Option<SignedLemma>, SearchError> {
        self.look_for_places(plan, levels)?;
        let Some(found) = self.covering_answer(plan, rule, form)? else {
            return Ok(None);
        };
        let Found { potential, floors } = found;
        let mut potential = potential;
        for step in &mut potential.moves {
            if !is_never_positive(&step.gain) {
                step.cited = self.gain_fact(step, levels)?;
                if step.cited.is_none() {
                    return Ok(None);
                }
            }
        }
        self.peak_lemma(potential, rule, form, floors)
    }

    // What answers the question for a potential that covers a polynomial.
    fn covering_answer(
        &mut self,
        plan: &Plan,
        rule: u32,
        form: &Poly,
    ) -> Result<Option<Found>, SearchError> {
        let degree = if is_affine(form) { 1 } else { 2 };
        if degree == 2 && !self.has_few_products(&plan.listed) {
            return Ok(None);
        }
        let question = Question {
            listed: plan.listed.as_slice().to_vec(self.alloc)?,
            moves: self.planned(plan)?,
            aim: Aim::Cover(rule, copied_poly(self.alloc, form)?),
            degree,
            toward: None,
        };
        self.ask(&question)
    }

    // The lemma of a potential that covers a polynomial, whose gains are cited.
    fn peak_lemma(
        &self,
        potential: PotentialTable,
        rule: u32,
        form: &Poly,
        floors: Vec<FloorCertificates>,
    ) -> Result<Option<SignedLemma>, SearchError> {
        let Some(bound) = self.covered_bound(&potential)? else {
            return Ok(None);
        };
        let mut floor: Vec<Summand> = Vec::new(self.alloc);
        for certificates in floors {
            floor = certificates.floor;
        }
        let node = SignedNode::Peak(PeakNode {
            potential,
            rule,
            form: copied_poly(self.alloc, form)?,
            floor,
        });
        Ok(Some(SignedLemma { node, bound }))
    }

    /// Looks for the peaks of the places that a plan offers.
    #[cycle(facts)]
    pub(crate) fn look_for_places(&mut self, plan: &Plan, levels: u32) -> Result<(), SearchError> {
        let Some(below) = levels.checked_sub(1) else {
            return Ok(());
        };
        for offered in self.with_places(plan)? {
            for place in 0..offered.places {
                for sign in [1i128, -1] {
                    let form = lone_poly(self.alloc, sign, &[place])?;
                    self.peak(offered.rule, &form, below)?;
                }
            }
        }
        Ok(())
    }

    // The bound on a gain: on its sum where the rule keeps the function, and else on its peak.
    #[cycle(facts)]
    fn gain_fact(&mut self, step: &Move, levels: u32) -> Result<Option<u32>, SearchError> {
        if step.keeps {
            return self.sum(step.rule, &step.gain, levels);
        }
        match levels.checked_sub(1) {
            Some(below) => self.peak(step.rule, &step.gain, below),
            None => Ok(None),
        }
    }

    // The rules from listed symbols to listed symbols that set each place of a polynomial without reading it.
    fn setting_rules(&self, listed: &[bool], form: &Poly) -> Result<Vec<u32>, SearchError> {
        let mut found = Vec::new(self.alloc);
        for number in 1..self.system.rule_end {
            if let Some(rule) = self.system.rule(number) {
                let is_inside = is_marked(listed, rule.source) && is_marked(listed, rule.target);
                if is_inside && rule.sets_places_of(form) {
                    found.push(number)?;
                }
            }
        }
        Ok(found)
    }

    /// The charge of a polynomial at the steps of a rule.
    pub(crate) fn charge(&self, rule: u32, form: &Poly) -> Result<Charge, SearchError> {
        Ok(Charge {
            rule,
            form: copied_poly(self.alloc, form)?,
        })
    }
}

// Whether a polynomial has degree at most 1.
fn is_affine(form: &Poly) -> bool {
    form.terms.iter().all(|term| term.vars.len() <= 1)
}
