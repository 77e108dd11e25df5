//! Which gains a question offers to which rules.

use crate::search::Search;
use poly_terms::Memory;
use potential_questions::{GainOffer, PlaceOffer, PlannedMove, SearchError, is_marked, lone_poly};

/// What rules may gain that keep the function, those without a time aside.
#[derive(Clone, Copy, PartialEq, Eq)]
pub(crate) enum Gains {
    Nothing,
    Constants,
    /// Constants and multiples of places.
    Affine,
}

/// What a bound on a reset's gain has to be.
#[derive(Clone, Copy, PartialEq, Eq)]
pub(crate) enum Counted {
    /// On the sum of the gain over all steps.
    Sums,
    /// On the gain at each step.
    Peaks,
}

/// Which rules may do what.
#[derive(Drop)]
pub(crate) struct Plan {
    /// Whether each symbol has a function.
    pub(crate) listed: Vec<bool>,
    pub(crate) gains: Gains,
    pub(crate) counted: Counted,
    /// Rules that set the function anew though their source has one, ascending.
    pub(crate) resets: Vec<u32>,
    /// A rule that is offered no gain, 0 for none.
    pub(crate) without: u32,
    /// The only direction at which the start function is judged, all of them where there is none.
    pub(crate) toward: Option<usize>,
}

/// The places of a rule's source: so many.
#[derive(Clone, Copy, PartialEq, Eq)]
pub(crate) struct PlacesOf {
    pub(crate) rule: u32,
    pub(crate) places: u32,
}

/// What a rule does to the function under a plan.
#[derive(Clone, Copy)]
struct Step {
    rule: u32,
    keeps: bool,
    gains: Gains,
    /// Whether the gain is to be bounded at each step, and not its sum.
    is_by_peak: bool,
    left: u32,
}

/// The greatest cost of a column.
const COST_LIMIT: u128 = 1 << 50;

impl Search<'_> {
    /// The rules that are offered multiples of places under a plan, ascending, each with the number of its places.
    pub(crate) fn with_places(&self, plan: &Plan) -> Result<Vec<PlacesOf>, Memory> {
        let mut found = Vec::new(self.alloc);
        for number in 1..self.system.rule_end {
            if let Some(step) = self.step(plan, number) {
                if step.gains == Gains::Affine && self.often(step).is_some() {
                    found.push(PlacesOf {
                        rule: number,
                        places: step.left,
                    })?;
                }
            }
        }
        Ok(found)
    }

    // What a rule does under a plan, where it leads to a listed symbol: from a listed symbol it keeps the function, but
    // for a reset, and else it sets it anew.
    fn step(&self, plan: &Plan, number: u32) -> Option<Step> {
        let rule = self.system.rule(number)?;
        if !is_marked(&plan.listed, rule.target) {
            return None;
        }
        let is_reset = plan.resets.binary_search(&number).is_ok();
        let keeps = is_marked(&plan.listed, rule.source) && !is_reset;
        let gains = if number == plan.without {
            Gains::Nothing
        } else if keeps {
            plan.gains
        } else {
            Gains::Affine
        };
        Some(Step {
            rule: number,
            keeps,
            gains,
            is_by_peak: !keeps && plan.counted == Counted::Peaks,
            left: rule.left,
        })
    }

    /// The moves of a plan, with the places whose peaks were found.
    pub(crate) fn planned(&self, plan: &Plan) -> Result<Vec<PlannedMove>, SearchError> {
        let mut moves = Vec::new(self.alloc);
        for number in 1..self.system.rule_end {
            if let Some(step) = self.step(plan, number) {
                moves.push(PlannedMove {
                    rule: number,
                    keeps: step.keeps,
                    offer: self.offer(step)?,
                })?;
            }
        }
        Ok(moves)
    }

    // What a rule may gain.
    fn offer(&self, step: Step) -> Result<GainOffer, SearchError> {
        let mut offer = GainOffer {
            constant: None,
            places: Vec::new(self.alloc),
        };
        let Some(often) = self.often(step) else {
            return Ok(offer);
        };
        if step.gains != Gains::Nothing {
            offer.constant = Some(cost(often));
        }
        if step.gains == Gains::Affine {
            offer.places = self.place_offers(step, often)?;
        }
        Ok(offer)
    }

    // How often a rule occurs, as the sum over the directions; 1 a direction where that doesn't count. None where it
    // isn't known.
    fn often(&self, step: Step) -> Option<u128> {
        if step.is_by_peak {
            return Some(self.directions.lists.len() as u128);
        }
        let bound = self.lemmas.bound(self.lemmas.time(step.rule)?)?;
        Some(self.at_directions(bound))
    }

    // The places with a sign whose peak at a rule is known.
    fn place_offers(&self, step: Step, often: u128) -> Result<Vec<PlaceOffer>, SearchError> {
        let mut offers = Vec::new(self.alloc);
        let times = if step.is_by_peak { 1 } else { often };
        for place in 0..step.left {
            for sign in [1i128, -1] {
                let form = lone_poly(self.alloc, sign, &[place])?;
                let peak = self.lemmas.peaks.lemma(step.rule, &form);
                if let Some(bound) = peak.and_then(|number| self.lemmas.bound(number)) {
                    let high = self.at_directions(bound);
                    offers.push(PlaceOffer {
                        place,
                        sign,
                        cost: cost(times.saturating_mul(high)),
                    })?;
                }
            }
        }
        Ok(offers)
    }
}

// What a unit costs that is gained so often.
fn cost(often: u128) -> i128 {
    let capped = often.saturating_add(1).saturating_mul(100).min(COST_LIMIT);
    i128::try_from(capped).unwrap_or(0)
}
