//! The state of a search, and how candidates are judged.

use crate::lemmas::Lemmas;
use crate::unanswered::{Unanswered, key_of, key_toward};
use poly_terms::{Memory, Poly};
use potential_questions::{
    Directions, Found, Question, SearchError, System, ask, directions_of, is_marked, judges_of,
};
use potential_types::SignedLemma;
use signed_bounds::Signed;
use simpler_bounds::judged_value;
use std::alloc::Global;

/// The most work that one question may take, as numbers that pivots go through.
const QUESTION_WORK: u64 = 10_000_000;

/// How many such numbers writing an equation is worth, and how many finding that a question had no answer.
const EQUATION_WORK: u64 = 40;

const MEMORY_WORK: u64 = 200;

/// A question with more equations than so many is a large one.
const LARGE: u32 = 200;

/// How many levels deep questions about gains lead to further ones.
pub(crate) const LEVELS: u32 = 3;

/// A search over one program.
#[derive(Drop)]
pub(crate) struct Search<'p> {
    pub(crate) alloc: Global,
    pub(crate) system: &'p System,
    /// The written cost of rule t, at t - 1; none where a step costs 1.
    pub(crate) costs: Vec<Option<Poly>>,
    pub(crate) directions: Directions,
    pub(crate) judges: Directions,
    pub(crate) lemmas: Lemmas,
    /// How much work is left, as numbers that pivots go through.
    pub(crate) work: u64,
    /// How many questions were asked.
    pub(crate) asked: u32,
    /// The questions without an answer so far.
    pub(crate) unanswered: Unanswered,
}

/// What is known of a question once it was asked.
#[derive(Clone, Copy, PartialEq, Eq)]
pub(crate) enum Outcome {
    /// It has an answer, or too little work was left to find one.
    Open,
    /// None was found within the work of a question, or within numbers of 128 bits, by these costs.
    NotSo,
    /// It has none, whatever its costs.
    Never,
}

/// A lemma that may be kept, and the sum of its bound over the judges.
#[derive(Drop)]
pub(crate) struct Candidate {
    pub(crate) lemma: SignedLemma,
    pub(crate) value: u128,
}

/// A search of which nothing is known yet.
pub(crate) fn search_over(
    alloc: Global,
    system: &System,
    costs: Vec<Option<Poly>>,
    work: u64,
) -> Result<Search<'_>, SearchError> {
    let directions = directions_of(alloc, system)?;
    let judges = judges_of(alloc, system, &directions)?;
    Ok(Search {
        alloc,
        system,
        costs,
        directions,
        judges,
        lemmas: Lemmas::new(alloc, system.rules.len())?,
        work,
        asked: 0,
        unanswered: Unanswered::new(alloc),
    })
}

impl Search<'_> {
    /// What answers a question within the work of one; none also where a number is too large. A question that had no
    /// answer isn't asked again.
    pub(crate) fn ask(&mut self, question: &Question) -> Result<Option<Found>, SearchError> {
        let key = key_of(self.alloc, question)?;
        if !self.may_ask(&key, question.toward)? {
            return Ok(None);
        }
        let mut left = self.begin_question(&question.listed);
        let is_whole = is_whole(left);
        let answer = ask(
            self.alloc,
            self.system,
            question,
            &self.directions,
            &mut left,
        );
        self.end_question(left);
        self.remember(key, question.toward, outcome_of(&answer, is_whole))?;
        unless_memory(answer)
    }

    /// Whether there is work left to ask a question, and it isn't one that had no answer.
    pub(crate) fn may_ask(
        &mut self,
        key: &Vec<i128>,
        toward: Option<usize>,
    ) -> Result<bool, Memory> {
        if self.work == 0 || self.has_no_answer(key, toward)? {
            self.work = self.work.saturating_sub(MEMORY_WORK);
            return Ok(false);
        }
        Ok(true)
    }

    // Whether a question had no answer: at all, or at the directions at which it is asked.
    fn has_no_answer(&self, key: &Vec<i128>, toward: Option<usize>) -> Result<bool, Memory> {
        if self.unanswered.has(key) {
            return Ok(true);
        }
        let own = key_toward(key.as_slice().to_vec(self.alloc)?, toward)?;
        Ok(self.unanswered.has(&own))
    }

    /// Remembers a question that had no answer.
    pub(crate) fn remember(
        &mut self,
        key: Vec<i128>,
        toward: Option<usize>,
        outcome: Outcome,
    ) -> Result<(), Memory> {
        match outcome {
            Outcome::Open => Ok(()),
            Outcome::NotSo => self.unanswered.add(key_toward(key, toward)?),
            Outcome::Never => self.unanswered.add(key),
        }
    }

    /// Counts a question on the rules that lead to marked symbols, takes away the work of writing it, and says how much
    /// work it may take.
    pub(crate) fn begin_question(&mut self, listed: &[bool]) -> u64 {
        self.asked = self.asked.saturating_add(1);
        let writing = u64::from(self.equations(listed)).saturating_mul(EQUATION_WORK);
        self.work = self.work.saturating_sub(writing);
        self.work.min(QUESTION_WORK)
    }

    /// About how many equations a question of degree 1 on the rules that lead to marked symbols has.
    pub(crate) fn equations(&self, listed: &[bool]) -> u32 {
        let mut size = 0u32;
        for rule in &self.system.rules {
            if is_marked(listed, rule.target) {
                size = size.saturating_add(rule.unknowns).saturating_add(1);
            }
        }
        size
    }

    /// Whether a question on the rules that lead to marked symbols is a large one: others are asked first.
    pub(crate) fn is_large(&self, listed: &[bool]) -> bool {
        self.equations(listed) > LARGE
    }

    /// Counts the work of a question that has so much left.
    pub(crate) fn end_question(&mut self, left: u64) {
        let spent = self.work.min(QUESTION_WORK).saturating_sub(left);
        self.work = self.work.saturating_sub(spent);
    }

    /// Keeps back half of the work that is left, and says how much that is.
    pub(crate) fn keep_half(&mut self) -> u64 {
        let half = self.work / 2;
        self.work = self.work.saturating_sub(half);
        half
    }

    /// Gives work back that was kept back.
    pub(crate) fn give_back(&mut self, kept: u64) {
        self.work = self.work.saturating_add(kept);
    }

    /// The sum of a bound over the judges.
    pub(crate) fn judged(&self, bound: &Signed) -> u128 {
        sum_over(bound, &self.judges.points)
    }

    /// The sum of a bound over the directions.
    pub(crate) fn at_directions(&self, bound: &Signed) -> u128 {
        sum_over(bound, &self.directions.points)
    }

    /// The better one of two candidates, the first one of equal ones.
    pub(crate) fn better(
        &self,
        best: Option<Candidate>,
        next: Option<SignedLemma>,
    ) -> Option<Candidate> {
        let Some(lemma) = next else {
            return best;
        };
        let value = self.judged(&lemma.bound);
        match best {
            Some(best) if best.value <= value => Some(best),
            _ => Some(Candidate { lemma, value }),
        }
    }

    /// Appends the lemma of a candidate, and gives its number.
    pub(crate) fn keep(&mut self, best: Option<Candidate>) -> Result<Option<u32>, SearchError> {
        match best {
            Some(candidate) => Ok(Some(self.lemmas.push(candidate.lemma)?)),
            None => Ok(None),
        }
    }
}

/// What an answer tells of its question; `is_whole` says whether it was given the work of one.
pub(crate) fn outcome_of<T>(answer: &Result<Option<T>, SearchError>, is_whole: bool) -> Outcome {
    match answer {
        Ok(None) => Outcome::Never,
        Err(SearchError::Range) => Outcome::NotSo,
        Err(SearchError::Budget) => {
            if is_whole {
                Outcome::NotSo
            } else {
                Outcome::Open
            }
        }
        Ok(Some(_)) | Err(SearchError::Memory) => Outcome::Open,
    }
}

/// Whether a question that may take so much work may take all that one may.
pub(crate) fn is_whole(work: u64) -> bool {
    work >= QUESTION_WORK
}

// The sum of a bound over lists of start values.
fn sum_over(bound: &Signed, points: &[Vec<i128>]) -> u128 {
    let mut sum = 0u128;
    for point in points {
        sum = sum.saturating_add(judged_value(bound, point));
    }
    sum
}

/// Something else in place of an error that says only that there is no answer.
pub(crate) fn answer_or<T: Drop>(
    answer: Result<T, SearchError>,
    other: T,
) -> Result<T, SearchError> {
    match answer {
        Ok(found) => Ok(found),
        Err(SearchError::Memory) => Err(SearchError::Memory),
        Err(SearchError::Range | SearchError::Budget) => Ok(other),
    }
}

/// None in place of an error that says only that there is no answer.
pub(crate) fn unless_memory<T: Drop>(
    answer: Result<Option<T>, SearchError>,
) -> Result<Option<T>, SearchError> {
    match answer {
        Ok(found) => Ok(found),
        Err(SearchError::Memory) => Err(SearchError::Memory),
        Err(SearchError::Range | SearchError::Budget) => Ok(None),
    }
}
