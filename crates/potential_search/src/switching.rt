//! How often a rule occurs, by functions that are set to 0 by the rules behind which its guard fails.

use crate::plans::{Counted, Gains, Plan};
use crate::search::{Candidate, Search, unless_memory};
use crate::times::is_plain;
use poly_terms::{Memory, Monomial, Poly};
use potential_questions::{
    FormTerm, PreparedRule, SearchError, SparseForm, ask_raise, combined, is_marked,
};
use potential_types::SignedLemma;
use std::alloc::Global;

/// The most rows of a rule's guard that are tried.
const ROW_LIMIT: u32 = 4;

impl Search<'_> {
    /// The better one of a bound on how often a rule occurs and of those that functions give which each rule of its
    /// component sets anew behind which a row of its guard fails. Where a rule lowers a value that another one raises,
    /// each where the other can't occur, no function that both keep bounds the one without the other.
    pub(crate) fn switching_time(
        &mut self,
        rule: u32,
        best: Option<Candidate>,
    ) -> Result<Option<Candidate>, SearchError> {
        if is_plain(&best) {
            return Ok(best);
        }
        let system = self.system;
        let Some(prepared) = system.rule(rule) else {
            return Ok(best);
        };
        let listed = system.leading_to(self.alloc, &[prepared.source])?;
        if self.is_large(&listed) {
            return Ok(best);
        }
        self.switched_by_rows(rule, prepared, &listed, best)
    }

    // The same over these symbols, for the first rows of the rule's guard.
    fn switched_by_rows(
        &mut self,
        rule: u32,
        prepared: &PreparedRule,
        listed: &[bool],
        best: Option<Candidate>,
    ) -> Result<Option<Candidate>, SearchError> {
        let mut best = best;
        let mut tried = 0u32;
        for row in &prepared.rows {
            if tried < ROW_LIMIT && !is_plain(&best) {
                tried = tried.saturating_add(1);
                let lemma = self.switched_by(rule, prepared, listed, row)?;
                best = self.better(best, lemma);
            }
        }
        Ok(best)
    }

    // A potential of listed symbols that pays 1 for each step by a rule, and that the rules of its component set anew
    // behind which a row of its guard fails; none where there are none, or where the row reads other than places.
    fn switched_by(
        &mut self,
        rule: u32,
        prepared: &PreparedRule,
        listed: &[bool],
        row: &SparseForm,
    ) -> Result<Option<SignedLemma>, SearchError> {
        if row.terms.is_empty() || !row.reads_below(prepared.left) {
            return Ok(None);
        }
        let component = self.system.component_of(self.alloc, prepared.source)?;
        let resets = self.failing_rules(&component, rule, row)?;
        if resets.is_empty() {
            return Ok(None);
        }
        self.switched_fall(listed, rule, resets)
    }

    // A potential of listed symbols that pays 1 for each step by a rule, and that some rules set anew.
    fn switched_fall(
        &mut self,
        listed: &[bool],
        rule: u32,
        resets: Vec<u32>,
    ) -> Result<Option<SignedLemma>, SearchError> {
        let plan = Plan {
            listed: listed.to_vec(self.alloc)?,
            gains: Gains::Constants,
            counted: Counted::Sums,
            resets,
            without: rule,
            toward: None,
        };
        let charges = self.once_list(rule)?;
        self.fall(&plan, charges, 1)
    }

    // The other rules inside a component behind which a row fails.
    fn failing_rules(
        &mut self,
        component: &[bool],
        rule: u32,
        row: &SparseForm,
    ) -> Result<Vec<u32>, SearchError> {
        let mut found = Vec::new(self.alloc);
        for number in 1..self.system.rule_end {
            if number != rule && self.fails_inside(component, number, row)? {
                found.push(number)?;
            }
        }
        Ok(found)
    }

    // Whether a rule is inside a component, and a row fails behind it.
    fn fails_inside(
        &mut self,
        component: &[bool],
        number: u32,
        row: &SparseForm,
    ) -> Result<bool, SearchError> {
        let system = self.system;
        match system.rule(number) {
            Some(other) if is_inside(component, other) => self.fails_behind(number, other, row),
            _ => Ok(false),
        }
    }

    // Whether a row fails behind a rule, as the rows of the rule show.
    fn fails_behind(
        &mut self,
        number: u32,
        other: &PreparedRule,
        row: &SparseForm,
    ) -> Result<bool, SearchError> {
        let denied = denied_behind(self.alloc, other, row);
        let Some(form) = unless_memory(denied)? else {
            return Ok(false);
        };
        let mut left = self.begin_question(&[]);
        let answer = ask_raise(self.alloc, self.system, number, &form, &mut left);
        self.end_question(left);
        Ok(unless_memory(answer)? == Some(0))
    }
}

// Whether a rule leads from a marked symbol to a marked one.
fn is_inside(component: &[bool], rule: &PreparedRule) -> bool {
    is_marked(component, rule.source) && is_marked(component, rule.target)
}

// The polynomial that isn't negative where a row fails behind a rule: the opposite of the row at the new values, less
// 1.
fn denied_behind(
    alloc: Global,
    other: &PreparedRule,
    row: &SparseForm,
) -> Result<Option<Poly>, SearchError> {
    let mut terms = Vec::new(alloc);
    push_number(alloc, &mut terms, row.constant)?;
    push_number(alloc, &mut terms, 1)?;
    for term in &row.terms {
        match other.new_values.get(term.unknown as usize) {
            Some(value) => push_value(alloc, &mut terms, value, term.coefficient)?,
            None => return Ok(None),
        }
    }
    Ok(Some(combined(alloc, terms)?))
}

// Appends the opposite of a number times a form.
fn push_value(
    alloc: Global,
    terms: &mut Vec<Monomial>,
    value: &SparseForm,
    number: i128,
) -> Result<(), SearchError> {
    push_number(alloc, terms, times(number, value.constant)?)?;
    for part in &value.terms {
        push_term(alloc, terms, *part, number)?;
    }
    Ok(())
}

// Appends the opposite of a number.
fn push_number(alloc: Global, terms: &mut Vec<Monomial>, number: i128) -> Result<(), SearchError> {
    terms.push(Monomial {
        coef: times(number, -1)?,
        vars: Vec::new(alloc),
    })?;
    Ok(())
}

// Appends the opposite of a number times a term.
fn push_term(
    alloc: Global,
    terms: &mut Vec<Monomial>,
    term: FormTerm,
    number: i128,
) -> Result<(), SearchError> {
    let coef = times(times(term.coefficient, number)?, -1)?;
    let vars = vec![in alloc; term.unknown]?;
    terms.push(Monomial { coef, vars })?;
    Ok(())
}

// The product of two numbers.
fn times(number: i128, other: i128) -> Result<i128, SearchError> {
    number.checked_mul(other).ok_or(SearchError::Range)
}
