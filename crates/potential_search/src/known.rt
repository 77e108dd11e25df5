//! Which polynomials were looked for, and the lemmas that were found.

use poly_terms::{Memory, Poly};
use potential_types::{copied_poly, same_polynomial};
use std::alloc::Global;

/// A polynomial, and the number of the lemma that bounds its sum or its peak; none where none was found.
#[derive(Drop)]
struct LookedFor {
    form: Poly,
    lemma: Option<u32>,
}

/// What was looked for of each rule, rule t at t - 1.
#[derive(Drop)]
pub(crate) struct Known {
    by_rule: Vec<Vec<LookedFor>>,
}

impl Known {
    /// Nothing was looked for yet.
    pub(crate) fn new(alloc: Global, rules: usize) -> Result<Known, Memory> {
        let mut by_rule = Vec::new(alloc);
        for _ in 0..rules {
            by_rule.push(Vec::new(alloc))?;
        }
        Ok(Known { by_rule })
    }

    // What was looked for of a rule.
    fn of_rule(&self, rule: u32) -> &[LookedFor] {
        let Some(before) = rule.checked_sub(1) else {
            return &[];
        };
        match self.by_rule.get(before as usize) {
            Some(list) => list.as_slice(),
            None => &[],
        }
    }

    /// Whether a polynomial of a rule was looked for.
    pub(crate) fn has(&self, rule: u32, form: &Poly) -> bool {
        self.of_rule(rule)
            .iter()
            .any(|l| same_polynomial(&l.form, form))
    }

    /// The lemma that was found for a polynomial of a rule.
    pub(crate) fn lemma(&self, rule: u32, form: &Poly) -> Option<u32> {
        let found = self
            .of_rule(rule)
            .iter()
            .find(|l| same_polynomial(&l.form, form))?;
        found.lemma
    }

    /// Says that a polynomial of a rule is looked for, and that no lemma was found yet.
    pub(crate) fn begin(&mut self, alloc: Global, rule: u32, form: &Poly) -> Result<(), Memory> {
        let form = copied_poly(alloc, form)?;
        let Some(before) = rule.checked_sub(1) else {
            return Ok(());
        };
        if let Some(list) = self.by_rule.get_mut(before as usize) {
            list.push(LookedFor { form, lemma: None })?;
        }
        Ok(())
    }

    /// Says which lemma was found for a polynomial of a rule.
    pub(crate) fn finish(&mut self, rule: u32, form: &Poly, lemma: Option<u32>) {
        let Some(before) = rule.checked_sub(1) else {
            return;
        };
        if let Some(list) = self.by_rule.get_mut(before as usize) {
            for entry in list {
                if same_polynomial(&entry.form, form) {
                    entry.lemma = lemma;
                }
            }
        }
    }

    /// Leaves out what wasn't found.
    pub(crate) fn forget_failures(&mut self) {
        for list in &mut self.by_rule {
            list.retain(|l| l.lemma.is_some());
        }
    }
}
