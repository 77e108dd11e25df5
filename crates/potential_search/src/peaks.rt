//! The bound of a potential that covers a polynomial.

use crate::lemmas::divided;
use crate::search::Search;
use poly_terms::Memory;
use potential_types::{Move, PotentialTable, copied_bound, copied_poly};
use signed_bounds::Signed;
use signed_within::is_within;
use simpler_bounds::greatest;

impl Search<'_> {
    /// A bound that is high enough for the start and for what each rule sets anew, each with the gains of the rules
    /// that keep the function, divided by the denominator; none where the comparison of bounds doesn't accept it.
    pub(crate) fn covered_bound(
        &self,
        potential: &PotentialTable,
    ) -> Result<Option<Signed>, Memory> {
        let den = u128::from(potential.den);
        if den == 0 {
            return Ok(None);
        }
        let heads = self.heads(potential)?;
        let composed = self.with_gains(greatest(self.alloc, &heads)?, &potential.moves)?;
        let bound = divided(self.alloc, den, &composed)?;
        for head in heads {
            let composed = self.with_gains(head, &potential.moves)?;
            if !is_within(self.alloc, den, &composed, &bound)? {
                return Ok(None);
            }
        }
        Ok(Some(bound))
    }

    // The positive part of the start symbol's function, 0 where it has none, and the peaks of what rules set anew.
    fn heads(&self, potential: &PotentialTable) -> Result<Vec<Signed>, Memory> {
        let mut heads = Vec::new(self.alloc);
        match self.start_form(&potential.functions) {
            Some(form) => heads.push(Signed::Part(copied_poly(self.alloc, form)?))?,
            None => heads.push(Signed::Const(0))?,
        }
        for step in &potential.moves {
            if !step.keeps {
                if let Some(bound) = self.lemmas.cited_bound(step) {
                    heads.push(copied_bound(self.alloc, bound)?)?;
                }
            }
        }
        Ok(heads)
    }

    // A bound and the gains of the rules that keep the function.
    fn with_gains(&self, head: Signed, moves: &[Move]) -> Result<Signed, Memory> {
        let mut parts = Vec::new(self.alloc);
        parts.push(head)?;
        for step in moves {
            if step.keeps {
                if let Some(bound) = self.lemmas.cited_bound(step) {
                    parts.push(copied_bound(self.alloc, bound)?)?;
                }
            }
        }
        Ok(Signed::Sum(parts))
    }
}
