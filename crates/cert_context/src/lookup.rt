//! Looks up known bounds, by key.

ghost use Rattle.std.specs.Prelude.{◌≡◌, Some};
ghost use Rattle.cert_context.specs.Lookups.{HasSizes, HasTimes, bound_at as bound_at_position, facts_at};
ghost use Rattle.cert_types.specs.Lookups.{optional_bound};
ghost use Rattle.cert_types.specs.cert_rules.Known.{table_of};

use crate::stating::bound_at;
use bound_expr::Bound;
use cert_types::{Fact, Known};
use std::collections::BTreeMap;

/// The facts of a node's premises, in order, with the position of the first time of each rule, and of the first size of
/// each place after a rule.
#[derive(Drop)]
pub struct Lookup<'a> {
    pub facts: Vec<&'a Fact>,
    pub times: BTreeMap<u32, usize>,
    pub sizes: BTreeMap<(u32, u32), usize>,
    ghost times_stated: { HasTimes (facts_at facts.items) times },
    ghost sizes_stated: { HasSizes (facts_at facts.items) sizes },
}

impl<'a> Known for Lookup<'a> {
    ghost table = { λ l. table_of (facts_at l.facts.items) };

    fn time(&self, rule: u32) -> Option<&Bound> {
        match self.times.get(&rule) {
            Some(position) => bound_from(&self.facts, *position),
            None => None,
        }
    }

    fn size(&self, rule: u32, place: u32) -> Option<&Bound> {
        match self.sizes.get(&(rule, place)) {
            Some(position) => bound_from(&self.facts, *position),
            None => None,
        }
    }
}

// The bound of the fact at a position, if there is one.
fn bound_from<'a>(facts: &[&'a Fact], position: usize) -> Option<&'a Bound>
    ensures { optional_bound result ≡ bound_at_position (facts_at facts.now) (Some position) }
{
    match facts.get(position) {
        Some(fact) => Some(bound_at(*fact)),
        None => None,
    }
}
