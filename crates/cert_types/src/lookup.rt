//! Looks up the first time and the first size in a list of facts.

ghost use Rattle.std.specs.Prelude.{◌≡◌};
ghost use Rattle.cert_program.specs.cert_rules.Known.{time_in as time_of, size_in as size_of};
ghost use Rattle.cert_types.specs.Views.{fact_of, facts_of};
ghost use Rattle.cert_types.specs.Lookups.{optional_bound, time_by_fact, size_by_fact};

use crate::fact::Fact;
use bound_expr::Bound;

/// The first time of a rule among facts.
#[tactic(auto, using(crate::proofs::Lookups::time_found, crate::proofs::Lookups::time_passed, crate::proofs::Lookups::time_none))]
pub fn time_in(facts: &[Fact], rule: u32) -> Option<&Bound>
    ensures { optional_bound result ≡ time_of (facts_of facts.now) rule }
{
    for fact in facts {
        if let Some(bound) = time_by(fact, rule) {
            return Some(bound);
        }
    }
    None
}

/// The first size of a place after a rule among facts.
#[tactic(auto, using(crate::proofs::Lookups::size_found, crate::proofs::Lookups::size_passed, crate::proofs::Lookups::size_none))]
pub fn size_in(facts: &[Fact], rule: u32, place: u32) -> Option<&Bound>
    ensures { optional_bound result ≡ size_of (facts_of facts.now) rule place }
{
    for fact in facts {
        if let Some(bound) = size_by(fact, rule, place) {
            return Some(bound);
        }
    }
    None
}

// The bound of a fact that is a time of the rule.
fn time_by(fact: &Fact, of_rule: u32) -> Option<&Bound>
    ensures { optional_bound result ≡ time_by_fact (fact_of fact.now) of_rule }
{
    match fact {
        Fact::Time { rule, bound } => if *rule == of_rule { Some(bound) } else { None },
        Fact::Size { .. } => None,
        Fact::Cost { .. } => None,
    }
}

// The bound of a fact that is a size of the place after the rule.
fn size_by(fact: &Fact, of_rule: u32, of_place: u32) -> Option<&Bound>
    ensures { optional_bound result ≡ size_by_fact (fact_of fact.now) of_rule of_place }
{
    match fact {
        Fact::Time { .. } => None,
        Fact::Size { rule, place, bound } => if *rule == of_rule && *place == of_place {
            Some(bound)
        } else {
            None
        },
        Fact::Cost { .. } => None,
    }
}
