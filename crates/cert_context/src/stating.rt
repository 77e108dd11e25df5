//! Builds the facts that nodes state.

ghost use Rattle.std.specs.Prelude.{◌≡◌, [], ◌∷◌, IfOk, Some};
ghost use Rattle.std.specs.List.{range_with_len};
ghost use Rattle.bound_expr.specs.Views.{bound_of};
ghost use Rattle.its_model.specs.Views.{program_of};
ghost use Rattle.model.specs.Bounds.{Constant};
ghost use Rattle.model.specs.Facts.{Time};
ghost use Rattle.model.specs.Programs.{arity_of};
ghost use Rattle.cert_types.specs.Views.{fact_of, facts_of};
ghost use Rattle.cert_types.specs.cert_rules.AcceptsPlain.{places_at, zero_sizes as zero_sizes_of};
ghost use Rattle.cert_types.specs.cert_rules.AcceptsPlain.{start_sizes, start_facts as start_facts_of};
ghost use Rattle.cert_types.specs.cert_rules.Laws.{bound_in};

use bound_expr::Bound;
use cert_types::Fact;
use gap_checks::arity_at;
use its_model::Program;
use model::Memory;
use std::alloc::Global;

/// A list of one fact.
pub fn one(alloc: Global, fact: Fact) -> Result<Vec<Fact>, Memory>
    ensures { IfOk result (λ facts. facts_of facts.items ≡ fact_of fact ∷ []) }
{
    let mut facts = Vec::new(alloc);
    facts.push(fact)?;
    Ok(facts)
}

/// The fact that the time of a rule is 0.
pub fn zero_time(alloc: Global, rule: u32) -> Result<Vec<Fact>, Memory>
    ensures { IfOk result (λ facts. facts_of facts.items ≡ Time rule (Constant 0) ∷ []) }
{
    one(
        alloc,
        Fact::Time {
            rule,
            bound: Bound::Const(0),
        },
    )
}

/// The facts that each of this many places after a rule has the size 0.
pub fn zero_sizes(alloc: Global, rule: u32, places: u32) -> Result<Vec<Fact>, Memory>
    ensures { IfOk result (λ facts. facts_of facts.items ≡ zero_sizes_of rule (range_with_len 1 places)) }
{
    let mut facts = Vec::new(alloc);
    for position in 0..places {
        facts.push(Fact::Size {
            rule,
            place: position + 1,
            bound: Bound::Const(0),
        })?;
    }
    Ok(facts)
}

/// The facts that the virtual entry occurs once, and that each of its places has the size of its start argument.
pub fn start_facts(alloc: Global, p: &Program) -> Result<Vec<Fact>, Memory>
    ensures { IfOk result (λ facts. facts_of facts.items ≡ start_facts_of (program_of p.now)) }
{
    let mut facts = Vec::new(alloc);
    facts.push(Fact::Time {
        rule: 0,
        bound: Bound::Const(1),
    })?;
    let places = arity_at(p, p.start);
    for position in 0..places {
        facts.push(Fact::Size {
            rule: 0,
            place: position + 1,
            bound: Bound::Var(position),
        })?;
    }
    Ok(facts)
}

/// The bound of a fact.
pub fn bound_at(fact: &Fact) -> &Bound
    ensures { bound_of result.now ≡ bound_in (fact_of fact.now) }
{
    match fact {
        Fact::Time { bound, .. } => bound,
        Fact::Size { bound, .. } => bound,
        Fact::Cost { bound, .. } => bound,
    }
}
