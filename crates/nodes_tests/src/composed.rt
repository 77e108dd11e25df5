//! The bounds that nodes compose: times over the entries of a set, sizes over the rules that can come before.

ghost use Rattle.std.specs.Prelude.{◌≡◌, length, IfOk};

use bound_expr::{Bound, Memory};
use bound_table::RewriteResult;
use cert_types::{
    Fact, Form, LocalBound, RankNode, SideBound, Stated, entries, rank_time, spread_size,
};
use its_model::{Program, Rule};
use std::alloc::Global;
use std::test::Fail;

// A rule from one symbol to another, over one variable.
pub(crate) fn rule(alloc: Global, source: u32, target: u32) -> Rule {
    Rule {
        source,
        target,
        left: 1,
        free: 0,
        names: Vec::new(alloc),
        updates: Vec::new(alloc),
        guard: Vec::new(alloc),
        cost: None,
    }
}

// The rules 0 -> 1 and 1 -> 1, from symbol 0.
pub(crate) fn entering_a_loop(alloc: Global) -> Result<Program, Memory>
    ensures { IfOk result (λ p. length p.rules.items ≡ 2) }
{
    Ok(Program {
        symbols: Vec::new(alloc),
        start: 0,
        start_names: Vec::new(alloc),
        rules: vec![in alloc; rule(alloc, 0, 1), rule(alloc, 1, 1)]?,
    })
}

// The first rule occurs once, and after it the place has the size of the first input.
fn after_the_first(alloc: Global) -> Result<Vec<Fact>, Memory> {
    Ok(vec![in alloc;
        Fact::Time {
            rule: 1,
            bound: Bound::Const(1)
        },
        Fact::Size {
            rule: 1,
            place: 1,
            bound: Bound::Var(0)
        },
    ]?)
}

#[test]
fn entries_lead_into_a_set_from_outside(rt: HostRuntime) -> Result<(), Fail> {
    let alloc = rt.alloc();
    let p = entering_a_loop(alloc)?;
    assert_eq!(rt; entries(alloc, &p, &[2])?.as_slice(), [1].as_slice());
    assert_eq!(rt; entries(alloc, &p, &[1, 2])?.as_slice(), [0].as_slice());
    assert_eq!(rt; entries(alloc, &p, &[])?.as_slice(), [].as_slice());
    Ok(())
}

#[test]
fn a_time_is_that_of_the_entries_times_the_function_after_them(
    rt: HostRuntime,
) -> Result<(), Fail> {
    let alloc = rt.alloc();
    let p = entering_a_loop(alloc)?;
    let facts = after_the_first(alloc)?;
    let node = RankNode {
        rule: 2,
        set: vec![in alloc; 2]?,
        den: 1,
        forms: vec![in alloc;
            Form {
                symbol: 1,
                coefs: vec![in alloc; 1]?,
                constant: 0
            },
        ]?,
        moves: Vec::new(alloc),
        floor: Vec::new(alloc),
        uses: Vec::new(alloc),
    };
    let time = rank_time(alloc, &p, &node, &Stated { facts: &facts })?;
    assert!(rt; time == RewriteResult::Rewritten(Bound::Var(0)));
    // Without a fact nothing is known of the entry.
    let time = rank_time(alloc, &p, &node, &Stated { facts: &[] })?;
    assert!(rt; time == RewriteResult::Rewritten(Bound::Const(0)));
    Ok(())
}

#[test]
fn a_spread_is_the_maximum_of_both_side_bounds(rt: HostRuntime) -> Result<(), Fail> {
    let alloc = rt.alloc();
    let facts = after_the_first(alloc)?;
    let local = LocalBound {
        up: SideBound::Linear {
            den: 2,
            coefs: vec![in alloc; 3]?,
            constant: -4,
            multipliers: Vec::new(alloc),
        },
        low: SideBound::Linear {
            den: 1,
            coefs: vec![in alloc; 0]?,
            constant: 0,
            multipliers: Vec::new(alloc),
        },
    };
    // Three halves of the size after the first rule, rounded up.
    let size = spread_size(alloc, &local, None, &[1], &Stated { facts: &facts })?;
    let twice = Bound::Prod(vec![in alloc; Bound::Const(2), Bound::Var(0)]?);
    assert!(rt; size == RewriteResult::Rewritten(twice));
    Ok(())
}
