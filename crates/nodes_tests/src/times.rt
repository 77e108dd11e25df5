//! Times over several entries, over a denominator, and at the limit of nodes.

ghost use Rattle.std.specs.Prelude.{◌≡◌, length, IfOk};
ghost use Rattle.cert_types.specs.Sizes.{IsShort};

use crate::composed::{entering_a_loop, rule};
use bound_expr::{Bound, Memory};
use bound_table::RewriteResult;
use cert_types::{Fact, Form, RankNode, Stated, rank_time};
use its_model::Program;
use std::alloc::Global;
use std::test::Fail;

// The rules 0 -> 1, 0 -> 1 and 1 -> 1, from symbol 0.
fn entering_twice(alloc: Global) -> Result<Program, Memory>
    ensures { IfOk result (λ p. length p.rules.items ≡ 3) }
{
    Ok(Program {
        symbols: Vec::new(alloc),
        start: 0,
        start_names: Vec::new(alloc),
        rules: vec![in alloc; rule(alloc, 0, 1), rule(alloc, 0, 1), rule(alloc, 1, 1)]?,
    })
}

// At a symbol this many times the only place, and a constant.
fn form(alloc: Global, symbol: u32, coef: i64, constant: i64) -> Result<Form, Memory>
    ensures { IfOk result IsShort }
{
    Ok(Form {
        symbol,
        coefs: vec![in alloc; coef]?,
        constant,
    })
}

// These forms over a denominator, for a set of rules.
fn ranking(alloc: Global, set: Vec<u32>, den: u64, forms: Vec<Form>) -> RankNode
    ensures over { result.den ≡ den }
    ensures forms { result.forms.items ≡ forms.items }
{
    RankNode {
        rule: 1,
        set,
        den,
        forms,
        moves: Vec::new(alloc),
        floor: Vec::new(alloc),
        uses: Vec::new(alloc),
    }
}

fn time(rule: u32, bound: Bound) -> Fact {
    Fact::Time { rule, bound }
}

// The size of the first place after a rule.
fn size(rule: u32, bound: Bound) -> Fact {
    Fact::Size {
        rule,
        place: 1,
        bound,
    }
}

// Rule 1 occurs once and leaves A, rule 2 occurs B times and leaves 5: 1*A + B*5.
#[test]
fn each_entry_counts_with_its_own_time_and_sizes(rt: HostRuntime) -> Result<(), Fail> {
    let alloc = rt.alloc();
    let p = entering_twice(alloc)?;
    let facts = vec![in alloc;
        time(1, Bound::Const(1)),
        size(1, Bound::Var(0)),
        time(2, Bound::Var(1)),
        size(2, Bound::Const(5)),
    ]?;
    let node = ranking(
        alloc,
        vec![in alloc; 3]?,
        1,
        vec![in alloc; form(alloc, 1, 1, 0)?]?,
    );
    let found = rank_time(alloc, &p, &node, &Stated { facts: &facts })?;
    let five_times = Bound::Prod(vec![in alloc; Bound::Const(5), Bound::Var(1)]?);
    let want = Bound::Sum(vec![in alloc; Bound::Var(0), five_times]?);
    assert!(rt; found == RewriteResult::Rewritten(want), "{found:?}");
    Ok(())
}

// A half of A + 1, where the virtual entry leads to: both parts are rounded up, to A and 1.
#[test]
fn each_part_of_a_function_is_rounded_up(rt: HostRuntime) -> Result<(), Fail> {
    let alloc = rt.alloc();
    let p = entering_a_loop(alloc)?;
    let facts = vec![in alloc; time(0, Bound::Const(1)), size(0, Bound::Var(0))]?;
    let forms = vec![in alloc; form(alloc, 0, 1, 1)?, form(alloc, 1, 7, 7)?]?;
    let node = ranking(alloc, vec![in alloc; 1, 2]?, 2, forms);
    let found = rank_time(alloc, &p, &node, &Stated { facts: &facts })?;
    let want = Bound::Sum(vec![in alloc; Bound::Var(0), Bound::Const(1)]?);
    assert!(rt; found == RewriteResult::Rewritten(want), "{found:?}");
    Ok(())
}

// A sum of this many parts A.
fn wide(alloc: Global, parts: u32) -> Result<Bound, Memory> {
    let mut sum = Vec::new(alloc);
    for _ in 0..parts {
        sum.push(Bound::Var(0))?;
    }
    Ok(Bound::Sum(sum))
}

// Besides its parts the size is one node, and the bound composed of it has 7 more: 1*(0 + 1*size) in a sum of one part.
// So with 4,088 parts there are 4,096 nodes, which is the limit, and with one part more too many.
#[test]
fn a_composed_bound_may_be_too_large(rt: HostRuntime) -> Result<(), Fail> {
    let alloc = rt.alloc();
    let p = entering_a_loop(alloc)?;
    let node = ranking(
        alloc,
        vec![in alloc; 2]?,
        1,
        vec![in alloc; form(alloc, 1, 1, 0)?]?,
    );
    let most = Bound::Prod(vec![in alloc; Bound::Const(4088), Bound::Var(0)]?);
    let table = [
        (4088, RewriteResult::Rewritten(most)),
        (4089, RewriteResult::Large { nodes: 4097 }),
    ];
    for (parts, want) in table {
        let facts = vec![in alloc; time(1, Bound::Const(1)), size(1, wide(alloc, parts)?)]?;
        let found = rank_time(alloc, &p, &node, &Stated { facts: &facts })?;
        assert!(rt; found == want, "of {parts} parts");
    }
    Ok(())
}
