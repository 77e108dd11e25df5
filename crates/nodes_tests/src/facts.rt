//! The bounds that facts state: of each rule the first time, and of each place the first size.

use bound_expr::{Bound, Memory};
use cert_types::{Fact, known_or_zero, size_in, time_in};
use std::alloc::Global;
use std::test::Fail;

fn time(rule: u32, n: u128) -> Fact {
    Fact::Time {
        rule,
        bound: Bound::Const(n),
    }
}

fn size(rule: u32, place: u32, n: u128) -> Fact {
    Fact::Size {
        rule,
        place,
        bound: Bound::Const(n),
    }
}

// Two times of rule 1 and one of rule 2, and two sizes of the first place after rule 1 and one of the second.
fn facts(alloc: Global) -> Result<Vec<Fact>, Memory> {
    Ok(vec![in alloc;
        size(1, 1, 10),
        time(1, 5),
        time(1, 7),
        size(1, 2, 20),
        size(1, 1, 30),
        time(2, 3),
    ]?)
}

#[test]
fn the_first_time_of_a_rule_counts(rt: HostRuntime) -> Result<(), Fail> {
    let alloc = rt.alloc();
    let facts = facts(alloc)?;
    for (rule, want) in [(0, 0), (1, 5), (2, 3), (3, 0)] {
        let found = known_or_zero(alloc, time_in(&facts, rule))?;
        assert_eq!(rt; found, Bound::Const(want), "of rule {rule}");
    }
    assert!(rt; time_in(&facts, 3).is_none());
    Ok(())
}

#[test]
fn the_first_size_of_a_place_counts(rt: HostRuntime) -> Result<(), Fail> {
    let alloc = rt.alloc();
    let facts = facts(alloc)?;
    for (rule, place, want) in [(1, 1, 10), (1, 2, 20), (1, 3, 0), (2, 1, 0)] {
        let found = known_or_zero(alloc, size_in(&facts, rule, place))?;
        assert_eq!(rt; found, Bound::Const(want), "of {rule}.{place}");
    }
    assert!(rt; size_in(&facts, 2, 1).is_none());
    Ok(())
}
