//! Reports of outcomes that were made by hand.

use bound_expr::Memory;
use cert_types::{Gap, LimitCause, LimitHit, Question, ResultVariable};
use farkas_cert::Scaled;
use its_model::{Program, Symbol};
use outcome::{CostEntry, Outcome, SizeEntry, TimeEntry, UnboundedSide};
use report_text::print;
use std::alloc::Global;
use std::test::Fail;
use text_core::Name;

fn name(alloc: Global, text: &[u8]) -> Result<Name, Memory> {
    Ok(Name {
        bytes: Vec::from_slice(alloc, text)?,
    })
}

// A program of which the report uses only the names.
fn named(alloc: Global) -> Result<Program, Memory> {
    let mut symbols = Vec::new(alloc);
    for text in [b"l0", b"l1"] {
        symbols.push(Symbol {
            name: name(alloc, text)?,
            arity: 1,
        })?;
    }
    let mut start_names = Vec::new(alloc);
    start_names.push(name(alloc, b"A")?)?;
    Ok(Program {
        symbols,
        start: 0,
        start_names,
        rules: Vec::new(alloc),
    })
}

fn point(alloc: Global, parts: &[i64], den: u64) -> Result<Scaled, Memory> {
    Ok(Scaled {
        parts: Vec::from_slice(alloc, parts)?,
        den,
    })
}

#[test]
fn a_gap_and_an_unbounded_place_are_printed(rt: HostRuntime) -> Result<(), Fail> {
    let alloc = rt.alloc();
    let gap = Gap {
        rule: 1,
        set: vec![in alloc; 1, 2]?,
        shut: vec![in alloc; (1, 1)]?,
        moves: vec![in alloc; point(alloc, &[1], 1)?, point(alloc, &[], 0)?]?,
        floor: point(alloc, &[1, -2], 0)?,
        kept: vec![in alloc; point(alloc, &[1], 1)?, point(alloc, &[-30], 7)?]?,
    };
    let unbounded = UnboundedSide {
        up: true,
        ray: vec![in alloc; 0, 1]?,
        kept: point(alloc, &[1, 1], 1)?,
    };
    let outcome = Outcome {
        times: vec![in alloc; TimeEntry::Gap { gap: 1 }]?,
        sizes: vec![in alloc; vec![in alloc; SizeEntry::UnboundedSide(unbounded)]?]?,
        costs: vec![in alloc; None]?,
        total: None,
        lemmas: Vec::new(alloc),
        gaps: vec![in alloc; gap]?,
    };
    let text = print(alloc, &named(alloc)?, &outcome)?;
    let wanted: &[u8] = b"unknown\ntime 1: unknown\ntotal: unknown\nsize 1.1: unknown\n\
why time 1: no affine ranking function over rules 1, 2\n  shut l1.1\n  move 1: (1) / 1\n  move 2: () / 0\n  \
floor 1: (1, -2) / 0\n  kept 1: (1) / 1\n  kept 2: (-30) / 7\n\
why size 1.1: loose up\n  ray: (0, 1)\n  kept: (1, 1) / 1\n";
    assert_eq!(rt; text.as_slice(), wanted);
    Ok(())
}

// A question that exceeded a limit.
fn hit_limit(question: Question, cause: LimitCause) -> LimitHit {
    LimitHit { question, cause }
}

#[test]
fn reasons_are_printed(rt: HostRuntime) -> Result<(), Fail> {
    let alloc = rt.alloc();
    let rank = hit_limit(Question::Rank { rule: 1 }, LimitCause::Budget { pivots: 0 });
    let empty = hit_limit(Question::Empty { rule: 2 }, LimitCause::Range { pivot: 3 });
    let local = hit_limit(
        Question::Local { rule: 1, place: 1 },
        LimitCause::Wide {
            entries: 16_000_001,
        },
    );
    let cost = hit_limit(Question::Cost { rule: 4 }, LimitCause::Scale);
    let outcome = Outcome {
        times: vec![in alloc;
            TimeEntry::OutOfLimits(rank),
            TimeEntry::OutOfLimits(empty),
            TimeEntry::Large { nodes: 4_097 },
        ]?,
        sizes: vec![in alloc;
            vec![in alloc; SizeEntry::OutOfLimits(local), SizeEntry::OutOfLimits(cost)]?,
            vec![in alloc;
                SizeEntry::Nonlinear(ResultVariable { rule: 2, place: 2 }),
                SizeEntry::Untimed { rule: 3 }
            ]?,
            vec![in alloc; SizeEntry::Large { nodes: 5_000 }]?,
        ]?,
        costs: vec![in alloc; None, None, None]?,
        total: None,
        lemmas: Vec::new(alloc),
        gaps: Vec::new(alloc),
    };
    let text = print(alloc, &named(alloc)?, &outcome)?;
    let wanted: &[u8] =
        b"unknown\ntime 1: unknown\ntime 2: unknown\ntime 3: unknown\ntotal: unknown\nsize 1.1: unknown\n\
size 1.2: unknown\nsize 2.1: unknown\nsize 2.2: unknown\nsize 3.1: unknown\n\
why time 1: rank 1 budget after 0 pivots\nwhy time 2: empty 2 range at pivot 3\nwhy time 3: large 4097 nodes\n\
why size 1.1: local 1.1 wide 16000001 entries\nwhy size 1.2: cost 4 scale\nwhy size 2.1: bent 2.2\n\
why size 2.2: untimed 3\nwhy size 3.1: large 5000 nodes\n";
    assert_eq!(rt; text.as_slice(), wanted);
    Ok(())
}

#[test]
fn missing_costs_are_printed(rt: HostRuntime) -> Result<(), Fail> {
    let alloc = rt.alloc();
    let unbounded = UnboundedSide {
        up: true,
        ray: vec![in alloc; 0, 1]?,
        kept: point(alloc, &[1, 1], 1)?,
    };
    let limit = hit_limit(
        Question::Cost { rule: 4 },
        LimitCause::Budget { pivots: 10 },
    );
    let outcome = Outcome {
        times: vec![in alloc;
            TimeEntry::Large { nodes: 4_097 },
            TimeEntry::Large { nodes: 4_098 },
            TimeEntry::Large { nodes: 4_099 },
        ]?,
        sizes: Vec::new(alloc),
        costs: vec![in alloc;
            None,
            None,
            Some(CostEntry::UnboundedSide(unbounded)),
            Some(CostEntry::OutOfLimits(limit)),
            Some(CostEntry::Missing(ResultVariable { rule: 2, place: 1 })),
            Some(CostEntry::Untimed { rule: 3 }),
            Some(CostEntry::Large { nodes: 5_000 }),
        ]?,
        total: None,
        lemmas: Vec::new(alloc),
        gaps: Vec::new(alloc),
    };
    let text = print(alloc, &named(alloc)?, &outcome)?;
    let wanted: &[u8] =
        b"unknown\ntime 1: unknown\ntime 2: unknown\ntime 3: unknown\ncost 3: unknown\n\
cost 4: unknown\ncost 5: unknown\ncost 6: unknown\ncost 7: unknown\ntotal: unknown\n\
why time 1: large 4097 nodes\nwhy time 2: large 4098 nodes\nwhy time 3: large 4099 nodes\n\
why cost 3: loose up\n  ray: (0, 1)\n  kept: (1, 1) / 1\nwhy cost 4: cost 4 budget after 10 pivots\n\
why cost 5: missing 2.1\nwhy cost 6: untimed 3\nwhy cost 7: large 5000 nodes\n";
    assert_eq!(rt; text.as_slice(), wanted);
    Ok(())
}
