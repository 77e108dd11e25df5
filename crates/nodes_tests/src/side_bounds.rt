//! Side bounds as bounds at the sizes after a rule.

ghost use Rattle.std.specs.Prelude.{◌<◌, ◌^◌, All, IfOk};
ghost use Rattle.cert_types.specs.Composing.{HasFewVariables};

use bound_expr::{Bound, Memory};
use cert_types::{
    Fact, LocalBound, Member, ResultVariable, SideBound, Stated, composed_side_bound,
};
use poly_terms::{Monomial, Poly};
use std::alloc::Global;
use std::test::Fail;

// After rule 1 the first place has the size A, and the second the size B.
fn sizes(alloc: Global) -> Result<Vec<Fact>, Memory> {
    Ok(vec![in alloc;
        Fact::Size {
            rule: 1,
            place: 1,
            bound: Bound::Var(0)
        },
        Fact::Size {
            rule: 1,
            place: 2,
            bound: Bound::Var(1)
        },
    ]?)
}

// These places, with side bounds that don't matter.
fn members(alloc: Global, result_variables: &[(u32, u32)]) -> Result<Vec<Member>, Memory> {
    let mut members = Vec::new(alloc);
    for (rule, place) in result_variables {
        members.push(Member {
            result_variable: ResultVariable {
                rule: *rule,
                place: *place,
            },
            local: LocalBound {
                up: SideBound::Poly,
                low: SideBound::Poly,
            },
        })?;
    }
    Ok(members)
}

// The printed text, the denominator, coefficients and constant of a side bound, the members, and the bound after rule
// 1.
const LINEAR: &[(&str, u64, [i64; 3], i64, &[(u32, u32)], &str)] = &[
    (
        "each part is rounded up",
        2,
        [3, -5, 0],
        7,
        &[],
        "Sum([Const(4), Prod([Const(2), Var(0)]), Prod([Const(3), Var(1)])])",
    ),
    (
        "a constant below 0 counts as 0",
        1,
        [1, 0, 0],
        -4,
        &[],
        "Sum([Const(0), Prod([Const(1), Var(0)])])",
    ),
    (
        "a member is left out",
        2,
        [3, -5, 0],
        7,
        &[(1, 1)],
        "Sum([Const(4), Prod([Const(3), Var(1)])])",
    ),
    (
        "a place after another rule is none",
        2,
        [3, -5, 0],
        7,
        &[(2, 1), (2, 2), (1, 3)],
        "Sum([Const(4), Prod([Const(2), Var(0)]), Prod([Const(3), Var(1)])])",
    ),
    (
        "a size that isn't known counts as 0",
        1,
        [0, 0, 2],
        0,
        &[],
        "Sum([Const(0), Prod([Const(2), Const(0)])])",
    ),
];

#[test]
fn a_linear_side_bound_is_a_sum_over_the_places_that_are_no_members(
    rt: HostRuntime,
) -> Result<(), Fail> {
    let alloc = rt.alloc();
    let facts = sizes(alloc)?;
    for (what, den, coefs, constant, result_variables, want) in LINEAR {
        assert!(rt; *den >= 1);
        let side_bound = SideBound::Linear {
            den: *den,
            coefs: vec![in alloc; coefs[0], coefs[1], coefs[2]]?,
            constant: *constant,
            multipliers: Vec::new(alloc),
        };
        let known = Stated { facts: &facts };
        let found = composed_side_bound(
            alloc,
            &side_bound,
            None,
            &known,
            1,
            &members(alloc, result_variables)?,
        )?;
        assert_eq!(rt;
            format!(in alloc; "{found:?}")?.as_str(),
            *want,
            "where {what}"
        );
    }
    Ok(())
}

// A coefficient times two variables.
#[tactic(auto, using(crate::proofs::Variables::few_variables))]
fn monomial(alloc: Global, coef: i128, first: u32, second: u32) -> Result<Monomial, Memory>
    requires first { first < 2 ^ 31 }
    requires second { second < 2 ^ 31 }
    ensures { IfOk result HasFewVariables }
{
    Ok(Monomial {
        coef,
        vars: vec![in alloc; first, second]?,
    })
}

// 2*A^2 - 3*A*B
#[tactic(auto, using(crate::proofs::Variables::few_places))]
fn polynomial(alloc: Global) -> Result<Poly, Memory>
    ensures { IfOk result (λ q. All HasFewVariables q.terms.items) }
{
    let square = monomial(alloc, 2, 0, 0)?;
    let product = monomial(alloc, -3, 0, 1)?;
    Ok(Poly {
        terms: vec![in alloc; square, product]?,
    })
}

#[test]
fn a_polynomial_side_bound_is_the_update_with_absolute_coefficients(
    rt: HostRuntime,
) -> Result<(), Fail> {
    let alloc = rt.alloc();
    let facts = sizes(alloc)?;
    let known = Stated { facts: &facts };
    let update = polynomial(alloc)?;
    let found = composed_side_bound(alloc, &SideBound::Poly, Some(&update), &known, 1, &[])?;
    let want = "Sum([Prod([Const(2), Var(0), Var(0)]), Prod([Const(3), Var(0), Var(1)])])";
    assert_eq!(rt; format!(in alloc; "{found:?}")?.as_str(), want);
    let without = composed_side_bound(alloc, &SideBound::Poly, None, &known, 1, &[])?;
    assert_eq!(rt; without, Bound::Const(0));
    Ok(())
}
