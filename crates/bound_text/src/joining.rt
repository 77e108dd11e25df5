//! Builds a bound from its terms and factors.

ghost use Rattle.std.specs.Prelude.{◌≡◌, IfOk, MatchOption, MatchResult, if◌then◌else◌};
ghost use Rattle.text_core.specs.model.Bounds as plain;
ghost use Rattle.text_core.specs.model.Bounds.{Parts, ProductOf, SumOf, MaximumOf, PowerOf};
ghost use Rattle.bound_expr.specs.Views.{bound_of};
ghost use Rattle.bound_text.specs.Shapes.{is_sum as is_sum_bound, is_maximum as is_maximum_bound};
ghost use Rattle.bound_text.specs.Shapes.{is_leaf as is_leaf_bound, is_empty as has_none};
ghost use Rattle.bound_text.specs.ParserStates.{as_one, bound_of_parts, can_end as terms_can_end, is_input, last};
ghost use Rattle.bound_text.specs.ParserStates.{lone as lone_of, passes, product_node};
ghost use Rattle.bound_text.specs.Views.{parts_in};

use crate::kinds::{is_leaf, is_maximum, is_sum, is_variable};
use crate::measured::{Counted, Measured};
use bound_expr::{Bound, Memory};
use std::alloc::Global;

// The only part, if there is one part alone; else all the parts.
#[tactic(auto, using(crate::proofs::JoiningLaws::as_one_more))]
fn alone(parts: Measured) -> Result<Counted, Measured>
    ensures { (whole : Parts → plain.Bound) → MatchResult result
        (λ one. bound_of one.bound ≡ as_one whole (parts_in parts))
        (λ all. whole (parts_in all) ≡ as_one whole (parts_in parts)) }
{
    if parts.bounds.len() != 1 {
        return Err(parts);
    }
    let Measured {
        mut bounds,
        nodes,
        depth,
    } = parts;
    match bounds.pop() {
        Some(bound) => Ok(Counted {
            bound,
            nodes,
            depth,
        }),
        None => unreachable!(),
    }
}

/// The only factor itself, or the product of the factors if there are more.
pub fn product_from(factors: Measured) -> Counted
    ensures { bound_of result.bound ≡ as_one ProductOf (parts_in factors) }
{
    match alone(factors) {
        Ok(factor) => factor,
        Err(all) => Counted {
            bound: Bound::Prod(all.bounds),
            nodes: all.nodes.saturating_add(1),
            depth: all.depth.saturating_add(1),
        },
    }
}

/// The only term itself, or the sum of the terms if there are more.
pub fn sum_from(terms: Measured) -> Counted
    ensures { bound_of result.bound ≡ as_one SumOf (parts_in terms) }
{
    match alone(terms) {
        Ok(term) => term,
        Err(all) => Counted {
            bound: Bound::Sum(all.bounds),
            nodes: all.nodes.saturating_add(1),
            depth: all.depth.saturating_add(1),
        },
    }
}

/// The bound that terms and the factors of the last one make.
///
/// # Errors
///
/// `Memory` where an allocation fails.
pub fn bound_from(mut terms: Measured, factors: Measured) -> Result<Counted, Memory>
    ensures { IfOk result (λ b. bound_of b.bound ≡ bound_of_parts (parts_in terms) (parts_in factors)) }
{
    terms.push_counted(product_from(factors))?;
    Ok(sum_from(terms))
}

/// The maximum of arguments.
pub fn maximum_from(arguments: Measured) -> Counted
    ensures { bound_of result.bound ≡ MaximumOf (parts_in arguments) }
{
    let Measured {
        bounds,
        nodes,
        depth,
    } = arguments;
    Counted {
        bound: Bound::Max(bounds),
        nodes: nodes.saturating_add(1),
        depth: depth.saturating_add(1),
    }
}

/// The power of a base.
///
/// # Errors
///
/// `Memory` where an allocation fails.
pub fn power_from(alloc: Global, base: u64, exponent: Counted) -> Result<Counted, Memory>
    ensures { IfOk result (λ power. bound_of power.bound ≡ PowerOf base (bound_of exponent.bound)) }
{
    let Counted {
        bound,
        nodes,
        depth,
    } = exponent;
    Ok(Counted {
        bound: Bound::Power(base, Box::new(alloc, bound)?),
        nodes: nodes.saturating_add(1),
        depth: depth.saturating_add(1),
    })
}

/// Whether there are no bounds.
#[tactic(auto, using(crate::proofs::JoiningLaws::is_empty_parts))]
pub fn is_empty(bounds: &Measured) -> bool
    ensures { result ≡ has_none (parts_in bounds.now) }
{
    bounds.bounds.is_empty()
}

// The only bound, if there is one alone.
#[tactic(auto, using(crate::proofs::JoiningLaws::lone_many, crate::proofs::JoiningLaws::lone_got))]
fn lone(bounds: &Measured) -> Option<&Bound>
    ensures { MatchOption result (lone_of (parts_in bounds.now) ≡ None)
        (λ b. lone_of (parts_in bounds.now) ≡ Some (bound_of b.now)) }
{
    if bounds.bounds.len() == 1 {
        bounds.bounds.first()
    } else {
        None
    }
}

/// Whether a term can end after the factors: not if they are a lone sum in brackets.
pub fn can_end(factors: &Measured) -> bool
    ensures { result ≡ terms_can_end (parts_in factors.now) }
{
    !is_empty(factors) && !lone(factors).is_some_and(is_sum)
}

/// Whether the bound that terms and factors make is a sum.
#[tactic(auto, using(crate::proofs::JoiningLaws::kinds))]
pub fn makes_sum(terms: &Measured, factors: &Measured) -> bool
    ensures { result ≡ is_sum_bound (bound_of_parts (parts_in terms.now) (parts_in factors.now)) }
{
    !is_empty(terms) || lone(factors).is_some_and(is_sum)
}

/// Whether the bound that terms and factors make is a maximum.
#[tactic(auto, using(crate::proofs::JoiningLaws::kinds))]
pub fn makes_maximum(terms: &Measured, factors: &Measured) -> bool
    ensures { result ≡ is_maximum_bound (bound_of_parts (parts_in terms.now) (parts_in factors.now)) }
{
    is_empty(terms) && lone(factors).is_some_and(is_maximum)
}

/// Whether the bound that terms and factors make is a constant or a variable.
#[tactic(auto, using(crate::proofs::JoiningLaws::kinds))]
pub fn makes_leaf(terms: &Measured, factors: &Measured) -> bool
    ensures { result ≡ is_leaf_bound (bound_of_parts (parts_in terms.now) (parts_in factors.now)) }
{
    is_empty(terms) && lone(factors).is_some_and(is_leaf)
}

/// Whether the last factor is this variable.
#[tactic(auto, using(crate::proofs::JoiningLaws::last_got))]
pub fn ends_with(factors: &Measured, variable: u32) -> bool
    ensures { result ≡ is_input variable (last (parts_in factors.now)) }
{
    match factors.bounds.last() {
        Some(bound) => is_variable(bound, variable),
        None => false,
    }
}

/// Whether the factors are a product: more than one, or a lone sum in brackets, which begins one.
#[tactic(auto, using(crate::proofs::JoiningLaws::makes_product))]
pub fn makes_product(factors: &Measured) -> bool
    ensures { product_node (parts_in factors.now) ≡ (if result then 1 else 0) }
{
    factors.bounds.len() > 1 || lone(factors).is_some_and(is_sum)
}
