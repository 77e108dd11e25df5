//! The size that a loop composes.

ghost use Rattle.std.specs.Prelude.{◌≡◌, map, IfOk, OnOk};
ghost use Rattle.model.specs.Bounds.{SumOf, ProductOf, PowerOf, Part};
ghost use Rattle.bound_expr.specs.Views.{bound_of, bounds_of, parts_of};
ghost use Rattle.cert_types.specs.cert_rules.Known.{known as known_bound};
ghost use Rattle.cert_types.specs.cert_rules.Composed.{both_parts};
ghost use Rattle.cert_types.specs.Sizes.{joined};
ghost use Rattle.size_nodes.specs.Growths.{growth_of, all_joined, power_part, addition_part, composed};

use crate::growth::Growth;
use bound_expr::{Bound, Memory};
use cert_types::{Known, known_or_zero};
use std::alloc::Global;

// The factor of a rule to the power of its time.
fn power<K: Known>(alloc: Global, known: &K, growth: &Growth) -> Result<Bound, Memory>
    ensures { IfOk result (λ b. bound_of b ≡ PowerOf growth.now.factor (known_bound ((K.table known.now).time
        growth.now.rule))) }
{
    let time = known_or_zero(alloc, known.time(growth.rule))?;
    Ok(Bound::Power(growth.factor, Box::new(alloc, time)?))
}

// Pushes the factor of a rule to the power of its time, if the rule multiplies.
fn push_power<K: Known>(
    alloc: Global,
    factors: &mut Vec<Bound>,
    known: &K,
    growth: &Growth,
) -> Result<(), Memory>
    ensures { OnOk result (parts_of (bounds_of factors.new.items) ≡ joined (parts_of (bounds_of factors.old.items))
        (power_part (K.table known.now).time (growth_of growth.now))) }
{
    if growth.factor <= 1 {
        return Ok(());
    }
    let one = power(alloc, known, growth)?;
    factors.push(one)?;
    Ok(())
}

// The factor of each rule that multiplies to the power of its time.
fn powers<K: Known>(alloc: Global, known: &K, growths: &[Growth]) -> Result<Vec<Bound>, Memory>
    ensures { IfOk result (λ bs. parts_of (bounds_of bs.items) ≡ all_joined (power_part (K.table known.now).time) (map
        growth_of growths.now)) }
{
    let mut factors = Vec::new(alloc);
    for growth in growths {
        push_power(alloc, &mut factors, known, growth)?;
    }
    Ok(factors)
}

// The addition of a rule times its time.
fn addition<K: Known>(alloc: Global, known: &K, growth: &Growth) -> Result<Bound, Memory>
    ensures { IfOk result (λ b. bound_of b ≡ ProductOf (both_parts
        (known_bound ((K.table known.now).time growth.now.rule)) (bound_of growth.now.addition))) }
{
    let mut factors = Vec::new(alloc);
    let time = known_or_zero(alloc, known.time(growth.rule))?;
    factors.push(time)?;
    let once = growth.addition.copied(alloc)?;
    factors.push(once)?;
    Ok(Bound::Prod(factors))
}

// Pushes the addition of a rule times its time, if the rule adds.
fn push_addition<K: Known>(
    alloc: Global,
    parts: &mut Vec<Bound>,
    known: &K,
    growth: &Growth,
) -> Result<(), Memory>
    ensures { OnOk result (parts_of (bounds_of parts.new.items) ≡ joined (parts_of (bounds_of parts.old.items))
        (addition_part (K.table known.now).time (growth_of growth.now))) }
{
    if !growth.adds {
        return Ok(());
    }
    let one = addition(alloc, known, growth)?;
    parts.push(one)?;
    Ok(())
}

// The size that enters the loop, plus the additions.
fn sum<K: Known>(alloc: Global, known: &K, base: Bound, growths: &[Growth]) -> Result<Bound, Memory>
    ensures { IfOk result (λ b. bound_of b ≡ SumOf (Part (bound_of base)
        (all_joined (addition_part (K.table known.now).time) (map growth_of growths.now)))) }
{
    let mut parts = Vec::new(alloc);
    parts.push(base)?;
    for growth in growths {
        push_addition(alloc, &mut parts, known, growth)?;
    }
    Ok(Bound::Sum(parts))
}

/// The size of the members of a loop that `base` enters: the product of the factors of the rules, each to the power of
/// the rule's time, times the sum of `base` and of the rules' additions, each times its time. An unknown time counts
/// as 0.
///
/// # Errors
///
/// `Memory` if an allocation fails.
pub(crate) fn loop_bound<K: Known>(
    alloc: Global,
    known: &K,
    base: Bound,
    growths: &[Growth],
) -> Result<Bound, Memory>
    ensures { IfOk result (λ b. bound_of b ≡ composed (K.table known.now).time (bound_of base) (map growth_of
        growths.now)) }
{
    let mut factors = powers(alloc, known, growths)?;
    let last = sum(alloc, known, base, growths)?;
    factors.push(last)?;
    Ok(Bound::Prod(factors))
}
