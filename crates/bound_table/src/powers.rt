//! The cases on powers: evaluates those of constants, moves numbers out of exponents, and merges powers of one base.

ghost use Rattle.std.specs.Prelude.{◌≡◌, ◌++◌, IfOk, OnOk};
ghost use Rattle.bound_expr.specs.Views.{bound_of, bounds_of};
ghost use Rattle.bound_table.specs.Powers.{small_power as small_power_of, number_of_power, evaluated as evaluated_of};
ghost use Rattle.bound_table.specs.Powers.{first_power as first_power_of, number_taken as number_taken_of};
ghost use Rattle.bound_table.specs.Powers.{but_first_constant as others_of, sum_or_single as sum_or_single_of};
ghost use Rattle.bound_table.specs.Powers.{exponent_left as exponent_left_of, shifted as shifted_of};
ghost use Rattle.bound_table.specs.Powers.{have_one_base as are_of_one_base, exponent_of, exponents_of};
ghost use Rattle.bound_table.specs.Powers.{powers_list, powers_merged as powers_merged_of};
ghost use Rattle.bound_table.specs.Powers.{base_of as power_base, base_of_run as run_base};

use crate::folding::push_spread;
use crate::joining::runs_joined;
use crate::kinds::{Joining, Kind};
use crate::terms::is_const;
use bound_expr::{Bound, CONSTANT_LIMIT, Memory, capped_power};
use std::alloc::Global;

// A power of a constant becomes a constant, where that is at most 2^127-1.
pub(crate) fn evaluated(base: u64, exponent: Box<Bound>) -> Bound
    ensures { bound_of result ≡ evaluated_of base (bound_of exponent.value) }
{
    match number_of(base, &exponent) {
        Some(number) => Bound::Const(number),
        None => Bound::Power(base, exponent),
    }
}

// The number that a power is, where its exponent is a constant and the number is at most 2^127-1.
fn number_of(base: u64, exponent: &Bound) -> Option<u128>
    ensures { result ≡ number_of_power base (bound_of exponent.now) }
{
    match exponent {
        Bound::Const(n) => small_power(base, *n),
        Bound::Var(_) | Bound::Sum(_) | Bound::Prod(_) | Bound::Max(_) | Bound::Power(_, _) => None,
    }
}

// The base to the power of a number, where that is at most 2^127-1.
fn small_power(base: u64, exponent: u128) -> Option<u128>
    ensures { result ≡ small_power_of base exponent }
{
    let power = capped_power(u128::from(base), exponent);
    if power > CONSTANT_LIMIT {
        return None;
    }
    Some(power)
}

// A power with the first constant of its exponent taken out, where the exponent is a sum that has one.
pub(crate) fn shifted(alloc: Global, base: u64, exponent: Box<Bound>) -> Result<Bound, Memory>
    ensures { IfOk result (λ r. bound_of r ≡ shifted_of base (bound_of exponent.value)) }
{
    let Some(number) = number_taken(base, &exponent) else {
        return Ok(Bound::Power(base, exponent));
    };
    let left = exponent_left(alloc, Box::into_inner(exponent))?;
    let power = Bound::Power(base, Box::new(alloc, left)?);
    Ok(Bound::Prod(vec![in alloc; Bound::Const(number), power]?))
}

// The number that is taken out of a power: the base to the power of the first constant of a sum.
fn number_taken(base: u64, exponent: &Bound) -> Option<u128>
    ensures { result ≡ number_taken_of base (bound_of exponent.now) }
{
    match exponent {
        Bound::Sum(parts) => first_power(base, parts),
        Bound::Const(_) | Bound::Var(_) | Bound::Prod(_) | Bound::Max(_) | Bound::Power(_, _) =>
            None,
    }
}

// The base to the power of the first constant among the parts, where that is at most 2^127-1.
fn first_power(base: u64, parts: &[Bound]) -> Option<u128>
    ensures { result ≡ first_power_of base (bounds_of parts.now) }
{
    for part in parts {
        if let Bound::Const(n) = part {
            return small_power(base, *n);
        }
    }
    None
}

// The exponent that is left: the other parts, a single one by itself.
fn exponent_left(alloc: Global, exponent: Bound) -> Result<Bound, Memory>
    ensures { IfOk result (λ r. bound_of r ≡ exponent_left_of (bound_of exponent)) }
{
    match exponent {
        Bound::Sum(parts) => Ok(sum_or_single(but_first_constant(alloc, parts)?)),
        other => Ok(other),
    }
}

// The parts but the first constant.
fn but_first_constant(alloc: Global, parts: Vec<Bound>) -> Result<Vec<Bound>, Memory>
    ensures { IfOk result (λ r. bounds_of r.items ≡ others_of (bounds_of parts.items)) }
{
    let mut others = Vec::new(alloc);
    let mut dropped = false;
    for part in parts {
        if dropped {
            others.push(part)?;
        } else if is_const(&part) {
            dropped = true;
        } else {
            others.push(part)?;
        }
    }
    Ok(others)
}

// Parts as a sum, a single one by itself.
fn sum_or_single(parts: Vec<Bound>) -> Bound
    ensures { bound_of result ≡ sum_or_single_of (bounds_of parts.items) }
{
    if parts.len() != 1 {
        return Bound::Sum(parts);
    }
    let mut parts = parts;
    parts.remove(0)
}

// The neighbouring powers of one base in a product merged; the parts of another node as they are.
pub(crate) fn powers_merged(
    alloc: Global,
    kind: Kind,
    parts: Vec<Bound>,
) -> Result<Vec<Bound>, Memory>
    ensures { IfOk result (λ r. bounds_of r.items ≡ powers_merged_of kind (bounds_of parts.items)) }
{
    match kind {
        Kind::AsProd => runs_joined(alloc, Joining::AsPowers, parts),
        Kind::AsSum | Kind::AsMax => Ok(parts),
    }
}

// Whether two factors are powers of one base.
pub(crate) fn have_one_base(factor: &Bound, other: &Bound) -> bool
    ensures { result ≡ are_of_one_base (bound_of factor.now) (bound_of other.now) }
{
    match factor {
        Bound::Power(base, _) => match other {
            Bound::Power(other_base, _) => *base == *other_base,
            Bound::Const(_) | Bound::Var(_) | Bound::Sum(_) | Bound::Prod(_) | Bound::Max(_) =>
                false,
        },
        Bound::Const(_) | Bound::Var(_) | Bound::Sum(_) | Bound::Prod(_) | Bound::Max(_) => false,
    }
}

// Appends a run of powers to the finished factors: as one power if it has two or more.
pub(crate) fn push_powers(
    alloc: Global,
    run: Vec<Bound>,
    done: &mut Vec<Bound>,
) -> Result<(), Memory>
    ensures { OnOk result (bounds_of done.new.items ≡ bounds_of done.old.items ++ powers_list (bounds_of run.items)) }
{
    let mut run = run;
    let Some(base) = base_of_run(&run) else {
        return done.append(&mut run);
    };
    let exponent = Bound::Sum(exponents(alloc, run)?);
    done.push(Bound::Power(base, Box::new(alloc, exponent)?))?;
    Ok(())
}

// The base of a run of two or more powers.
fn base_of_run(run: &[Bound]) -> Option<u64>
    ensures { result ≡ run_base (bounds_of run.now) }
{
    match run {
        [first, _, ..] => base_of(first),
        _ => None,
    }
}

// The base of a power.
fn base_of(bound: &Bound) -> Option<u64>
    ensures { result ≡ power_base (bound_of bound.now) }
{
    match bound {
        Bound::Power(base, _) => Some(*base),
        Bound::Const(_) | Bound::Var(_) | Bound::Sum(_) | Bound::Prod(_) | Bound::Max(_) => None,
    }
}

// The exponents of powers, sums spliced.
fn exponents(alloc: Global, powers: Vec<Bound>) -> Result<Vec<Bound>, Memory>
    ensures { IfOk result (λ r. bounds_of r.items ≡ exponents_of (bounds_of powers.items)) }
{
    let mut all = Vec::new(alloc);
    for power in powers {
        push_exponent(power, &mut all)?;
    }
    Ok(all)
}

// Appends the exponent of a power, or the parts of a sum in its place.
fn push_exponent(power: Bound, all: &mut Vec<Bound>) -> Result<(), Memory>
    ensures { OnOk result (bounds_of all.new.items ≡ bounds_of all.old.items ++ exponent_of (bound_of power)) }
{
    match power {
        Bound::Power(_, exponent) => push_spread(Kind::AsSum, Box::into_inner(exponent), all),
        Bound::Const(_) | Bound::Var(_) | Bound::Sum(_) | Bound::Prod(_) | Bound::Max(_) => Ok(()),
    }
}
