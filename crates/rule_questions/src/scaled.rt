//! The parts of a scaled solution and of a scaled dual.

ghost use Rattle.std.specs.Prelude.{◌≡◌, ◌+◌, ◌<◌, ◌≤◌, length, nat_abs, IfOk};
ghost use Rattle.poly_terms.specs.linear_forms.Forms.{at};
ghost use Rattle.poly_terms.specs.linear_forms.Questions.{listed};

use farkas_cert::Scaled;
use poly_terms::Memory;
use std::alloc::Global;

/// The multipliers of this many rows, from the columns that begin at this position.
///
/// # Errors
///
/// `Memory` if an allocation fails.
pub fn multipliers_from(
    alloc: Global,
    numbers: &[i64],
    start: usize,
    count: usize,
) -> Result<Vec<u64>, Memory>
    requires { start + count ≤ length numbers.now }
    ensures { IfOk result (λ v. v.items ≡ listed count (λ j. nat_abs (at numbers.now (start + j)))) }
{
    let mut multipliers = Vec::new(alloc);
    for row in 0..count {
        multipliers.push(numbers[start + row].unsigned_abs())?;
    }
    Ok(multipliers)
}

/// The point or ray of a group with this many unknowns, from the lines that begin at this position: a number for each
/// unknown, and then the denominator.
///
/// # Errors
///
/// `Memory` if an allocation fails.
pub fn element_from(
    alloc: Global,
    numbers: &[i64],
    start: usize,
    unknowns: usize,
) -> Result<Scaled, Memory>
    requires { start + unknowns < length numbers.now }
    ensures parts { IfOk result (λ z. z.parts.items ≡ listed unknowns (λ u. at numbers.now (start + u))) }
    ensures den { IfOk result (λ z. z.den ≡ nat_abs (at numbers.now (start + unknowns))) }
{
    let mut parts = Vec::new(alloc);
    for unknown in 0..unknowns {
        parts.push(numbers[start + unknown])?;
    }
    let den = numbers[start + unknowns].unsigned_abs();
    Ok(Scaled { parts, den })
}
