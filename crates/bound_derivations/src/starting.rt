//! The initial derived bounds.

ghost use Rattle.std.specs.Prelude.{◌≡◌, map, length, replicate, IfOk, Some, None};
ghost use Rattle.its_model.specs.Valid.{IsValid};
ghost use Rattle.its_model.specs.Views.{program_of};
ghost use Rattle.bound_derivations.specs.Books.{AreDerivedBounds};
ghost use Rattle.bound_derivations.specs.Starting.{IsStartRow, AreStartTimes, AreStartSizes};
ghost use Rattle.model.specs.Bounds.{Input};
ghost use Rattle.size_bounds.specs.Tables.{bound_stored};

use crate::derived::DerivedBounds;
use bound_expr::Bound;
use its_model::Program;
use model::Memory;
use outcome::Stored;
use size_bounds::Table;
use std::alloc::Global;

/// The initial derived bounds, without derivations: the virtual entry occurs once, and its places have the sizes of the
/// start arguments. No bound of a rule is known.
///
/// # Errors
///
/// `Memory` where an allocation fails.
pub fn derived_bounds_at_start(alloc: Global, p: &Program) -> Result<DerivedBounds, Memory>
    requires valid { IsValid (program_of p.now) }
    ensures empty { IfOk result (λ derived. length derived.derivations.items ≡ 0) }
    ensures derived { IfOk result (λ derived. AreDerivedBounds (program_of p.now) derived.table derived.derivations.items) }
{
    let times = start_times(alloc, p.rules.len())?;
    let sizes = start_sizes(alloc, p)?;
    Ok(DerivedBounds {
        table: Table { times, sizes },
        derivations: Vec::new(alloc),
    })
}

// The time of the virtual entry, and this many times that aren't known.
fn start_times(alloc: Global, rules: usize) -> Result<Vec<Option<Stored>>, Memory>
    ensures { IfOk result (λ times. AreStartTimes rules times.items) }
{
    let mut times = Vec::new(alloc);
    times.push(Some(Stored {
        bound: Bound::Const(1),
        lemma: 0,
    }))?;
    for _ in 0..rules {
        times.push(None)?;
    }
    Ok(times)
}

// The sizes after the virtual entry, and none after the rules.
fn start_sizes(alloc: Global, p: &Program) -> Result<Vec<Vec<Option<Stored>>>, Memory>
    requires valid { IsValid (program_of p.now) }
    ensures { IfOk result (λ sizes. AreStartSizes (program_of p.now) (map (λ row. row.items) sizes.items)) }
{
    let mut sizes = Vec::new(alloc);
    sizes.push(arguments(alloc, p.symbols[p.start as usize].arity)?)?;
    for rule in &p.rules {
        sizes.push(nothing(alloc, p.symbols[rule.target as usize].arity)?)?;
    }
    Ok(sizes)
}

// The sizes of this many start arguments.
fn arguments(alloc: Global, arity: u32) -> Result<Vec<Option<Stored>>, Memory>
    ensures { IfOk result (λ sizes. IsStartRow arity sizes.items) }
{
    let mut sizes = Vec::new(alloc);
    for place in 0..arity {
        sizes.push(Some(argument(place)))?;
    }
    Ok(sizes)
}

// The stored size of a start argument.
fn argument(place: u32) -> Stored
    ensures bound { bound_stored (Some result) ≡ Some (Input place) }
    ensures number { result.lemma ≡ 0 }
{
    Stored {
        bound: Bound::Var(place),
        lemma: 0,
    }
}

// This many places without a known size.
fn nothing(alloc: Global, arity: u32) -> Result<Vec<Option<Stored>>, Memory>
    ensures { IfOk result (λ sizes. sizes.items ≡ replicate arity None) }
{
    let mut sizes = Vec::new(alloc);
    for _ in 0..arity {
        sizes.push(None)?;
    }
    Ok(sizes)
}
