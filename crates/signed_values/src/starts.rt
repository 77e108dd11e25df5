//! The lists of start values at which bounds are compared.

ghost use Rattle.std.specs.Prelude.{◌≡◌, ◌++◌, ◌<◌, IfOk, OnOk};
ghost use Rattle.signed_values.specs.Starts.{start_with_value, starts_of_argument, comparison_starts as comparison_lists, starts_of};

use poly_terms::Memory;
use std::alloc::Global;

/// The lists of start values at which bounds are compared, for a number of start arguments: 20 for each argument; 1 for
/// each; and for each argument in turn 40, and -20, with 10 for all others.
///
/// # Errors
///
/// `Memory` where an allocation fails.
pub fn comparison_starts(alloc: Global, arguments: usize) -> Result<Vec<Vec<i128>>, Memory>
    ensures { IfOk result (λ starts. starts_of starts.items ≡ comparison_lists arguments) }
{
    let mut starts = Vec::new(alloc);
    starts.push(vec![in alloc; 20; arguments]?)?;
    starts.push(vec![in alloc; 1; arguments]?)?;
    for argument in 0..arguments {
        push_starts_of_argument(alloc, &mut starts, arguments, argument)?;
    }
    Ok(starts)
}

// Adds 40 for one argument, and -20 for it, with 10 for all others.
fn push_starts_of_argument(
    alloc: Global,
    starts: &mut Vec<Vec<i128>>,
    arguments: usize,
    argument: usize,
) -> Result<(), Memory>
    requires { argument < arguments }
    ensures { OnOk result
        (starts_of starts.new.items ≡ starts_of starts.old.items ++ starts_of_argument arguments argument) }
{
    let high = start_with(alloc, arguments, argument, 40)?;
    let low = start_with(alloc, arguments, argument, -20)?;
    starts.push(high)?;
    starts.push(low)?;
    Ok(())
}

// A value for one argument, and 10 for all others.
fn start_with(
    alloc: Global,
    arguments: usize,
    argument: usize,
    value: i128,
) -> Result<Vec<i128>, Memory>
    requires { argument < arguments }
    ensures { IfOk result (λ start. start.items ≡ start_with_value arguments argument value) }
{
    let mut start = vec![in alloc; 10; arguments]?;
    start[argument] = value;
    Ok(start)
}
