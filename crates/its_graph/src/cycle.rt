//! Whether the graph of a program has a cycle.

ghost use Rattle.std.specs.Prelude.{◌≡◌, ℕ, ◌<◌, ◌≤◌, ◌^◌, ◌↔◌, length, map, All, IfOk, IsTrue, slice_index};
ghost use Rattle.std.specs.List.{Contains};
ghost use Rattle.model.specs.Paths.{HasCycle};
ghost use Rattle.its_model.specs.Views.{program_of};
ghost use Rattle.its_graph.specs.Groups.{IsPair};
ghost use Rattle.its_graph.specs.Links.{LeadBelow};
ghost use Rattle.its_graph.specs.Numbers.{AreNumbers, AreApart, HasInside};

use crate::classes::name_all;
use crate::links::{links_in, symbol_limit};
use crate::listing::components_below;
use its_model::Program;
use model::Memory;
use std::alloc::Global;

/// Whether the graph of the program has a cycle, that is, whether some component has an inner edge.
///
/// The answer is exact. The time is near-linear.
///
/// # Errors
///
/// `Memory` if an allocation fails.
pub fn has_cycle(alloc: Global, p: &Program) -> Result<bool, Memory>
    ensures { IfOk result (λ found. IsTrue found ↔ HasCycle (program_of p.now)) }
{
    let symbols = symbol_limit(&p.rules);
    let links = links_in(alloc, &p.rules)?;
    let components = components_below(alloc, symbols, &links)?;
    let numbers = numbers_of(alloc, symbols, &components)?;
    Ok(has_link_inside(&numbers, &links))
}

// The number of each node's component.
fn numbers_of(alloc: Global, nodes: usize, components: &[Vec<u32>]) -> Result<Vec<u32>, Memory>
    requires few { length components.now ≤ 2 ^ 32 }
    requires apart { AreApart nodes components.now }
    ensures size { IfOk result (λ numbers. length numbers.items ≡ nodes) }
    ensures numbered { IfOk result (λ numbers. AreNumbers components.now numbers.items) }
{
    let mut numbers = vec![in alloc; 0u32; nodes]?;
    number_all(&mut numbers, components);
    Ok(numbers)
}

// Gives the nodes of each component its number.
fn number_all(numbers: &mut [u32], components: &[Vec<u32>])
    requires few { length components.now ≤ 2 ^ 32 }
    requires apart { AreApart (length numbers.old) components.now }
    ensures { AreNumbers components.now numbers.new }
{
    for (number, component) in components.iter().enumerate() {
        name_all(numbers, component, number as u32);
    }
}

// Whether some link leads to a node of the same component.
fn has_link_inside(numbers: &[u32], links: &[(u32, u32)]) -> bool
    requires { All (λ e. (e.0 < length numbers.now) × (e.1 < length numbers.now)) links.now }
    ensures { IsTrue result ↔ HasInside numbers.now links.now }
{
    for (from, to) in links {
        if numbers[*from as usize] == numbers[*to as usize] {
            return true;
        }
    }
    false
}
