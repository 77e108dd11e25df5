//! Tables by symbol: the rules that lead to each, and how many facts of each a list has.

ghost use Rattle.std.specs.Prelude.{◌≡◌, ◌<◌, ◌+◌, ◌-◌, ◌^◌, length, slice_index, slice_set, IfOk};
ghost use Rattle.std.specs.List.{All};
ghost use Rattle.its_model.specs.Views.{program_of};
ghost use Rattle.location_facts.specs.Tables.{AreRulesInto, AreCounts};

use crate::candidates::to_u32;
use crate::checks::rules_into;
use crate::fact::LocFact;
use its_model::Program;
use poly_terms::Memory;
use std::alloc::Global;

/// For each symbol of a program, in order, the rules that lead to it, ascending.
///
/// # Errors
///
/// `Memory` if an allocation fails, or if the number of a symbol has more than 32 bits.
pub(crate) fn rules_by_symbol(alloc: Global, p: &Program) -> Result<Vec<Vec<u32>>, Memory>
    requires { length p.now.rules.items < 2 ^ 32 - 1 }
    ensures { IfOk result (λ table. AreRulesInto (program_of p.now) table.items) }
{
    let mut table = Vec::new(alloc);
    for symbol in 0..to_u32(p.symbols.len())? {
        let rules = rules_into(alloc, p, symbol)?;
        table.push(rules)?;
    }
    Ok(table)
}

/// How many of these facts each symbol has, for this many symbols.
///
/// # Errors
///
/// `Memory` if an allocation fails.
pub(crate) fn counts_by_symbol(
    alloc: Global,
    symbols: usize,
    facts: &[LocFact],
) -> Result<Vec<usize>, Memory>
    ensures { IfOk result (λ counts. AreCounts symbols facts.now counts.items) }
{
    let mut counts = vec![in alloc; 0usize; symbols]?;
    for i in 0..facts.len() {
        let fact = facts[i];
        count_one(&mut counts, fact.symbol);
    }
    Ok(counts)
}

// Counts one more fact of a symbol, if the table has the symbol.
fn count_one(counts: &mut Vec<usize>, symbol: u32)
    requires { All (λ count. count < 2 ^ 64 - 1) counts.old.items }
    ensures { counts.new.items
        ≡ slice_set counts.old.items symbol (slice_index counts.old.items symbol + 1) }
{
    let place = symbol as usize;
    if place < counts.len() {
        counts[place] += 1;
    }
}
