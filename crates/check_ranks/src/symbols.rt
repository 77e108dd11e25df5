//! Lists the symbols of a set of rules.

ghost use Rattle.std.specs.Prelude.{◌≡◌, ℕ, ◌||◌, Bool, length, filter, replicate, IfOk, Some};
ghost use Rattle.std.specs.Prelude.{None};
ghost use Rattle.std.specs.List.{range_with_len};
ghost use Rattle.its_model.specs.Views.{program_of};
ghost use Rattle.model.specs.Paths.{same_symbol};
ghost use Rattle.cert_types.specs.cert_rules.Graph.{symbols_of};
ghost use Rattle.check_ranks.specs.Marks.{AreMarks};

use cert_types::{source_of, target_of};
use its_model::Program;
use model::Memory;
use std::alloc::Global;

/// The sources and targets of the rules of the set, in order. The running time is linear in symbols and rules.
pub(crate) fn symbols_of_set(alloc: Global, p: &Program, set: &[u32]) -> Result<Vec<u32>, Memory>
    ensures { IfOk result (λ symbols. symbols.items ≡ symbols_of (program_of p.now) set.now) }
{
    let mut marks = no_marks(alloc, p.symbols.len())?;
    for rule in set {
        mark_symbol(&mut marks, source_of(p, *rule));
        mark_symbol(&mut marks, target_of(p, *rule));
    }
    marked(alloc, &marks)
}

// A mark for each symbol, none of them set.
fn no_marks(alloc: Global, count: usize) -> Result<Vec<Option<u32>>, Memory>
    ensures { IfOk result (λ marks. marks.items ≡ replicate count None) }
{
    Ok(vec![in alloc; None; count]?)
}

// Marks a symbol by its own number, if there is one that has a mark.
fn mark_symbol(marks: &mut Vec<Option<u32>>, symbol: Option<u32>)
    ensures one_each { length marks.new.items ≡ length marks.old.items }
    ensures marks { (test : ℕ → Bool) → AreMarks test marks.old.items
        → AreMarks (λ n. test n || same_symbol (Some n) symbol) marks.new.items }
{
    if let Some(number) = symbol {
        if (number as usize) < marks.len() {
            marks[number as usize] = Some(number);
        }
    }
}

// The numbers that are marked, in order.
fn marked(alloc: Global, marks: &[Option<u32>]) -> Result<Vec<u32>, Memory>
    ensures { IfOk result (λ found. (test : ℕ → Bool) → AreMarks test marks.now
        → found.items ≡ filter test (range_with_len 0 (length marks.now))) }
{
    let mut found = Vec::new(alloc);
    for mark in marks {
        match mark {
            Some(number) => found.push(*number)?,
            None => {}
        }
    }
    Ok(found)
}
