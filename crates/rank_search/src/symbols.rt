//! Lists the symbols of a set of rules, and those that are entered.

ghost use Rattle.std.specs.Prelude.{◌≡◌, ℕ, ◌<◌, ◌-◌, ◌^◌, ◌||◌, Bool, length, map, filter, replicate, IfOk, Some};
ghost use Rattle.std.specs.Prelude.{None};
ghost use Rattle.std.specs.List.{range_with_len};
ghost use Rattle.its_model.specs.Views.{program_of};
ghost use Rattle.poly_terms.specs.model.Paths.{same_symbol};
ghost use Rattle.cert_types.specs.cert_rules.Graph.{symbols_of};
ghost use Rattle.rank_search.specs.Marks.{AreMarks};
ghost use Rattle.rule_questions.specs.ProgramQuestions.{is_entered};

use cert_types::{entries, source_of, target_of};
use its_model::Program;
use poly_terms::Memory;
use std::alloc::Global;

/// The sources and targets of the rules of the set, in order. The time is linear in symbols and rules.
pub(crate) fn symbols_of_set(alloc: Global, p: &Program, set: &[u32]) -> Result<Vec<u32>, Memory>
    ensures { IfOk result (λ symbols. symbols.items ≡ symbols_of (program_of p.now) set.now) }
{
    let mut marks = no_marks(alloc, p.symbols.len())?;
    for rule in set {
        mark_symbol(&mut marks, source_of(p, *rule));
        mark_symbol(&mut marks, target_of(p, *rule));
    }
    marked(alloc, &marks)
}

/// For each symbol, whether an entry of the set leads to it. The time is near-linear in symbols and rules.
pub(crate) fn entered(alloc: Global, p: &Program, set: &[u32]) -> Result<Vec<bool>, Memory>
    requires { length p.now.rules.items < 2 ^ 32 - 1 }
    ensures { IfOk result (λ marks. marks.items
        ≡ map (is_entered (program_of p.now) set.now) (range_with_len 0 (length p.now.symbols.items))) }
{
    let entering = entries(alloc, p, set)?;
    let mut marks = no_marks(alloc, p.symbols.len())?;
    for entry in &entering {
        mark_symbol(&mut marks, target_of(p, *entry));
    }
    are_marked(alloc, &marks)
}

// A list without marks.
fn no_marks(alloc: Global, count: usize) -> Result<Vec<Option<u32>>, Memory>
    ensures { IfOk result (λ marks. marks.items ≡ replicate count None) }
{
    Ok(vec![in alloc; None; count]?)
}

// Marks a symbol by its own number, if there is such a symbol in the list.
fn mark_symbol(marks: &mut Vec<Option<u32>>, symbol: Option<u32>)
    ensures one_each { length marks.new.items ≡ length marks.old.items }
    ensures marks { (test : ℕ → Bool) → AreMarks test marks.old.items
        → AreMarks (λ n. test n || same_symbol (Some n) symbol) marks.new.items }
{
    if let Some(number) = symbol {
        if (number as usize) < marks.len() {
            marks[number as usize] = Some(number);
        }
    }
}

// The marked numbers, in order.
fn marked(alloc: Global, marks: &[Option<u32>]) -> Result<Vec<u32>, Memory>
    ensures { IfOk result (λ found. (test : ℕ → Bool) → AreMarks test marks.now
        → found.items ≡ filter test (range_with_len 0 (length marks.now))) }
{
    let mut found = Vec::new(alloc);
    for mark in marks {
        match mark {
            Some(number) => found.push(*number)?,
            None => {}
        }
    }
    Ok(found)
}

// For each number, whether it is marked.
fn are_marked(alloc: Global, marks: &[Option<u32>]) -> Result<Vec<bool>, Memory>
    ensures { IfOk result (λ flags. (test : ℕ → Bool) → AreMarks test marks.now
        → flags.items ≡ map test (range_with_len 0 (length marks.now))) }
{
    let mut flags = Vec::new(alloc);
    for mark in marks {
        flags.push(mark.is_some())?;
    }
    Ok(flags)
}
