//! Computes the set of a rule without a time, and the shut places of the set.

ghost use Rattle.std.specs.Prelude.{◌≡◌, ◌<◌, ◌≤◌, ◌-◌, ◌^◌, ◌++◌, length, map, filter, IfOk, IfSome};
ghost use Rattle.std.specs.Prelude.{OnOk, Some, None, replicate};
ghost use Rattle.model.specs.Paths.{target_of as target_of_rule, same_symbol};
ghost use Rattle.its_model.specs.Valid.{IsValid};
ghost use Rattle.its_model.specs.Views.{program_of};
ghost use Rattle.rank_search.specs.rule_questions.ProgramQuestions.{places_of};
ghost use Rattle.size_bounds.specs.Tables.{table_of, is_unstored};
ghost use Rattle.time_bounds.specs.Questions.{BelongsTogether, program_in};
ghost use Rattle.time_bounds.specs.Shutting.{lacks_any, place_if, shut_at, shut_by, shut_from, shut_marked};
ghost use Rattle.time_bounds.specs.Shutting.{marks_of, put_mark};

use crate::context::Context;
use cert_types::target_of;
use its_model::{Program, Symbol};
use model::Memory;
use size_bounds::Table;
use std::alloc::Global;

/// Which rules have no time; the virtual entry, at 0, has one.
pub(crate) fn untimed_rules(alloc: Global, table: &Table) -> Result<Vec<bool>, Memory>
    ensures { IfOk result (λ flags. flags.items ≡ map is_unstored table.now.times.items) }
{
    let mut flags = Vec::new(alloc);
    for time in &table.times {
        flags.push(time.is_none())?;
    }
    Ok(flags)
}

/// The shut places of a set with these entries, in order: the places of symbols to which an entry leads that lack a
/// size after it.
pub(crate) fn shut_places(
    cx: &Context,
    table: &Table,
    entering: &[u32],
) -> Result<Vec<(u32, u32)>, Memory>
    requires { BelongsTogether cx.now }
    ensures { IfOk result (λ shut. places_of shut.items
        ≡ shut_from (program_in cx.now) (table_of table.now) entering.now 0 (length cx.now.program.now.symbols.items)) }
{
    let mut shut = Vec::new(cx.alloc);
    let marks = entered_symbols(cx.alloc, cx.program, entering)?;
    for mark in &marks {
        push_marked(cx, table, entering, &mut shut, *mark)?;
    }
    Ok(shut)
}

// At each symbol to which an entry leads, the symbol's own number.
fn entered_symbols(alloc: Global, p: &Program, entering: &[u32]) -> Result<Vec<Option<u32>>, Memory>
    requires { IsValid (program_of p.now) }
    ensures { IfOk result (λ marks. marks.items
        ≡ marks_of (program_of p.now) entering.now (length p.now.symbols.items)) }
{
    let mut marks = no_marks(alloc, &p.symbols)?;
    for entry in entering {
        mark(&mut marks, target_of(p, *entry));
    }
    Ok(marks)
}

// No symbol has a mark.
fn no_marks(alloc: Global, symbols: &[Symbol]) -> Result<Vec<Option<u32>>, Memory>
    ensures { IfOk result (λ marks. marks.items ≡ replicate (length symbols.now) None) }
{
    let mut marks = Vec::new(alloc);
    for _symbol in symbols {
        marks.push(None)?;
    }
    Ok(marks)
}

// Marks a symbol by its own number, where there is one.
fn mark(marks: &mut Vec<Option<u32>>, symbol: Option<u32>)
    requires { IfSome symbol (λ a. a < length marks.old.items) }
    ensures { marks.new.items ≡ put_mark marks.old.items symbol }
{
    if let Some(number) = symbol {
        marks[number as usize] = symbol;
    }
}

// Appends the shut places of a symbol, if there is one.
fn push_marked(
    cx: &Context,
    table: &Table,
    entering: &[u32],
    shut: &mut Vec<(u32, u32)>,
    mark: Option<u32>,
) -> Result<(), Memory>
    requires ready { BelongsTogether cx.now }
    requires within { IfSome mark (λ a. a < length cx.now.program.now.symbols.items) }
    ensures { OnOk result (places_of shut.new.items ≡ places_of shut.old.items
        ++ shut_marked (program_in cx.now) (table_of table.now) entering.now mark) }
{
    match mark {
        Some(symbol) => push_entered(cx, table, entering, shut, symbol),
        None => Ok(()),
    }
}

// Appends the shut places of a symbol.
fn push_entered(
    cx: &Context,
    table: &Table,
    entering: &[u32],
    shut: &mut Vec<(u32, u32)>,
    symbol: u32,
) -> Result<(), Memory>
    requires ready { BelongsTogether cx.now }
    requires within { symbol < length cx.now.program.now.symbols.items }
    ensures { OnOk result (places_of shut.new.items ≡ places_of shut.old.items
        ++ shut_by (program_in cx.now) (table_of table.now) entering.now symbol) }
{
    let into = entries_into(cx.alloc, cx.program, entering, symbol)?;
    let arity = cx.program.symbols[symbol as usize].arity;
    push_shut(shut, table, &into, symbol, arity)
}

// Those of the entries that lead to a symbol, in order.
fn entries_into(
    alloc: Global,
    p: &Program,
    entering: &[u32],
    symbol: u32,
) -> Result<Vec<u32>, Memory>
    ensures { IfOk result (λ into. into.items
        ≡ filter (λ e. same_symbol (target_of_rule (program_of p.now) e) (Some symbol)) entering.now) }
{
    let mut into = Vec::new(alloc);
    for entry in entering {
        let leads = leads_to(p, *entry, symbol);
        if leads {
            into.push(*entry)?;
        }
    }
    Ok(into)
}

// Whether a rule, or the virtual entry, leads to a symbol.
fn leads_to(p: &Program, rule: u32, symbol: u32) -> bool
    ensures { result ≡ same_symbol (target_of_rule (program_of p.now) rule) (Some symbol) }
{
    match target_of(p, rule) {
        Some(target) => target == symbol,
        None => false,
    }
}

// Appends the places of a symbol that lack a size after one of these rules.
#[tactic(auto, using(crate::proofs::ShutByPlace::place_pushed))]
fn push_shut(
    shut: &mut Vec<(u32, u32)>,
    table: &Table,
    into: &[u32],
    symbol: u32,
    arity: u32,
) -> Result<(), Memory>
    requires { arity < 2 ^ 32 - 1 }
    ensures { OnOk result (places_of shut.new.items
        ≡ places_of shut.old.items ++ shut_at (table_of table.now) into.now symbol arity) }
{
    for position in 0..arity {
        push_place(shut, table, into, symbol, position + 1)?;
    }
    Ok(())
}

// Appends a place, if it lacks a size after one of these rules.
fn push_place(
    shut: &mut Vec<(u32, u32)>,
    table: &Table,
    into: &[u32],
    symbol: u32,
    place: u32,
) -> Result<(), Memory>
    ensures { OnOk result (places_of shut.new.items
        ≡ places_of shut.old.items ++ place_if (table_of table.now) into.now symbol place) }
{
    if lacks_size(table, into, place) {
        shut.push((symbol, place))?;
    }
    Ok(())
}

// Whether a place has no size after one of these rules.
fn lacks_size(table: &Table, rules: &[u32], place: u32) -> bool
    ensures { result ≡ lacks_any (table_of table.now) rules.now place }
{
    for rule in rules {
        if table.stored_size(*rule, place).is_none() {
            return true;
        }
    }
    false
}
