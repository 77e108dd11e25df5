//! The rules without a time and their sets, with their shut places; the set of a component is computed once in a round.

ghost use Rattle.std.specs.Prelude.{◌≡◌, IfOk, OnOk, Some, None, replicate, slice_index_or, true, false};
ghost use Rattle.time_bounds.specs.Parts.{AreParts, IsOpenSet};
ghost use Rattle.time_bounds.specs.Questions.{AreUntimed, BelongsTogether, IsTable, program_in};

use crate::context::Context;
use crate::sets::{shut_places, untimed_rules};
use cert_types::entries;
use model::Memory;
use size_bounds::Table;
use std::alloc::Global;

/// The set of a rule without a time, and its shut places.
#[derive(Drop)]
pub(crate) struct OpenSet {
    pub set: Vec<u32>,
    pub shut: Vec<(u32, u32)>,
}

/// The rules without a time, and their sets, by components of the graph of these rules.
#[derive(Drop)]
pub(crate) struct Parts {
    /// Which rules have no time; the virtual entry, at 0, has one.
    pub untimed: Vec<bool>,
    /// The component that each rule stays in, if it stays in one.
    pub of_rules: Vec<Option<u32>>,
    /// The set that was computed for each component.
    pub found: Vec<Option<OpenSet>>,
}

/// The rules without a time in a table, and the components of their graph; no set has been computed yet.
pub(crate) fn parts_of(cx: &Context, table: &Table) -> Result<Parts, Memory>
    requires ready { BelongsTogether cx.now }
    requires table { IsTable (program_in cx.now) table.now cx.now.empties.items }
    ensures { IfOk result (λ parts. AreParts (program_in cx.now) table.now parts) }
{
    let untimed = untimed_rules(cx.alloc, table)?;
    let of_rules = cx.graph.parts(cx.alloc, &untimed)?;
    let found = nothing_found(cx.alloc, cx.graph.symbols)?;
    Ok(Parts {
        untimed,
        of_rules,
        found,
    })
}

// This many components without a computed set.
fn nothing_found(alloc: Global, count: usize) -> Result<Vec<Option<OpenSet>>, Memory>
    ensures { IfOk result (λ found. found.items ≡ replicate count None) }
{
    let mut found = Vec::new(alloc);
    for _ in 0..count {
        found.push(None)?;
    }
    Ok(found)
}

/// The set of a rule without a time, and its shut places. Where the rule stays in a component of the graph of such
/// rules, all rules that stay there have the same.
pub(crate) fn open_set(
    cx: &Context,
    table: &Table,
    parts: &mut Parts,
    rule: u32,
) -> Result<OpenSet, Memory>
    requires ready { BelongsTogether cx.now }
    requires table { IsTable (program_in cx.now) table.now cx.now.empties.items }
    requires parts { AreParts (program_in cx.now) table.now parts.old }
    requires untimed { slice_index_or parts.old.untimed.items rule false ≡ true }
    ensures set { IfOk result (λ s. IsOpenSet (program_in cx.now) table.now rule s) }
    ensures parts { OnOk result (AreParts (program_in cx.now) table.now parts.new) }
{
    match parts.of_rules[rule as usize] {
        Some(part) => set_of_part(cx, table, parts, rule, part),
        None => made_set(cx, table, &parts.untimed, rule),
    }
}

// The set of a rule that stays in this component: the one computed before, or else a new one.
fn set_of_part(
    cx: &Context,
    table: &Table,
    parts: &mut Parts,
    rule: u32,
    part: u32,
) -> Result<OpenSet, Memory>
    requires ready { BelongsTogether cx.now }
    requires table { IsTable (program_in cx.now) table.now cx.now.empties.items }
    requires parts { AreParts (program_in cx.now) table.now parts.old }
    requires untimed { slice_index_or parts.old.untimed.items rule false ≡ true }
    requires part { slice_index_or parts.old.of_rules.items rule None ≡ Some part }
    ensures set { IfOk result (λ s. IsOpenSet (program_in cx.now) table.now rule s) }
    ensures parts { OnOk result (AreParts (program_in cx.now) table.now parts.new) }
{
    if let Some(known) = &parts.found[part as usize] {
        let copy = copied_set(cx.alloc, known)?;
        return Ok(copy);
    }
    let made = made_set(cx, table, &parts.untimed, rule)?;
    let copy = copied_set(cx.alloc, &made)?;
    parts.found[part as usize] = Some(copy);
    Ok(made)
}

// A copy of a set, with the same shut places.
fn copied_set(alloc: Global, first: &OpenSet) -> Result<OpenSet, Memory>
    ensures set { IfOk result (λ s. s.set.items ≡ first.now.set.items) }
    ensures shut { IfOk result (λ s. s.shut.items ≡ first.now.shut.items) }
{
    let set = Vec::from_slice(alloc, &first.set)?;
    let shut = Vec::from_slice(alloc, &first.shut)?;
    Ok(OpenSet { set, shut })
}

// The set of a rule without a time, and its shut places, from the graph.
fn made_set(cx: &Context, table: &Table, untimed: &[bool], rule: u32) -> Result<OpenSet, Memory>
    requires ready { BelongsTogether cx.now }
    requires table { IsTable (program_in cx.now) table.now cx.now.empties.items }
    requires flags { AreUntimed (program_in cx.now) table.now untimed.now }
    requires untimed_rule { slice_index_or untimed.now rule false ≡ true }
    ensures { IfOk result (λ s. IsOpenSet (program_in cx.now) table.now rule s) }
{
    let set = cx.graph.back_closure(cx.alloc, untimed, rule)?;
    let entering = entries(cx.alloc, cx.program, &set)?;
    let shut = shut_places(cx, table, &entering)?;
    Ok(OpenSet { set, shut })
}
