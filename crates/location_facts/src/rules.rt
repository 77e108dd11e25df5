//! The rules of a program under a list of facts: what has to be asked of each before the facts at its target.

ghost use Rattle.std.specs.Prelude.{◌≡◌, ◌⊎◌, ◌++◌, ◌≤◌, ◌<◌, ℕ, List, length, map, true, false, Some};
ghost use Rattle.std.specs.Prelude.{slice_get, slice_index, IfOk};
ghost use Rattle.std.specs.List.{All};
ghost use Rattle.lp_builder.specs.Descriptions.{IsWritable};
ghost use Rattle.poly_terms.specs.linear_forms.Forms.{Form};
ghost use Rattle.poly_terms.specs.Views.{form_of};
ghost use Rattle.its_model.specs.Valid.{IsValid};
ghost use Rattle.its_model.specs.Views.{program_of};
ghost use Rattle.cert_types.specs.Composing.{AreRowsOf};
ghost use Rattle.rule_questions.specs.EmptyAnswers.{IsPrepared};
ghost use Rattle.location_facts.specs.Due.{AreDue, AreUnder, IsWanted, HasKnownPoint, StatesRule};
ghost use Rattle.location_facts.specs.Implied.{AreInOrder};
ghost use Rattle.location_facts.specs.Pointed.{HasPoint, StatesPoint, ArePointed};
ghost use Rattle.location_facts.specs.Rows.{row_before as row_of, facts_at as facts_of_symbol};

use crate::fact::LocFact;
use crate::implied::{RuleUnderFacts, feasible_rule_under_facts, rule_under_facts};
use crate::tables::counts_by_symbol;
use guard_prep::RuleRows;
use its_model::Program;
use poly_terms::Memory;
use std::alloc::Global;

/// The context of the queries: a program, the rows of its rules, the number of pivots a linear program may take, and
/// the rules into each symbol.
#[derive(Clone, Copy)]
pub(crate) struct Search<'a> {
    pub program: &'a Program,
    pub prepared_rules: &'a [RuleRows],
    pub pivots: u32,
    /// For each symbol, the rules that lead to it, ascending.
    pub into: &'a [Vec<u32>],
}

/// A rule: its prepared rows, and its source.
#[derive(Clone, Copy)]
pub(crate) struct Leaving<'a> {
    pub prepared_rule: &'a RuleRows,
    pub source: u32,
}

/// What has to be asked of a rule under a list of facts.
#[derive(Clone, Copy)]
pub(crate) enum Wanted {
    /// Nothing: the earlier answers remain valid.
    Nothing,
    /// Which facts it implies; its combined rows are known to have a point.
    Facts,
    /// Whether its combined rows have a point, and which facts it implies.
    Everything,
}

/// Which rules are due when the second list follows the first: those at whose source a fact was dropped.
///
/// # Errors
///
/// `Memory` if an allocation fails.
pub(crate) fn due_rules(
    alloc: Global,
    p: &Program,
    old: &[LocFact],
    new: &[LocFact],
) -> Result<Vec<bool>, Memory>
    ensures { IfOk result (λ due. AreDue (program_of p.now) old.now new.now due.items) }
{
    let before = counts_by_symbol(alloc, p.symbols.len(), old)?;
    let after = counts_by_symbol(alloc, p.symbols.len(), new)?;
    let mut due = Vec::new(alloc);
    for i in 0..p.rules.len() {
        let source = p.rules[i].source;
        let is_due = differ(&before, &after, source);
        due.push(is_due)?;
    }
    Ok(due)
}

// Whether a symbol has different numbers of facts in two tables, or isn't in both.
fn differ(before: &[usize], after: &[usize], symbol: u32) -> bool
    ensures within { result ≡ false → (symbol < length before.now) × (symbol < length after.now) }
    ensures same { result ≡ false → slice_index before.now symbol ≡ slice_index after.now symbol }
{
    let place = symbol as usize;
    if place < before.len() && place < after.len() {
        return before[place] != after[place];
    }
    true
}

/// The due rules of a program, each under a list. Marked rules have a point under the list, and rules that show one are
/// marked.
///
/// # Errors
///
/// `Memory` if an allocation fails.
pub(crate) fn rules_under(
    alloc: Global,
    search: Search,
    kept: &[LocFact],
    due: &[bool],
    points: &mut Vec<bool>,
) -> Result<Vec<Option<RuleUnderFacts>>, Memory>
    requires valid { IsValid (program_of search.program.now) }
    requires rows { AreRowsOf search.prepared_rules.now (program_of search.program.now) }
    requires ordered { AreInOrder (program_of search.program.now) kept.now }
    requires points { ArePointed (program_of search.program.now) kept.now points.old.items }
    ensures rules { IfOk result (λ us.
        AreUnder (program_of search.entry.program.now) search.entry.pivots due.now kept.now us.items) }
    ensures points { IfOk result (λ _. ArePointed (program_of search.entry.program.now) kept.now points.new.items) }
{
    let mut rules_under_facts = Vec::new(alloc);
    for i in 0..search.program.rules.len() {
        let prepared_rule = &search.prepared_rules[i];
        let rule = &search.program.rules[i];
        let leaving = Leaving {
            prepared_rule,
            source: rule.source,
        };
        let asked = asked_of(due, points, i);
        let under = rule_if_due(alloc, leaving, kept, asked, search.pivots)?;
        let has_point = has_point(&under);
        mark(points, i, has_point);
        rules_under_facts.push(under)?;
    }
    Ok(rules_under_facts)
}

// What has to be asked of a rule, depending on whether it is due and whether it is marked.
fn asked_of(due: &[bool], points: &[bool], i: usize) -> Wanted
    ensures { IsWanted due.now points.now i result }
{
    if i < due.len() && !due[i] {
        return Wanted::Nothing;
    }
    if i < points.len() && points[i] {
        return Wanted::Facts;
    }
    Wanted::Everything
}

// Marks a rule, if it has a point.
fn mark(points: &mut Vec<bool>, i: usize, has_point: bool)
    ensures { (j : ℕ) → slice_get points.new.items j ≡ Some true
        → (slice_get points.old.items j ≡ Some true) ⊎ ((j ≡ i) × (has_point ≡ true)) }
{
    if has_point && i < points.len() {
        points[i] = true;
    }
}

// Whether a rule under a list is known to have a point.
fn has_point(under: &Option<RuleUnderFacts>) -> bool
    ensures { result ≡ true → (rows : List Form) → StatesPoint rows under.now → HasPoint rows }
{
    match under {
        Some(asked) => asked.has_point,
        None => false,
    }
}

// A rule under a list, if anything has to be asked of it.
fn rule_if_due(
    alloc: Global,
    rule: Leaving,
    kept: &[LocFact],
    asked: Wanted,
    pivots: u32,
) -> Result<Option<RuleUnderFacts>, Memory>
    requires prepared { IsPrepared rule.prepared_rule.now }
    requires few { length (map form_of rule.prepared_rule.now.rows.items
        ++ map row_of (facts_of_symbol rule.source kept.now))
        ≤ 371 }
    requires writable { All (IsWritable rule.prepared_rule.now.unknowns)
        (map form_of rule.prepared_rule.now.rows.items ++ map row_of (facts_of_symbol rule.source kept.now)) }
    requires point { HasKnownPoint asked
        (map form_of rule.prepared_rule.now.rows.items ++ map row_of (facts_of_symbol rule.source kept.now)) }
    ensures verdict { IfOk result (StatesRule pivots rule.entry.prepared_rule.now.unknowns
        (map form_of rule.entry.prepared_rule.now.rows.items ++ map row_of (facts_of_symbol rule.entry.source kept.now))
        asked) }
    ensures point { IfOk result (StatesPoint
        (map form_of rule.entry.prepared_rule.now.rows.items
        ++ map row_of (facts_of_symbol rule.entry.source kept.now))) }
{
    match asked {
        Wanted::Nothing => Ok(None),
        Wanted::Facts => {
            let under = feasible_rule_under_facts(alloc, rule.prepared_rule, rule.source, kept)?;
            Ok(Some(under))
        }
        Wanted::Everything => {
            let under = rule_under_facts(alloc, rule.prepared_rule, rule.source, kept, pivots)?;
            Ok(Some(under))
        }
    }
}
