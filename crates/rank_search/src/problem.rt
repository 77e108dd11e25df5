//! Builds the problem of a rank question, group by group.

ghost use Rattle.std.specs.Prelude.{◌≡◌, ◌<◌, ◌+◌, ◌^◌, nat_eq, if◌then◌else◌, length};
ghost use Rattle.std.specs.Prelude.{map, slice_index_or, false, IfOk};
ghost use Rattle.simplex_core.specs.linear_forms.RuleQuestions.{rank_question};
ghost use Rattle.its_model.specs.Valid.{IsValid};
ghost use Rattle.its_model.specs.Views.{program_of};
ghost use Rattle.poly_terms.specs.model.Programs.{rule_at};
ghost use Rattle.lp_builder.specs.Builders.{parameter_count, row_count, column_count, AtRowStart, Adds};
ghost use Rattle.cert_types.specs.cert_rules.AcceptsPlain.{IsRule};
ghost use Rattle.cert_types.specs.Composing.{AreRowsOf};
ghost use Rattle.rank_search.specs.Blocks.{AreBlocks};
ghost use Rattle.rank_search.specs.Coefficients.{coefficient_of, AreCoefficients};
ghost use Rattle.rank_search.specs.Goals.{part_group, part_for, Fits};
ghost use Rattle.rule_questions.specs.ProgramQuestions.{ranked_set, places_of, is_entered, forms_in};
ghost use Rattle.rule_questions.specs.Programs.{IsProblemOf};
ghost use Rattle.rank_search.specs.RankAnswers.{IsRuleSet};

use crate::blocks::{Block, blocks_of};
use crate::coefficients::Coefficient;
use crate::goals::{Part, fixed_row, goals_of};
use crate::symbols::entered;
use guard_prep::RuleRows;
use its_model::Program;
use lp_builder::{Builder, Cost};
use poly_terms::Memory;
use simplex_core::Problem;
use std::alloc::Global;

/// The problem that asks whether a function ranks the strict rule: a group for each rule of the set, and one for the
/// floor.
pub(crate) fn rank_problem(
    alloc: Global,
    p: &Program,
    prepared_rules: &[RuleRows],
    set: &[u32],
    strict: u32,
    shut: &[(u32, u32)],
    coefficients: &[Coefficient],
) -> Result<Problem, Memory>
    requires valid { IsValid (program_of p.now) }
    requires rows { AreRowsOf prepared_rules.now (program_of p.now) }
    requires rules { IsRuleSet (program_of p.now) set.now strict }
    requires coefficients { AreCoefficients
        (ranked_set (program_of p.now) set.now strict (places_of shut.now)) coefficients.now }
    ensures { IfOk result (λ problem. IsProblemOf
        (rank_question (ranked_set (program_of p.now) set.now strict (places_of shut.now))) problem) }
{
    let marks = entered(alloc, p, set)?;
    let costs = costs_of(alloc, coefficients, &marks)?;
    let blocks = blocks_of(alloc, p.symbols.len(), coefficients)?;
    let mut builder = Builder::new(alloc, coefficients.len() as u32);
    for rule in set {
        let part = part_of(*rule, strict);
        add_part(
            alloc,
            &mut builder,
            part,
            p,
            prepared_rules,
            *rule,
            coefficients,
            &blocks,
        )?;
    }
    add_part(
        alloc,
        &mut builder,
        Part::Floor,
        p,
        prepared_rules,
        strict,
        coefficients,
        &blocks,
    )?;
    builder.finish(alloc, &costs)
}

// What the group of a rule of the set has to show.
fn part_of(rule: u32, strict: u32) -> Part
    ensures { result ≡ part_for (nat_eq rule strict) }
{
    if rule == strict {
        Part::Fall
    } else {
        Part::Move
    }
}

// Writes the group of a rule.
fn add_part(
    alloc: Global,
    builder: &mut Builder,
    part: Part,
    p: &Program,
    prepared_rules: &[RuleRows],
    rule: u32,
    coefficients: &[Coefficient],
    blocks: &[Block],
) -> Result<(), Memory>
    requires valid { IsValid (program_of p.now) }
    requires rows { AreRowsOf prepared_rules.now (program_of p.now) }
    requires rule { IsRule (program_of p.now) rule }
    requires ready { AtRowStart builder.old }
    requires few { length coefficients.now < 2 ^ 30 }
    requires parameters { parameter_count builder.old ≡ length coefficients.now }
    requires few_rows { row_count builder.old + 97 < 2 ^ 31 }
    requires few_columns { column_count builder.old + 129 < 2 ^ 31 }
    requires fit { Fits part (forms_in (rule_at (program_of p.now) rule)) (map coefficient_of coefficients.now) }
    requires blocks { AreBlocks (length coefficients.now) blocks.now coefficients.now }
    ensures { IfOk result (λ _. Adds builder.old builder.new
        (part_group part (forms_in (rule_at (program_of p.now) rule)) (map coefficient_of coefficients.now))) }
{
    let r = &p.rules[rule as usize - 1];
    let prepared_rule = &prepared_rules[rule as usize - 1];
    let goals = goals_of(
        alloc,
        part,
        r.source,
        r.target,
        prepared_rule,
        coefficients,
        blocks,
    )?;
    let fixed = fixed_row(alloc, part);
    builder.add_group(prepared_rule.unknowns, &prepared_rule.rows, &goals, &fixed)
}

// The costs of each coefficient.
fn costs_of(
    alloc: Global,
    coefficients: &[Coefficient],
    entered: &[bool],
) -> Result<Vec<Cost>, Memory>
    ensures sizes { IfOk result (λ costs. map (λ c. c.size) costs.items
        ≡ map (λ c. if slice_index_or entered.now c.symbol false then (if nat_eq c.place 0 then 0 else 1) else 0)
        coefficients.now) }
    ensures heights { IfOk result (λ costs. map (λ c. c.height) costs.items
        ≡ map (λ c. if slice_index_or entered.now c.symbol false then (if nat_eq c.place 0 then 1 else 0) else 0)
        coefficients.now) }
{
    let mut costs = Vec::new(alloc);
    for c in coefficients {
        costs.push(cost_of(*c, is_marked(entered, c.symbol)))?;
    }
    Ok(costs)
}

// Whether a symbol is marked.
fn is_marked(entered: &[bool], symbol: u32) -> bool
    ensures { result ≡ slice_index_or entered.now symbol false }
{
    match entered.get(symbol as usize) {
        Some(mark) => *mark,
        None => false,
    }
}

// The costs of a coefficient: a place of an entered symbol has a size, and the constant of one has a height.
fn cost_of(c: Coefficient, is_entered: bool) -> Cost
    ensures size { result.size ≡ (if is_entered then (if nat_eq c.place 0 then 0 else 1) else 0) }
    ensures height { result.height ≡ (if is_entered then (if nat_eq c.place 0 then 1 else 0) else 0) }
{
    if !is_entered {
        Cost { size: 0, height: 0 }
    } else if c.place == 0 {
        Cost { size: 0, height: 1 }
    } else {
        Cost { size: 1, height: 0 }
    }
}
