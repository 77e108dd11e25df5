//! The goals of a rule in a rank question: the decrease by the rule, coefficient by coefficient.

ghost use Rattle.std.specs.Prelude.{◌≡◌, ◌<◌, ◌≤◌, ◌^◌, ◌||◌};
ghost use Rattle.std.specs.Prelude.{max, nat_eq, [], length, map, IfOk, OnOk};
ghost use Rattle.std.specs.List.{All};
ghost use Rattle.simplex_core.specs.linear_forms.Forms.{at};
ghost use Rattle.simplex_core.specs.linear_forms.Combinations.{form_sum};
ghost use Rattle.simplex_core.specs.linear_forms.RuleQuestions.{opposite, at_source, at_target};
ghost use Rattle.lp_builder.specs.Descriptions.{goal_forms, AreParameters, IsWritable};
ghost use Rattle.guard_prep.specs.Views.{prepared_of};
ghost use Rattle.poly_terms.specs.Views.{form_of};
ghost use Rattle.rank_search.specs.Coefficients.{coefficient_of};
ghost use Rattle.rank_search.specs.Blocks.{AreBlocks, HoldGoals};
ghost use Rattle.rank_search.specs.Goals.{fixed_form, goal_form, AreGoalsUpTo};
ghost use Rattle.rule_questions.specs.SmallForms.{IsSmall, IsDifferenceSmall};
ghost use Rattle.rule_questions.specs.ProgramQuestions.{forms_of};

use crate::blocks::{Block, block_of};
use crate::coefficients::Coefficient;
use guard_prep::RuleRows;
use lp_builder::{Goal, Row};
use poly_terms::Memory;
use rule_questions::{constant_row, difference, unit_row};
use std::alloc::Global;

/// What a group of a rank question has to show.
#[derive(Clone, Copy, Debug, PartialEq, Eq)]
pub enum Part {
    /// The rule doesn't increase the function.
    Move,
    /// The rule decreases the function by at least 1.
    Fall,
    /// The function is at least 1 before the rule.
    Floor,
}

/// The goals of a rule from one symbol to another, for each coefficient of one of them. The time is linear in the
/// coefficients of the two symbols.
pub(crate) fn goals_of(
    alloc: Global,
    part: Part,
    source: u32,
    target: u32,
    prepared_rule: &RuleRows,
    coefficients: &[Coefficient],
    blocks: &[Block],
) -> Result<Vec<Goal>, Memory>
    requires few { length coefficients.now < 2 ^ 30 }
    requires new_values { All (λ f. IsSmall (form_of f)) prepared_rule.now.new_values.items }
    requires fit { All (λ c. length (goal_form part (forms_of source target (prepared_of prepared_rule.now))
        (coefficient_of c)).coefs ≤ prepared_rule.now.unknowns) coefficients.now }
    requires blocks { AreBlocks (length coefficients.now) blocks.now coefficients.now }
    ensures goals { IfOk result (λ goals. goal_forms 0 (length coefficients.now) goals.items
        ≡ map (λ c. goal_form part (forms_of source target (prepared_of prepared_rule.now)) (coefficient_of c))
        coefficients.now) }
    ensures listed { IfOk result (λ goals. AreParameters (length coefficients.now) goals.items) }
    ensures writable { IfOk result
        (λ goals. All (λ g. IsWritable prepared_rule.now.unknowns (form_of g.form)) goals.items) }
{
    let own = block_of(blocks, source);
    let other = block_of(blocks, target);
    if own.first <= other.first {
        goals_in(
            alloc,
            part,
            source,
            target,
            prepared_rule,
            coefficients,
            own,
            other,
        )
    } else {
        goals_in(
            alloc,
            part,
            source,
            target,
            prepared_rule,
            coefficients,
            other,
            own,
        )
    }
}

// The goals of a rule whose coefficients are in two blocks; the second block doesn't begin before the first.
fn goals_in(
    alloc: Global,
    part: Part,
    source: u32,
    target: u32,
    prepared_rule: &RuleRows,
    coefficients: &[Coefficient],
    first: Block,
    second: Block,
) -> Result<Vec<Goal>, Memory>
    requires few { length coefficients.now < 2 ^ 30 }
    requires new_values { All (λ f. IsSmall (form_of f)) prepared_rule.now.new_values.items }
    requires fit { All (λ c. length (goal_form part (forms_of source target (prepared_of prepared_rule.now))
        (coefficient_of c)).coefs ≤ prepared_rule.now.unknowns) coefficients.now }
    requires blocks { HoldGoals source target coefficients.now first second }
    ensures goals { IfOk result (λ goals. goal_forms 0 (length coefficients.now) goals.items
        ≡ map (λ c. goal_form part (forms_of source target (prepared_of prepared_rule.now)) (coefficient_of c))
        coefficients.now) }
    ensures listed { IfOk result (λ goals. AreParameters (length coefficients.now) goals.items) }
    ensures writable { IfOk result
        (λ goals. All (λ g. IsWritable prepared_rule.now.unknowns (form_of g.form)) goals.items) }
{
    let behind = block_behind(first, second);
    let mut goals = Vec::new(alloc);
    push_goals(
        alloc,
        &mut goals,
        part,
        source,
        target,
        prepared_rule,
        coefficients,
        first,
    )?;
    push_goals(
        alloc,
        &mut goals,
        part,
        source,
        target,
        prepared_rule,
        coefficients,
        behind,
    )?;
    Ok(goals)
}

// The second block without the positions of the first.
fn block_behind(first: Block, second: Block) -> Block
    ensures first { result.first ≡ max first.end second.first }
    ensures end { result.end ≡ max second.end result.first }
{
    let start = first.end.max(second.first);
    Block {
        first: start,
        end: second.end.max(start),
    }
}

// Appends the goals for the coefficients of a block to those before it.
fn push_goals(
    alloc: Global,
    goals: &mut Vec<Goal>,
    part: Part,
    source: u32,
    target: u32,
    prepared_rule: &RuleRows,
    coefficients: &[Coefficient],
    block: Block,
) -> Result<(), Memory>
    requires few { length coefficients.now < 2 ^ 30 }
    requires new_values { All (λ f. IsSmall (form_of f)) prepared_rule.now.new_values.items }
    requires fit { All (λ c. length (goal_form part (forms_of source target (prepared_of prepared_rule.now))
        (coefficient_of c)).coefs ≤ prepared_rule.now.unknowns) coefficients.now }
    requires ordered { block.first ≤ block.end }
    requires below { block.end ≤ length coefficients.now }
    requires before { AreGoalsUpTo part (forms_of source target (prepared_of prepared_rule.now)) coefficients.now
        block.first
        goals.old.items }
    ensures { OnOk result (AreGoalsUpTo part (forms_of source target (prepared_of prepared_rule.now)) coefficients.now
        block.end
        goals.new.items) }
{
    for parameter in block.first..block.end {
        let c = coefficients[parameter as usize];
        let counts = concerns(c, source, target);
        if counts {
            let form = goal_of(alloc, part, source, target, prepared_rule, c)?;
            goals.push(Goal { parameter, form })?;
        }
    }
    Ok(())
}

// Whether a coefficient belongs to the source or to the target.
fn concerns(c: Coefficient, source: u32, target: u32) -> bool
    ensures { result ≡ nat_eq c.symbol source || nat_eq c.symbol target }
{
    c.symbol == source || c.symbol == target
}

// The goal of a coefficient.
fn goal_of(
    alloc: Global,
    part: Part,
    source: u32,
    target: u32,
    prepared_rule: &RuleRows,
    c: Coefficient,
) -> Result<Row, Memory>
    requires { All (λ f. IsSmall (form_of f)) prepared_rule.now.new_values.items }
    ensures same { IfOk result (λ row. form_of row
        ≡ goal_form part (forms_of source target (prepared_of prepared_rule.now)) (coefficient_of c)) }
    ensures small { IfOk result (λ row. IsDifferenceSmall (form_of row)) }
{
    let before = row_before(alloc, source, c)?;
    match part {
        Part::Floor => Ok(before),
        Part::Move | Part::Fall => less_after(alloc, before, target, prepared_rule, c),
    }
}

// The factor of a coefficient before a rule that leaves this symbol.
fn row_before(alloc: Global, source: u32, c: Coefficient) -> Result<Row, Memory>
    ensures same { IfOk result (λ row. form_of row
        ≡ at_source (record { source = source; target = 0; left = 0; unknowns = 0; rows = []; new_values = [] })
        (coefficient_of c)) }
    ensures small { IfOk result (λ row. IsSmall (form_of row)) }
{
    if c.symbol != source {
        return Ok(constant_row(alloc, 0));
    }
    if c.place == 0 {
        return Ok(constant_row(alloc, 1));
    }
    unit_row(alloc, c.place - 1)
}

// A form minus the factor of a coefficient after the rule.
fn less_after(
    alloc: Global,
    before: Row,
    target: u32,
    prepared_rule: &RuleRows,
    c: Coefficient,
) -> Result<Row, Memory>
    requires new_values { All (λ f. IsSmall (form_of f)) prepared_rule.now.new_values.items }
    requires before { IsSmall (form_of before) }
    ensures same { IfOk result (λ row. form_of row
        ≡ form_sum (form_of before)
        (opposite (at_target (forms_of 0 target (prepared_of prepared_rule.now)) (coefficient_of c)))) }
    ensures small { IfOk result (λ row. IsDifferenceSmall (form_of row)) }
{
    if c.symbol != target {
        return Ok(before);
    }
    if c.place == 0 {
        return difference(alloc, &before, &constant_row(alloc, 1));
    }
    let position = c.place as usize - 1;
    if position >= prepared_rule.new_values.len() {
        return Ok(before);
    }
    let after = &prepared_rule.new_values[position];
    difference(alloc, &before, after)
}

/// The constant that is subtracted in such a group.
pub(crate) fn fixed_row(alloc: Global, part: Part) -> Row
    ensures { form_of result ≡ fixed_form part }
{
    match part {
        Part::Move => constant_row(alloc, 0),
        Part::Fall | Part::Floor => constant_row(alloc, -1),
    }
}
