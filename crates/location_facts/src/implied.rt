//! Decides which facts the rules imply under a list of facts.

ghost use Rattle.std.specs.Prelude.{◌≡◌, ◌++◌, ◌≤◌, ◌<◌, ◌+◌, ◌^◌, ℕ, true, map, length, IfOk};
ghost use Rattle.std.specs.List.{All};
ghost use Rattle.lp_builder.specs.Descriptions.{IsWritable};
ghost use Rattle.poly_terms.specs.Views.{form_of};
ghost use Rattle.rule_questions.specs.EmptyAnswers.{IsPrepared};
ghost use Rattle.location_facts.specs.Pointed.{HasPoint};
ghost use Rattle.location_facts.specs.Implied.{DecidesEmpty, DecidesGoal, proof_in, RefutesGoal};
ghost use Rattle.location_facts.specs.Rows.{row_before as row_of, row_after as goal_of, facts_at as facts_of_symbol};

use crate::asking::{Reply, ask};
use crate::fact::{FactProof, LocFact};
use crate::rows::{combined_rows, row_after};
use farkas_cert::Scaled;
use guard_prep::RuleRows;
use poly_terms::{Memory, Row};
use rule_questions::constant_row;
use std::alloc::Global;

/// A rule under a list of facts: its combined rows, and multipliers that certify that they have no point, if the linear
/// program for these has a solution. If the rows are known to have a point, a flag says so.
#[derive(Drop)]
pub(crate) struct RuleUnderFacts {
    pub rows: Vec<Row>,
    pub empty: Option<Vec<u64>>,
    pub has_point: bool,
}

/// The answer to whether a rule implies a fact.
#[derive(Drop)]
pub(crate) enum Answered {
    /// The rule implies the fact, with this proof.
    Shown(FactProof),
    /// The rule doesn't imply the fact: at this point or ray of its rows the fact is below 0 after the rule.
    Refuted(Scaled),
    /// The rule doesn't imply the fact.
    Missed,
}

// Multipliers that certify that rows have no point, if the linear program for them has a solution, and whether a point
// of the rows was found.
fn emptiness(
    alloc: Global,
    unknowns: u32,
    rows: &[Row],
    pivots: u32,
) -> Result<(Option<Vec<u64>>, bool), Memory>
    requires few_unknowns { unknowns + 1 < 2 ^ 31 }
    requires few_rows { length rows.now + 1 < 2 ^ 31 }
    requires rows { All (λ r. IsWritable unknowns (form_of r)) rows.now }
    ensures empty { IfOk result (λ e. DecidesEmpty pivots unknowns (map form_of rows.now) e.0) }
    ensures point { IfOk result (λ e. e.1 ≡ true → HasPoint (map form_of rows.now)) }
{
    let goal = constant_row(alloc, -1);
    match ask(alloc, unknowns, rows, &goal, pivots)? {
        Reply::Follows(multipliers, _) => Ok((Some(multipliers), false)),
        Reply::Fails(_) => Ok((None, true)),
        Reply::OutOfLimits => Ok((None, false)),
    }
}

// Whether a goal follows from rows that aren't known to have no point.
fn goal_answer(
    alloc: Global,
    unknowns: u32,
    rows: &[Row],
    goal: &Row,
    pivots: u32,
) -> Result<Answered, Memory>
    requires few_unknowns { unknowns + 1 < 2 ^ 31 }
    requires few_rows { length rows.now + 1 < 2 ^ 31 }
    requires rows { All (λ r. IsWritable unknowns (form_of r)) rows.now }
    requires goal { IsWritable unknowns (form_of goal.now) }
    ensures verdict { IfOk result (λ a. DecidesEmpty pivots unknowns (map form_of rows.now) None
        → DecidesGoal pivots unknowns (map form_of rows.now) (form_of goal.now) (proof_in a)) }
    ensures stands { IfOk result (RefutesGoal unknowns (map form_of rows.now) (form_of goal.now)) }
{
    match ask(alloc, unknowns, rows, goal, pivots)? {
        Reply::Follows(multipliers, times) => {
            Ok(Answered::Shown(FactProof::Implied(multipliers, times)))
        }
        Reply::Fails(at) => Ok(Answered::Refuted(at)),
        Reply::OutOfLimits => Ok(Answered::Missed),
    }
}

/// Whether a rule implies a fact.
pub(crate) fn answer_under(
    alloc: Global,
    prepared_rule: &RuleRows,
    under: &RuleUnderFacts,
    fact: LocFact,
    pivots: u32,
) -> Result<Answered, Memory>
    requires prepared { IsPrepared prepared_rule.now }
    requires few { length under.now.rows.items ≤ 371 }
    requires rows { All (λ r. IsWritable prepared_rule.now.unknowns (form_of r)) under.now.rows.items }
    ensures verdict { IfOk result
        (λ a. DecidesEmpty pivots prepared_rule.now.unknowns (map form_of under.now.rows.items)
        under.now.empty → DecidesGoal pivots prepared_rule.now.unknowns (map form_of under.now.rows.items)
        (goal_of (map form_of prepared_rule.now.new_values.items) fact) (proof_in a)) }
    ensures stands { IfOk result (RefutesGoal prepared_rule.now.unknowns (map form_of under.now.rows.items)
        (goal_of (map form_of prepared_rule.now.new_values.items) fact)) }
{
    match &under.empty {
        Some(multipliers) => {
            let copies = multipliers.as_slice().to_vec(alloc)?;
            Ok(Answered::Shown(FactProof::Empty(copies)))
        }
        None => {
            let goal = row_after(alloc, &prepared_rule.new_values, fact)?;
            goal_answer(alloc, prepared_rule.unknowns, &under.rows, &goal, pivots)
        }
    }
}

/// A rule under a list of facts.
pub(crate) fn rule_under_facts(
    alloc: Global,
    prepared_rule: &RuleRows,
    source: u32,
    kept: &[LocFact],
    pivots: u32,
) -> Result<RuleUnderFacts, Memory>
    requires prepared { IsPrepared prepared_rule.now }
    requires few { length (map form_of prepared_rule.now.rows.items ++ map row_of (facts_of_symbol source kept.now))
        ≤ 371 }
    requires writable { All (IsWritable prepared_rule.now.unknowns)
        (map form_of prepared_rule.now.rows.items ++ map row_of (facts_of_symbol source kept.now)) }
    ensures rows { IfOk result (λ u. map form_of u.rows.items
        ≡ map form_of prepared_rule.now.rows.items ++ map row_of (facts_of_symbol source kept.now)) }
    ensures writable { IfOk result (λ u. All (λ r. IsWritable prepared_rule.now.unknowns (form_of r)) u.rows.items) }
    ensures empty { IfOk result (λ u. DecidesEmpty pivots prepared_rule.now.unknowns (map form_of u.rows.items) u.empty) }
    ensures point { IfOk result (λ u. u.has_point ≡ true → HasPoint (map form_of u.rows.items)) }
{
    let rows = combined_rows(alloc, &prepared_rule.rows, source, kept)?;
    let (empty, has_point) = emptiness(alloc, prepared_rule.unknowns, &rows, pivots)?;
    Ok(RuleUnderFacts {
        rows,
        empty,
        has_point,
    })
}

/// A rule under a list of facts, known to have a point of its combined rows. No linear program is solved.
pub(crate) fn feasible_rule_under_facts(
    alloc: Global,
    prepared_rule: &RuleRows,
    source: u32,
    kept: &[LocFact],
) -> Result<RuleUnderFacts, Memory>
    requires few { length (map form_of prepared_rule.now.rows.items ++ map row_of (facts_of_symbol source kept.now))
        ≤ 371 }
    requires writable { All (IsWritable prepared_rule.now.unknowns)
        (map form_of prepared_rule.now.rows.items ++ map row_of (facts_of_symbol source kept.now)) }
    requires point { HasPoint (map form_of prepared_rule.now.rows.items ++ map row_of (facts_of_symbol source kept.now)) }
    ensures rows { IfOk result (λ u. map form_of u.rows.items
        ≡ map form_of prepared_rule.now.rows.items ++ map row_of (facts_of_symbol source kept.now)) }
    ensures writable { IfOk result (λ u. All (λ r. IsWritable prepared_rule.now.unknowns (form_of r)) u.rows.items) }
    ensures empty { IfOk result (λ u. (pivots : ℕ)
        → DecidesEmpty pivots prepared_rule.now.unknowns (map form_of u.rows.items) u.empty) }
{
    let rows = combined_rows(alloc, &prepared_rule.rows, source, kept)?;
    Ok(RuleUnderFacts {
        rows,
        empty: None,
        has_point: true,
    })
}
