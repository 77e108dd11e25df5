//! Finds the first fault of facts and their proofs.

ghost use Rattle.std.specs.Prelude.{◌≡◌, ◌*ℤ◌, ◌≤◌, ◌<◌, ◌↔◌, ◌+◌, ◌-◌, ◌^◌, List, length, map, nat_abs, pos};
ghost use Rattle.std.specs.Prelude.{IsTrue, IfOk, MatchOption};
ghost use Rattle.std.specs.List.{All};
ghost use Rattle.poly_terms.specs.linear_forms.Combinations.{form_times};
ghost use Rattle.poly_terms.specs.linear_forms.Limits.{certificate_limit};
ghost use Rattle.poly_terms.specs.Views.{form_of};
ghost use Rattle.its_model.specs.Valid.{IsValid};
ghost use Rattle.its_model.specs.Views.{program_of};
ghost use Rattle.farkas_cert.specs.Sizes.{AreSmall};
ghost use Rattle.cert_types.specs.Composing.{AreRowsOf};
ghost use Rattle.location_facts.specs.declared.fact.LocFact.{LocFact as Fact};
ghost use Rattle.location_facts.specs.Certificates.{IsWithinLimit, Shows};
ghost use Rattle.location_facts.specs.CombinedRows.{AreCombined, IsGoalSmall, FindsUnshown, FindsWrong, FindsFactFault};
ghost use Rattle.location_facts.specs.Faults.{rules_into as rules_to, proofs_of, AreProved, AreRight, IsFirstFault};

use crate::checks::{is_right, number_of, rules_into};
use crate::fact::{FactFault, FactProof, LocFact, LocFacts};
use crate::rows::{combined_rows, row_after};
use farkas_cert::{empty, implies};
use guard_prep::RuleRows;
use its_model::Program;
use poly_terms::{Memory, Row};
use std::alloc::{AllocError, Global};

/// The first fault of facts and their proofs, or `None` exactly if there is none. There is none if the facts are
/// candidates in ascending order without repetition; each has a proof for each rule into its symbol, in order, with
/// numbers of at most 2^56 and denominators of at least 1; and each proof shows its fact after its rule. Each fact and
/// the shape of its proofs are checked first, in order, and then each proof, by fact and then by rule.
///
/// # Errors
///
/// `Memory` if an allocation fails, or if the number of the fact that is reported has more than 32 bits.
pub fn facts_fault(
    alloc: Global,
    p: &Program,
    prepared_rules: &[RuleRows],
    f: &LocFacts,
) -> Result<Option<FactFault>, Memory>
    requires valid { IsValid (program_of p.now) }
    requires rows { AreRowsOf prepared_rules.now (program_of p.now) }
    ensures { IfOk result (λ fault. MatchOption fault
        (AreProved (program_of p.now) f.now.kept.items (proofs_of f.now))
        (IsFirstFault (program_of p.now) f.now.kept.items (proofs_of f.now))) }
{
    if f.proofs.len() != f.kept.len() {
        return Ok(Some(FactFault { fact: 0, rule: 0 }));
    }
    match first_wrong(alloc, p, f)? {
        Some(fact) => Ok(Some(FactFault { fact, rule: 0 })),
        None => {
            let rows = rows_by_rule(alloc, p, prepared_rules, &f.kept)?;
            first_unshown(alloc, p, prepared_rules, f, &rows)
        }
    }
}

// The number of the first fact that is wrong, itself or in the shape of its proofs.
fn first_wrong(alloc: Global, p: &Program, f: &LocFacts) -> Result<Option<u32>, Memory>
    requires valid { IsValid (program_of p.now) }
    requires one_each { length f.now.proofs.items ≡ length f.now.kept.items }
    ensures { IfOk result (FindsWrong (program_of p.now) f.now.kept.items (proofs_of f.now)) }
{
    let mut least = 0;
    for i in 0..f.kept.len() {
        let fact = f.kept[i];
        let into = rules_into(alloc, p, fact.symbol)?;
        let right = is_right(p, least, fact, &f.proofs[i], into.len());
        if !right {
            return Ok(Some(number_at(i)?));
        }
        least = number_of(fact) + 1;
    }
    Ok(None)
}

// The number of the fact at a position, from 1; `Memory` if it has more than 32 bits.
fn number_at(position: usize) -> Result<u32, Memory>
    ensures { IfOk result (λ number. number ≡ position + 1) }
{
    if position < u32::MAX as usize {
        Ok(position as u32 + 1)
    } else {
        Err(AllocError)
    }
}

// The first fact with a proof that doesn't certify it, and the rule of that proof.
fn first_unshown(
    alloc: Global,
    p: &Program,
    prepared_rules: &[RuleRows],
    f: &LocFacts,
    rows: &[Vec<Row>],
) -> Result<Option<FactFault>, Memory>
    requires valid { IsValid (program_of p.now) }
    requires prepared_rules { AreRowsOf prepared_rules.now (program_of p.now) }
    requires rows { AreCombined (program_of p.now) f.now.kept.items rows.now }
    requires one_each { length f.now.proofs.items ≡ length f.now.kept.items }
    requires right { AreRight (program_of p.now) f.now.kept.items (proofs_of f.now) (length f.now.kept.items) }
    requires small { All (λ v. AreSmall (map form_of v.items)) rows.now }
    ensures { IfOk result (FindsFactFault (program_of p.now) f.now.kept.items (proofs_of f.now)) }
{
    for i in 0..f.kept.len() {
        if let Some(rule) = unshown_rule(alloc, p, prepared_rules, f.kept[i], &f.proofs[i], rows)? {
            let fact = number_at(i)?;
            return Ok(Some(FactFault { fact, rule }));
        }
    }
    Ok(None)
}

// The first of the rules into a fact's symbol whose proof doesn't certify the fact.
fn unshown_rule(
    alloc: Global,
    p: &Program,
    prepared_rules: &[RuleRows],
    fact: LocFact,
    proofs: &[FactProof],
    rows: &[Vec<Row>],
) -> Result<Option<u32>, Memory>
    requires valid { IsValid (program_of p.now) }
    requires prepared_rules { AreRowsOf prepared_rules.now (program_of p.now) }
    requires one_each { length proofs.now ≡ length (rules_to (program_of p.now) fact.symbol) }
    requires numbers { All IsWithinLimit proofs.now }
    requires many { length rows.now ≡ length p.now.rules.items }
    requires small { All (λ v. AreSmall (map form_of v.items)) rows.now }
    ensures { IfOk result (λ rule. (kept : List Fact) → AreCombined (program_of p.now) kept rows.now
        → FindsUnshown (program_of p.now) kept fact proofs.now rule) }
{
    let into = rules_into(alloc, p, fact.symbol)?;
    for k in 0..into.len() {
        let rule = into[k];
        let prepared_rule = &prepared_rules[rule as usize - 1];
        let own = &rows[rule as usize - 1];
        let proof = &proofs[k];
        let goal = row_after(alloc, &prepared_rule.new_values, fact)?;
        let shown = is_shown(alloc, own, &goal, proof)?;
        if !shown {
            return Ok(Some(rule));
        }
    }
    Ok(None)
}

// The combined rows of each rule, in order.
fn rows_by_rule(
    alloc: Global,
    p: &Program,
    prepared_rules: &[RuleRows],
    kept: &[LocFact],
) -> Result<Vec<Vec<Row>>, Memory>
    requires { AreRowsOf prepared_rules.now (program_of p.now) }
    ensures { IfOk result (λ rows. AreCombined (program_of p.now) kept.now rows.items) }
{
    let mut all = Vec::new(alloc);
    for i in 0..p.rules.len() {
        let prepared_rule = &prepared_rules[i];
        let rule = &p.rules[i];
        let rows = combined_rows(alloc, &prepared_rule.rows, rule.source, kept)?;
        all.push(rows)?;
    }
    Ok(all)
}

// Whether a proof certifies a goal over rows.
fn is_shown(alloc: Global, rows: &[Row], goal: &Row, proof: &FactProof) -> Result<bool, Memory>
    requires rows { AreSmall (map form_of rows.now) }
    requires goal { IsGoalSmall (form_of goal.now) }
    requires within { IsWithinLimit proof.now }
    ensures { IfOk result (λ yes. IsTrue yes ↔ Shows (map form_of rows.now) (form_of goal.now) proof.now) }
{
    match proof {
        FactProof::Empty(multipliers) => {
            let yes = empty(rows, multipliers);
            Ok(yes)
        }
        FactProof::Implied(multipliers, den) => {
            let scaled = times(alloc, *den, goal)?;
            let yes = implies(rows, multipliers, &scaled);
            Ok(yes)
        }
    }
}

// A form times a number.
fn times(alloc: Global, den: u64, goal: &Row) -> Result<Row, Memory>
    requires den { den ≤ certificate_limit }
    requires goal { IsGoalSmall (form_of goal.now) }
    ensures { IfOk result (λ row. form_of row ≡ form_times (pos den) (form_of goal.now)) }
{
    let mut coefs = Vec::new(alloc);
    for coef in &goal.coefs {
        coefs.push(product(*coef, den))?;
    }
    let constant = product(goal.constant, den);
    Ok(Row { coefs, constant })
}

/// A number of a form times another.
pub(crate) fn product(number: i128, den: u64) -> i128
    requires number { nat_abs number ≤ 2 ^ 65 }
    requires den { den ≤ certificate_limit }
    ensures { result ≡ pos den *ℤ number }
{
    number * i128::from(den)
}
