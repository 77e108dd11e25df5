//! Decides whether all rules into a fact's symbol imply it under a list: due rules are queried, and the earlier answers
//! of the others remain valid.

ghost use Rattle.std.specs.Prelude.{◌≡◌, ◌≢◌, ℕ, List, length, map, Some, slice_get, IfOk, Bool};
ghost use Rattle.std.specs.List.{All};
ghost use Rattle.poly_terms.specs.linear_forms.Forms.{Form};
ghost use Rattle.poly_terms.specs.Views.{form_of};
ghost use Rattle.its_model.specs.Valid.{IsValid};
ghost use Rattle.its_model.specs.Views.{program_of};
ghost use Rattle.cert_types.specs.Composing.{AreRowsOf};
ghost use Rattle.rule_questions.specs.EmptyAnswers.{IsPrepared};
ghost use Rattle.location_facts.specs.declared.fact.LocFact.{LocFact as Fact};
ghost use Rattle.location_facts.specs.Due.{AreUnder, AnyUnder, HasRows, IsShownEarlier, AnswersAgain, RefutesQueried};
ghost use Rattle.location_facts.specs.Due.{HasNoElement, proofs_in, elements_in};
ghost use Rattle.location_facts.specs.Elements.{IsMeasured, AreElements};
ghost use Rattle.location_facts.specs.Faults.{rules_into as rules_to};
ghost use Rattle.location_facts.specs.Implied.{DecidesGoal, DecidesProofs, proof_in};
ghost use Rattle.location_facts.specs.Rows.{row_after as goal_of};
ghost use Rattle.location_facts.specs.Tables.{AreRulesInto};

use crate::checks::rules_into;
use crate::elements::{Element, is_refuted};
use crate::fact::{FactProof, LocFact};
use crate::implied::{Answered, RuleUnderFacts, answer_under};
use crate::rules::Search;
use guard_prep::RuleRows;
use poly_terms::Memory;
use std::alloc::Global;
use std::mem;

/// Facts with the proofs that certified each under an earlier list, by position; or without proofs, if they are queried
/// for the first time.
#[derive(Drop)]
pub(crate) struct CandidateFacts<'a> {
    pub facts: &'a [LocFact],
    pub proofs: Vec<Vec<FactProof>>,
}

/// A fact with the proofs that certified it under an earlier list, one for each rule into its symbol; or without
/// proofs, if it is queried for the first time.
#[derive(Drop)]
pub(crate) struct EarlierProofs {
    pub fact: LocFact,
    pub proofs: Vec<FactProof>,
}

/// A rule: its prepared rows, and its state under a list, if it is due.
#[derive(Clone, Copy)]
pub(crate) struct FactQuery<'a> {
    pub prepared_rule: &'a RuleRows,
    pub under: &'a Option<RuleUnderFacts>,
}

/// The answer to whether all rules into its symbol imply a fact.
#[derive(Drop)]
pub(crate) enum FactVerdict {
    /// All of them do, with a proof for each.
    Shown(Vec<FactProof>),
    /// One of them doesn't, as this point or ray shows.
    Refuted(Element),
    /// One of them doesn't.
    Missed,
}

/// Proofs that each rule into its symbol implies a fact, if all do; otherwise the point or ray that refutes it, if one
/// is found. A fact that a known point or ray refutes isn't queried.
///
/// # Errors
///
/// `Memory` if an allocation fails.
pub(crate) fn proofs_under(
    alloc: Global,
    search: Search,
    rules_under_facts: &[Option<RuleUnderFacts>],
    elements: &[Element],
    earlier: EarlierProofs,
) -> Result<FactVerdict, Memory>
    requires valid { IsValid (program_of search.program.now) }
    requires rows { AreRowsOf search.prepared_rules.now (program_of search.program.now) }
    requires into { AreRulesInto (program_of search.program.now) search.into.now }
    requires under { AnyUnder (program_of search.program.now) search.pivots rules_under_facts.now }
    requires measured { All (IsMeasured (program_of search.program.now)) elements.now }
    ensures verdict { IfOk result (λ t. (due : List Bool) (kept : List Fact)
        → AreUnder (program_of search.entry.program.now) search.entry.pivots due kept rules_under_facts.now
        → AreElements (program_of search.entry.program.now) search.entry.pivots kept elements.now
        → IsShownEarlier (program_of search.entry.program.now) search.entry.pivots due kept earlier.fact
        earlier.proofs.items
        → DecidesProofs (program_of search.entry.program.now) search.entry.pivots kept earlier.fact (proofs_in t)) }
    ensures measured { IfOk result (λ t. All (IsMeasured (program_of search.entry.program.now)) (elements_in t)) }
    ensures elements { IfOk result (λ t. (due : List Bool) (kept : List Fact)
        → AreUnder (program_of search.entry.program.now) search.entry.pivots due kept rules_under_facts.now
        → IsShownEarlier (program_of search.entry.program.now) search.entry.pivots due kept earlier.fact
        earlier.proofs.items
        → AreElements (program_of search.entry.program.now) search.entry.pivots kept (elements_in t)) }
{
    if is_refuted(
        search.program,
        search.prepared_rules,
        elements,
        earlier.fact,
    ) {
        return Ok(FactVerdict::Missed);
    }
    match search.into.get(earlier.fact.symbol as usize) {
        Some(into) => proofs_by(alloc, search, rules_under_facts, into, earlier),
        None => {
            let into = rules_into(alloc, search.program, earlier.fact.symbol)?;
            proofs_by(alloc, search, rules_under_facts, &into, earlier)
        }
    }
}

// Proofs by the rules into a fact's symbol, if all of them imply it; otherwise the point or ray that refutes it, if one
// is found.
fn proofs_by(
    alloc: Global,
    search: Search,
    rules_under_facts: &[Option<RuleUnderFacts>],
    into: &[u32],
    earlier: EarlierProofs,
) -> Result<FactVerdict, Memory>
    requires valid { IsValid (program_of search.program.now) }
    requires rows { AreRowsOf search.prepared_rules.now (program_of search.program.now) }
    requires into { into.now ≡ rules_to (program_of search.program.now) earlier.fact.symbol }
    requires under { AnyUnder (program_of search.program.now) search.pivots rules_under_facts.now }
    ensures verdict { IfOk result (λ t. (due : List Bool) (kept : List Fact)
        → AreUnder (program_of search.entry.program.now) search.entry.pivots due kept rules_under_facts.now
        → IsShownEarlier (program_of search.entry.program.now) search.entry.pivots due kept earlier.fact
        earlier.proofs.items
        → DecidesProofs (program_of search.entry.program.now) search.entry.pivots kept earlier.fact (proofs_in t)) }
    ensures measured { IfOk result (λ t. All (IsMeasured (program_of search.entry.program.now)) (elements_in t)) }
    ensures elements { IfOk result (λ t. (due : List Bool) (kept : List Fact)
        → AreUnder (program_of search.entry.program.now) search.entry.pivots due kept rules_under_facts.now
        → IsShownEarlier (program_of search.entry.program.now) search.entry.pivots due kept earlier.fact
        earlier.proofs.items
        → AreElements (program_of search.entry.program.now) search.entry.pivots kept (elements_in t)) }
{
    let EarlierProofs {
        fact,
        proofs: mut earlier_proofs,
    } = earlier;
    let mut proofs = Vec::new(alloc);
    for k in 0..into.len() {
        let rule = into[k];
        let prepared_rule = &search.prepared_rules[rule as usize - 1];
        let under = &rules_under_facts[rule as usize - 1];
        let asked = FactQuery {
            prepared_rule,
            under,
        };
        let before = taken_proof(alloc, &mut earlier_proofs, k);
        match proof_by(alloc, asked, fact, before, search.pivots)? {
            Answered::Shown(proof) => {
                proofs.push(proof)?;
            }
            Answered::Refuted(at) => return Ok(FactVerdict::Refuted(Element { rule, at })),
            Answered::Missed => return Ok(FactVerdict::Missed),
        }
    }
    Ok(FactVerdict::Shown(proofs))
}

// Takes the proof at a position, if there is one.
fn taken_proof(alloc: Global, proofs: &mut Vec<FactProof>, k: usize) -> Option<FactProof>
    ensures taken { result ≡ slice_get proofs.old.items k }
    ensures others { (j : ℕ) → j ≢ k → slice_get proofs.new.items j ≡ slice_get proofs.old.items j }
{
    match proofs.get_mut(k) {
        Some(proof) => Some(mem::replace(proof, FactProof::Empty(Vec::new(alloc)))),
        None => None,
    }
}

// Whether a rule implies a fact, by a query or by the earlier proof.
fn proof_by(
    alloc: Global,
    asked: FactQuery,
    fact: LocFact,
    earlier: Option<FactProof>,
    pivots: u32,
) -> Result<Answered, Memory>
    requires prepared { IsPrepared asked.prepared_rule.now }
    requires rows { HasRows asked.prepared_rule.now.unknowns asked.under.now }
    ensures verdict { IfOk result (λ a. (rows : List Form)
        → AnswersAgain pivots asked.entry.prepared_rule.now.unknowns rows
        (goal_of (map form_of asked.entry.prepared_rule.now.new_values.items) fact) asked.entry.under.now earlier
        → DecidesGoal pivots asked.entry.prepared_rule.now.unknowns rows
        (goal_of (map form_of asked.entry.prepared_rule.now.new_values.items) fact) (proof_in a)) }
    ensures stands { IfOk result (RefutesQueried asked.entry.prepared_rule.now.unknowns
        (goal_of (map form_of asked.entry.prepared_rule.now.new_values.items) fact) asked.entry.under.now) }
{
    match asked.under {
        Some(under) => answer_under(alloc, asked.prepared_rule, under, fact, pivots),
        None => Ok(refuting_answer(earlier)),
    }
}

// The answer that an optional earlier proof gives.
fn refuting_answer(earlier: Option<FactProof>) -> Answered
    ensures same { proof_in result ≡ earlier }
    ensures none { HasNoElement result }
{
    match earlier {
        Some(proof) => Answered::Shown(proof),
        None => Answered::Missed,
    }
}
