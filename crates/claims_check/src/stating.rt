//! What one claim states, or why it isn't accepted.

ghost use Rattle.std.specs.Prelude.{◌≡◌, ◌≤◌, length, option_map, IfOk, IfSome, MatchResult, None, Some};
ghost use Rattle.model.specs.Programs.{rule_at as rule_numbered};
ghost use Rattle.model.specs.Terms.{Negation};
ghost use Rattle.poly_terms.specs.Views.{term_of, poly_of};
ghost use Rattle.poly_terms.specs.Expanding.{expanded};
ghost use Rattle.poly_terms.specs.Faults.{first_fault};
ghost use Rattle.its_model.specs.Views.{program_of, rule_of};
ghost use Rattle.signed_bounds.specs.Views.{signed_of};
ghost use Rattle.program_claims.specs.Claims as claims;
ghost use Rattle.program_claims.specs.Copies.{copies_of, update_at as plain_update_at};
ghost use Rattle.program_claims.specs.Acceptance.{copies_bound as bound_of_copies, written_stated, stated_by};
ghost use Rattle.program_claims.specs.Acceptance.{no_update, head_reason};
ghost use Rattle.program_claims.specs.Verdicts as verdicts;
ghost use Rattle.claim_types.specs.Views.{support_of, claim_of};
ghost use Rattle.claims_check.specs.Tables.{IsPrepared, IsKnown};
ghost use Rattle.claims_check.specs.Views.{IsRefusal, evidence_of, stated_of, reason_of};
ghost use Rattle.claims_check.specs.Places.{place_reason, plain_place_claim};

use crate::charges::{charge_each, expansion};
use crate::evidence::{Evidence, symbol_copies};
use crate::heads::{Head, are_heads_there, are_heads_within};
use crate::known::Known;
use crate::reason::{ClaimFault, ClaimReason};
use crate::statement::Statement;
use crate::sums::charges_bound;
use crate::symbols::{has_copy, have_facts_below};
use crate::tables::Tables;
use claim_types::{Claim, Support};
use its_model::{Program, Rule};
use poly_terms::{Expr, Memory, Poly};
use potential_types::{copied_bound, one_poly};
use program_copies::copied_expr;
use refined_programs::rule_at;
use signed_bounds::Signed;
use std::alloc::Global;

/// Evidence, and its tables.
#[derive(Clone, Copy)]
pub(crate) struct Prepared<'a> {
    pub evidence: Evidence<'a>,
    pub tables: &'a Tables,
}

/// A claim on the value at a place after a rule.
#[derive(Clone, Copy)]
pub(crate) struct PlaceClaim<'a> {
    pub rule: u32,
    pub place: u32,
    pub numbers: &'a [u32],
    pub bound: &'a Signed,
}

// The facts, with the rules that never occur.
fn known<'a>(prepared: Prepared<'a>) -> Known<'a>
    requires { IsPrepared prepared }
    ensures known { IsKnown result }
    ensures facts { result.facts ≡ prepared.entry.evidence.facts }
{
    Known {
        facts: prepared.evidence.facts,
        never: &prepared.tables.never,
    }
}

// The copies of a rule.
fn copies<'a>(prepared: Prepared<'a>, rule: u32) -> &'a [u32]
    requires prepared { IsPrepared prepared }
    requires there { rule ≤ length prepared.evidence.program.now.rules.items }
    ensures { result.now ≡ copies_of (evidence_of prepared.entry.evidence).above
        (evidence_of prepared.entry.evidence).projection rule }
{
    &prepared.tables.copies[rule as usize]
}

// The bound of a polynomial's sum over the steps of all copies of a rule.
fn copies_bound(
    alloc: Global,
    prepared: Prepared,
    rule: u32,
    form: &Poly,
    support: &Support,
) -> Result<Signed, ClaimFault>
    requires prepared { IsPrepared prepared }
    requires there { rule ≤ length prepared.evidence.program.now.rules.items }
    ensures { let verdict = bound_of_copies (evidence_of prepared.entry.evidence) rule (support_of support.now)
        (poly_of form.now) in
        MatchResult result (λ b. verdict ≡ verdicts.Accepted (signed_of b)) (λ fault. IsRefusal verdict fault) }
{
    let charges = charge_each(alloc, form, copies(prepared, rule))?;
    charges_bound(alloc, known(prepared), &charges, support)
}

// What a claim on the time of a rule states.
fn time_statement(
    alloc: Global,
    prepared: Prepared,
    rule: u32,
    support: &Support,
) -> Result<Statement, ClaimFault>
    requires { IsPrepared prepared }
    ensures { let verdict = stated_by (evidence_of prepared.entry.evidence)
        (claims.OnTime rule (support_of support.now)) in
        MatchResult result (λ s. verdict ≡ verdicts.Accepted (stated_of s)) (λ fault. IsRefusal verdict fault) }
{
    match rule_at(prepared.evidence.program, rule) {
        None => Err(ClaimFault::Refused(ClaimReason::NoRule)),
        Some(_) => {
            let form = one_poly(alloc)?;
            match copies_bound(alloc, prepared, rule, &form, support) {
                Ok(bound) => Ok(Statement::Time(rule, bound)),
                Err(fault) => Err(fault),
            }
        }
    }
}

// What a claim on the cost of a rule states.
fn cost_statement(
    alloc: Global,
    prepared: Prepared,
    rule: u32,
    support: &Support,
) -> Result<Statement, ClaimFault>
    requires { IsPrepared prepared }
    ensures { let verdict = stated_by (evidence_of prepared.entry.evidence)
        (claims.OnCost rule (support_of support.now)) in
        MatchResult result (λ s. verdict ≡ verdicts.Accepted (stated_of s)) (λ fault. IsRefusal verdict fault) }
{
    match rule_at(prepared.evidence.program, rule) {
        None => Err(ClaimFault::Refused(ClaimReason::NoRule)),
        Some(found) => written_statement(alloc, prepared, rule, &found.cost, support),
    }
}

// The same of a rule that is there, by its cost.
fn written_statement(
    alloc: Global,
    prepared: Prepared,
    rule: u32,
    cost: &Option<Expr>,
    support: &Support,
) -> Result<Statement, ClaimFault>
    requires prepared { IsPrepared prepared }
    requires there { rule ≤ length prepared.evidence.program.now.rules.items }
    requires expands { IfSome (option_map term_of cost.now) (λ c. first_fault c ≡ None) }
    ensures { let verdict = written_stated (evidence_of prepared.entry.evidence) rule (support_of support.now)
        (option_map term_of cost.now) in
        MatchResult result (λ s. verdict ≡ verdicts.Accepted (stated_of s)) (λ fault. IsRefusal verdict fault) }
{
    match cost {
        None => Err(ClaimFault::Refused(ClaimReason::NoCost)),
        Some(cost) => {
            let form = expansion(alloc, cost)?;
            match copies_bound(alloc, prepared, rule, &form, support) {
                Ok(bound) => Ok(Statement::Cost(rule, bound)),
                Err(fault) => Err(fault),
            }
        }
    }
}

// What a claim on the cost of all steps states.
fn total_statement(
    alloc: Global,
    prepared: Prepared,
    support: &Support,
) -> Result<Statement, ClaimFault>
    requires { IsPrepared prepared }
    ensures { let verdict = stated_by (evidence_of prepared.entry.evidence) (claims.OnTotal (support_of support.now)) in
        MatchResult result (λ s. verdict ≡ verdicts.Accepted (stated_of s)) (λ fault. IsRefusal verdict fault) }
{
    match charges_bound(alloc, known(prepared), &prepared.tables.costs, support) {
        Ok(bound) => Ok(Statement::Total(bound)),
        Err(fault) => Err(fault),
    }
}

// The update of a place of a rule, where there is one.
fn update_of(rule: &Rule, place: u32) -> Option<&Expr>
    ensures { option_map (λ u. term_of u.now) result ≡ plain_update_at (Some (rule_of rule.now)) place }
{
    if place == 0 {
        return None;
    }
    rule.updates.get(place as usize - 1)
}

// The same by the number of the rule.
fn update_at<'p>(program: &'p Program, rule: u32, place: u32) -> Option<&'p Expr>
    ensures { option_map (λ u. term_of u.now) result
        ≡ plain_update_at (rule_numbered (program_of program.now) rule) place }
{
    match rule_at(program, rule) {
        None => None,
        Some(found) => update_of(found, place),
    }
}

// Why there is no update.
fn missing_update(program: &Program, rule: u32) -> ClaimReason
    ensures { reason_of result ≡ no_update (rule_numbered (program_of program.now) rule) }
{
    match rule_at(program, rule) {
        None => ClaimReason::NoRule,
        Some(_) => ClaimReason::NoPlace,
    }
}

// Why a claim on a place isn't accepted, by the polynomial that is its value or the opposite; none where it is.
fn place_refusal(
    alloc: Global,
    prepared: Prepared,
    claim: PlaceClaim,
    form: &Poly,
) -> Result<Option<ClaimReason>, Memory>
    requires prepared { IsPrepared prepared }
    requires there { claim.rule ≤ length prepared.evidence.program.now.rules.items }
    ensures { IfOk result (λ o. option_map reason_of o
        ≡ place_reason (evidence_of prepared.entry.evidence) (plain_place_claim claim.entry) (poly_of form.now)) }
{
    let head = Head {
        form,
        place: claim.place,
        bound: claim.bound,
    };
    let copies = copies(prepared, claim.rule);
    let facts = known(prepared);
    let is_high = are_heads_within(alloc, facts, head, copies, claim.numbers)?;
    if is_high {
        return Ok(None);
    }
    Ok(Some(reason_of_heads(are_heads_there(facts, head, copies, claim.numbers))))
}

// Why facts don't bound a polynomial by at most the bound, by whether they bound it at all.
fn reason_of_heads(are_there: bool) -> ClaimReason
    ensures { reason_of result ≡ head_reason are_there }
{
    if are_there {
        ClaimReason::LowBound
    } else {
        ClaimReason::BadLemma
    }
}

// What a claim on the value at a place from above states.
fn above_statement(
    alloc: Global,
    prepared: Prepared,
    claim: PlaceClaim,
) -> Result<Statement, ClaimFault>
    requires { IsPrepared prepared }
    ensures { let verdict = stated_by (evidence_of prepared.entry.evidence)
        (claims.OnAbove claim.entry.rule claim.entry.place claim.entry.numbers.now (signed_of claim.entry.bound.now)) in
        MatchResult result (λ s. verdict ≡ verdicts.Accepted (stated_of s)) (λ fault. IsRefusal verdict fault) }
{
    match update_at(prepared.evidence.program, claim.rule, claim.place) {
        None => Err(ClaimFault::Refused(missing_update(prepared.evidence.program, claim.rule))),
        Some(update) => {
            let form = expansion(alloc, update)?;
            let refusal = place_refusal(alloc, prepared, claim, &form)?;
            match refusal {
                None => Ok(Statement::Above(
                    claim.rule,
                    claim.place,
                    copied_bound(alloc, claim.bound)?,
                )),
                Some(reason) => Err(ClaimFault::Refused(reason)),
            }
        }
    }
}

// The expanded polynomial of the opposite of an expression without a fault.
fn opposite_expansion(alloc: Global, e: &Expr) -> Result<Poly, Memory>
    requires { first_fault (term_of e.now) ≡ None }
    ensures { IfOk result (λ p. poly_of p ≡ expanded (Negation (term_of e.now))) }
{
    let opposite = Expr::negation(alloc, copied_expr(alloc, e)?)?;
    expansion(alloc, &opposite)
}

// What a claim on the value at a place from below states.
fn below_statement(
    alloc: Global,
    prepared: Prepared,
    claim: PlaceClaim,
) -> Result<Statement, ClaimFault>
    requires { IsPrepared prepared }
    ensures { let verdict = stated_by (evidence_of prepared.entry.evidence)
        (claims.OnBelow claim.entry.rule claim.entry.place claim.entry.numbers.now (signed_of claim.entry.bound.now)) in
        MatchResult result (λ s. verdict ≡ verdicts.Accepted (stated_of s)) (λ fault. IsRefusal verdict fault) }
{
    match update_at(prepared.evidence.program, claim.rule, claim.place) {
        None => Err(ClaimFault::Refused(missing_update(prepared.evidence.program, claim.rule))),
        Some(update) => {
            let form = opposite_expansion(alloc, update)?;
            let refusal = place_refusal(alloc, prepared, claim, &form)?;
            match refusal {
                None => Ok(Statement::Below(
                    claim.rule,
                    claim.place,
                    copied_bound(alloc, claim.bound)?,
                )),
                Some(reason) => Err(ClaimFault::Refused(reason)),
            }
        }
    }
}

// What a claim on the values at a symbol states.
fn symbol_statement(
    alloc: Global,
    prepared: Prepared,
    symbol: u32,
    f: &Expr,
) -> Result<Statement, ClaimFault>
    ensures { let verdict = stated_by (evidence_of prepared.entry.evidence) (claims.OnSymbol symbol (term_of f.now)) in
        MatchResult result (λ s. verdict ≡ verdicts.Accepted (stated_of s)) (λ fault. IsRefusal verdict fault) }
{
    let copies = symbol_copies(prepared.evidence);
    if !has_copy(copies, symbol) {
        return Err(ClaimFault::Refused(ClaimReason::NoCopy));
    }
    let is_met = have_facts_below(alloc, copies, symbol, f)?;
    if is_met {
        Ok(Statement::AtSymbol(symbol, copied_expr(alloc, f)?))
    } else {
        Err(ClaimFault::Refused(ClaimReason::NoFact))
    }
}

/// What a claim states, or why it isn't accepted.
pub(crate) fn statement(
    alloc: Global,
    prepared: Prepared,
    claim: &Claim,
) -> Result<Statement, ClaimFault>
    requires { IsPrepared prepared }
    ensures { let verdict = stated_by (evidence_of prepared.entry.evidence) (claim_of claim.now) in
        MatchResult result (λ s. verdict ≡ verdicts.Accepted (stated_of s)) (λ fault. IsRefusal verdict fault) }
{
    match claim {
        Claim::OnTime(rule, support) => time_statement(alloc, prepared, *rule, support),
        Claim::OnCost(rule, support) => cost_statement(alloc, prepared, *rule, support),
        Claim::OnTotal(support) => total_statement(alloc, prepared, support),
        Claim::OnAbove(rule, place, numbers, bound) => {
            let claim = PlaceClaim {
                rule: *rule,
                place: *place,
                numbers,
                bound,
            };
            above_statement(alloc, prepared, claim)
        }
        Claim::OnBelow(rule, place, numbers, bound) => {
            let claim = PlaceClaim {
                rule: *rule,
                place: *place,
                numbers,
                bound,
            };
            below_statement(alloc, prepared, claim)
        }
        Claim::OnSymbol(symbol, f) => symbol_statement(alloc, prepared, *symbol, f),
    }
}
