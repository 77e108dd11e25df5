//! What lemmas about a program that simulates another one prove about that other program: how often its rules occur,
//! their costs, the values after them, and facts at its symbols. The functions here have no code: the contract of each
//! is a law, or values that were worked out by hand.
//!
//! Builds on `refinement` (programs that simulate others) and `potential_nodes` (facts over start values). Main
//! guarantee: the statement of an accepted claim holds on all runs of the simulated program.
#![tactic(auto)]

ghost use Rattle.program_claims.specs.Laws.{AcceptedClaimsHold, OwnClaimsHold, RefusedClaimsAreFirst};
ghost use Rattle.program_claims.specs.Worked.{CopiesAreWorkedOut, MeaningsAreWorkedOut};
ghost use Rattle.program_claims.specs.WorkedClaims.{ClaimsAreAccepted, ClaimsAreRefused};

/// If a section spells the runs of a program, with the facts of its copies, and lemmas hold on the runs of the spelled
/// program, the statement of an accepted claim holds on all runs of the program.
pub fn accepted_claims_hold()
    ensures { AcceptedClaimsHold }
{
    signed_bounds::within_holds();
    signed_bounds::squares_are_safe();
}

/// If lemmas hold on the runs of a program, the statement of a claim that they support holds on all runs of the same
/// program.
pub fn own_claims_hold()
    ensures { OwnClaimsHold }
{
    signed_bounds::within_holds();
    signed_bounds::squares_are_safe();
}

/// If no claim of a list is refused, each is accepted; and a refusal has the number and the reason of the first claim
/// that isn't accepted.
pub fn refused_claims_are_first()
    ensures { RefusedClaimsAreFirst }
{}

/// Worked values of the copies of rules in a small program, and of their charges.
pub fn copies_are_worked_out()
    ensures { CopiesAreWorkedOut }
{}

/// Worked values of claims that are accepted, and of their statements.
pub fn claims_are_accepted()
    ensures { ClaimsAreAccepted }
{}

/// Worked values of claims that aren't accepted, each with its reason.
pub fn claims_are_refused()
    ensures { ClaimsAreRefused }
{}

/// Worked values of what statements mean for a small program: which hold, and which don't.
pub fn meanings_are_worked_out()
    ensures { MeaningsAreWorkedOut }
{}
