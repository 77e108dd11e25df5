//! The laws of the verdicts on lassos.

ghost use Rattle.lasso_check.specs.CheckLaws.{ListedRulesAreEndless, LassosHaveOneVerdict};
ghost use Rattle.lasso_check.specs.WorkedChecks.{ChecksAreWorkedOut};

use its_model::{costs_have_no_fault, steps_have_no_fault};
use lassos::lassos_are_endless;
use run_replay::replays_are_decided;

/// If a turn leads back, each of its rules occurs arbitrarily often, so that no runtime bound of it holds; and if the
/// turn costs something, no bound on the cost of all steps holds. Its contract is the law; it has no code.
pub fn listed_rules_are_endless()
    ensures { ListedRulesAreEndless }
{
    lassos_are_endless();
}

/// A lasso has at most one right verdict. Its contract is the law; its only code is a call of the law of replays.
pub fn lassos_have_one_verdict()
    ensures { LassosHaveOneVerdict }
{
    replays_are_decided();
}

/// Worked values of verdicts on small lassos. Its contract is these values; its only code is calls of the laws of
/// replays, of single steps and of their costs.
pub fn worked_checks_hold()
    ensures { ChecksAreWorkedOut }
{
    replays_are_decided();
    steps_have_no_fault();
    costs_have_no_fault();
}
