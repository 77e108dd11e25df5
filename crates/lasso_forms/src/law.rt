//! The laws of lasso files and of turns that can be repeated.

ghost use Rattle.lasso_forms.specs.Laws.{FilesAreDecided, TurnsAreDecided, EndlessTurnsHaveNoTime};
ghost use Rattle.lasso_forms.specs.Worked.{TextsAreOfForms, TurnsAreOfForms};

use lasso_check::{listed_rules_are_endless, worked_checks_hold};
use lassos::lassos_are_endless;
use moving_check::{moving_turns_are_endless, worked_moving_hold};
use run_replay::replays_are_decided;

/// Bytes are the text of at most one lasso file of a program, or have at most one first fault, and not both. The
/// function has no code: its contract is the law.
pub fn files_are_decided()
    ensures { FilesAreDecided }
{}

/// The turn of a lasso file can be repeated in at most one way, or has at most one obstacle, and not both. Its contract
/// is the law; its only code is a call of the law of replays.
pub fn turns_are_decided()
    ensures { TurnsAreDecided }
{
    replays_are_decided();
}

/// Each rule of a turn that leads back, or passes the test of moving on, occurs arbitrarily often, so that no runtime
/// bound of it holds; some rule of the turn is a rule of the program; a turn that passes the test of moving on does so
/// by its differences; and if a turn that leads back costs something, no bound on the cost of all steps holds. Its
/// contract is the law; its only code is calls of the laws of lassos.
pub fn endless_turns_have_no_time()
    ensures { EndlessTurnsHaveNoTime }
{
    listed_rules_are_endless();
    moving_turns_are_endless();
    lassos_are_endless();
}

/// Worked values of small texts and of the checks of small lasso files. Its contract is these values; its only code is
/// calls of the worked values of both forms.
pub fn worked_files_hold()
    ensures texts { TextsAreOfForms }
    ensures turns { TurnsAreOfForms }
{
    worked_checks_hold();
    worked_moving_hold();
}
