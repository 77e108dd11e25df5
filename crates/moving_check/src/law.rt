//! The laws of lassos whose turns move on.

ghost use Rattle.moving_check.specs.Laws.{MovingTurnsAreEndless, LassosHaveOneVerdict};
ghost use Rattle.moving_check.specs.Worked.{MovingLassosAreFound, FormsAreExchanged};

use affine_turns::seen_turns_go_on;
use its_model::{costs_have_no_fault, steps_have_no_fault};
use lassos::lassos_are_endless;
use run_replay::replays_are_decided;

/// A turn that `check_moving` accepts moves on by the reported differences, and each reported rule occurs arbitrarily
/// often, so that no runtime bound of it holds. Its contract is the law; it has no code.
pub fn moving_turns_are_endless()
    ensures { MovingTurnsAreEndless }
{
    seen_turns_go_on();
    lassos_are_endless();
}

/// A lasso has at most one right verdict. Its contract is the law; its only code is a call of the law of replays.
pub fn lassos_have_one_verdict()
    ensures { LassosHaveOneVerdict }
{
    replays_are_decided();
}

/// Worked values of verdicts on small lassos, and of texts of the second form. Its contract is these values; its only
/// code is calls of the laws of replays, of single steps and of their costs.
pub fn worked_moving_hold()
    ensures found { MovingLassosAreFound }
    ensures forms { FormsAreExchanged }
{
    replays_are_decided();
    steps_have_no_fault();
    costs_have_no_fault();
}
