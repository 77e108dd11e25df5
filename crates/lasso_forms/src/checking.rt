//! Checks that the turn of a lasso file can be repeated.

ghost use Rattle.std.specs.Prelude.{◌≡◌, ◌≤◌, length};
ghost use Rattle.its_model.specs.Valid.{IsValid};
ghost use Rattle.its_model.specs.Views.{program_of};
ghost use Rattle.its_model.specs.model.Programs.{arity_of};
ghost use Rattle.lasso_forms.specs.Files.{lasso_in};
ghost use Rattle.lasso_forms.specs.Turns as plain;
ghost use Rattle.lasso_forms.specs.Turns.{IsEndlessTurn, HasObstacle};
ghost use Rattle.lasso_forms.specs.Views.{file_of, Finds, Gives, Refuses};

use crate::error::TurnError;
use crate::file::{EndlessTurn, LassoFile};
use crate::law::turns_are_decided;
use lasso_check::{Program, check_lasso};
use moving_check::check_moving;
use std::alloc::Global;

/// Checks that the steps of a lasso are a run and that its turn can be repeated without end: in the first form, that it
/// leads back, as `check_lasso` does; in the second form, that it is seen to move on, as `check_moving` does. The lasso has
/// a start value for each place of the start symbol, and its turn has a step.
///
/// # Errors
///
/// Those of `check_lasso` in the first form, and those of `check_moving` in the second form.
pub fn check_lasso_file(
    alloc: Global,
    p: &Program,
    file: &LassoFile,
) -> Result<EndlessTurn, TurnError>
    requires valid { IsValid (program_of p.now) }
    requires start { length (lasso_in (file_of file.now)).start
        ≡ arity_of (program_of p.now) (program_of p.now).start }
    requires turn { 1 ≤ length (lasso_in (file_of file.now)).turn }
    ensures answer { Finds (program_of p.now) (file_of file.now) result }
    ensures repeats { (t : plain.EndlessTurn) → IsEndlessTurn (program_of p.now) (file_of file.now) t
        → Gives t result }
    ensures refuses { (o : plain.Obstacle) → HasObstacle (program_of p.now) (file_of file.now) o
        → Refuses o result }
{
    turns_are_decided();
    judge(alloc, p, file)
}

// Checks the turn of a lasso file by the check of its form.
fn judge(alloc: Global, p: &Program, file: &LassoFile) -> Result<EndlessTurn, TurnError>
    requires valid { IsValid (program_of p.now) }
    requires start { length (lasso_in (file_of file.now)).start
        ≡ arity_of (program_of p.now) (program_of p.now).start }
    requires turn { 1 ≤ length (lasso_in (file_of file.now)).turn }
    ensures { Finds (program_of p.now) (file_of file.now) result }
{
    match file {
        LassoFile::FirstForm(lasso) => match check_lasso(alloc, p, lasso) {
            Ok(turn) => Ok(EndlessTurn::Back(turn)),
            Err(error) => Err(TurnError::FirstForm(error)),
        },
        LassoFile::SecondForm(lasso) => match check_moving(alloc, p, lasso) {
            Ok(moving) => Ok(EndlessTurn::On(moving)),
            Err(error) => Err(TurnError::SecondForm(error)),
        },
    }
}
