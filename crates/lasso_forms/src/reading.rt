//! Reads a lasso file of either form.

ghost use Rattle.std.specs.Prelude.{◌≡◌, true, false};
ghost use Rattle.its_model.specs.Views.{program_of};
ghost use Rattle.moving_check.specs.Texts.{is_moving_form};
ghost use Rattle.lasso_forms.specs.Files as plain;
ghost use Rattle.lasso_forms.specs.Texts.{IsFileText};
ghost use Rattle.lasso_forms.specs.Views.{Answers, GivesBack};

use crate::file::LassoFile;
use lasso_check::{LassoTextError, Program, read_lasso};
use moving_check::{is_moving_form, read_moving};
use std::alloc::Global;

/// Reads the lasso that a text of either form represents, as a lasso of the given program. A text whose first line is
/// `koat-lasso 2` is one of the second form, whose turn is to move on; all others are read as texts of the first form,
/// whose first line is `koat-lasso 1`. The rest is the same in both.
///
/// # Errors
///
/// Those of `read_lasso`: for a text with the number of the second form, those of the text with that of the first one in
/// its place.
pub fn read_lasso_file(
    alloc: Global,
    p: &Program,
    bytes: &[u8],
) -> Result<LassoFile, LassoTextError>
    ensures answer { Answers (program_of p.now) bytes.now result }
    ensures complete { (f : plain.LassoFile) → IsFileText (program_of p.now) bytes.now f → GivesBack f result }
{
    if is_moving_form(bytes) {
        read_second(alloc, p, bytes)
    } else {
        read_first(alloc, p, bytes)
    }
}

// Reads a text that doesn't have the number of the second form.
fn read_first(alloc: Global, p: &Program, bytes: &[u8]) -> Result<LassoFile, LassoTextError>
    requires form { is_moving_form bytes.now ≡ false }
    ensures answer { Answers (program_of p.now) bytes.now result }
    ensures complete { (f : plain.LassoFile) → IsFileText (program_of p.now) bytes.now f → GivesBack f result }
{
    match read_lasso(alloc, p, bytes) {
        Ok(lasso) => Ok(LassoFile::FirstForm(lasso)),
        Err(error) => Err(error),
    }
}

// Reads a text that has the number of the second form.
fn read_second(alloc: Global, p: &Program, bytes: &[u8]) -> Result<LassoFile, LassoTextError>
    requires form { is_moving_form bytes.now ≡ true }
    ensures answer { Answers (program_of p.now) bytes.now result }
    ensures complete { (f : plain.LassoFile) → IsFileText (program_of p.now) bytes.now f → GivesBack f result }
{
    match read_moving(alloc, p, bytes) {
        Ok(lasso) => Ok(LassoFile::SecondForm(lasso)),
        Err(error) => Err(error),
    }
}
