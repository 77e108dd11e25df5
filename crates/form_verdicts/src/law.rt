//! The law of verdicts, and worked values.

ghost use Rattle.form_verdicts.specs.Laws.{VerdictsAreOne};
ghost use Rattle.form_verdicts.specs.Worked.{VerdictsAreWorkedOut};

use check_refined::{files_are_answered, refused_files_are_not_accepted};

/// A file is accepted with one text, or refused with one text, and not both; and it is accepted only if its parts are.
/// Its contract is the law; it has no code but the law of files of the third form.
pub fn verdicts_are_one()
    ensures { VerdictsAreOne }
{
    refused_files_are_not_accepted();
}

/// Verdicts on small files, as they were worked out by hand. Its contract is these values; it has no code but the values
/// below it.
pub fn worked_verdicts_hold()
    ensures { VerdictsAreWorkedOut }
{
    files_are_answered();
}
