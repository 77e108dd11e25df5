//! The law of the texts of proof files, and worked values.

ghost use Rattle.proof_forms.specs.Laws.{ProofTextsAreDecided};
ghost use Rattle.proof_forms.specs.Worked.{FormsAreWorkedOut};

use refined_text::refined_texts_are_decided;

/// Bytes have at most one meaning as a proof file, at most one first refusal, and not both. Its contract is the law; it has no
/// code but the law of texts of the third form.
pub fn proof_texts_are_decided()
    ensures { ProofTextsAreDecided }
{
    refined_texts_are_decided();
}

/// Which form small texts have, and why they are refused, as it was worked out by hand. Its contract is these values; it
/// has no code.
pub fn worked_forms_hold()
    ensures { FormsAreWorkedOut }
{}
