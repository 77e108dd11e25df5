//! Laws of grammars.

ghost use Rattle.text_grammar.specs.Texts.{IsLawful};
ghost use Rattle.text_grammar.specs.Worked.{TextsAreRead, WorkedGrammars};

use crate::text::Text;

/// Worked values, on both sides: which grammars can be parsed, which rules items denote, which brackets are derived and
/// how they are answered, and the results for numbers, parts, values of nonterminals and a small text in single bytes.
/// The reader of brackets satisfies the laws; the printed text of rows within the limits is read back, and each text
/// that is read is the printed text of such rows. The function has no code: its contract is the law.
pub fn worked_grammars_hold()
    ensures { WorkedGrammars }
{}

/// A lawful text is read according to the laws of readers: it has one answer, the tree or the first fault. A tree is
/// accepted exactly if it is derived and its tokens have no fault. A refusal is shown at a token exactly if it is a
/// fault of the token after the derived events. The function has no code: its contract is the law.
pub fn lawful_texts_are_read<X: Text>(text: &X)
    requires { IsLawful (X.text_of text.now) }
    ensures { TextsAreRead (X.text_of text.now) }
{}
