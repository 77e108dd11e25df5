//! The translation of each while program that is read is spelled by its canonical text, so what `translate` prints is the
//! text of the translation.
//!
//! Builds on `while_answer` (the programs that texts spell, and their translations), `while_laws` (programs are read as
//! they are written) and `its_writer` (canonical texts). Main guarantee: `translations_are_spelled`. The function here
//! has no code: its contract is the law.
#![tactic(auto)]

ghost use Rattle.while_spelling.specs.Laws.{TranslationsAreSpelled};

/// The law that the canonical text of the translation of each while program that is read spells the translation: its
/// symbols and free variables are numbered in the order in which the text has them, and no literal is below 0.
pub fn translations_are_spelled()
    ensures { TranslationsAreSpelled }
{}
