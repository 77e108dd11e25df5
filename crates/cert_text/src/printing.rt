//! Prints a proof file.

ghost use Rattle.std.specs.Prelude.{◌≡◌, ◌++◌, length, map, IfOk, OnOk};
ghost use Rattle.std.specs.List.{All};
ghost use Rattle.its_model.specs.Views.{program_of};
ghost use Rattle.cert_types.specs.Views.{proof_of};
ghost use Rattle.cert_types.specs.AnswerViews.{file_of, gap_of};
ghost use Rattle.cert_text.specs.OverFirst.{IsOverFirst};
ghost use Rattle.cert_text.specs.Texts.{first_line, gap_lines, lemma_lines, text_of};

use crate::gaps::push_gap;
use crate::trees::{any_has_cost, push_proof};
use cert_types::{Gap, Proof, ProofFile};
use its_model::Program;
use model::Memory;
use std::alloc::Global;

/// The text of a proof file, with the names of a program. A symbol that the program doesn't have is written without a
/// name. The recursion is as deep as the deepest derivation.
///
/// # Errors
///
/// `Memory` where an allocation fails.
#[tactic(auto, unfolding(crate::specs::Texts::text_of))]
pub fn print(alloc: Global, p: &Program, f: &ProofFile) -> Result<Vec<u8>, Memory>
    requires { All (λ lemma. IsOverFirst (length p.now.start_names.items) (proof_of lemma)) f.now.lemmas.items }
    ensures { IfOk result (λ text. text.items ≡ text_of (program_of p.now) (file_of f.now)) }
{
    let mut text = Vec::new(alloc);
    push_first_line(&mut text, &f.lemmas)?;
    push_lemmas(&mut text, p, &f.lemmas)?;
    push_gaps(&mut text, p, &f.gaps)?;
    text.extend_from_slice(b"end\n")?;
    Ok(text)
}

// Writes the first line.
fn push_first_line(text: &mut Vec<u8>, lemmas: &[Proof]) -> Result<(), Memory>
    ensures { OnOk result (text.new.items ≡ text.old.items ++ first_line (map proof_of lemmas.now)) }
{
    if any_has_cost(lemmas) {
        text.extend_from_slice(b"koat-proof 2\n")
    } else {
        text.extend_from_slice(b"koat-proof 1\n")
    }
}

// Writes a line for each lemma.
fn push_lemmas(text: &mut Vec<u8>, p: &Program, lemmas: &[Proof]) -> Result<(), Memory>
    requires { All (λ lemma. IsOverFirst (length p.now.start_names.items) (proof_of lemma)) lemmas.now }
    ensures { OnOk result
        (text.new.items ≡ text.old.items ++ lemma_lines (program_of p.now) (map proof_of lemmas.now)) }
{
    for lemma in lemmas {
        text.extend_from_slice(b"lemma ")?;
        push_proof(text, p, lemma)?;
        text.extend_from_slice(b"\n")?;
    }
    Ok(())
}

// Writes a line for each gap.
fn push_gaps(text: &mut Vec<u8>, p: &Program, gaps: &[Gap]) -> Result<(), Memory>
    ensures { OnOk result
        (text.new.items ≡ text.old.items ++ gap_lines (program_of p.now) (map gap_of gaps.now)) }
{
    for gap in gaps {
        text.extend_from_slice(b"gap ")?;
        push_gap(text, p, gap)?;
        text.extend_from_slice(b"\n")?;
    }
    Ok(())
}
