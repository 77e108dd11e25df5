//! Prints a file of the third form.

ghost use Rattle.std.specs.Prelude.{◌≡◌, ◌++◌, length, IfOk, OnOk};
ghost use Rattle.std.specs.List.{All};
ghost use Rattle.its_model.specs.Views.{program_of};
ghost use Rattle.cert_types.specs.Views.{proof_of};
ghost use Rattle.cert_text.specs.OverFirst.{IsOverFirst};
ghost use Rattle.refined_types.specs.Views.{file_view, section_view};
ghost use Rattle.refined_writer.specs.Texts.{refined_text, section_part};

use cert_text::print;
use its_model::Program;
use poly_terms::Memory;
use potential_writer::{print_claims, print_lemmas};
use refined_types::RefinedFile;
use section_writer::print_section;
use std::alloc::Global;

/// The text of a file of the third form on a program, whose lemmas are over the spelled program, the one that its section
/// spells. The call goes as deep as the deepest derivation or bound.
///
/// # Errors
///
/// `Memory` where an allocation fails.
#[tactic(auto, unfolding(crate::specs::Texts::refined_text))]
pub fn print_refined(
    alloc: Global,
    p: &Program,
    above: &Program,
    file: &RefinedFile,
) -> Result<Vec<u8>, Memory>
    requires { All (λ lemma. IsOverFirst (length above.now.start_names.items) (proof_of lemma))
        file.now.plain.lemmas.items }
    ensures { IfOk result (λ text. text.items
        ≡ refined_text (program_of p.now) (program_of above.now) (file_view file.now)) }
{
    let mut text = Vec::new(alloc);
    text.extend_from_slice(b"koat-proof 3\n")?;
    push_section(alloc, &mut text, p, file)?;
    text.extend_from_slice(&print(alloc, above, &file.plain)?)?;
    text.extend_from_slice(&print_lemmas(alloc, above, &file.signed)?)?;
    text.extend_from_slice(&print_claims(alloc, &file.claims)?)?;
    Ok(text)
}

// The section, where there is one.
fn push_section(
    alloc: Global,
    text: &mut Vec<u8>,
    p: &Program,
    file: &RefinedFile,
) -> Result<(), Memory>
    ensures { OnOk result (text.new.items
        ≡ text.old.items ++ section_part (program_of p.now) (section_view file.now.section)) }
{
    match &file.section {
        None => Ok(()),
        Some(section) => text.extend_from_slice(&print_section(alloc, p, section)?),
    }
}
