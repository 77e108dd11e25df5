//! Whether the copies of a section have different names.

ghost use Rattle.std.specs.Prelude.{◌≡◌, ◌↔◌, IsTrue, IfOk};
ghost use Rattle.std.specs.List.{list_all};
ghost use Rattle.text_core.specs.Names.{IsName, continues_name as continues_as};
ghost use Rattle.refined_programs.specs.Views.{annotated_of};
ghost use Rattle.section_checks.specs.Laws.{HasDistinctNames};

use indexmap::IndexSet;
use poly_terms::Memory;
use refined_programs::Section;
use std::alloc::Global;
use text_core::{begins_name, continues_name};

/// Whether the copies of a section have names, and these differ. The program that an accepted section with such copies
/// spells is valid (`accepted_sections_keep_bounds`).
///
/// # Errors
///
/// `Memory` where an allocation fails.
pub fn has_distinct_names(alloc: Global, section: &Section) -> Result<bool, Memory>
    ensures { IfOk result (λ named. IsTrue named ↔ HasDistinctNames (annotated_of section.now)) }
{
    let mut seen = IndexSet::new(alloc);
    for copy in &section.copies {
        let name = copy.name.bytes.as_slice();
        if !is_name(name) {
            return Ok(false);
        }
        let is_new = seen.insert(name)?;
        if !is_new {
            return Ok(false);
        }
    }
    Ok(true)
}

// Whether bytes are those of a name.
fn is_name(bytes: &[u8]) -> bool
    ensures { IsTrue result ↔ IsName bytes.now }
{
    match bytes.split_first() {
        None => false,
        Some((first, rest)) => begins_name(*first) && continue_name(rest),
    }
}

// Whether each of these bytes can continue a name.
fn continue_name(bytes: &[u8]) -> bool
    ensures { result ≡ list_all continues_as bytes.now }
{
    for byte in bytes {
        if !continues_name(*byte) {
            return false;
        }
    }
    true
}
