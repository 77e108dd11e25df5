//! A guard whose atoms are as long as they may be.

use crate::writing::{Writing, number_of};
use model::Memory;
use std::alloc::Global;

// This many minuses, followed by a number.
fn push_side(text: &mut Vec<u8>, minuses: usize) -> Result<(), Memory> {
    for _ in 0..minuses {
        text.push(b'-')?;
    }
    text.push(b'1')?;
    Ok(())
}

/// A rule whose guard has this many atoms with 1,024 tokens a side, and this many more in the last side.
pub(crate) fn guard(alloc: Global, numbers: &str) -> Result<Writing, Memory> {
    let (atoms, more) = numbers.split_once(' ').unwrap_or(("0", "0"));
    let atoms = number_of(atoms.as_bytes());
    let mut text = b"(STARTTERM (FUNCTIONSYMBOLS l0))(RULES l0(A)->l1()[".to_vec(alloc)?;
    for atom in 0..atoms {
        if atom > 0 {
            text.extend_from_slice(b"&&")?;
        }
        push_side(&mut text, 1023)?;
        text.extend_from_slice(b">=")?;
        let others = if atom.saturating_add(1) == atoms {
            number_of(more.as_bytes())
        } else {
            0
        };
        push_side(&mut text, others.saturating_add(1023))?;
    }
    text.extend_from_slice(b"])")?;
    Ok(Writing { text, mark: None })
}
