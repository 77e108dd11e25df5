//! Names of copies.

use its_model::{Name, Program};
use poly_terms::Memory;
use std::alloc::Global;

/// The name of a copy: that of its symbol, a full stop and a number. Copies with different numbers have different
/// names.
///
/// # Errors
///
/// `Memory` where an allocation fails.
pub(crate) fn copy_name(
    alloc: Global,
    p: &Program,
    symbol: u32,
    number: usize,
) -> Result<Name, Memory> {
    let mut bytes = match p.symbols.get(symbol as usize) {
        Some(s) => s.name.bytes.as_slice().to_vec(alloc)?,
        None => b"none".to_vec(alloc)?,
    };
    let digits = format!(in alloc; ".{}", number)?;
    bytes.extend_from_slice(digits.as_bytes())?;
    Ok(Name { bytes })
}

/// A number as a `u32`, or the greatest number that a `u32` holds.
pub(crate) fn saturating_u32(number: usize) -> u32 {
    u32::try_from(number).unwrap_or(u32::MAX)
}
