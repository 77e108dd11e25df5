//! Copies of names and of symbols.

ghost use Rattle.std.specs.Prelude.{◌≡◌, IfOk, map};
ghost use Rattle.its_model.specs.Views.{name_of, symbol_of};

use its_model::{Name, Symbol};
use poly_terms::Memory;
use std::alloc::Global;

/// A copy of a name.
///
/// # Errors
///
/// `Memory` where an allocation fails.
pub fn copied_name(alloc: Global, name: &Name) -> Result<Name, Memory>
    ensures { IfOk result (λ copy. name_of copy ≡ name_of name.now) }
{
    Ok(Name {
        bytes: name.bytes.as_slice().to_vec(alloc)?,
    })
}

/// Copies of names, in order.
///
/// # Errors
///
/// `Memory` where an allocation fails.
pub fn copied_names(alloc: Global, names: &[Name]) -> Result<Vec<Name>, Memory>
    ensures { IfOk result (λ copies. map name_of copies.items ≡ map name_of names.now) }
{
    let mut copies = Vec::new(alloc);
    for name in names {
        copies.push(copied_name(alloc, name)?)?;
    }
    Ok(copies)
}

/// A copy of a symbol.
///
/// # Errors
///
/// `Memory` where an allocation fails.
pub fn copied_symbol(alloc: Global, symbol: &Symbol) -> Result<Symbol, Memory>
    ensures { IfOk result (λ copy. symbol_of copy ≡ symbol_of symbol.now) }
{
    Ok(Symbol {
        name: copied_name(alloc, &symbol.name)?,
        arity: symbol.arity,
    })
}

/// Copies of symbols, in order.
///
/// # Errors
///
/// `Memory` where an allocation fails.
pub fn copied_symbols(alloc: Global, symbols: &[Symbol]) -> Result<Vec<Symbol>, Memory>
    ensures { IfOk result (λ copies. map symbol_of copies.items ≡ map symbol_of symbols.now) }
{
    let mut copies = Vec::new(alloc);
    for symbol in symbols {
        copies.push(copied_symbol(alloc, symbol)?)?;
    }
    Ok(copies)
}
