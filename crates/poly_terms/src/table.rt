//! The table of variables for packed exponents: one variable for each digit of a key.

ghost use Rattle.std.specs.Prelude.{◌≡◌, IfOk, true};
ghost use Rattle.poly_terms.specs.Keys.{ascend_from};

use crate::factors::position_for;
use crate::key_error::KeyError;
use crate::poly::Monomial;
use std::alloc::Global;

/// The number of digits of a key, and so the greatest number of variables of a table.
const DIGITS: usize = 64;

/// The variables of two polynomials, in ascending order.
pub(crate) fn table_of(
    alloc: Global,
    left: &[Monomial],
    right: &[Monomial],
) -> Result<Vec<u32>, KeyError>
    ensures { IfOk result (λ table. ascend_from 0 table.items ≡ true) }
{
    let mut table = Vec::new(alloc);
    add_variables(&mut table, left)?;
    add_variables(&mut table, right)?;
    ascending(table)
}

/// The table, if it ascends. A variable that is missing or occurs twice is detected here or when a monomial is packed.
pub(crate) fn ascending(table: Vec<u32>) -> Result<Vec<u32>, KeyError>
    ensures { IfOk result (λ ascending. ascend_from 0 ascending.items ≡ true) }
{
    if ascends(&table) {
        Ok(table)
    } else {
        Err(KeyError::Unfit)
    }
}

// Adds the variables of monomials.
fn add_variables(table: &mut Vec<u32>, terms: &[Monomial]) -> Result<(), KeyError> {
    for m in terms {
        for v in &m.vars {
            add_variable(table, *v)?;
        }
    }
    Ok(())
}

/// Adds a variable if it isn't in the table.
pub(crate) fn add_variable(table: &mut Vec<u32>, v: u32) -> Result<(), KeyError> {
    let i = position_for(table, v);
    if i < table.len() && table[i] == v {
        return Ok(());
    }
    if table.len() >= DIGITS {
        return Err(KeyError::Unfit);
    }
    table.insert(i, v)?;
    Ok(())
}

// Whether each variable is greater than the one before it.
fn ascends(table: &[u32]) -> bool
    ensures { result ≡ ascend_from 0 table.now }
{
    let mut next = 0u64;
    for v in table {
        if (*v as u64) < next {
            return false;
        }
        next = *v as u64 + 1;
    }
    true
}
