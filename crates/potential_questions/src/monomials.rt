//! Monomials of degree at most 2, and their places in an order.

use crate::error::SearchError;
use std::alloc::Global;

/// The monomials over a number of variables, up to degree 1 or 2: first 1, then the variables, then the products.
pub(crate) fn monomials(
    alloc: Global,
    count: u32,
    degree: u32,
) -> Result<Vec<Vec<u32>>, SearchError> {
    let mut found = Vec::new(alloc);
    found.push(Vec::new(alloc))?;
    for i in 0..count {
        found.push(vec![in alloc; i]?)?;
    }
    if degree >= 2 {
        for i in 0..count {
            for j in i..count {
                found.push(vec![in alloc; i, j]?)?;
            }
        }
    }
    Ok(found)
}

/// A number that the position of each monomial over a number of variables is below.
pub(crate) fn positions(count: u32, degree: u32) -> Result<usize, SearchError> {
    let linear = u64::from(count).saturating_add(1);
    let squares = u64::from(count).saturating_mul(u64::from(count));
    let all = if degree >= 2 {
        linear.saturating_add(squares)
    } else {
        linear
    };
    usize::try_from(all).map_err(|_| SearchError::Range)
}

/// The position of the product of at most two variables; products of the same variables have the same position.
pub(crate) fn position(count: u32, vars: &[u32]) -> Result<usize, SearchError> {
    let at = match vars {
        [] => 0,
        [i] => u64::from(*i).saturating_add(1),
        [i, j] => {
            let low = u64::from(*(i.min(j)));
            let high = u64::from(*(i.max(j)));
            let before = u64::from(count).saturating_mul(low.saturating_add(1));
            before.saturating_add(high).saturating_add(1)
        }
        _ => return Err(SearchError::Range),
    };
    usize::try_from(at).map_err(|_| SearchError::Range)
}
