//! Certificates divided by a number.

use crate::error::SearchError;
use potential_types::Summand;
use std::alloc::Global;

/// A certificate with each multiplier divided by a number; `Range` where a division leaves a remainder.
pub(crate) fn divided(
    alloc: Global,
    summands: &[Summand],
    den: u64,
) -> Result<Vec<Summand>, SearchError> {
    let mut quotients = Vec::new(alloc);
    for summand in summands {
        quotients.push(divided_summand(*summand, den)?)?;
    }
    Ok(quotients)
}

// A summand divided by a number.
fn divided_summand(summand: Summand, den: u64) -> Result<Summand, SearchError> {
    match summand {
        Summand::OneRow { times, row } => Ok(Summand::OneRow {
            times: quotient(times, den)?,
            row,
        }),
        Summand::TwoRows {
            times,
            first,
            second,
        } => Ok(Summand::TwoRows {
            times: quotient(times, den)?,
            first,
            second,
        }),
        Summand::ZeroRow {
            times,
            row,
            opposite,
            variable,
        } => Ok(Summand::ZeroRow {
            times: signed_quotient(times, den)?,
            row,
            opposite,
            variable,
        }),
    }
}

// The quotient of numbers; `Range` where a remainder is left.
fn quotient(number: u64, den: u64) -> Result<u64, SearchError> {
    match (number.checked_div(den), number.checked_rem(den)) {
        (Some(whole), Some(0)) => Ok(whole),
        _ => Err(SearchError::Range),
    }
}

// The quotient of numbers; `Range` where a remainder is left.
fn signed_quotient(number: i64, den: u64) -> Result<i64, SearchError> {
    let divisor = i64::try_from(den).map_err(|_| SearchError::Range)?;
    match (number.checked_div(divisor), number.checked_rem(divisor)) {
        (Some(whole), Some(0)) => Ok(whole),
        _ => Err(SearchError::Range),
    }
}
