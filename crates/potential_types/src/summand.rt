//! The summands of certificates.

/// A summand of a certificate that an expression is at least 0 wherever the rows of a rule are. Rows and variables are
/// numbered from 0; a row that doesn't exist is 0.
#[derive(Clone, Copy)]
pub enum Summand {
    /// A row times a number.
    OneRow {
        times: u64,
        row: u32,
    },
    /// The product of two rows, times a number.
    TwoRows {
        times: u64,
        first: u32,
        second: u32,
    },
    /// A variable times a row whose negation is a row, too, times a number that may be negative.
    ZeroRow {
        times: i64,
        row: u32,
        opposite: u32,
        variable: u32,
    },
}
