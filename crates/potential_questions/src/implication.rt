//! Implications as equations of a linear program: a polynomial whose coefficients are columns is a sum of multiples of
//! a rule's rows and of what is never negative.

use crate::draft::Draft;
use crate::error::{SearchError, as_number, natural, negation, product, sum};
use crate::monomials::{position, positions};
use crate::sparse::SparseForm;
use crate::system::{PreparedRule, ZeroRows};
use integer_pivoting::Entry;
use potential_types::Summand;
use std::alloc::Global;

/// A summand that a certificate may have, and the column of its multiplier.
#[derive(Clone, Copy, Debug)]
pub(crate) struct Multiplier {
    column: u32,
    kind: SummandKind,
}

/// A summand without its multiplier.
#[derive(Clone, Copy, Debug)]
enum SummandKind {
    OneRow(u32),
    TwoRows(u32, u32),
    ZeroRow(ZeroRows, u32),
}

/// A goal that is to follow from the rows of a rule: for each monomial columns times numbers, and a number.
#[derive(Debug, Drop)]
pub(crate) struct Implication {
    unknowns: u32,
    degree: u32,
    sums: Vec<Vec<Entry>>,
    constants: Vec<i128>,
}

impl Implication {
    /// The implication whose goal is 0, for a rule with a number of unknowns.
    pub(crate) fn new(
        alloc: Global,
        unknowns: u32,
        degree: u32,
    ) -> Result<Implication, SearchError> {
        let count = positions(unknowns, degree)?;
        let mut sums = Vec::with_capacity(alloc, count)?;
        for _ in 0..count {
            sums.push(Vec::new(alloc))?;
        }
        Ok(Implication {
            unknowns,
            degree,
            sums,
            constants: vec![in alloc; 0i128; count]?,
        })
    }

    /// Adds a column times a number and a monomial to the goal.
    pub(crate) fn add(
        &mut self,
        column: u32,
        number: i128,
        vars: &[u32],
    ) -> Result<(), SearchError> {
        let at = position(self.unknowns, vars)?;
        match self.sums.get_mut(at) {
            Some(entries) => {
                entries.push(Entry {
                    column,
                    value: number,
                })?;
                Ok(())
            }
            None => Err(SearchError::Range),
        }
    }

    /// Adds a number times a monomial to the goal.
    pub(crate) fn add_number(&mut self, number: i128, vars: &[u32]) -> Result<(), SearchError> {
        let at = position(self.unknowns, vars)?;
        match self.constants.get_mut(at) {
            Some(constant) => {
                *constant = sum(*constant, number)?;
                Ok(())
            }
            None => Err(SearchError::Range),
        }
    }

    /// Adds a column times a number and a form to the goal.
    pub(crate) fn add_form(
        &mut self,
        column: u32,
        number: i128,
        form: &SparseForm,
    ) -> Result<(), SearchError> {
        for term in &form.terms {
            self.add(column, product(number, term.coefficient)?, &[term.unknown])?;
        }
        if form.constant != 0 {
            self.add(column, product(number, form.constant)?, &[])?;
        }
        Ok(())
    }

    /// Adds a column times a number and the product of two forms to the goal.
    pub(crate) fn add_product(
        &mut self,
        column: u32,
        number: i128,
        form: &SparseForm,
        other: &SparseForm,
    ) -> Result<(), SearchError> {
        for term in &form.terms {
            let times = product(number, term.coefficient)?;
            self.add_multiple(column, times, term.unknown, other)?;
        }
        if form.constant == 0 {
            return Ok(());
        }
        self.add_form(column, product(number, form.constant)?, other)
    }

    // Adds a column times a number, an unknown and a form to the goal.
    fn add_multiple(
        &mut self,
        column: u32,
        number: i128,
        unknown: u32,
        form: &SparseForm,
    ) -> Result<(), SearchError> {
        for term in &form.terms {
            let times = product(number, term.coefficient)?;
            self.add(column, times, &[unknown, term.unknown])?;
        }
        if form.constant != 0 {
            self.add(column, product(number, form.constant)?, &[unknown])?;
        }
        Ok(())
    }

    /// Writes that the goal follows into a draft, with a column for each multiplier, and gives the multipliers.
    pub(crate) fn write(
        self,
        alloc: Global,
        draft: &mut Draft,
        rule: &PreparedRule,
    ) -> Result<Vec<Multiplier>, SearchError> {
        let mut whole = self;
        let mut multipliers = Vec::new(alloc);
        whole.add_rows(&mut multipliers, draft, rule)?;
        if whole.degree >= 2 {
            whole.add_products(&mut multipliers, draft, rule)?;
            whole.add_squares(draft)?;
        }
        let slack = draft.column(0, false)?;
        whole.add(slack, -1, &[])?;
        let Implication {
            sums,
            constants,
            ..
        } = whole;
        for (entries, constant) in sums.into_iter().zip(constants.into_iter()) {
            draft.equation(entries, negation(constant)?)?;
        }
        Ok(multipliers)
    }

    // Subtracts a multiple of each row.
    fn add_rows(
        &mut self,
        multipliers: &mut Vec<Multiplier>,
        draft: &mut Draft,
        rule: &PreparedRule,
    ) -> Result<(), SearchError> {
        for (index, row) in rule.rows.iter().enumerate() {
            let column = draft.column(0, false)?;
            self.add_form(column, -1, row)?;
            let kind = SummandKind::OneRow(as_number(index)?);
            multipliers.push(Multiplier { column, kind })?;
        }
        Ok(())
    }

    // Subtracts a multiple of each product of two rows, and of each product of a row that is 0 and an unknown.
    fn add_products(
        &mut self,
        multipliers: &mut Vec<Multiplier>,
        draft: &mut Draft,
        rule: &PreparedRule,
    ) -> Result<(), SearchError> {
        for (i, row) in rule.rows.iter().enumerate() {
            for (j, other) in rule.rows.iter().enumerate() {
                if i <= j {
                    let column = draft.column(0, false)?;
                    self.add_product(column, -1, row, other)?;
                    let kind = SummandKind::TwoRows(as_number(i)?, as_number(j)?);
                    multipliers.push(Multiplier { column, kind })?;
                }
            }
        }
        for zeros in &rule.equations {
            if let Some(row) = rule.rows.get(zeros.row as usize) {
                self.add_zeros(multipliers, draft, *zeros, row)?;
            }
        }
        Ok(())
    }

    // Subtracts a multiple of each product of a row that is 0 and an unknown.
    fn add_zeros(
        &mut self,
        multipliers: &mut Vec<Multiplier>,
        draft: &mut Draft,
        zeros: ZeroRows,
        row: &SparseForm,
    ) -> Result<(), SearchError> {
        for unknown in 0..self.unknowns {
            let column = draft.column(0, true)?;
            self.add_multiple(column, -1, unknown, row)?;
            let kind = SummandKind::ZeroRow(zeros, unknown);
            multipliers.push(Multiplier { column, kind })?;
        }
        Ok(())
    }

    // Subtracts a multiple of the square of each unknown.
    fn add_squares(&mut self, draft: &mut Draft) -> Result<(), SearchError> {
        for unknown in 0..self.unknowns {
            let column = draft.column(0, false)?;
            self.add(column, -1, &[unknown, unknown])?;
        }
        Ok(())
    }
}

/// The certificate that a solution gives: the summands whose multiplier isn't 0.
pub(crate) fn certificate(
    alloc: Global,
    multipliers: &[Multiplier],
    numerators: &[i128],
) -> Result<Vec<Summand>, SearchError> {
    let mut summands = Vec::new(alloc);
    for multiplier in multipliers {
        let times = numerators
            .get(multiplier.column as usize)
            .copied()
            .unwrap_or(0);
        if times != 0 {
            summands.push(summand(multiplier.kind, times)?)?;
        }
    }
    Ok(summands)
}

// The summand of a kind with a multiplier.
fn summand(kind: SummandKind, times: i128) -> Result<Summand, SearchError> {
    match kind {
        SummandKind::OneRow(row) => Ok(Summand::OneRow {
            times: natural(times)?,
            row,
        }),
        SummandKind::TwoRows(first, second) => Ok(Summand::TwoRows {
            times: natural(times)?,
            first,
            second,
        }),
        SummandKind::ZeroRow(zeros, variable) => Ok(Summand::ZeroRow {
            times: i64::try_from(times).map_err(|_| SearchError::Range)?,
            row: zeros.row,
            opposite: zeros.opposite,
            variable,
        }),
    }
}
