//! Texts of linear programs as texts in bytes: the state of reading, and the faults of tokens.

ghost use Rattle.std.specs.Prelude.{◌≡◌};
ghost use Rattle.lp_text.specs.Lps.{Lp};
ghost use Rattle.lp_text.specs.Texts.{State as StateOf, lp_bytes, fault_of_costs as fault_of_costs_at};
ghost use Rattle.lp_text.specs.Texts.{fault_of_row as fault_of_row_at, fault_of_columns as fault_of_columns_at};
ghost use Rattle.lp_text.specs.Views.{lp_of, own_of as own_at};

use crate::grammar::{FIRST_BEGINS, LETTERS, RIGHT_BEGINS, ROWS_BEGIN, SECOND_BEGINS};
use crate::kind::LpKind;
use crate::section::Section;
use crate::written::{WrittenLp, WrittenRow};
use std::alloc::{AllocError, Global};
use std::mem::replace;
use text_grammar::{ByteText, class_of};

/// The greatest absolute value of a number.
const NUMBER_LIMIT: u128 = (1 << 31) - 1;

/// The greatest number of columns, and of rows.
const SIZE_LIMIT: u128 = 64;

/// The part of a linear program that has been read, the section that is being read, and the numbers of the row so far.
#[derive(Drop)]
pub struct State {
    pub alloc: Global,
    pub lp: WrittenLp,
    pub section: Section,
    pub numbers: Vec<i128>,
}

// The fault of a byte in a line of costs, of which `count` have been read.
fn fault_of_costs(columns: u128, count: u128, byte: u8) -> Option<LpKind>
    ensures { result ≡ fault_of_costs_at columns count byte }
{
    match byte {
        b' ' if count >= columns => Some(LpKind::Syntax),
        b'\n' if count < columns => Some(LpKind::Syntax),
        _ => None,
    }
}

// The fault of a byte in a row, after this many numbers and this many earlier rows.
fn fault_of_row(columns: u128, rows: u128, count: u128, byte: u8) -> Option<LpKind>
    ensures { result ≡ fault_of_row_at columns rows count byte }
{
    match byte {
        b'r' if rows >= SIZE_LIMIT => Some(LpKind::Limit),
        b'=' if count < columns => Some(LpKind::Syntax),
        b'-' if count >= columns => Some(LpKind::Syntax),
        _ => None,
    }
}

// The fault of a number of columns.
fn fault_of_columns(number: i128) -> Option<LpKind>
    ensures { result ≡ fault_of_columns_at number }
{
    if number.unsigned_abs() > NUMBER_LIMIT {
        return Some(LpKind::NumberTooLarge);
    }
    if number < 1 || number > 64 {
        return Some(LpKind::Limit);
    }
    None
}

impl ByteText for State {
    type Kind = LpKind;

    type Made = WrittenLp;

    ghost Tree = { Lp };

    ghost Own = { StateOf };

    ghost bytes_of = { λ _. lp_bytes };

    ghost own_of = { own_at };

    ghost tree_in = { lp_of };

    fn class(&self, byte: u8) -> u32 {
        class_of(&LETTERS, byte)
    }

    fn natural(&mut self, number: u128) -> Result<(), AllocError> {
        match self.section {
            Section::First => self.lp.first.push(number)?,
            Section::Second => self.lp.second.push(number)?,
            _ => {}
        }
        Ok(())
    }

    fn signed(&mut self, number: i128) -> Result<(), AllocError> {
        match self.section {
            Section::Head => self.lp.columns = number,
            Section::Rows => self.numbers.push(number)?,
            Section::Right => {
                let numbers = replace(&mut self.numbers, Vec::new(self.alloc));
                self.lp.rows.push(WrittenRow {
                    numbers,
                    right: number,
                })?;
                self.section = Section::Rows;
            }
            _ => {}
        }
        Ok(())
    }

    fn line(&mut self, values: Vec<i128>) -> Result<(), AllocError> {
        let _values = values;
        Ok(())
    }

    fn done(&mut self, mark: u32) -> Result<(), AllocError> {
        match mark {
            FIRST_BEGINS => self.section = Section::First,
            SECOND_BEGINS => self.section = Section::Second,
            ROWS_BEGIN => self.section = Section::Rows,
            RIGHT_BEGINS => self.section = Section::Right,
            _ => {}
        }
        Ok(())
    }

    fn fault_of_natural(&self, number: u128) -> Option<LpKind> {
        if number > NUMBER_LIMIT {
            Some(LpKind::NumberTooLarge)
        } else {
            None
        }
    }

    fn fault_of_signed(&self, number: i128) -> Option<LpKind> {
        match self.section {
            Section::Head => fault_of_columns(number),
            Section::Rows if self.numbers.len() as u128 >= self.lp.columns.unsigned_abs() => {
                Some(LpKind::Syntax)
            }
            _ if number.unsigned_abs() > NUMBER_LIMIT => Some(LpKind::NumberTooLarge),
            _ => None,
        }
    }

    fn fault_of_line(&self, values: usize) -> Option<LpKind> {
        let _values = values;
        None
    }

    fn fault_of_byte(&self, byte: u8) -> Option<LpKind> {
        let columns = self.lp.columns.unsigned_abs();
        match self.section {
            Section::First => fault_of_costs(columns, self.lp.first.len() as u128, byte),
            Section::Second => fault_of_costs(columns, self.lp.second.len() as u128, byte),
            Section::Rows => fault_of_row(
                columns,
                self.lp.rows.len() as u128,
                self.numbers.len() as u128,
                byte,
            ),
            _ => None,
        }
    }

    fn number(&self, kind: LpKind) -> u32 {
        match kind {
            LpKind::Syntax => 1,
            LpKind::NumberTooLarge => 2,
            LpKind::Limit => 3,
        }
    }

    fn syntax(&self) -> LpKind {
        LpKind::Syntax
    }

    fn too_large(&self) -> LpKind {
        LpKind::NumberTooLarge
    }

    fn finish(self) -> Result<WrittenLp, AllocError> {
        Ok(self.lp)
    }
}
