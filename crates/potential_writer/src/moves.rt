//! Prints potentials: functions of symbols, and moves of rules.

ghost use Rattle.std.specs.Prelude.{◌≡◌, ◌++◌, map, slice_get, codes, OnOk};
ghost use Rattle.its_model.specs.Views.{program_of, symbol_of};
ghost use Rattle.section_writer.specs.Lists.{each_behind, separated};
ghost use Rattle.section_writer.specs.Texts.{symbol_name};
ghost use Rattle.potential_types.specs.Views.{function_of, move_of, table_of};
ghost use Rattle.potential_writer.specs.Lemmas.{cited_text, function_text, functions_text, kind_text, move_text, table_text};

use crate::certificates::push_certificate;
use crate::numbers::{push_long, push_number};
use crate::polynomials::push_poly;
use its_model::{Program, Symbol};
use model::Memory;
use potential_types::{Move, PotentialTable, SymbolFunction};

/// A potential.
#[tactic(auto, unfolding(crate::specs::Lemmas::table_text))]
pub(crate) fn push_table(
    text: &mut Vec<u8>,
    p: &Program,
    table: &PotentialTable,
) -> Result<(), Memory>
    ensures { OnOk result (text.new.items
        ≡ text.old.items ++ table_text (program_of p.now) (table_of table.now)) }
{
    push_functions(text, p, &table.functions)?;
    text.extend_from_slice(b" den ")?;
    push_long(text, table.den)?;
    text.extend_from_slice(b" moves [")?;
    push_moves(text, &table.moves)?;
    text.extend_from_slice(b"]")
}

/// Functions of symbols.
#[tactic(auto, unfolding(crate::specs::Lemmas::functions_text))]
pub(crate) fn push_functions(
    text: &mut Vec<u8>,
    p: &Program,
    functions: &[SymbolFunction],
) -> Result<(), Memory>
    ensures { OnOk result (text.new.items
        ≡ text.old.items ++ functions_text (program_of p.now) (map function_of functions.now)) }
{
    text.extend_from_slice(b"functions [")?;
    push_separated_functions(text, p, functions)?;
    text.extend_from_slice(b"]")
}

// The functions, with a semicolon and a blank between them.
fn push_separated_functions(
    text: &mut Vec<u8>,
    p: &Program,
    functions: &[SymbolFunction],
) -> Result<(), Memory>
    ensures { OnOk result (text.new.items ≡ text.old.items
        ++ separated (codes "; ") (map (function_text (program_of p.now)) (map function_of functions.now))) }
{
    let Some((first, others)) = functions.split_first() else {
        return Ok(());
    };
    push_function(text, p, first)?;
    push_more_functions(text, p, others)
}

// A semicolon and a blank before each function.
fn push_more_functions(
    text: &mut Vec<u8>,
    p: &Program,
    functions: &[SymbolFunction],
) -> Result<(), Memory>
    ensures { OnOk result (text.new.items ≡ text.old.items
        ++ each_behind (codes "; ") (map (function_text (program_of p.now)) (map function_of functions.now))) }
{
    for function in functions {
        text.extend_from_slice(b"; ")?;
        push_function(text, p, function)?;
    }
    Ok(())
}

// The name of a symbol, and its function.
fn push_function(text: &mut Vec<u8>, p: &Program, function: &SymbolFunction) -> Result<(), Memory>
    ensures { OnOk result (text.new.items
        ≡ text.old.items ++ function_text (program_of p.now) (function_of function.now)) }
{
    push_symbol_name(text, &p.symbols, function.symbol)?;
    text.extend_from_slice(b" ")?;
    push_poly(text, &function.form)
}

// The name of the symbol with a number; nothing where there is no such symbol.
fn push_symbol_name(text: &mut Vec<u8>, symbols: &[Symbol], symbol: u32) -> Result<(), Memory>
    ensures { OnOk result
        (text.new.items ≡ text.old.items ++ symbol_name (slice_get (map symbol_of symbols.now) symbol)) }
{
    match symbols.get(symbol as usize) {
        Some(symbol) => text.extend_from_slice(&symbol.name.bytes),
        None => Ok(()),
    }
}

// The moves, with a semicolon and a blank between them.
fn push_moves(text: &mut Vec<u8>, moves: &[Move]) -> Result<(), Memory>
    ensures { OnOk result (text.new.items
        ≡ text.old.items ++ separated (codes "; ") (map move_text (map move_of moves.now))) }
{
    let Some((first, others)) = moves.split_first() else {
        return Ok(());
    };
    push_move(text, first)?;
    push_more_moves(text, others)
}

// A semicolon and a blank before each move.
fn push_more_moves(text: &mut Vec<u8>, moves: &[Move]) -> Result<(), Memory>
    ensures { OnOk result (text.new.items
        ≡ text.old.items ++ each_behind (codes "; ") (map move_text (map move_of moves.now))) }
{
    for step in moves {
        text.extend_from_slice(b"; ")?;
        push_move(text, step)?;
    }
    Ok(())
}

// A move.
fn push_move(text: &mut Vec<u8>, step: &Move) -> Result<(), Memory>
    ensures { OnOk result (text.new.items ≡ text.old.items ++ move_text (move_of step.now)) }
{
    push_number(text, step.rule)?;
    push_kind(text, step.keeps)?;
    push_poly(text, &step.gain)?;
    push_cited(text, step.cited)?;
    text.extend_from_slice(b" ")?;
    push_certificate(text, &step.certificate)
}

// Whether a move keeps the function or sets it anew.
fn push_kind(text: &mut Vec<u8>, keeps: bool) -> Result<(), Memory>
    ensures { OnOk result (text.new.items ≡ text.old.items ++ kind_text keeps) }
{
    if keeps {
        text.extend_from_slice(b" keep ")
    } else {
        text.extend_from_slice(b" reset ")
    }
}

// The lemma that a move cites, if it cites one.
fn push_cited(text: &mut Vec<u8>, cited: Option<u32>) -> Result<(), Memory>
    ensures { OnOk result (text.new.items ≡ text.old.items ++ cited_text cited) }
{
    match cited {
        None => Ok(()),
        Some(number) => {
            text.extend_from_slice(b" by ")?;
            push_number(text, number)
        }
    }
}
