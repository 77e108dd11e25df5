//! The text of an accepted file: its facts at symbols, and what its claims state.

ghost use Rattle.std.specs.Prelude.{◌≡◌, ◌++◌, map, IfOk, OnOk};
ghost use Rattle.std.specs.List.{flat_map};
ghost use Rattle.its_model.specs.Views.{name_of, program_of};
ghost use Rattle.poly_terms.specs.Views.{term_of};
ghost use Rattle.signed_bounds.specs.Views.{signed_of};
ghost use Rattle.signed_text.specs.Texts.{signed_text};
ghost use Rattle.claims_check.specs.Views.{stated_of};
ghost use Rattle.symbol_facts.specs.Views.{fact_of};
ghost use Rattle.check_text.specs.Texts.{line_end};
ghost use Rattle.claims_text.specs.Statements.{stated_line, stated_text};
ghost use Rattle.claims_text.specs.Symbols.{symbol_fact_line};
ghost use Rattle.claims_text.specs.Terms.{term_text, place_names as names_of_places};

use crate::symbols::{push_head, push_symbol_fact};
use crate::terms::{place_names, push_term};
use check_text::{push_number, push_place};
use claims_check::Statement;
use its_model::Program;
use poly_terms::{Expr, Memory};
use signed_bounds::Signed;
use signed_text::write_signed;
use std::alloc::Global;
use symbol_facts::SymbolFact;
use text_core::Name;

/// The text of an accepted file: a line for each of the facts at the symbols of a program, and one for each of what its
/// claims state, in their order.
///
/// # Errors
///
/// `Memory` where an allocation fails.
#[tactic(auto, unfolding(crate::specs::Statements::stated_text))]
pub fn statements_text(
    alloc: Global,
    program: &Program,
    facts: &[SymbolFact],
    statements: &[Statement],
) -> Result<Vec<u8>, Memory>
    ensures { IfOk result (λ text. text.items
        ≡ stated_text (program_of program.now) (map fact_of facts.now) (map stated_of statements.now)) }
{
    let mut text = Vec::from_slice(alloc, b"accepted\n")?;
    let places = place_names(alloc)?;
    push_facts(&mut text, program, &places, facts)?;
    push_statements(&mut text, program, &places, statements)?;
    Ok(text)
}

// A line for each fact at a symbol.
fn push_facts(
    text: &mut Vec<u8>,
    program: &Program,
    places: &[Name],
    facts: &[SymbolFact],
) -> Result<(), Memory>
    requires { map name_of places.now ≡ names_of_places }
    ensures { OnOk result (text.new.items
        ≡ text.old.items ++ flat_map (symbol_fact_line (program_of program.now)) (map fact_of facts.now)) }
{
    for fact in facts {
        push_symbol_fact(text, program, places, fact)?;
    }
    Ok(())
}

// A line for each statement.
fn push_statements(
    text: &mut Vec<u8>,
    program: &Program,
    places: &[Name],
    statements: &[Statement],
) -> Result<(), Memory>
    requires { map name_of places.now ≡ names_of_places }
    ensures { OnOk result (text.new.items
        ≡ text.old.items ++ flat_map (stated_line (program_of program.now)) (map stated_of statements.now)) }
{
    for statement in statements {
        push_statement(text, program, places, statement)?;
    }
    Ok(())
}

// The line of a statement.
fn push_statement(
    text: &mut Vec<u8>,
    program: &Program,
    places: &[Name],
    statement: &Statement,
) -> Result<(), Memory>
    requires { map name_of places.now ≡ names_of_places }
    ensures { OnOk result
        (text.new.items ≡ text.old.items ++ stated_line (program_of program.now) (stated_of statement.now)) }
{
    match statement {
        Statement::Time(rule, bound) => {
            text.extend_from_slice(b"time ")?;
            push_number(text, u64::from(*rule))?;
            push_bound(text, &program.start_names, bound)
        }
        Statement::Cost(rule, bound) => {
            text.extend_from_slice(b"cost ")?;
            push_number(text, u64::from(*rule))?;
            push_bound(text, &program.start_names, bound)
        }
        Statement::Total(bound) => {
            text.extend_from_slice(b"total")?;
            push_bound(text, &program.start_names, bound)
        }
        Statement::Above(rule, place, bound) => {
            text.extend_from_slice(b"above ")?;
            push_place(text, *rule, *place)?;
            push_bound(text, &program.start_names, bound)
        }
        Statement::Below(rule, place, bound) => {
            text.extend_from_slice(b"below ")?;
            push_place(text, *rule, *place)?;
            push_bound(text, &program.start_names, bound)
        }
        Statement::AtSymbol(symbol, expression) => {
            push_head(text, &program.symbols, *symbol as usize)?;
            push_expression(text, places, expression)?;
            text.extend_from_slice(b" >= 0")?;
            text.extend_from_slice(b"\n")
        }
    }
}

// A colon, the text of a bound, and the end of its line.
fn push_bound(text: &mut Vec<u8>, names: &[Name], bound: &Signed) -> Result<(), Memory>
    ensures { OnOk result
        (text.new.items ≡ text.old.items ++ line_end (signed_text (map name_of names.now) (signed_of bound.now))) }
{
    text.extend_from_slice(b": ")?;
    write_signed(text, names, bound)?;
    text.extend_from_slice(b"\n")
}

// An expression over places.
fn push_expression(text: &mut Vec<u8>, places: &[Name], expression: &Expr) -> Result<(), Memory>
    requires { map name_of places.now ≡ names_of_places }
    ensures { OnOk result
        (text.new.items ≡ text.old.items ++ term_text names_of_places (term_of expression.now)) }
{
    push_term(text, places, expression)
}
