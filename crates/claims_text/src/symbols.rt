//! The lines of facts at symbols.

ghost use Rattle.std.specs.Prelude.{◌≡◌, ◌++◌, codes, map, slice_get, OnOk};
ghost use Rattle.std.specs.Fmt.{signed_decimal};
ghost use Rattle.its_model.specs.Views.{name_of, program_of, symbol_of};
ghost use Rattle.poly_terms.specs.Views.{monomials_of};
ghost use Rattle.signed_text.specs.Polynomials.{polynomial_text};
ghost use Rattle.symbol_facts.specs.Views.{fact_of};
ghost use Rattle.check_text.specs.Texts.{name_in};
ghost use Rattle.claims_text.specs.Symbols.{symbol_fact_line};
ghost use Rattle.claims_text.specs.Terms.{place_names};

use itoa::Buffer;
use its_model::{Program, Symbol};
use poly_terms::{Memory, Monomial};
use signed_text::write_polynomial;
use symbol_facts::SymbolFact;
use text_core::Name;

/// Appends the line of a fact at a symbol of a program. The names are those of places.
pub(crate) fn push_symbol_fact(
    text: &mut Vec<u8>,
    program: &Program,
    names: &[Name],
    fact: &SymbolFact,
) -> Result<(), Memory>
    requires { map name_of names.now ≡ place_names }
    ensures { OnOk result (text.new.items
        ≡ text.old.items ++ symbol_fact_line (program_of program.now) (fact_of fact.now)) }
{
    push_head(text, &program.symbols, fact.symbol)?;
    push_form(text, names, &fact.form.terms)?;
    push_end(text, fact.least)
}

/// Appends the beginning of the line of a fact: `fact`, the symbol's name and a colon; no name if there is no such
/// symbol.
pub(crate) fn push_head(text: &mut Vec<u8>, symbols: &[Symbol], symbol: usize) -> Result<(), Memory>
    ensures { OnOk result (text.new.items ≡ text.old.items
        ++ (codes "fact " ++ (name_in (slice_get (map symbol_of symbols.now) symbol) ++ codes ": "))) }
{
    text.extend_from_slice(b"fact ")?;
    push_symbol(text, symbols, symbol)?;
    text.extend_from_slice(b": ")
}

// Appends the name of a symbol; nothing where there is no such symbol.
fn push_symbol(text: &mut Vec<u8>, symbols: &[Symbol], symbol: usize) -> Result<(), Memory>
    ensures { OnOk result
        (text.new.items ≡ text.old.items ++ name_in (slice_get (map symbol_of symbols.now) symbol)) }
{
    match symbols.get(symbol) {
        Some(found) => text.extend_from_slice(&found.name.bytes),
        None => Ok(()),
    }
}

// Appends the rest of the line of a fact: the number that its form is at least.
fn push_end(text: &mut Vec<u8>, least: i128) -> Result<(), Memory>
    ensures { OnOk result
        (text.new.items ≡ text.old.items ++ (codes " >= " ++ (signed_decimal least ++ codes "\n"))) }
{
    text.extend_from_slice(b" >= ")?;
    text.extend_from_slice(Buffer::new().format(least).as_bytes())?;
    text.extend_from_slice(b"\n")
}

// Appends a form over places.
fn push_form(text: &mut Vec<u8>, names: &[Name], terms: &[Monomial]) -> Result<(), Memory>
    requires { map name_of names.now ≡ place_names }
    ensures { OnOk result (text.new.items
        ≡ text.old.items ++ polynomial_text place_names (monomials_of terms.now)) }
{
    write_polynomial(text, names, terms)
}
