//! The unknown coefficients of the function that is searched for.

ghost use Rattle.std.specs.Prelude.{◌≡◌, ◌++◌, map, IfOk, OnOk};
ghost use Rattle.simplex_core.specs.linear_forms.RuleQuestions.{coefficients};
ghost use Rattle.poly_terms.specs.model.Programs.{arity_of};
ghost use Rattle.its_model.specs.Views.{program_of};
ghost use Rattle.rank_search.specs.Coefficients.{coefficient_of, open_set, open_block};
ghost use Rattle.rank_search.specs.ShutPlaces.{is_listed};
ghost use Rattle.rule_questions.specs.ProgramQuestions.{places_of};

use crate::shut::{is_among, shut_set};
use its_model::Program;
use poly_terms::Memory;
use std::alloc::Global;
use std::collections::BTreeSet;

/// A coefficient of a function: it belongs to a place of a symbol, or, as place 0, it is the symbol's constant.
#[derive(Clone, Copy, Debug, PartialEq, Eq)]
pub struct Coefficient {
    pub symbol: u32,
    pub place: u32,
}

/// The coefficients at these symbols: for each symbol its places that aren't shut, and then its constant. The time is
/// near-linear in the places and the shut places.
pub(crate) fn coefficients_of(
    alloc: Global,
    p: &Program,
    symbols: &[u32],
    shut: &[(u32, u32)],
) -> Result<Vec<Coefficient>, Memory>
    ensures { IfOk result (λ cs. map coefficient_of cs.items
        ≡ coefficients (open_set (program_of p.now) (places_of shut.now)) symbols.now) }
{
    let closed = shut_set(alloc, shut)?;
    let mut found = Vec::new(alloc);
    for symbol in symbols {
        push_symbol(&mut found, *symbol, arity_at(p, *symbol), &closed)?;
    }
    Ok(found)
}

/// The number of places of a symbol, or 0 if there is no such symbol.
pub(crate) fn arity_at(p: &Program, symbol: u32) -> u32
    ensures { result ≡ arity_of (program_of p.now) symbol }
{
    match p.symbols.get(symbol as usize) {
        Some(s) => s.arity,
        None => 0,
    }
}

// Appends the coefficients at a symbol.
fn push_symbol(
    found: &mut Vec<Coefficient>,
    symbol: u32,
    arity: u32,
    closed: &BTreeSet<(u32, u32)>,
) -> Result<(), Memory>
    ensures { OnOk result (map coefficient_of found.new.items
        ≡ map coefficient_of found.old.items ++ open_block (is_listed closed.now) symbol arity) }
{
    for before in 0..arity {
        let place = before + 1;
        let is_shut = is_among(closed, symbol, place);
        if !is_shut {
            found.push(Coefficient { symbol, place })?;
        }
    }
    found.push(Coefficient { symbol, place: 0 })?;
    Ok(())
}
