//! Builds the program at the end of a text.

ghost use Rattle.std.specs.Prelude.{◌≡◌, map, MatchOption, IfOk, Some, None};
ghost use Rattle.std.specs.List.{find};
ghost use Rattle.its_model.specs.Views.{rule_of, symbol_of};
ghost use Rattle.expr_reader.specs.Variables.{names_in};
ghost use Rattle.its_text.specs.Kinds as kinds;
ghost use Rattle.its_reader.specs.Faults.{fault_in};
ghost use Rattle.its_reader.specs.TokenSteps.{Finishes};
ghost use Rattle.its_reader.specs.Finishing.{tabled, leaves, Makes};

use crate::draft::{Draft, Start};
use crate::error::ReadError;
use crate::fault::Kind;
use crate::rules::name_from;
use crate::symbols::Symbols;
use its_model::{Program, Rule, Symbol, left_names};
use model::Memory;
use std::alloc::Global;

// The refusal for a text of this many bytes in which a section is missing.
fn missing(len: usize) -> ReadError
    ensures { fault_in result ≡ Some (record { kind = kinds.MissingSection; at = len }) }
{
    Kind::MissingSection.at(len).error()
}

// The first rule that leaves the symbol with a name.
fn first_leaving<'r>(rules: &'r [Rule], symbols: &Symbols<'_>, name: &[u8]) -> Option<&'r Rule>
    ensures { MatchOption result (find (leaves (names_in symbols.now.names) name.now) (map rule_of rules.now) ≡ None)
        (λ rule. find (leaves (names_in symbols.now.names) name.now) (map rule_of rules.now)
        ≡ Some (rule_of rule.now)) }
{
    for rule in rules {
        if symbols.is_named(rule.source, name) {
            return Some(rule);
        }
    }
    None
}

// The symbols, each with the number of its places.
fn symbols_from(alloc: Global, symbols: &Symbols<'_>) -> Result<Vec<Symbol>, Memory>
    ensures { IfOk result (λ made. map symbol_of made.items
        ≡ tabled (names_in symbols.now.names) symbols.now.arities.items) }
{
    let mut made = Vec::new(alloc);
    while let Some(listed) = symbols.get(made.len()) {
        let name = name_from(alloc, listed.name)?;
        made.push(Symbol {
            name,
            arity: listed.arity,
        })?;
    }
    Ok(made)
}

impl<'a> Draft<'a> {
    /// The program of a text of this many bytes, unless it has one of the faults that only the whole text shows.
    pub(crate) fn finish(self, alloc: Global, len: usize) -> Result<Program, ReadError>
        ensures { Finishes self.entry len result }
    {
        match self.sections.start {
            Some(start) => {
                if self.sections.rules {
                    self.into_program(alloc, start)
                } else {
                    Err(missing(len))
                }
            }
            None => Err(missing(len)),
        }
    }

    // The program, if its start symbol is the source of a rule.
    fn into_program(self, alloc: Global, start: Start<'a>) -> Result<Program, ReadError>
        ensures { Makes start.entry.name.now start.entry.at self.entry result }
    {
        match first_leaving(&self.rules, &self.symbols, start.name) {
            Some(first) => {
                let number = first.source;
                let start_names = left_names(alloc, first)?;
                let symbols = symbols_from(alloc, &self.symbols)?;
                Ok(Program {
                    symbols,
                    start: number,
                    start_names,
                    rules: self.rules,
                })
            }
            None => Err(Kind::StartUnknown.at(start.at).error()),
        }
    }
}
