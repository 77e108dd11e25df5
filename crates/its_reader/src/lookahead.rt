//! The faults at the next token.

ghost use Rattle.std.specs.Prelude.{◌≡◌, ◌++◌, ◌&&◌, nat_le, length};
ghost use Rattle.model.specs.Limits.{rule_limit, place_limit};
ghost use Rattle.expr_reader.specs.Variables.{names_in};
ghost use Rattle.text_core.specs.Reading.{first_among};
ghost use Rattle.its_text.specs.Grammar.{programs};
ghost use Rattle.its_text.specs.Kinds as kinds;
ghost use Rattle.its_text.specs.StateFaults.{fault_if, long_name, is_word as is_word_next};
ghost use Rattle.its_text.specs.StateFaults.{is_operator as is_operator_next};
ghost use Rattle.its_reader.specs.Views.{maybe_of, words_of};
ghost use Rattle.its_reader.specs.Faults.{maybe_fault};
ghost use Rattle.its_reader.specs.FaultTests.{is_long as is_long_name, has_word, has_worded, repeats_in, is_after_rule};
ghost use Rattle.its_reader.specs.FaultTests.{left_faults};
ghost use Rattle.its_reader.specs.FaultTests.{wanted_faults, left_argument_name_faults, argument_name_faults};
ghost use Rattle.its_reader.specs.FaultTests.{state_faults};

use crate::draft::{Draft, RuleDraft, Sections};
use crate::error::LimitKind;
use crate::fault::{Fault, Kind};
use crate::parser_state::{ParserState, SectionState, SourceState};
use crate::piece::{Piece, is_open_bracket_next, word_of};
use model::{NAME_LIMIT, PLACE_LIMIT, RULE_LIMIT};

/// The next piece, the one after it, and the position of the next one.
#[derive(Clone, Copy)]
pub(crate) struct Lookahead<'a> {
    pub next: Option<Piece<'a>>,
    pub behind: Option<Piece<'a>>,
    pub at: usize,
}

/// The first of a fault so far and the fault of a name that is too long.
pub(crate) fn first_with_long_name<'a>(
    best: Option<Fault>,
    lookahead: Lookahead<'a>,
) -> Option<Fault>
    ensures { maybe_fault result ≡ first_among programs (maybe_fault best) (fault_if (long_name
        (maybe_of lookahead.entry.next)) (kinds.Limit kinds.LongName) lookahead.entry.at) }
{
    Fault::first_where(
        best,
        is_long(word_of(lookahead.next)),
        Kind::Limit(LimitKind::Name),
        lookahead.at,
    )
}

fn is_long(name: Option<&[u8]>) -> bool
    ensures { result ≡ is_long_name (words_of name.entry) }
{
    match name {
        Some(name) => name.len() > NAME_LIMIT,
        None => false,
    }
}

impl<'a> Draft<'a> {
    /// The first of a fault so far and those at the next token.
    pub(crate) fn first_fault_ahead(
        &self,
        best: Option<Fault>,
        state: ParserState,
        lookahead: Lookahead<'a>,
    ) -> Option<Fault>
        ensures { maybe_fault result ≡ first_among programs (maybe_fault best)
            (state_faults state self.now lookahead.entry.at (maybe_of lookahead.entry.next)
            (maybe_of lookahead.entry.behind)) }
    {
        match state {
            ParserState::InSections(state) => self
                .sections
                .first_fault_ahead(best, state, lookahead),
            ParserState::InLeft(state) => self.first_fault_in_left(best, state, lookahead),
            ParserState::InCost(state) => self.rule.first_fault_in_cost(best, state, lookahead),
            ParserState::InRight(state) => self.rule.first_fault_in_right(best, state, lookahead),
            ParserState::InTail(state) => self.first_fault_in_tail(best, state, lookahead),
        }
    }

    // The first of a fault so far and those of a left term.
    fn first_fault_in_left(
        &self,
        best: Option<Fault>,
        state: SourceState,
        lookahead: Lookahead<'a>,
    ) -> Option<Fault>
        ensures { maybe_fault result ≡ first_among programs (maybe_fault best)
            (left_faults state self.now lookahead.entry.at (maybe_of lookahead.entry.next)
            (maybe_of lookahead.entry.behind)) }
    {
        let full = self.begins_too_many(state, lookahead.next);
        let ruled = Fault::first_where(best, full, Kind::Limit(LimitKind::Rules), lookahead.at);
        let wanted = self
            .rule
            .first_fault_of_wanted(ruled, state.wants_argument(), lookahead);
        first_with_long_name(wanted, lookahead)
    }

    // Whether a rule begins although there are as many as the limit allows.
    fn begins_too_many(&self, state: SourceState, next: Option<Piece<'a>>) -> bool
        ensures { result ≡ (is_after_rule state && (is_word_next (maybe_of next.entry) && nat_le rule_limit
            (length self.now.rules.items))) }
    {
        state.is_after_rule() && (is_name(next) && self.rules.len() >= RULE_LIMIT)
    }
}

/// Whether the piece is a name.
pub(crate) fn is_name(piece: Option<Piece<'_>>) -> bool
    ensures { result ≡ is_word_next (maybe_of piece.entry) }
{
    match piece {
        Some(piece) => piece.is_name(),
        None => false,
    }
}

impl<'a> Sections<'a> {
    // The first of a fault so far and those at a token between or within sections.
    fn first_fault_ahead(
        self,
        best: Option<Fault>,
        state: SectionState,
        lookahead: Lookahead<'a>,
    ) -> Option<Fault>
        ensures { maybe_fault result ≡ first_among programs (maybe_fault best) (fault_if
            (repeats_in state self.entry (maybe_of lookahead.entry.next)
            (maybe_of lookahead.entry.behind)) kinds.RepeatedSection lookahead.entry.at
            ++ fault_if (long_name (maybe_of lookahead.entry.next)) (kinds.Limit kinds.LongName) lookahead.entry.at) }
    {
        let best = Fault::first_where(
            best,
            self.repeats(state, lookahead),
            Kind::RepeatedSection,
            lookahead.at,
        );
        first_with_long_name(best, lookahead)
    }

    // Whether a section begins although there is one of its kind already.
    fn repeats(self, state: SectionState, lookahead: Lookahead<'a>) -> bool
        ensures { result ≡ repeats_in state self.entry
            (maybe_of lookahead.entry.next) (maybe_of lookahead.entry.behind) }
    {
        match state {
            SectionState::Between => is_open_bracket_next(lookahead.next)
                && self.has_named(word_of(lookahead.behind)),
            _ => false,
        }
    }

    fn has_named(self, name: Option<&[u8]>) -> bool
        ensures { result ≡ has_worded self.entry (words_of name.entry) }
    {
        match name {
            Some(name) => self.has(name),
            None => false,
        }
    }

    fn has(self, name: &[u8]) -> bool
        ensures { result ≡ has_word self.entry name.now }
    {
        (name == b"GOAL".as_slice() && self.goal)
            || (name == b"STARTTERM".as_slice() && self.start.is_some())
            || (name == b"VAR".as_slice() && self.variables)
            || (name == b"RULES".as_slice() && self.rules)
    }
}

impl<'a> RuleDraft<'a> {
    // The first of a fault so far and those at a token where a left argument must follow.
    fn first_fault_of_wanted(
        &self,
        best: Option<Fault>,
        wanted: bool,
        lookahead: Lookahead<'a>,
    ) -> Option<Fault>
        ensures { maybe_fault result ≡ first_among programs (maybe_fault best)
            (wanted_faults wanted self.now lookahead.entry.at (maybe_of lookahead.entry.next)
            (maybe_of lookahead.entry.behind)) }
    {
        if wanted {
            self.first_fault_of_argument(best, word_of(lookahead.next), lookahead)
        } else {
            best
        }
    }

    fn first_fault_of_argument(
        &self,
        best: Option<Fault>,
        name: Option<&'a [u8]>,
        lookahead: Lookahead<'a>,
    ) -> Option<Fault>
        ensures { maybe_fault result ≡ first_among programs (maybe_fault best)
            (left_argument_name_faults self.now lookahead.entry.at (words_of name.entry)
            (maybe_of lookahead.entry.behind)) }
    {
        match name {
            Some(name) => self.first_fault_of_left_name(best, name, lookahead),
            None => best,
        }
    }

    fn first_fault_of_left_name(
        &self,
        best: Option<Fault>,
        name: &'a [u8],
        lookahead: Lookahead<'a>,
    ) -> Option<Fault>
        ensures { maybe_fault result ≡ first_among programs (maybe_fault best)
            (argument_name_faults self.now lookahead.entry.at name.now (maybe_of lookahead.entry.behind)) }
    {
        let at = lookahead.at;
        let operates = is_operator(lookahead.behind);
        let operated = Fault::first_where(best, operates, Kind::LeftNotVariable, at);
        let named = self.variables.has(name);
        let repeated = Fault::first_where(operated, named, Kind::LeftRepeated, at);
        let full = self.has_places();
        Fault::first_where(repeated, full, Kind::Limit(LimitKind::Arity), at)
    }

    // Whether there are as many left arguments as the limit allows.
    fn has_places(&self) -> bool
        ensures { result ≡ nat_le place_limit (length (names_in self.now.variables)) }
    {
        self.variables.count() >= PLACE_LIMIT
    }
}

// Whether an operator follows.
fn is_operator(piece: Option<Piece<'_>>) -> bool
    ensures { result ≡ is_operator_next (maybe_of piece.entry) }
{
    match piece {
        Some(piece) => piece.is_operator(),
        None => false,
    }
}
