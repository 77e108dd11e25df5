//! The faults at the next token after a target.

ghost use Rattle.std.specs.Prelude.{◌≡◌, ◌&&◌, suc, nat_le, length};
ghost use Rattle.model.specs.Limits.{rule_limit};
ghost use Rattle.text_core.specs.Reading.{first_among};
ghost use Rattle.expr_reader.specs.GuardParts.{piece_in, is_wanting};
ghost use Rattle.its_text.specs.Grammar.{programs};
ghost use Rattle.its_text.specs.StateFaults.{begins, is_word as is_word_next, is_open as is_open_next};
ghost use Rattle.its_reader.specs.Views.{maybe_of};
ghost use Rattle.its_reader.specs.Faults.{maybe_fault};
ghost use Rattle.its_reader.specs.Tests.{inner_next};
ghost use Rattle.its_reader.specs.FaultTests.{rule_faults, next_rule_faults, mark_faults, behind_atoms_faults};
ghost use Rattle.its_reader.specs.FaultTests.{guard_faults};
ghost use Rattle.its_reader.specs.FaultTests.{atom_faults, another_atom_faults, atoms_full as plain_full, truth_in};
ghost use Rattle.its_reader.specs.FaultTests.{tail_faults};

use crate::draft::{Draft, RuleDraft};
use crate::error::LimitKind;
use crate::fault::{Fault, Kind};
use crate::lookahead::{Lookahead, first_with_long_name, is_name};
use crate::lookahead_right::begins_expression;
use crate::parser_state::{GuardOpening, TailState};
use crate::piece::{Piece, inner_of, is_open_bracket_next};
use expr_reader::{GuardState, Piece as Inner};
use model::RULE_LIMIT;

impl<'a> Draft<'a> {
    /// The first of a fault so far and those at the next token after a target.
    pub(crate) fn first_fault_in_tail(
        &self,
        best: Option<Fault>,
        state: TailState,
        lookahead: Lookahead<'a>,
    ) -> Option<Fault>
        ensures { maybe_fault result ≡ first_among programs (maybe_fault best)
            (tail_faults state self.now lookahead.entry.at (maybe_of lookahead.entry.next)
            (maybe_of lookahead.entry.behind)) }
    {
        match state {
            TailState::Targeted => self.first_fault_of_named_rule(best, lookahead),
            TailState::GuardMarked => {
                let begins = begins_source(lookahead);
                self.first_fault_behind_mark(best, begins, lookahead)
            }
            TailState::SquareOpened => self.rule.first_fault_of_atom(best, lookahead),
            TailState::Guarding(opening) => {
                let read = self.rule.has_read_atom();
                self.first_fault_in_guard(best, read, opening, lookahead)
            }
        }
    }

    // The fault of a next token that begins a rule after 1,000 others.
    fn first_fault_of_rule(&self, best: Option<Fault>, lookahead: Lookahead<'a>) -> Option<Fault>
        ensures { maybe_fault result ≡ first_among programs (maybe_fault best) (rule_faults self.now lookahead.entry.at
            (maybe_of lookahead.entry.next)) }
    {
        let full = self.exceeds_rule_limit(lookahead.next);
        Fault::first_where(best, full, Kind::Limit(LimitKind::Rules), lookahead.at)
    }

    // Whether a rule begins although there are as many as the limit allows, with the one that is being read.
    fn exceeds_rule_limit(&self, next: Option<Piece<'a>>) -> bool
        ensures { result ≡ (is_word_next (maybe_of next.entry) && nat_le rule_limit (suc
            (length self.now.rules.items))) }
    {
        is_name(next) && is_last_rule(self.rules.len())
    }

    // The fault of a rule too many, and that of a name that is too long.
    fn first_fault_of_named_rule(
        &self,
        best: Option<Fault>,
        lookahead: Lookahead<'a>,
    ) -> Option<Fault>
        ensures { maybe_fault result ≡ first_among programs (maybe_fault best)
            (next_rule_faults self.now lookahead.entry.at (maybe_of lookahead.entry.next)) }
    {
        let first = self.first_fault_of_rule(best, lookahead);
        first_with_long_name(first, lookahead)
    }

    // The faults of a token after `:|:`, which begins a rule or an atom.
    fn first_fault_behind_mark(
        &self,
        best: Option<Fault>,
        begins: bool,
        lookahead: Lookahead<'a>,
    ) -> Option<Fault>
        ensures { maybe_fault result ≡ first_among programs (maybe_fault best)
            (mark_faults begins self.now lookahead.entry.at (maybe_of lookahead.entry.next)
            (maybe_of lookahead.entry.behind)) }
    {
        if begins {
            self.first_fault_of_named_rule(best, lookahead)
        } else {
            self.rule.first_fault_of_atom(best, lookahead)
        }
    }

    // The faults of a token in a guard, of which an atom may have been read whole.
    fn first_fault_in_guard(
        &self,
        best: Option<Fault>,
        read: bool,
        opening: GuardOpening,
        lookahead: Lookahead<'a>,
    ) -> Option<Fault>
        ensures { maybe_fault result ≡ first_among programs (maybe_fault best)
            (guard_faults read opening self.now lookahead.entry.at (maybe_of lookahead.entry.next)
            (maybe_of lookahead.entry.behind)) }
    {
        if read {
            self.first_fault_behind_atoms(best, opening, lookahead)
        } else {
            self.rule.first_fault_of_another_atom(best, lookahead)
        }
    }

    // The faults after atoms that have ended.
    fn first_fault_behind_atoms(
        &self,
        best: Option<Fault>,
        opening: GuardOpening,
        lookahead: Lookahead<'a>,
    ) -> Option<Fault>
        ensures { maybe_fault result ≡ first_among programs (maybe_fault best)
            (behind_atoms_faults opening self.now lookahead.entry.at (maybe_of lookahead.entry.next)) }
    {
        match opening {
            GuardOpening::Mark => self.first_fault_of_named_rule(best, lookahead),
            GuardOpening::Square => first_with_long_name(best, lookahead),
        }
    }
}

// Whether one more rule makes as many as the limit allows.
fn is_last_rule(rules: usize) -> bool
    ensures { result ≡ nat_le rule_limit (suc rules) }
{
    rules >= RULE_LIMIT - 1
}

// Whether a name is next, and a bracket opens after it.
fn begins_source(lookahead: Lookahead<'_>) -> bool
    ensures { result ≡ (is_word_next (maybe_of lookahead.entry.next)
        && is_open_next (maybe_of lookahead.entry.behind)) }
{
    is_name(lookahead.next) && is_open_bracket_next(lookahead.behind)
}

impl<'a> RuleDraft<'a> {
    // The faults of a token that begins or continues an atom.
    fn first_fault_of_another_atom(
        &self,
        best: Option<Fault>,
        lookahead: Lookahead<'a>,
    ) -> Option<Fault>
        ensures { maybe_fault result ≡ first_among programs (maybe_fault best)
            (another_atom_faults self.now lookahead.entry.at (maybe_of lookahead.entry.next)
            (maybe_of lookahead.entry.behind)) }
    {
        let full = self.exceeds_atom_limit(lookahead.next);
        let first = Fault::first_where(best, full, Kind::Limit(LimitKind::Atoms), lookahead.at);
        self.first_fault_of_atom(first, lookahead)
    }

    // Whether an atom begins although there are as many as the limit allows.
    fn exceeds_atom_limit(&self, next: Option<Piece<'a>>) -> bool
        ensures { result ≡ plain_full self.now (maybe_of next.entry) }
    {
        self.wants_atom() && self.has_atoms() && begins_expression(next)
    }

    // Whether an atom must follow.
    fn wants_atom(&self) -> bool
        ensures { result ≡ is_wanting self.now.guard.state }
    {
        self.guard.state == GuardState::AtomWanted
    }

    // The faults of a token that continues an atom.
    fn first_fault_of_atom(&self, best: Option<Fault>, lookahead: Lookahead<'a>) -> Option<Fault>
        ensures { maybe_fault result ≡ first_among programs (maybe_fault best) (atom_faults self.now lookahead.entry.at
            (maybe_of lookahead.entry.next) (maybe_of lookahead.entry.behind)) }
    {
        let first = first_with_long_name(best, lookahead);
        let next = inner_of(lookahead.next);
        let behind = inner_of(lookahead.behind);
        let truth = self.begins_truth(next, behind);
        self.first_fault_going_on(first, &self.guard.expression, truth, lookahead)
    }

    // Whether the next token is the atom that always holds.
    fn begins_truth(&self, next: Option<Inner<'a>>, behind: Option<Inner<'a>>) -> bool
        ensures { result ≡ truth_in self.now.guard (piece_in next.entry) (piece_in behind.entry) }
    {
        match next {
            Some(piece) => self.guard.reads_truth(piece, behind),
            None => false,
        }
    }
}
