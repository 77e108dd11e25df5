//! Reads a program from the bytes of its text.

ghost use Rattle.std.specs.Prelude.{◌≡◌, ◌-◌, Some, None, IfOk};
ghost use Rattle.its_model.specs.Valid.{IsValid};
ghost use Rattle.its_model.specs.Views.{program_of};
ghost use Rattle.its_text.specs.Answers.{verdict};
ghost use Rattle.its_text.specs.Verdicts.{IsOnlyVerdict};
ghost use Rattle.its_reader.specs.Faults.{fault_of, maybe_fault, Says};
ghost use Rattle.its_reader.specs.Views.{piece_of as plain_of, maybe_of, token_of};
ghost use Rattle.its_reader.specs.TokenSteps.{Judges, Advances, Turns, Closes, token_result_of, token_result};
ghost use Rattle.its_reader.specs.TokenSteps.{behind_token};
ghost use Rattle.its_reader.specs.TokenSteps.{is_final as plain_final, least_of};

use crate::break_kind_of::break_kind;
use crate::draft::Draft;
use crate::error::ReadError;
use crate::fault::{Fault, Kind};
use crate::lexer::Lexer;
use crate::lookahead::Lookahead;
use crate::parser_state::{ParserState, SectionState};
use crate::piece::{Piece, Token, piece_of};
use expr_reader::Piece as Inner;
use its_model::Program;
use model::Memory;
use std::alloc::Global;

/// The state of the parser, the last byte that was read, and the refusal so far.
#[derive(Clone, Copy)]
pub(crate) struct ReaderState {
    pub state: ParserState,
    pub last: usize,
    pub best: Option<Fault>,
}

/// The result of a token: the parser's next state, or the first refusal of the text.
#[derive(Clone, Copy)]
pub(crate) enum TokenStep {
    On(ReaderState),
    Over(Fault),
}

// The last byte of a token.
fn last_of(token: Token<'_>) -> usize
    ensures { result ≡ (token_of token.entry).upto - 1 }
{
    token.end.saturating_sub(1)
}

// The least number that a refusal shown after this token can have at the token's last byte.
fn least_behind(piece: Piece<'_>) -> u8
    ensures { result ≡ least_of (plain_of piece.entry) }
{
    match piece {
        Piece::Inner(Inner::Digits(_)) => 9,
        _ => 8,
    }
}

// Whether a refusal so far is the answer after a token that could follow: no later one can come before it.
fn is_final(fault: Fault, token: Token<'_>) -> bool
    ensures { result ≡ plain_final (fault_of fault) (token_of token.entry) }
{
    let last = last_of(token);
    let least = least_behind(token.piece);
    fault.at < last || (fault.at == last && fault.kind.number() <= least)
}

// The result of a token that can follow.
fn goes_on(best: Option<Fault>, state: ParserState, token: Token<'_>) -> TokenStep
    ensures { token_result_of result ≡ behind_token (maybe_fault best) state (token_of token.entry) }
{
    match best {
        Some(fault) => goes_on_or_ends(fault, state, token),
        None => TokenStep::On(ReaderState {
            state,
            last: last_of(token),
            best: None,
        }),
    }
}

fn goes_on_or_ends(fault: Fault, state: ParserState, token: Token<'_>) -> TokenStep
    ensures { token_result_of result ≡ behind_token (Some (fault_of fault)) state (token_of token.entry) }
{
    if is_final(fault, token) {
        TokenStep::Over(fault)
    } else {
        TokenStep::On(ReaderState {
            state,
            last: last_of(token),
            best: Some(fault),
        })
    }
}

// The result where the text breaks off at a token.
fn breaks_off(state: ParserState, best: Option<Fault>, token: Token<'_>) -> TokenStep
    ensures { token_result_of result ≡ token_result state (maybe_fault best) (token_of token.entry) None }
{
    let fault = break_kind(state, token.piece).at(token.at);
    TokenStep::Over(Fault::first_of(best, fault))
}

// The result of a token, depending on the state after it.
fn turned_by(
    state: ParserState,
    best: Option<Fault>,
    token: Token<'_>,
    reached: Option<ParserState>,
) -> TokenStep
    ensures { token_result_of result ≡ token_result state (maybe_fault best) (token_of token.entry) reached }
{
    match reached {
        Some(reached) => goes_on(best, reached, token),
        None => breaks_off(state, best, token),
    }
}

impl<'a> Draft<'a> {
    // Ends the parts that end before the next token, and returns the first of the refusal so far and the faults here.
    fn judge(
        &mut self,
        alloc: Global,
        stand: ReaderState,
        lookahead: Lookahead<'a>,
    ) -> Result<ReaderState, Memory>
        ensures { IfOk result (λ now. Judges stand.state stand.last (maybe_fault stand.best) self.old
            (maybe_of lookahead.entry.next) (maybe_of lookahead.entry.behind) lookahead.entry.at now.state
            (maybe_fault now.best) self.new) }
    {
        let part_ended = self.end_part(alloc, stand.state, lookahead.next)?;
        let ended = Fault::first_with(stand.best, part_ended.refusal, stand.last);
        let best = self.first_fault_ahead(ended, part_ended.state, lookahead);
        Ok(ReaderState {
            state: part_ended.state,
            last: stand.last,
            best,
        })
    }

    // The state after the next token. None where it can't follow.
    fn advance(
        &mut self,
        alloc: Global,
        state: ParserState,
        token: Token<'a>,
        behind: Option<Piece<'a>>,
    ) -> Result<Option<ParserState>, Memory>
        ensures { IfOk result (λ reached. Advances state self.old (token_of token.entry)
            (maybe_of behind.entry) reached self.new) }
    {
        match state {
            ParserState::InSections(section) => {
                Ok(self.advance_in_sections(alloc, section, token.piece, token.at))
            }
            ParserState::InLeft(left) => {
                let led = self.advance_in_left(left, token.piece)?;
                Ok(led)
            }
            ParserState::InCost(cost) => {
                let costed = self.advance_in_cost(alloc, cost, token.piece)?;
                Ok(costed)
            }
            ParserState::InRight(right) => {
                let aimed = self.advance_in_right(alloc, right, token.piece)?;
                Ok(aimed)
            }
            ParserState::InTail(tail) => {
                let guarded = self.advance_in_tail(alloc, tail, token.piece, behind)?;
                Ok(guarded)
            }
        }
    }

    // Reads one token.
    fn take(
        &mut self,
        alloc: Global,
        stand: ReaderState,
        token: Token<'a>,
        behind: Option<Piece<'a>>,
    ) -> Result<TokenStep, Memory>
        ensures { IfOk result (λ turn. Turns stand.state stand.last (maybe_fault stand.best) self.old
            (token_of token.entry) (maybe_of behind.entry) (token_result_of turn) self.new) }
    {
        let lookahead = Lookahead {
            next: Some(token.piece),
            behind,
            at: token.at,
        };
        let judged = self.judge(alloc, stand, lookahead)?;
        let reached = self.advance(alloc, judged.state, token, behind)?;
        Ok(turned_by(judged.state, judged.best, token, reached))
    }

    // The result at the end of a text of this many bytes.
    fn end(mut self, alloc: Global, stand: ReaderState, len: usize) -> Result<Program, ReadError>
        ensures { Closes stand.state stand.last (maybe_fault stand.best) self.entry len result }
    {
        let lookahead = Lookahead {
            next: None,
            behind: None,
            at: len,
        };
        let judged = self.judge(alloc, stand, lookahead)?;
        if !judged.state.is_between() {
            return Err(Fault::first_of(judged.best, Kind::Syntax.at(len)).error());
        }
        match judged.best {
            Some(fault) => Err(fault.error()),
            None => self.finish(alloc, len),
        }
    }
}

/// Reads the program that a text spells: `Ok` exactly if the bytes spell a program within the limits. The result is
/// that program, with numbered symbols and variables, and it is valid.
///
/// # Errors
///
/// The first fault of the text, with its position (a byte, counted from 0); of two faults at one byte, the one that
/// `ReadError` lists first. Each variant says when it comes and at which byte. `Memory` where memory ran out; that says
/// nothing about the text.
pub fn read(alloc: Global, bytes: &[u8]) -> Result<Program, ReadError>
    ensures says { Says (verdict bytes.now) result }
    ensures only { IsOnlyVerdict bytes.now (verdict bytes.now) }
    ensures valid { IfOk result (λ program. IsValid (program_of program)) }
{
    read_tokens(alloc, bytes)
}

// Reads the tokens of a text, one after the other.
fn read_tokens(alloc: Global, bytes: &[u8]) -> Result<Program, ReadError>
    ensures { Says (verdict bytes.now) result }
{
    let mut draft = Draft::new(alloc);
    let mut lexer = Lexer::new(bytes);
    let mut stand = ReaderState {
        state: ParserState::InSections(SectionState::Between),
        last: 0,
        best: None,
    };
    let mut next = lexer.next();
    let mut behind = lexer.next();
    while let Some(token) = next {
        let turn = draft.take(alloc, stand, token, piece_of(behind))?;
        match turn {
            TokenStep::On(reached) => stand = reached,
            TokenStep::Over(fault) => return Err(fault.error()),
        }
        let more = lexer.next();
        next = behind;
        behind = more;
    }
    draft.end(alloc, stand, bytes.len())
}
