//! While programs as texts of their grammar.

ghost use Rattle.std.specs.Prelude.{◌≡◌, ◌||◌, ◌-◌, if◌then◌else◌, is_some, List, ℕ, ◌∷◌, None, Option, IfOk, OnOk};
ghost use Rattle.text_grammar.specs.Grammars.{Event, Read};
ghost use Rattle.text_grammar.specs.Marks.{fault_of, token_of};
ghost use Rattle.text_grammar.specs.Following.{first_of_two};
ghost use Rattle.text_grammar.specs.Texts.{first_shown};
ghost use Rattle.while_text.specs.declared.phase.Standing.TheVariants as standings;
ghost use Rattle.while_text.specs.Faults as faults;
ghost use Rattle.while_text.specs.Reading as reading;
ghost use Rattle.while_text.specs.Reading.{Source};
ghost use Rattle.while_text.specs.Views.{course_of, draft_of, source_of, state_of};

use crate::course::{Course, is_in_test};
use crate::draft::Draft;
use crate::faults::{fault_at, fault_of_first, fault_of_rules, first_fault, number_of};
use crate::kind::Kind;
use crate::phase::Standing;
use crate::piece::{Piece, Sort};
use crate::sorts::class_of;
use std::alloc::{AllocError, Global};
use text_grammar::{Fault, Text, Token};
use while_tree::Whole;

/// A while program, as far as it has been read.
#[derive(Drop)]
pub struct WhileReading<'a> {
    alloc: Global,
    text: &'a [u8],
    pub(crate) course: Course,
    pub(crate) draft: Draft,
    pub(crate) standing: Standing,
}

// Whether the text has had a fault, after a token that has one or not, within a test or not.
fn standing_after(standing: Standing, fault: bool, in_test: bool) -> Standing
    ensures { result ≡ reading.standing_after standing fault in_test }
{
    match standing {
        Standing::Sound if !fault => Standing::Sound,
        Standing::Settled => Standing::Settled,
        _ if in_test => Standing::Faulty,
        _ => Standing::Settled,
    }
}

// The first of the faults of a token: the one at its first byte, the one at its last byte, and that of too many rules.
fn first_of_three(
    first: Option<Fault<Kind>>,
    last: Option<Fault<Kind>>,
    rules: Option<Fault<Kind>>,
) -> Option<Fault<Kind>>
    ensures { (text : List ℕ) → fault_of result ≡ first_of_two (reading.while_text text)
        (first_of_two (reading.while_text text) (fault_of first) (fault_of last)) (fault_of rules) }
{
    first_fault(first_fault(first, last), rules)
}

impl<'a> WhileReading<'a> {
    /// The state before the first token.
    pub fn new(alloc: Global, text: &'a [u8]) -> WhileReading<'a>
        ensures text { result.text.now ≡ text.now }
        ensures begun { state_of result ≡ reading.begun }
    {
        WhileReading {
            alloc,
            text,
            course: Course::new(),
            draft: Draft::new(alloc),
            standing: Standing::Sound,
        }
    }

    // Reads a token of a text that has had no fault.
    fn take_sound(&mut self, token: Token<Piece>) -> Result<Option<Fault<Kind>>, AllocError>
        requires { self.old.standing ≡ standings.Sound }
        ensures text { self.new.text.now ≡ self.old.text.now }
        ensures read { OnOk result (state_of self.new
            ≡ reading.read self.old.text.now token.piece (state_of self.old)) }
        ensures shown { IfOk result (λ shown. (text : List ℕ)
            → fault_of shown ≡ first_of_two (reading.while_text text)
            (first_of_two (reading.while_text text)
            (faults.fault_at (faults.fault_of_first self.old.text.now token.piece (course_of self.old.course) (draft_of self.old.draft)) token.at)
            (faults.fault_at (faults.fault_of_last self.old.text.now token.piece (course_of self.old.course) (draft_of self.old.draft)) (token.upto - 1)))
            (faults.fault_at (faults.fault_of_rules token.piece (course_of self.old.course)) self.old.course.at)) }
    {
        let course = self.course;
        let first = fault_of_first(self.text, token.piece, &course, &self.draft);
        let rules = fault_of_rules(token.piece, &course);
        let last = self.draft.take(self.alloc, self.text, token.piece, course)?;
        let fault = first.is_some() || (last.is_some() || rules.is_some());
        self.course = course.after(token.piece);
        self.standing = standing_after(Standing::Sound, fault, is_in_test(self.course.phase));
        let first = fault_at(first, token.at);
        let last = fault_at(last, token.upto.saturating_sub(1));
        let rules = fault_at(rules, course.at);
        Ok(first_of_three(first, last, rules))
    }

    // Reads a token in a test that has had a fault.
    fn take_faulty(&mut self, token: Token<Piece>) -> Option<Fault<Kind>>
        requires { self.old.standing ≡ standings.Faulty }
        ensures text { self.new.text.now ≡ self.old.text.now }
        ensures read { state_of self.new ≡ reading.read self.old.text.now token.piece (state_of self.old) }
        ensures shown { fault_of result
            ≡ faults.fault_at (faults.fault_of_rules token.piece (course_of self.old.course)) self.old.course.at }
    {
        let course = self.course;
        self.course = course.after(token.piece);
        self.standing = standing_after(Standing::Faulty, true, is_in_test(self.course.phase));
        fault_at(fault_of_rules(token.piece, &course), course.at)
    }

    // Reads a token of a text whose first fault is certain; no later fault is reported.
    fn take_settled(&mut self, token: Token<Piece>)
        requires { self.old.standing ≡ standings.Settled }
        ensures text { self.new.text.now ≡ self.old.text.now }
        ensures read { state_of self.new ≡ reading.read self.old.text.now token.piece (state_of self.old) }
    {
        self.course = self.course.after(token.piece);
    }

    // Reads a token, and returns its fault.
    fn take_token(&mut self, token: Token<Piece>) -> Result<Option<Fault<Kind>>, AllocError>
        ensures text { self.new.text.now ≡ self.old.text.now }
        ensures read { OnOk result (state_of self.new
            ≡ reading.read self.old.text.now token.piece (state_of self.old)) }
        ensures shown { IfOk result (λ shown. (text : List ℕ)
            → fault_of shown ≡ first_shown (reading.while_text text) None
            (reading.faults_of self.old.standing self.old.text.now (state_of self.old) (token_of token))) }
    {
        match self.standing {
            Standing::Sound => self.take_sound(token),
            Standing::Faulty => Ok(self.take_faulty(token)),
            Standing::Settled => {
                self.take_settled(token);
                Ok(None)
            }
        }
    }
}

impl<'a> Text for WhileReading<'a> {
    type Piece = Piece;

    type Kind = Kind;

    type Made = Whole;

    ghost Tree = { Source };

    ghost text_of = { λ s. reading.while_text s.text.now };

    ghost Knows = { λ s es. state_of s ≡ reading.state s.text.now es };

    ghost Makes = { λ made t. source_of made ≡ t };

    fn class(&self, piece: Piece) -> u32 {
        class_of(piece.sort)
    }

    fn did(&mut self, mark: u32) -> Result<(), AllocError> {
        let _mark = mark;
        Ok(())
    }

    fn take(&mut self, token: Token<Piece>) -> Result<Option<Fault<Kind>>, AllocError>
        ensures same { reading.while_text self.new.text.now ≡ reading.while_text self.old.text.now }
        ensures known { OnOk result ((es : List (Event Piece))
            → state_of self.old ≡ reading.state self.old.text.now es
            → state_of self.new ≡ reading.state self.new.text.now (Read token.piece ∷ es)) }
        ensures shown { IfOk result (λ shown. (es : List (Event Piece))
            → state_of self.old ≡ reading.state self.old.text.now es
            → fault_of shown ≡ first_shown (reading.while_text self.old.text.now) None
            ((reading.while_text self.old.text.now).faults es (token_of token))) }
    {
        self.take_token(token)
    }

    fn floor(&self, at: u64) -> u64 {
        match self.standing {
            Standing::Settled => at,
            Standing::Sound | Standing::Faulty => 0,
        }
    }

    fn number(&self, kind: Kind) -> u32 {
        number_of(kind)
    }

    fn stop_kind(&self, piece: Option<Piece>) -> Kind
        ensures { result ≡ reading.stop_kind piece }
    {
        match piece {
            Some(piece) => off_sort(piece.sort),
            None => Kind::Syntax,
        }
    }

    fn finish(self) -> Result<Whole, AllocError> {
        let draft = self.draft;
        Ok(Whole {
            names: draft.names,
            body: draft.body,
            at: draft.positions,
        })
    }
}

// The kind of refusal for a token that can't follow.
fn off_sort(sort: Sort) -> Kind
    ensures { result ≡ reading.off_sort sort }
{
    match sort {
        Sort::Strange => Kind::NotAscii,
        _ => Kind::Syntax,
    }
}
