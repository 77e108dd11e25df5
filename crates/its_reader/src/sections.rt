//! The steps of parsing outside rules.

ghost use Rattle.std.specs.Prelude.{◌≡◌, Some, None, if◌then◌else◌, codes};
ghost use Rattle.its_reader.specs.Views.{piece_of as plain_of};
ghost use Rattle.its_reader.specs.StateSteps.{SectionLeads, StartLeads, IsOther};

use crate::draft::{Draft, Start};
use crate::parser_state::{ParserState, SectionState, SourceState};
use crate::piece::Piece;
use std::alloc::Global;

// A state outside rules, if a test passes.
fn leads_if(test: bool, behind: SectionState) -> Option<ParserState>
    ensures { result ≡ (if test then Some (ParserState.InSections behind) else None) }
{
    if test {
        Some(ParserState::InSections(behind))
    } else {
        None
    }
}

impl<'a> Draft<'a> {
    /// The state after a piece outside rules, at this position. None where the piece can't follow.
    pub(crate) fn advance_in_sections(
        &mut self,
        alloc: Global,
        state: SectionState,
        piece: Piece<'a>,
        at: usize,
    ) -> Option<ParserState>
        ensures { StartLeads state self.old (plain_of piece.entry) at result self.new }
    {
        match state {
            SectionState::Between => leads_if(piece.is_open_bracket(), SectionState::Opened),
            SectionState::Opened => self.begin_section(alloc, piece),
            SectionState::GoalNamed => leads_if(
                piece.is_word(b"COMPLEXITY"),
                SectionState::GoalRead,
            ),
            SectionState::GoalRead => self.end_goal(piece),
            SectionState::StartNamed => leads_if(
                piece.is_open_bracket(),
                SectionState::StartOpened,
            ),
            SectionState::StartOpened => {
                leads_if(piece.is_word(b"FUNCTIONSYMBOLS"), SectionState::StartListed)
            }
            SectionState::StartListed => self.name_start(piece, at),
            SectionState::StartRead => leads_if(
                piece.is_close_bracket(),
                SectionState::StartClosed,
            ),
            SectionState::StartClosed => leads_if(piece.is_close_bracket(), SectionState::Between),
            SectionState::Listing => self.list_variable(piece),
            SectionState::CommentNamed => leads_if(piece.is_comment(), SectionState::Between),
        }
    }

    // Reads the keyword of a section.
    fn begin_section(&mut self, alloc: Global, piece: Piece<'a>) -> Option<ParserState>
        ensures { SectionLeads SectionState.Opened self.old (plain_of piece.entry) result self.new }
    {
        if piece.is_word(b"GOAL") {
            Some(ParserState::InSections(SectionState::GoalNamed))
        } else {
            self.begin_another(alloc, piece)
        }
    }

    // Reads a keyword other than `GOAL`.
    fn begin_another(&mut self, alloc: Global, piece: Piece<'a>) -> Option<ParserState>
        ensures { IsOther (codes "GOAL") (plain_of piece.entry)
            → SectionLeads SectionState.Opened self.old (plain_of piece.entry) result self.new }
    {
        if piece.is_word(b"STARTTERM") {
            Some(ParserState::InSections(SectionState::StartNamed))
        } else {
            self.begin_list(alloc, piece)
        }
    }

    // Reads a keyword other than `GOAL` and `STARTTERM`.
    fn begin_list(&mut self, alloc: Global, piece: Piece<'a>) -> Option<ParserState>
        ensures { IsOther (codes "GOAL") (plain_of piece.entry)
            → IsOther (codes "STARTTERM") (plain_of piece.entry)
            → SectionLeads SectionState.Opened self.old (plain_of piece.entry) result self.new }
    {
        if piece.is_word(b"VAR") {
            Some(ParserState::InSections(SectionState::Listing))
        } else {
            self.begin_last(alloc, piece)
        }
    }

    // Reads `RULES` or `COMMENT`.
    fn begin_last(&mut self, alloc: Global, piece: Piece<'a>) -> Option<ParserState>
        ensures { IsOther (codes "GOAL") (plain_of piece.entry)
            → IsOther (codes "STARTTERM") (plain_of piece.entry) → IsOther (codes "VAR") (plain_of piece.entry)
            → SectionLeads SectionState.Opened self.old (plain_of piece.entry) result self.new }
    {
        if piece.is_word(b"RULES") {
            self.begin_rules(alloc);
            Some(ParserState::InLeft(SourceState::AfterRule))
        } else {
            leads_if(piece.is_word(b"COMMENT"), SectionState::CommentNamed)
        }
    }

    fn end_goal(&mut self, piece: Piece<'a>) -> Option<ParserState>
        ensures { SectionLeads SectionState.GoalRead self.old (plain_of piece.entry) result self.new }
    {
        if piece.is_close_bracket() {
            self.sections.goal = true;
            Some(ParserState::InSections(SectionState::Between))
        } else {
            None
        }
    }

    fn name_start(&mut self, piece: Piece<'a>, at: usize) -> Option<ParserState>
        ensures { StartLeads SectionState.StartListed self.old (plain_of piece.entry) at result self.new }
    {
        match piece.word() {
            Some(name) => {
                self.sections.start = Some(Start { name, at });
                Some(ParserState::InSections(SectionState::StartRead))
            }
            None => None,
        }
    }

    // Reads a name, or the end of the section.
    fn list_variable(&mut self, piece: Piece<'a>) -> Option<ParserState>
        ensures { SectionLeads SectionState.Listing self.old (plain_of piece.entry) result self.new }
    {
        if piece.is_close_bracket() {
            self.sections.variables = true;
            Some(ParserState::InSections(SectionState::Between))
        } else {
            match piece.word() {
                Some(_) => Some(ParserState::InSections(SectionState::Listing)),
                None => None,
            }
        }
    }
}
