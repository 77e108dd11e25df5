//! The faults of the pieces of a section.

ghost use Rattle.std.specs.Prelude.{◌≡◌, is_some};
ghost use Rattle.its_model.specs.Views.{program_of};
ghost use Rattle.its_model.specs.model.Programs.{rule_at};
ghost use Rattle.text_grammar.specs.text_core.Choices.{when as when_at};
ghost use Rattle.text_grammar.specs.Marks.{fault_of};
ghost use Rattle.section_text.specs.Faults as faults;
ghost use Rattle.section_text.specs.Views.{draft_of};

use crate::action::Role;
use crate::draft::{Draft, number_in};
use crate::kind::SectionKind;
use crate::names::{bytes_of, has_symbol};
use crate::piece::Piece;
use its_model::Program;
use linear_forms::CERTIFICATE_LIMIT;
use model::NAME_LIMIT;
use text_grammar::Fault;

/// The maximum number of copies of a section.
pub const COPY_LIMIT: usize = 2_000;
/// The maximum number of branches of a section.
pub const BRANCH_LIMIT: usize = 100_000;
/// The maximum level of cases; those of a line are at level 1.
pub const LEVEL_LIMIT: usize = 64;

// The kind, if a test passes.
fn when(test: bool, kind: SectionKind) -> Option<SectionKind>
    ensures { result ≡ when_at test kind }
{
    if test { Some(kind) } else { None }
}

// The fault of a number: it is over the limit.
fn fault_of_number(number: u128) -> Option<SectionKind>
    ensures { result ≡ faults.fault_of_number number }
{
    when(
        u128::from(CERTIFICATE_LIMIT) < number,
        SectionKind::NumberTooLarge,
    )
}

// The fault of the number of a rule: it is over the limit, or no rule has it.
fn fault_of_rule(program: &Program, number: u128) -> Option<SectionKind>
    ensures { result ≡ faults.fault_of_rule (program_of program.now) number }
{
    match fault_of_number(number) {
        Some(kind) => Some(kind),
        None => when(!has_rule(program, number), SectionKind::BadReference),
    }
}

// Whether there is a rule with this number.
fn has_rule(program: &Program, number: u128) -> bool
    ensures { result ≡ is_some (rule_at (program_of program.now) number) }
{
    number > 0 && number <= program.rules.len() as u128
}

// The fault of the name of a new copy: an earlier one has it, or it is too long.
fn fault_of_new_name(draft: &Draft<'_>, name: &[u8]) -> Option<SectionKind>
    ensures { result ≡ faults.fault_of_new_name name.now (draft_of draft.now) }
{
    if draft.names.has(name) {
        Some(SectionKind::BadReference)
    } else {
        when(NAME_LIMIT < name.len(), SectionKind::Limit)
    }
}

// The fault of the name of a copy: none has it.
fn fault_of_copy(draft: &Draft<'_>, name: &[u8]) -> Option<SectionKind>
    ensures { result ≡ faults.fault_of_copy name.now (draft_of draft.now) }
{
    when(!draft.names.has(name), SectionKind::BadReference)
}

// The fault of the name of a symbol: none has it.
fn fault_of_symbol(program: &Program, name: &[u8]) -> Option<SectionKind>
    ensures { result ≡ faults.fault_of_symbol name.now (program_of program.now) }
{
    when(
        !has_symbol(&program.symbols, name),
        SectionKind::BadReference,
    )
}

/// The fault of a piece in its role.
pub fn fault_of_piece(
    draft: &Draft<'_>,
    program: &Program,
    text: &[u8],
    piece: Piece,
) -> Option<SectionKind>
    ensures { result ≡ faults.fault_of_piece (program_of program.now) text.now piece (draft_of draft.now) }
{
    match draft.role {
        Role::Plain => None,
        Role::CopyWord => when(COPY_LIMIT <= draft.copies.len(), SectionKind::Limit),
        Role::BranchWord => when(BRANCH_LIMIT <= draft.branches.len(), SectionKind::Limit),
        Role::CaseWord => when(LEVEL_LIMIT <= draft.tests.len(), SectionKind::TooDeep),
        Role::NewName => fault_of_new_name(draft, bytes_of(text, piece)),
        Role::Symbol => fault_of_symbol(program, bytes_of(text, piece)),
        Role::Source | Role::Target => fault_of_copy(draft, bytes_of(text, piece)),
        Role::Rule => fault_of_rule(program, number_in(piece.sort)),
        Role::Integer | Role::Multiplier => fault_of_number(number_in(piece.sort)),
    }
}

/// The fault of a kind at a position, if there is one.
pub fn fault_at(kind: Option<SectionKind>, at: u64) -> Option<Fault<SectionKind>>
    ensures { fault_of result ≡ faults.kind_at kind at }
{
    match kind {
        Some(kind) => Some(Fault { kind, at }),
        None => None,
    }
}

/// The number of a kind: of two kinds at one position the one with the lesser number is reported.
pub fn number_of(kind: SectionKind) -> u32
    ensures { result ≡ faults.number_of kind }
{
    match kind {
        SectionKind::Syntax => 1,
        SectionKind::NumberTooLarge => 2,
        SectionKind::TooDeep => 3,
        SectionKind::BadReference => 4,
        SectionKind::Limit => 5,
    }
}
