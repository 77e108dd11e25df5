//! Reads the bound that pieces spell.

ghost use Rattle.std.specs.Prelude.{◌≡◌, IfOk, Some};
ghost use Rattle.std.specs.Option.{option_map};
ghost use Rattle.bound_text.specs.Checks.{caret_next};
ghost use Rattle.text_grammar.specs.Marks.{refusal_of};
ghost use Rattle.cert_lexer.specs.Bounds.{answer_alone, answer_of, bound_answer, pieces_in, refused_at};
ghost use Rattle.cert_lexer.specs.Bounds.{is_before, kind_from as told_by, refusal_with};
ghost use Rattle.cert_lexer.specs.Packed.{inners_in};
ghost use Rattle.cert_lexer.specs.declared.kind.ProofKind.TheVariants.{TooDeep};

use crate::follower::deep_part;
use crate::inner::BoundRead;
use crate::kind::ProofKind;
use crate::packed::PackedRest;
use bound_text::{Fault as BoundFault, Piece as BoundPiece, Reader};
use std::alloc::{AllocError, Global};
use text_grammar::Fault;

/// The greatest number of levels of a bound inside a proof file.
pub const BOUND_LEVELS: u64 = 200;

/// Reads the bound that pieces spell, over this many start arguments.
///
/// The first refusal is that at the least piece, and at one piece the one of the kind that comes first. A part is too
/// deep at the piece with which it begins, in the tree as far as it was read.
///
/// # Errors
///
/// `AllocError` where an allocation fails.
pub fn read_bound(
    alloc: Global,
    names: usize,
    pieces: PackedRest<'_>,
) -> Result<BoundRead, AllocError>
    ensures { IfOk result (λ read. answer_of read ≡ bound_answer names (inners_in pieces.entry)) }
{
    let read = read_alone(alloc, names, pieces)?;
    match read {
        BoundRead::Parsed(bound) => Ok(BoundRead::Parsed(bound)),
        BoundRead::Refused(fault) => {
            let deep = deep_part(alloc, pieces)?;
            Ok(BoundRead::Refused(first_with_deep(fault, deep)))
        }
    }
}

// Reads the bound as a text of its own. Since it stops at the first refusal, the tree has at most about 4,097 nodes and
// 201 levels.
fn read_alone(alloc: Global, names: usize, pieces: PackedRest<'_>) -> Result<BoundRead, AllocError>
    ensures { IfOk result (λ read. answer_of read ≡ answer_alone names (inners_in pieces.entry)) }
{
    let mut reader = Reader::new(alloc);
    let mut rest = pieces;
    while let Some((inner, behind)) = rest.split_first() {
        let at = (pieces.len() - rest.len()) as u64;
        let caret = is_caret_next(behind);
        if let Err(fault) = reader.take(alloc, names, caret, inner.piece) {
            return refused(fault, at);
        }
        rest = behind;
    }
    match reader.finish() {
        Ok(bound) => Ok(BoundRead::Parsed(bound)),
        Err(fault) => refused(fault, pieces.len() as u64),
    }
}

// The refusal at a position, unless memory ran out.
fn refused(fault: BoundFault, at: u64) -> Result<BoundRead, AllocError>
    ensures { IfOk result (λ read. option_map (refused_at at) (told_by fault) ≡ Some (answer_of read)) }
{
    match kind_from(fault) {
        Some(kind) => Ok(BoundRead::Refused(Fault { kind, at })),
        None => Err(AllocError),
    }
}

// The kind of a refusal of a bound, which is none where memory ran out.
fn kind_from(fault: BoundFault) -> Option<ProofKind>
    ensures { result ≡ told_by fault }
{
    match fault {
        BoundFault::Syntax => Some(ProofKind::Syntax),
        BoundFault::NumberTooLarge => Some(ProofKind::NumberTooLarge),
        BoundFault::UnknownName => Some(ProofKind::BadReference),
        BoundFault::TooDeep => Some(ProofKind::TooDeep),
        BoundFault::TooLarge => Some(ProofKind::Limit),
        BoundFault::Memory => None,
    }
}

// The first of a refusal and that of the part that is too deep which begins with this piece, if one is.
fn first_with_deep(fault: Fault<ProofKind>, deep: Option<usize>) -> Fault<ProofKind>
    ensures { refusal_of result ≡ refusal_with (refusal_of fault) deep }
{
    match deep {
        Some(index) if comes_behind(fault, index as u64) => Fault {
            kind: ProofKind::TooDeep,
            at: index as u64,
        },
        _ => fault,
    }
}

// Whether a refusal comes after that of a part that is too deep.
fn comes_behind(fault: Fault<ProofKind>, at: u64) -> bool
    ensures { result ≡ is_before (record { kind = TooDeep; at = at }) (refusal_of fault) }
{
    let last = matches!(fault.kind, ProofKind::BadReference | ProofKind::Limit);
    at < fault.at || (at == fault.at && last)
}

// Whether `^` comes next.
fn is_caret_next(pieces: PackedRest<'_>) -> bool
    ensures { result ≡ caret_next (pieces_in (inners_in pieces.entry)) }
{
    match pieces.split_first() {
        Some((first, _)) => matches!(first.piece, BoundPiece::Caret),
        None => false,
    }
}
