//! A refusal with its position, and which of two is reported.

ghost use Rattle.std.specs.Prelude.{◌≡◌, Some};
ghost use Rattle.text_core.specs.Reading.{is_before as plain_before, first_of as plain_first, first_among};
ghost use Rattle.its_text.specs.Grammar.{programs};
ghost use Rattle.its_text.specs.Kinds as kinds;
ghost use Rattle.its_text.specs.StateFaults.{fault_if, expansion_kind};
ghost use Rattle.expr_reader.specs.Faults.{kind_of as unexpanded_of};
ghost use Rattle.its_reader.specs.Faults.{limit_of, kind_of, fault_of, maybe_fault, maybe_kind, fault_in};

use crate::error::{LimitKind, ReadError};
use expr_reader::Unexpanded;

/// Why a text is refused, if memory suffices.
#[derive(Clone, Copy)]
pub(crate) enum Kind {
    NotAscii,
    Syntax,
    MissingSection,
    RepeatedSection,
    ManyTargets,
    LeftNotVariable,
    LeftRepeated,
    ArityDiffers,
    NumberTooLarge,
    Limit(LimitKind),
    StartUnknown,
    Disjunction,
}

/// A refusal with its position.
#[derive(Clone, Copy)]
pub(crate) struct Fault {
    pub kind: Kind,
    pub at: usize,
}

fn limit_number(kind: LimitKind) -> u8
    ensures { result ≡ kinds.limit_number (limit_of kind) }
{
    match kind {
        LimitKind::Rules => 10,
        LimitKind::Arity => 11,
        LimitKind::Variables => 12,
        LimitKind::Atoms => 13,
        LimitKind::Name => 14,
        LimitKind::Tokens => 15,
        LimitKind::Terms => 16,
        LimitKind::Degree => 17,
    }
}

impl Kind {
    /// The number of the kind: of two faults at one byte, the one with the lesser number is reported.
    pub(crate) fn number(self) -> u8
        ensures { result ≡ kinds.kind_number (kind_of self) }
    {
        match self {
            Kind::NotAscii => 1,
            Kind::Syntax => 2,
            Kind::MissingSection => 3,
            Kind::RepeatedSection => 4,
            Kind::ManyTargets => 5,
            Kind::LeftNotVariable => 6,
            Kind::LeftRepeated => 7,
            Kind::ArityDiffers => 8,
            Kind::NumberTooLarge => 9,
            Kind::Limit(kind) => limit_number(kind),
            Kind::StartUnknown => 18,
            Kind::Disjunction => 19,
        }
    }

    /// The refusal at a position.
    pub(crate) fn at(self, at: usize) -> Fault
        ensures { fault_of result ≡ record { kind = kind_of self; at = at } }
    {
        Fault { kind: self, at }
    }

    /// The refusal for the fault that prevents the expansion of an expression.
    pub(crate) fn of(fault: Unexpanded) -> Kind
        ensures { kind_of result ≡ expansion_kind (unexpanded_of fault) }
    {
        match fault {
            Unexpanded::CoefTooLarge => Kind::NumberTooLarge,
            Unexpanded::TooManyTerms => Kind::Limit(LimitKind::Terms),
            Unexpanded::DegreeTooHigh => Kind::Limit(LimitKind::Degree),
        }
    }
}

impl Fault {
    /// Whether this fault is reported in preference to another.
    fn is_before(self, other: Fault) -> bool
        ensures { result ≡ plain_before programs (fault_of self) (fault_of other) }
    {
        self.at < other.at || (self.at == other.at && self.kind.number() < other.kind.number())
    }

    /// The first of a fault so far and another.
    pub(crate) fn first_of(best: Option<Fault>, other: Fault) -> Fault
        ensures { fault_of result ≡ plain_first programs (maybe_fault best) (fault_of other) }
    {
        match best {
            Some(fault) => { if other.is_before(fault) { other } else { fault } }
            None => other,
        }
    }

    /// The first of a fault so far and one at a position that counts only if a test succeeds.
    pub(crate) fn first_where(
        best: Option<Fault>,
        test: bool,
        kind: Kind,
        at: usize,
    ) -> Option<Fault>
        ensures { maybe_fault result ≡ first_among programs (maybe_fault best) (fault_if test (kind_of kind) at) }
    {
        if test {
            Some(Fault::first_of(best, kind.at(at)))
        } else {
            best
        }
    }

    /// The first of a fault so far and one of a kind that may be absent.
    pub(crate) fn first_with(best: Option<Fault>, kind: Option<Kind>, at: usize) -> Option<Fault>
        ensures { maybe_fault result ≡ first_among programs (maybe_fault best) (maybe_kind kind at) }
    {
        match kind {
            Some(kind) => Some(Fault::first_of(best, kind.at(at))),
            None => best,
        }
    }

    /// The error that reports this fault.
    pub(crate) fn error(self) -> ReadError
        ensures { fault_in result ≡ Some (fault_of self) }
    {
        let at = self.at as u64;
        match self.kind {
            Kind::NotAscii => ReadError::NotAscii { at },
            Kind::Syntax => ReadError::Syntax { at },
            Kind::MissingSection => ReadError::MissingSection { at },
            Kind::RepeatedSection => ReadError::RepeatedSection { at },
            Kind::ManyTargets => ReadError::ManyTargets { at },
            Kind::LeftNotVariable => ReadError::LeftNotVariable { at },
            Kind::LeftRepeated => ReadError::LeftRepeated { at },
            Kind::ArityDiffers => ReadError::ArityDiffers { at },
            Kind::NumberTooLarge => ReadError::NumberTooLarge { at },
            Kind::Limit(kind) => ReadError::Limit { kind, at },
            Kind::StartUnknown => ReadError::StartUnknown { at },
            Kind::Disjunction => ReadError::Disjunction { at },
        }
    }
}
