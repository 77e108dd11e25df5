//! Cuts the bytes of a proof file into pieces, by the names of a program.

ghost use Rattle.std.specs.Prelude.{◌≡◌, ◌∷◌, ◌<◌, length, IfOk, IsTrue, MatchOption, Some, None};
ghost use Rattle.std.specs.List.{list_all};
ghost use Rattle.std.specs.Char.{is_ascii_digit};
ghost use Rattle.its_model.specs.Views.{program_of};
ghost use Rattle.text_grammar.specs.Marks.{lexeme_of};
ghost use Rattle.text_grammar.specs.text_core.NameIndex.{names_in};
ghost use Rattle.text_grammar.specs.text_core.Names.{AreDistinct};
ghost use Rattle.bound_text.specs.Lexing.{lexeme_at as bound_at};
ghost use Rattle.cert_lexer.specs.Lexing as lexing;
ghost use Rattle.cert_lexer.specs.Found.{lexer_in, symbols_in};
ghost use Rattle.cert_lexer.specs.Within.{lexes_within};

use crate::bound_pieces::bound_lexeme;
use crate::modes::{depth_behind, ends_before, ends_bound, mode_with};
use crate::names::{Symbols, goes_on, leading_digits, leading_name, number_of};
use crate::piece::{Behind, Mode, Piece};
use crate::words::{sign_at, word_of};
use bound_expr::CAP;
use its_model::Program;
use model::Memory;
use std::alloc::Global;
use text_core::{NameIndex, begins_name, has_leading_zero, value_up_to};
use text_grammar::{Lexeme, Lexer};

/// The lexer of the proof files of a program.
#[derive(Drop)]
pub struct ProofLexer<'a> {
    symbols: Symbols<'a>,
    arguments: NameIndex<'a>,
}

impl<'a> ProofLexer<'a> {
    /// The lexer of the proof files of this program.
    ///
    /// # Errors
    ///
    /// `Memory` where an allocation fails.
    pub fn new(alloc: Global, p: &'a Program) -> Result<ProofLexer<'a>, Memory>
        requires symbols { AreDistinct (lexing.symbol_names (program_of p.now)) }
        requires arguments { AreDistinct (program_of p.now).start_names }
        ensures { IfOk result (λ lexer. lexer_in lexer ≡ lexing.lexer_of (program_of p.now)) }
    {
        let symbols = Symbols::new(alloc, &p.symbols)?;
        let arguments = NameIndex::new(alloc, &p.start_names)?;
        Ok(ProofLexer { symbols, arguments })
    }

    // The piece of a name.
    fn name(&self, name: &[u8]) -> Lexeme<Piece>
        ensures { lexeme_of result ≡ lexing.name_lexeme (symbols_in self.now.symbols) name.now }
    {
        let symbol = number_of(self.symbols.position_or_count(name));
        Lexeme {
            piece: Some(Piece::Name(word_of(name), symbol)),
            len: name.len(),
        }
    }

    // The lexeme outside lists of shut places and bounds.
    fn plain(&self, bytes: &[u8], first: u8, others: &[u8]) -> Lexeme<Piece>
        requires { bytes.now ≡ first ∷ others.now }
        ensures { lexeme_of result ≡ lexing.plain_lexeme (symbols_in self.now.symbols) first others.now }
    {
        if begins_name(first) {
            let (name, _) = leading_name(bytes, first, others);
            self.name(name)
        } else if first.is_ascii_digit() {
            digits(leading_digits(bytes, first, others))
        } else {
            Lexeme {
                piece: Some(sign_at(first)),
                len: 1,
            }
        }
    }

    // The place of a symbol that a run of bytes denotes, where `after` are the bytes after its last dot.
    fn place_behind(&self, run: &[u8], after: &[u8]) -> Piece
        requires { length after.now < length run.now }
        ensures { result ≡ lexing.place_in (symbols_in self.now.symbols) run.now (Some after.now) }
    {
        if all_digits(after) {
            let symbol = &run[..run.len() - after.len() - 1];
            Piece::Place(
                number_of(self.symbols.position_or_count(symbol)),
                behind_dot(after),
            )
        } else {
            self.unplaced(run)
        }
    }

    // The place without a number of a run of bytes that is a name.
    fn unplaced(&self, run: &[u8]) -> Piece
        ensures { result ≡ lexing.place_in (symbols_in self.now.symbols) run.now None }
    {
        Piece::Place(
            number_of(self.symbols.position_or_count(run)),
            Behind::NoNumber,
        )
    }

    // The lexeme of a run of bytes in a list of shut places.
    fn place(&self, run: &[u8]) -> Lexeme<Piece>
        ensures { lexeme_of result ≡ lexing.place_lexeme (symbols_in self.now.symbols) run.now }
    {
        let piece = match behind_last_dot(run) {
            Some(after) => self.place_behind(run, after),
            None => self.unplaced(run),
        };
        Lexeme {
            piece: Some(piece),
            len: run.len(),
        }
    }

    // The lexeme in a bound with this many open brackets, after this many of the bound's pieces.
    fn in_bound(
        &self,
        depth: u64,
        before: u64,
        bytes: &[u8],
        first: u8,
        others: &[u8],
    ) -> Lexeme<Piece>
        requires { bytes.now ≡ first ∷ others.now }
        ensures { lexeme_of result
            ≡ lexing.bound_lexeme (length (names_in self.now.arguments)) depth before bytes.now
            (bound_at (names_in self.now.arguments) first others.now) }
    {
        let lexeme = bound_lexeme(&self.arguments, before, bytes, first, others);
        let (_, behind) = bytes.split_at(lexeme.len);
        let last = ends_before(depth_behind(depth, lexeme.piece), behind);
        Lexeme {
            piece: Some(Piece::InBound(lexeme.piece, lexeme.len as u64, last)),
            len: lexeme.len,
        }
    }
}

impl<'a> Lexer for ProofLexer<'a> {
    type Piece = Piece;

    type Mode = Mode;

    ghost lexer_of = { lexer_in };

    fn lexeme(&self, mode: Mode, bytes: &[u8], first: u8, others: &[u8]) -> Lexeme<Piece> {
        match mode {
            Mode::Beginning => {
                if is_first(bytes) {
                    return Lexeme {
                        piece: Some(Piece::First),
                        len: 10,
                    };
                }
            }
            Mode::InShut => {
                if begins_name(first) {
                    let (run, _) = leading_name(bytes, first, others);
                    return self.place(run);
                }
            }
            Mode::InBound(depth, before) => {
                if !ends_bound(depth, first) {
                    return self.in_bound(depth, before, bytes, first, others);
                }
            }
            Mode::Plain | Mode::Closed | Mode::ClosedBlank | Mode::To => {}
        }
        self.plain(bytes, first, others)
    }

    fn behind(&self, mode: Mode, piece: Option<Piece>) -> Mode
        ensures { result ≡ (lexer_in self.now).mode_behind mode piece }
    {
        match piece {
            Some(piece) => mode_with(mode, piece),
            None => mode,
        }
    }

    ghost within = { λ l. lexes_within (symbols_in l.symbols) (names_in l.arguments) };
}

// The lexeme of digits.
fn digits(digits: &[u8]) -> Lexeme<Piece>
    requires { IsTrue (list_all is_ascii_digit digits.now) }
    ensures { lexeme_of result ≡ lexing.digits_lexeme digits.now }
{
    let piece = if has_leading_zero(digits) {
        Piece::Wrong
    } else {
        Piece::Number(value_up_to(CAP, digits))
    };
    Lexeme {
        piece: Some(piece),
        len: digits.len(),
    }
}

// Whether all bytes are digits.
fn all_digits(bytes: &[u8]) -> bool
    ensures { result ≡ list_all is_ascii_digit bytes.now }
{
    for byte in bytes {
        if !byte.is_ascii_digit() {
            return false;
        }
    }
    true
}

// The meaning of digits after a dot.
fn behind_dot(digits: &[u8]) -> Behind
    requires { IsTrue (list_all is_ascii_digit digits.now) }
    ensures { result ≡ lexing.behind_dot digits.now }
{
    if digits.is_empty() {
        Behind::Nothing
    } else if has_leading_zero(digits) {
        Behind::LeadingZero
    } else {
        Behind::Number(value_up_to(CAP, digits))
    }
}

// The bytes after the last dot.
fn behind_last_dot<'b>(run: &'b [u8]) -> Option<&'b [u8]>
    ensures { MatchOption result (lexing.behind_last_dot None run.now ≡ None)
        (λ after. (lexing.behind_last_dot None run.now ≡ Some after.now) × (length after.now < length run.now)) }
{
    let mut after = None;
    let mut rest = run;
    while let Some((first, others)) = rest.split_first() {
        if *first == b'.' {
            after = Some(others);
        }
        rest = others;
    }
    after
}

// Whether bytes begin with `koat-proof`, and not with a longer word.
fn is_first(bytes: &[u8]) -> bool
    ensures { result ≡ lexing.is_first bytes.now }
{
    if bytes.len() < 10 {
        return false;
    }
    let (front, behind) = bytes.split_at(10);
    front == b"koat-proof".as_slice() && !goes_on(behind)
}
