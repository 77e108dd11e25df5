//! The operands of commands: a file with the option, two files, a file alone, or a number.

ghost use Rattle.std.specs.Prelude.{◌≡◌, [], ◌∷◌, ℕ, map, string_bytes, MatchOption};
ghost use Rattle.command_line.specs.Lines.{Word};
ghost use Rattle.command_line.specs.Requests.{AllowsPivots, AreProgramOperands, AreTwoFiles, IsOneFile, IsOneNumber};
ghost use Rattle.command_line.specs.Steps.{values_in, positionals_in};

use crate::line::Line;
use crate::number::number;

/// How many pivots each linear program may take if the option isn't given.
pub const DEFAULT_PIVOTS: u32 = 10_000;

// How many pivots can be allowed at most.
const MAXIMUM_PIVOTS: u32 = 1_000_000;

// The greatest number of which a program is generated.
const MAXIMUM_GENERATED: u32 = 100;

/// A file, and how many pivots are allowed.
#[derive(Drop)]
pub(crate) struct OneFile {
    pub(crate) pivots: u32,
    pub(crate) file: String,
}

/// Two files.
#[derive(Drop)]
pub(crate) struct TwoFiles {
    pub(crate) first: String,
    pub(crate) second: String,
}

/// The file that is the line's only positional, and how many pivots its option allows.
pub(crate) fn one_file(line: Line) -> Option<OneFile>
    ensures { MatchOption result
        ((pivots : ℕ) (file : Word) → ¬ (AreProgramOperands (values_in line) (positionals_in line) pivots file))
        (λ one. AreProgramOperands (values_in line) (positionals_in line) one.pivots (string_bytes one.file)) }
{
    let pivots = pivots_of(&line.values)?;
    let file = one_positional(line.positionals)?;
    Some(OneFile { pivots, file })
}

/// The two files that a line has as its positionals, without the option.
pub(crate) fn two_files(line: Line) -> Option<TwoFiles>
    ensures { MatchOption result
        ((first second : Word) → ¬ (AreTwoFiles (values_in line) (positionals_in line) first second))
        (λ two. AreTwoFiles (values_in line) (positionals_in line) (string_bytes two.first) (string_bytes two.second)) }
{
    if !line.values.is_empty() {
        return None;
    }
    two_positionals(line.positionals)
}

/// The file that is the line's only positional, without the option.
pub(crate) fn file_alone(line: Line) -> Option<String>
    ensures { MatchOption result
        ((file : Word) → ¬ (IsOneFile (values_in line) (positionals_in line) file))
        (λ file. IsOneFile (values_in line) (positionals_in line) (string_bytes file)) }
{
    if !line.values.is_empty() {
        return None;
    }
    one_positional(line.positionals)
}

/// The number that is the line's only positional, without the option.
pub(crate) fn one_number(line: Line) -> Option<u32>
    ensures { MatchOption result ((n : ℕ) → ¬ (IsOneNumber (values_in line) (positionals_in line) n))
        (IsOneNumber (values_in line) (positionals_in line)) }
{
    let word = file_alone(line)?;
    number(word.as_bytes(), MAXIMUM_GENERATED)
}

// How many pivots the values of the option allow.
fn pivots_of(values: &[Vec<u8>]) -> Option<u32>
    ensures { MatchOption result ((n : ℕ) → ¬ (AllowsPivots (map (λ v. v.items) values.now) n))
        (AllowsPivots (map (λ v. v.items) values.now)) }
{
    match values {
        [] => Some(DEFAULT_PIVOTS),
        [value] => number(value, MAXIMUM_PIVOTS),
        _ => None,
    }
}

// The only positional.
fn one_positional(positionals: Vec<String>) -> Option<String>
    ensures { MatchOption result ((file : Word) → ¬ (map string_bytes positionals.items ≡ file ∷ []))
        (λ file. map string_bytes positionals.items ≡ string_bytes file ∷ []) }
{
    let mut positionals = positionals;
    let last = positionals.pop()?;
    if positionals.is_empty() {
        Some(last)
    } else {
        None
    }
}

// The only two positionals.
fn two_positionals(positionals: Vec<String>) -> Option<TwoFiles>
    ensures { MatchOption result
        ((first second : Word) → ¬ (map string_bytes positionals.items ≡ first ∷ second ∷ []))
        (λ two. map string_bytes positionals.items ≡ string_bytes two.first ∷ string_bytes two.second ∷ []) }
{
    let mut positionals = positionals;
    let second = positionals.pop()?;
    let first = one_positional(positionals)?;
    Some(TwoFiles { first, second })
}
