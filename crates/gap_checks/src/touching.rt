//! Lists the sources and targets of the rules of a set, in the order of symbols.

ghost use Rattle.std.specs.Prelude.{◌≡◌, ◌*◌, ◌<◌, ◌≤◌, ℕ, length, slice_index_or};
ghost use Rattle.std.specs.List.{AllWithin};
ghost use Rattle.std.specs.List.Sorted.{IsNonDecreasingBy};
ghost use Rattle.its_model.specs.Views.{program_of};
ghost use Rattle.cert_types.specs.cert_program.RankedSets.{forms_at};
ghost use Rattle.cert_types.specs.cert_rules.AcceptsPlain.{IsRule};
ghost use Rattle.gap_checks.specs.Touches.{AreTouches, AreRules, IsGroup, touches_from};

use cert_types::{source_of, target_of};
use its_model::Program;

/// How a rule touches a symbol: as its source, or as its target.
#[derive(Clone, Copy)]
pub(crate) enum Way {
    Leaves,
    Arrives,
}

/// A touch: the rule at a position of a set, and whether the symbol is its source or its target.
#[derive(Clone, Copy)]
pub(crate) struct Touch {
    pub(crate) symbol: u32,
    pub(crate) position: usize,
    pub(crate) way: Way,
}

/// The touches of one symbol, among those of a set in order: from a position on up to one.
#[derive(Clone, Copy)]
pub(crate) struct Group {
    pub(crate) symbol: u32,
    pub(crate) start: usize,
    pub(crate) end: usize,
}

/// The placeholder for a touch that hasn't been written yet.
pub(crate) fn no_touch() -> Touch {
    Touch {
        symbol: 0,
        position: 0,
        way: Way::Leaves,
    }
}

// The symbol that a rule leaves.
fn left_by(p: &Program, rule: u32) -> u32
    requires { IsRule (program_of p.now) rule }
    ensures { result ≡ (forms_at (program_of p.now) rule).source }
{
    match source_of(p, rule) {
        Some(symbol) => symbol,
        None => 0,
    }
}

// The symbol that a rule leads to.
fn reached_by(p: &Program, rule: u32) -> u32
    requires { IsRule (program_of p.now) rule }
    ensures { result ≡ (forms_at (program_of p.now) rule).target }
{
    match target_of(p, rule) {
        Some(symbol) => symbol,
        None => 0,
    }
}

// Writes the touches of a set, rule by rule.
fn put_touches(touches: &mut [Touch], p: &Program, set: &[u32])
    requires rules { AreRules (program_of p.now) set.now }
    requires room { length touches.old ≡ 2 * length set.now }
    ensures { touches.new ≡ touches_from (forms_at (program_of p.now)) set.now 0 (length set.now) }
{
    for position in 0..set.len() {
        let leaves = Touch {
            symbol: left_by(p, set[position]),
            position,
            way: Way::Leaves,
        };
        let arrives = Touch {
            symbol: reached_by(p, set[position]),
            position,
            way: Way::Arrives,
        };
        touches[2 * position] = leaves;
        touches[2 * position + 1] = arrives;
    }
}

/// Sorts the touches of a set, of which there are two for each rule, by symbols.
pub(crate) fn order_touches(touches: &mut [Touch], p: &Program, set: &[u32])
    requires rules { AreRules (program_of p.now) set.now }
    requires room { length touches.old ≡ 2 * length set.now }
    ensures { AreTouches (forms_at (program_of p.now)) set.now touches.new }
{
    put_touches(touches, p, set);
    touches.sort_unstable_by_key(|touch| touch.symbol);
}

/// How many touches are of symbols below this one. The time is logarithmic in the touches.
pub(crate) fn touches_below(touches: &[Touch], symbol: u64) -> usize
    requires { IsNonDecreasingBy (λ t. t.symbol) touches.now }
    ensures bound { result ≤ length touches.now }
    ensures below { AllWithin (λ t. t.symbol < symbol) touches.now 0 result }
    ensures behind { AllWithin (λ t. symbol ≤ t.symbol) touches.now result (length touches.now) }
{
    touches.partition_point(|touch| u64::from(touch.symbol) < symbol)
}

/// The touches of the symbol of the touch at a position, where all before it are of symbols below.
pub(crate) fn group_at(touches: &[Touch], start: usize) -> Group
    requires ordered { IsNonDecreasingBy (λ t. t.symbol) touches.now }
    requires inside { start < length touches.now }
    requires first { (k : ℕ) (d e : Touch) → k < start
        → (slice_index_or touches.now k d).symbol < (slice_index_or touches.now start e).symbol }
    ensures group { IsGroup touches.now result }
    ensures from { result.start ≡ start }
{
    let symbol = touches[start].symbol;
    let end = touches_below(touches, u64::from(symbol) + 1);
    Group { symbol, start, end }
}
