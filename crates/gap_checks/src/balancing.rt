//! Finds the first balance of a gap that isn't 0.

ghost use Rattle.std.specs.Prelude.{◌≡◌, ◌≢◌, ℕ, ◌+◌, ◌*◌, ◌<◌, ◌≤◌, length, map, pos, MatchOption, slice_index_or};
ghost use Rattle.std.specs.Prelude.{IsTrue, ◌↔◌, ◌⊎◌, false, unsigned_abs};
ghost use Rattle.std.specs.List.{AllByRecursion};
ghost use Rattle.its_model.specs.Valid.{IsValid};
ghost use Rattle.its_model.specs.Views.{program_of};
ghost use Rattle.farkas_cert.specs.model.Programs.{arity_of};
ghost use Rattle.cert_types.specs.cert_program.RankedSets.{forms_at};
ghost use Rattle.cert_types.specs.cert_rules.GapChecks.{HasGapShape, balance};
ghost use Rattle.cert_types.specs.AnswerViews.{gap_of};
ghost use Rattle.cert_types.specs.Composing.{AreRowsOf};
ghost use Rattle.gap_checks.specs.GapTests.{IsFirstFailing, coefficient_at, near_value_limit, IsBalanced, places_at};
ghost use Rattle.gap_checks.specs.GapTests.{AreShutFlags, IsFirstUnbalanced};
ghost use Rattle.gap_checks.specs.GapBalances.{AddsTouch, AreNets, ArePrepared, AreShutRows, AreSums, program};
ghost use Rattle.gap_checks.specs.Touches.{AreTouches, IsGroup, share_of};

use crate::parts::{arriving, leaving};
use crate::program_rules::Rules;
use crate::rule_numbers::arity_at;
use crate::shut_places::mark_shut;
use crate::touching::{Group, Touch, Way, group_at, no_touch, order_touches};
use cert_types::Gap;
use guard_prep::RuleRows;
use its_model::Program;

// The number of places of a symbol of a valid program, of which there are few.
fn places_of(p: &Program, symbol: u32) -> u32
    requires { IsValid (program_of p.now) }
    ensures { (result ≡ arity_of (program_of p.now) symbol) × (result ≤ 32) }
{
    arity_at(p, symbol)
}

// The share of a touch in the balance of a place of its symbol, by the moves.
fn share_at(rules: &Rules, g: &Gap, touch: &Touch, place: u32) -> i128
    requires valid { IsValid (program rules.now) }
    requires rows { ArePrepared rules.now }
    requires shape { HasGapShape (program rules.now) (forms_at (program rules.now)) (gap_of g.now) }
    requires inside { touch.now.position < length g.now.set.items }
    ensures value { result ≡ share_of (forms_at (program rules.now)) (gap_of g.now).set (gap_of g.now).moves
        (coefficient_at touch.now.symbol place) touch.now }
    ensures size { unsigned_abs result ≤ near_value_limit }
{
    let rule = g.set[touch.position];
    let z = &g.moves[touch.position];
    match touch.way {
        Way::Leaves => leaving(rules.program, rule, z, touch.symbol, place),
        Way::Arrives => -arriving(rules, rule, z, touch.symbol, place),
    }
}

// Adds the share of a touch in the balance of each place of its symbol.
fn add_touch(sums: &mut [i128], rules: &Rules, g: &Gap, touch: &Touch)
    requires valid { IsValid (program rules.now) }
    requires rows { ArePrepared rules.now }
    requires shape { HasGapShape (program rules.now) (forms_at (program rules.now)) (gap_of g.now) }
    requires inside { touch.now.position < length g.now.set.items }
    requires room { AreSums sums.old (1999 * near_value_limit) }
    ensures { AddsTouch (program rules.now) (gap_of g.now) touch.now sums.old sums.new }
{
    for place in 0..places_of(rules.program, touch.symbol) + 1 {
        sums[place as usize] += share_at(rules, g, touch, place);
    }
}

// For place 0 and each place of a symbol what leaves it by the moves, less what arrives there: the sum over the touches
// of the symbol.
fn nets_of(rules: &Rules, g: &Gap, touches: &[Touch], group: &Group) -> [i128; 33]
    requires valid { IsValid (program rules.now) }
    requires rows { ArePrepared rules.now }
    requires shape { HasGapShape (program rules.now) (forms_at (program rules.now)) (gap_of g.now) }
    requires touches { AreTouches (forms_at (program rules.now)) g.now.set.items touches.now }
    requires group { IsGroup touches.now group.now }
    ensures { AreNets (program rules.now) (gap_of g.now) group.now.symbol result }
{
    let mut sums = [0i128; 33];
    for index in group.start..group.end {
        add_touch(&mut sums, rules, g, &touches[index]);
    }
    sums
}

// The balance of a place of a symbol: what leaves it by the moves, minus what arrives there, plus the floor's share if
// the strict rule leaves the symbol.
fn balance_at(p: &Program, g: &Gap, nets: &[i128], symbol: u32, place: u32) -> i128
    requires valid { IsValid (program_of p.now) }
    requires shape { HasGapShape (program_of p.now) (forms_at (program_of p.now)) (gap_of g.now) }
    requires nets { AreNets (program_of p.now) (gap_of g.now) symbol nets.now }
    requires own { place < arity_of (program_of p.now) symbol + 1 }
    requires few { place ≤ 32 }
    ensures { result ≡ balance (forms_at (program_of p.now)) (gap_of g.now) (coefficient_at symbol place) }
{
    nets[place as usize] + leaving(p, g.rule, &g.floor, symbol, place)
}

// Whether a place is unbalanced: its balance isn't 0, and it is place 0 or has no flag of a shut place.
fn is_off(balance: i128, shut: &[bool], place: u32) -> bool
    requires flags { length shut.now ≡ 33 }
    requires few { place ≤ 32 }
    ensures { IsTrue result ↔ ((balance ≢ pos 0)
        × ((place ≡ 0) ⊎ (slice_index_or shut.now place false ≡ false))) }
{
    if balance == 0 {
        return false;
    }
    place == 0 || !shut[place as usize]
}

// The first place of a symbol that isn't shut and isn't balanced; the constant (place 0) comes before all others.
fn first_place(p: &Program, g: &Gap, nets: &[i128], shut: &[bool], symbol: u32) -> Option<u32>
    requires valid { IsValid (program_of p.now) }
    requires shape { HasGapShape (program_of p.now) (forms_at (program_of p.now)) (gap_of g.now) }
    requires nets { AreNets (program_of p.now) (gap_of g.now) symbol nets.now }
    requires flags { AreShutFlags shut.now (gap_of g.now).shut symbol }
    ensures { MatchOption result
        (AllByRecursion (IsBalanced (program_of p.now) (gap_of g.now)) (places_at (program_of p.now) (gap_of g.now) symbol))
        (λ place. IsFirstFailing (IsBalanced (program_of p.now) (gap_of g.now))
        (places_at (program_of p.now) (gap_of g.now) symbol) (coefficient_at symbol place)) }
{
    for place in 0..places_of(p, symbol) + 1 {
        let balance = balance_at(p, g, nets, symbol, place);
        let off = is_off(balance, shut, place);
        if off {
            return Some(place);
        }
    }
    None
}

// The first place that isn't shut and isn't balanced, among the symbols of these touches.
fn first_of_touches(
    rules: &Rules,
    g: &Gap,
    touches: &[Touch],
    rows: &[[bool; 33]],
) -> Option<(u32, u32)>
    requires valid { IsValid (program rules.now) }
    requires rows { ArePrepared rules.now }
    requires shape { HasGapShape (program rules.now) (forms_at (program rules.now)) (gap_of g.now) }
    requires touches { AreTouches (forms_at (program rules.now)) g.now.set.items touches.now }
    requires long { length rows.now ≡ length touches.now }
    requires shut { AreShutRows touches.now (gap_of g.now).shut rows.now }
    ensures { IsFirstUnbalanced (program rules.now) (gap_of g.now) result }
{
    let mut start = 0;
    while start < touches.len() {
        let group = group_at(touches, start);
        let nets = nets_of(rules, g, touches, &group);
        let off = first_place(rules.program, g, &nets, &rows[start], group.symbol);
        if let Some(place) = off {
            return Some((group.symbol, place));
        }
        start = group.end;
    }
    None
}

// The first place that isn't shut and isn't balanced, with room for two touches of each rule of the set, and for the
// flags of each. The earlier contents of this room make no difference.
fn first_within(
    rules: &Rules,
    g: &Gap,
    touches: &mut [Touch],
    rows: &mut [[bool; 33]],
) -> Option<(u32, u32)>
    requires valid { IsValid (program rules.now) }
    requires rows { ArePrepared rules.now }
    requires shape { HasGapShape (program rules.now) (forms_at (program rules.now)) (gap_of g.now) }
    requires room { length touches.old ≡ 2 * length g.now.set.items }
    requires long { length rows.old ≡ 2 * length g.now.set.items }
    ensures { IsFirstUnbalanced (program rules.now) (gap_of g.now) result }
{
    order_touches(touches, rules.program, &g.set);
    mark_shut(rows, touches, &g.shut);
    first_of_touches(rules, g, touches, rows)
}

// The first place that isn't shut and isn't balanced, with at least that much room.
fn first_in(
    rules: &Rules,
    g: &Gap,
    touches: &mut [Touch],
    rows: &mut [[bool; 33]],
) -> Option<(u32, u32)>
    requires valid { IsValid (program rules.now) }
    requires rows { ArePrepared rules.now }
    requires shape { HasGapShape (program rules.now) (forms_at (program rules.now)) (gap_of g.now) }
    requires room { 2 * length g.now.set.items ≤ length touches.old }
    requires long { 2 * length g.now.set.items ≤ length rows.old }
    ensures { IsFirstUnbalanced (program rules.now) (gap_of g.now) result }
{
    let count = 2 * g.set.len();
    first_within(rules, g, &mut touches[..count], &mut rows[..count])
}

/// The first place that isn't shut and isn't balanced, by symbols and then by places, with the constant of a symbol
/// (place 0) before its places. The time is near-linear in the gap: each new value of a move is computed once, and each
/// shut place is looked up once among the touches of the set, which are sorted. A small set takes less room.
pub(crate) fn first_unbalanced(
    p: &Program,
    prepared_rules: &[RuleRows],
    g: &Gap,
) -> Option<(u32, u32)>
    requires valid { IsValid (program_of p.now) }
    requires rows { AreRowsOf prepared_rules.now (program_of p.now) }
    requires shape { HasGapShape (program_of p.now) (forms_at (program_of p.now)) (gap_of g.now) }
    ensures { IsFirstUnbalanced (program_of p.now) (gap_of g.now) result }
{
    let rules = Rules {
        program: p,
        prepared_rules,
    };
    if g.set.len() <= 16 {
        return first_in(&rules, g, &mut [no_touch(); 32], &mut [[false; 33]; 32]);
    }
    first_in(&rules, g, &mut [no_touch(); 2000], &mut [[false; 33]; 2000])
}
