//! Finds the first fault of a gap.

ghost use Rattle.std.specs.Prelude.{◌≡◌, length, MatchOption, IsTrue, ◌↔◌};
ghost use Rattle.its_model.specs.Valid.{IsValid};
ghost use Rattle.its_model.specs.Views.{program_of};
ghost use Rattle.cert_types.specs.cert_program.GapLaws.{GapsExcludeFunctions};
ghost use Rattle.cert_types.specs.cert_program.RankedSets.{forms_at};
ghost use Rattle.cert_types.specs.cert_rules.GapChecks.{GapHolds, gap_checks};
ghost use Rattle.cert_types.specs.cert_rules.Reasons.{IsFirstAmong};
ghost use Rattle.cert_types.specs.AnswerViews.{fault_of, gap_of};
ghost use Rattle.cert_types.specs.Composing.{AreRowsOf};
ghost use Rattle.gap_checks.specs.GapTests.{HasNoDenominators};

use crate::balancing::first_unbalanced;
use crate::gap_points::{den_of, first_not_kept, first_wrong_move, is_met};
use crate::gap_shape::has_gap_shape;
use cert_types::{Gap, GapFault};
use guard_prep::RuleRows;
use its_model::Program;

/// Why a gap doesn't hold: the first fault in the order of `GapFault`, and of several of one kind the one with the
/// least rule, or with the least symbol and then the least place, place 0 first; `None` exactly where the gap holds.
/// Then no affine function with coefficient 0 at its shut places ranks its strict rule over its set
/// (`gaps_exclude_functions`).
///
/// It allocates no memory. The rows of each rule of the set are evaluated at two points, and each of its new values at
/// one.
pub fn gap_fault(p: &Program, prepared_rules: &[RuleRows], g: &Gap) -> Option<GapFault>
    requires valid { IsValid (program_of p.now) }
    requires rows { AreRowsOf prepared_rules.now (program_of p.now) }
    ensures { MatchOption result
        (GapHolds (program_of p.now) (forms_at (program_of p.now)) (gap_of g.now))
        (λ x. IsFirstAmong (gap_checks (program_of p.now) (forms_at (program_of p.now)) (gap_of g.now)) (fault_of x)) }
{
    if !has_gap_shape(p, prepared_rules, g) {
        return Some(GapFault::Shape);
    }
    if let Some(rule) = first_wrong_move(prepared_rules, &g.set, &g.moves) {
        return Some(GapFault::Move { rule });
    }
    if !is_met(prepared_rules, g.rule, &g.floor) {
        return Some(GapFault::Floor);
    }
    if let Some(rule) = first_not_kept(prepared_rules, &g.set, &g.kept) {
        return Some(GapFault::Kept { rule });
    }
    if let Some((symbol, place)) = first_unbalanced(p, prepared_rules, g) {
        return Some(GapFault::Balance { symbol, place });
    }
    if loses_nothing(g) {
        return Some(GapFault::Nothing);
    }
    None
}

// Whether the denominators of the strict rule's move and of the floor are both 0.
fn loses_nothing(g: &Gap) -> bool
    requires { length g.now.moves.items ≡ length g.now.set.items }
    ensures { IsTrue result ↔ HasNoDenominators (gap_of g.now) }
{
    den_of(&g.set, &g.moves, g.rule) == 0 && g.floor.den == 0
}

/// If a gap holds for a valid program, no affine function with coefficient 0 at its shut places ranks its strict rule
/// over its set on all rational points of the rules' rows, whoever made the gap. The function has no code: its contract is the law.
pub fn gaps_exclude_functions()
    ensures { GapsExcludeFunctions }
{}
