//! The updates of rules that have degree 2 or more.

ghost use Rattle.std.specs.Prelude.{◌≡◌, map};
ghost use Rattle.model.specs.Programs.{Program};
ghost use Rattle.guard_prep.specs.its_model.Valid.{IsValid};
ghost use Rattle.poly_terms.specs.Views.{poly_of};
ghost use Rattle.cert_types.specs.cert_rules.AcceptsSizes.{IsResultVariable};
ghost use Rattle.cert_types.specs.cert_rules.ComposedSizes.{poly_at as poly_of_result_variable};
ghost use Rattle.cert_types.specs.cert_program.Setting.{setting_of};
ghost use Rattle.cert_types.specs.Composing.{optional_poly, HasFewPlaces, AreRowsOf};
ghost use Rattle.cert_types.specs.Views.{result_variable_of};
ghost use Rattle.size_nodes.specs.Needs.{update_at as update_at_place};

use cert_types::{ResultVariable, nonlinear_update};
use guard_prep::RuleRows;
use poly_terms::Poly;

/// The update of a result variable, if it has degree 2 or more.
pub(crate) fn poly_at(prepared_rules: &[RuleRows], result_variable: ResultVariable) -> Option<&Poly>
    requires { (p : Program) × (IsValid p × (AreRowsOf prepared_rules.now p × IsResultVariable p (result_variable_of result_variable))) }
    ensures seen { (p : Program) → AreRowsOf prepared_rules.now p → IsResultVariable p (result_variable_of result_variable)
        → optional_poly result ≡ poly_of_result_variable (setting_of p) (result_variable_of result_variable) }
    ensures few { HasFewPlaces result }
{
    update_at(
        &prepared_rules[result_variable.rule as usize - 1],
        result_variable.place,
    )
}

// The update at a place, if it has degree 2 or more. Places count from 1.
#[tactic(auto, using(crate::proofs::ProgramMembers::update_next))]
fn update_at(prepared_rule: &RuleRows, place: u32) -> Option<&Poly>
    ensures { optional_poly result ≡ update_at_place (map poly_of prepared_rule.now.polys.items) place }
{
    if place == 0 {
        return None;
    }
    nonlinear_update(prepared_rule, place as usize - 1)
}
