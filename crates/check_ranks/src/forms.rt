//! Looks up the forms of a ranking function by their symbols.

ghost use Rattle.std.specs.Prelude.{◌≡◌, ◌<◌, ◌≤◌, ◌==◌, cond, length, map, pos};
ghost use Rattle.std.specs.List.{AllWithin};
ghost use Rattle.std.specs.List.Sorted.{IsNonDecreasingBy};
ghost use Rattle.poly_terms.specs.linear_forms.RuleQuestions.{constant_form};
ghost use Rattle.check_ranks.specs.RankShapes.{symbol_in};
ghost use Rattle.cert_types.specs.Sizes.{form_found};
ghost use Rattle.cert_types.specs.Views.{form_of};
ghost use Rattle.cert_types.specs.cert_rules.Composed.{rank_form};
ghost use Rattle.cert_types.specs.cert_rules.Numbers.{IsAscending};

use cert_types::Form;

/// The form at a symbol, if there is one, of forms whose symbols ascend. The running time is logarithmic in their
/// number.
pub(crate) fn form_at(forms: &[Form], symbol: Option<u32>) -> Option<&Form>
    requires { IsAscending (map symbol_in forms.now) }
    ensures { form_found result ≡ rank_form (map form_of forms.now) symbol }
{
    let Some(number) = symbol else {
        return None;
    };
    let below = forms_below(forms, number);
    if below >= forms.len() {
        return None;
    }
    form_if(&forms[below], number)
}

// The form, if it is at this symbol.
fn form_if(form: &Form, symbol: u32) -> Option<&Form>
    ensures { form_found result ≡ cond (form.now.symbol == symbol) (form_of form.now).form (constant_form (pos 0)) }
{
    if form.symbol == symbol {
        Some(form)
    } else {
        None
    }
}

// The number of forms at symbols below this one.
fn forms_below(forms: &[Form], symbol: u32) -> usize
    requires { IsNonDecreasingBy (λ f. f.symbol) forms.now }
    ensures bound { result ≤ length forms.now }
    ensures below { AllWithin (λ f. f.symbol < symbol) forms.now 0 result }
    ensures behind { AllWithin (λ f. symbol ≤ f.symbol) forms.now result (length forms.now) }
{
    forms.partition_point(|form| form.symbol < symbol)
}
