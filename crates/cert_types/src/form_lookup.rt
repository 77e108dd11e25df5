//! The forms of a ranking node, looked up by their symbols.

ghost use Rattle.std.specs.Prelude.{◌≡◌, map, All, IfOk, IfSome};
ghost use Rattle.cert_program.specs.cert_rules.Composed.{rank_form as rank_form_of};
ghost use Rattle.cert_types.specs.FormLookups.{HasForms};
ghost use Rattle.cert_types.specs.Sizes.{form_found, IsShort};
ghost use Rattle.cert_types.specs.Views.{form_of};

use crate::rank::{Form, RankNode};
use bound_expr::Memory;
use std::alloc::Global;
use std::collections::BTreeMap;

/// A ranking node, with the first form at each symbol.
#[derive(Drop)]
pub(crate) struct FormLookup<'a> {
    pub(crate) node: &'a RankNode,
    pub(crate) firsts: BTreeMap<u32, &'a Form>,
    ghost told: { HasForms node.now.forms.items firsts },
}

// The first form at each symbol: going backwards, an earlier form takes the place of a later one.
fn first_forms<'a>(alloc: Global, forms: &'a [Form]) -> Result<BTreeMap<u32, &'a Form>, Memory>
    ensures { IfOk result (λ firsts. HasForms forms.now firsts) }
{
    let mut firsts = BTreeMap::new(alloc);
    for position in (0..forms.len()).rev() {
        let form = &forms[position];
        firsts.insert(form.symbol, form)?;
    }
    Ok(firsts)
}

/// A ranking node, with the first form at each symbol. The time is near-linear in the forms.
///
/// # Errors
///
/// `Memory` where an allocation fails.
pub(crate) fn form_lookup_of<'a>(
    alloc: Global,
    node: &'a RankNode,
) -> Result<FormLookup<'a>, Memory>
    ensures { IfOk result (λ l. l.node.now ≡ node.now) }
{
    let firsts = first_forms(alloc, &node.forms)?;
    Ok(FormLookup { node, firsts })
}

/// The first form at a symbol, where there is one.
pub(crate) fn form_at<'a>(by: &FormLookup<'a>, symbol: Option<u32>) -> Option<&'a Form>
    ensures first { form_found result ≡ rank_form_of (map form_of by.now.node.now.forms.items) symbol }
    ensures few { All IsShort by.now.node.now.forms.items → IfSome result (λ f. IsShort f.now) }
{
    let Some(number) = symbol else {
        return None;
    };
    match by.firsts.get(&number) {
        Some(form) => Some(*form),
        None => None,
    }
}
