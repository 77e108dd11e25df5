//! Finds the first size and the first time that are needed and not known.

ghost use Rattle.std.specs.Prelude.{◌≡◌, map, option_map};
ghost use Rattle.cert_types.specs.Views.{result_variable_of};
ghost use Rattle.size_nodes.specs.Needs.{first_missing as first_missing_of, first_unknown, lacks};

use cert_types::{Known, ResultVariable};

/// The first of these places after rules whose size isn't known.
pub fn first_missing<K: Known>(
    known: &K,
    result_variables: &[ResultVariable],
) -> Option<ResultVariable>
    ensures { option_map result_variable_of result ≡ first_missing_of (K.table known.now) (map result_variable_of result_variables.now) }
{
    for result_variable in result_variables {
        if known
            .size(result_variable.rule, result_variable.place)
            .is_none()
        {
            return Some(*result_variable);
        }
    }
    None
}

// Whether a rule has no time.
fn is_untimed<K: Known>(known: &K, rule: u32) -> bool
    ensures { result ≡ lacks ((K.table known.now).time rule) }
{
    match known.time(rule) {
        Some(_) => false,
        None => true,
    }
}

/// The first of these rules without a time.
pub(crate) fn first_untimed<K: Known>(known: &K, rules: &[u32]) -> Option<u32>
    ensures { result ≡ first_unknown (K.table known.now).time rules.now }
{
    for rule in rules {
        let is_missing = is_untimed(known, *rule);
        if is_missing {
            return Some(*rule);
        }
    }
    None
}
