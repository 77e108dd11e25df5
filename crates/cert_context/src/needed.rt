//! Finds the first bound that is needed and isn't known.

ghost use Rattle.std.specs.Prelude.{◌↔◌, map, IsTrue, MatchOption};
ghost use Rattle.std.specs.List.{AllByRecursion};
ghost use Rattle.cert_context.specs.Needed.{HasSize, HasTime};
ghost use Rattle.gap_checks.specs.GapTests.{IsFirstFailing};
ghost use Rattle.cert_types.specs.Views.{result_variable_of};

use cert_types::{Known, ResultVariable};

/// Whether the time of a rule is known.
pub fn has_time<K: Known>(known: &K, rule: u32) -> bool
    ensures { IsTrue result ↔ HasTime (K.table known.now) rule }
{
    match known.time(rule) {
        Some(_) => true,
        None => false,
    }
}

// Whether the size of a place after a rule is known.
fn has_size<K: Known>(known: &K, result_variable: &ResultVariable) -> bool
    ensures { IsTrue result ↔ HasSize (K.table known.now) (result_variable_of result_variable.now) }
{
    match known.size(result_variable.rule, result_variable.place) {
        Some(_) => true,
        None => false,
    }
}

/// The first of these rules without a known time.
pub fn first_untimed<K: Known>(known: &K, rules: &[u32]) -> Option<u32>
    ensures { MatchOption result
        (AllByRecursion (HasTime (K.table known.now)) rules.now)
        (λ rule. IsFirstFailing (HasTime (K.table known.now)) rules.now rule) }
{
    for rule in rules {
        let fits = has_time(known, *rule);
        if !fits {
            return Some(*rule);
        }
    }
    None
}

/// The first of these places after rules without a known size.
pub fn first_missing<K: Known>(
    known: &K,
    result_variables: &[ResultVariable],
) -> Option<ResultVariable>
    ensures { MatchOption result
        (AllByRecursion (HasSize (K.table known.now)) (map result_variable_of result_variables.now))
        (λ result_variable. IsFirstFailing (HasSize (K.table known.now)) (map result_variable_of result_variables.now) (result_variable_of result_variable)) }
{
    for result_variable in result_variables {
        let fits = has_size(known, result_variable);
        if !fits {
            return Some(*result_variable);
        }
    }
    None
}
