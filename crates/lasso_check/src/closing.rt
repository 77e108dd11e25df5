//! Whether a turn leads back, and the rules that it uses.

ghost use Rattle.std.specs.Prelude.{◌≡◌, ◌≤◌, ◌++◌, ◌∷◌, [], ℕ, Bool, length, map, cond, IfOk};
ghost use Rattle.std.specs.List.{filter, range_with_len};
ghost use Rattle.its_model.specs.Views.{config_of};
ghost use Rattle.lasso_check.specs.CheckAnswers.{Differ};

use its_model::Config;
use std::alloc::{AllocError, Global};

/// The first place at which two configurations differ, 0 if their symbols do. Configurations of the same symbol have
/// the same number of values.
pub(crate) fn first_difference(before: &Config, behind: &Config) -> Option<u64>
    requires { before.now.at ≡ behind.now.at → length before.now.values.items ≡ length behind.now.values.items }
    ensures { Differ (config_of before.now) (config_of behind.now) result }
{
    if before.at != behind.at {
        return Some(0);
    }
    for i in 0..before.values.len() {
        if before.values[i] != behind.values[i] {
            return Some(i as u64 + 1);
        }
    }
    None
}

/// The numbers, from 1, of the entries that are true, in ascending order.
///
/// # Errors
///
/// If an allocation fails.
pub fn rules_used(alloc: Global, used: &[bool]) -> Result<Vec<u32>, AllocError>
    requires { length used.now ≤ 1000 }
    ensures { IfOk result (λ rules. (f : ℕ → Bool) → used.now ≡ map f (range_with_len 1 (length used.now))
        → rules.items ≡ filter f (range_with_len 1 (length used.now))) }
{
    let mut rules = Vec::new(alloc);
    for i in 0..used.len() {
        list_where(&mut rules, i as u32 + 1, used[i])?;
    }
    Ok(rules)
}

// Lists a number if it is used.
fn list_where(rules: &mut Vec<u32>, number: u32, is_used: bool) -> Result<(), AllocError>
    ensures { IfOk result (λ _. rules.new.items ≡ rules.old.items ++ cond is_used (number ∷ []) []) }
{
    if is_used {
        rules.push(number)?;
    }
    Ok(())
}
