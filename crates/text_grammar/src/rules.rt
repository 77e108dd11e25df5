//! The rules that a row of items spells.

ghost use Rattle.std.specs.Prelude.{◌≡◌, IfOk};
ghost use Rattle.text_grammar.specs.Grammars.{rules_of as rules_spelled};
ghost use Rattle.text_grammar.specs.Views.{rules_view};

use crate::symbol::Item;
use std::alloc::{AllocError, Global};

/// The rules that items spell: for each nonterminal, the items from its first alternative on.
///
/// # Errors
///
/// `AllocError` if an allocation fails.
pub fn rules_of<'a>(alloc: Global, items: &'a [Item]) -> Result<Vec<&'a [Item]>, AllocError>
    ensures { IfOk result (λ rules. rules_view rules.items ≡ rules_spelled items.now) }
{
    let mut rules = Vec::new(alloc);
    let mut rule = items;
    let mut left = items;
    while let Some((item, after)) = left.split_first() {
        left = after;
        if let Item::End = item {
            rules.push(rule)?;
            rule = left;
        }
    }
    Ok(rules)
}
