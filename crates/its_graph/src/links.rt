//! The links between symbols: one for each rule, from its source to its target.

ghost use Rattle.std.specs.Prelude.{◌≡◌, ℕ, ◌<◌, ◌≤◌, ◌^◌, map, length, All, IfOk, OnOk, ◌++◌, ◌∷◌, [], if◌then◌else◌};
ghost use Rattle.std.specs.Prelude.{replicate, suc, true, false};
ghost use Rattle.its_graph.specs.Links.{link_of, LeadBelow, kept_links, all_cut};

use its_model::Rule;
use model::Memory;
use std::alloc::Global;

/// The link of each rule, in the order of the rules.
pub(crate) fn links_in(alloc: Global, rules: &[Rule]) -> Result<Vec<(u32, u32)>, Memory>
    ensures { IfOk result (λ links. links.items ≡ map link_of rules.now) }
{
    let mut links = Vec::with_capacity(alloc, rules.len())?;
    for rule in rules {
        links.push((rule.source, rule.target))?;
    }
    Ok(links)
}

/// A number above that of each symbol of the rules.
pub(crate) fn symbol_limit(rules: &[Rule]) -> usize
    ensures below { LeadBelow result rules.now }
    ensures few { result ≤ 2 ^ 32 }
    ensures least { (n : ℕ) → LeadBelow n rules.now → result ≤ n }
{
    let mut limit = 0usize;
    for rule in rules {
        limit = limit
            .max(rule.source as usize + 1)
            .max(rule.target as usize + 1);
    }
    limit
}

/// A number above both ends of each link.
pub(crate) fn link_limit(links: &[(u32, u32)]) -> usize
    ensures below { All (λ e. (e.0 < result) × (e.1 < result)) links.now }
    ensures few { result ≤ 2 ^ 32 }
    ensures least { (n : ℕ) → All (λ e. (e.0 < n) × (e.1 < n)) links.now → result ≤ n }
{
    let mut limit = 0usize;
    for (from, to) in links {
        limit = limit.max(*from as usize + 1).max(*to as usize + 1);
    }
    limit
}

/// The links of the allowed rules, by a flag for each rule number; number 0 is the virtual entry.
pub(crate) fn allowed_links(
    alloc: Global,
    links: &[(u32, u32)],
    allowed: &[bool],
) -> Result<Vec<(u32, u32)>, Memory>
    requires { length links.now < length allowed.now }
    ensures { IfOk result (λ kept. kept.items ≡ kept_links allowed.now 1 links.now) }
{
    let mut kept = Vec::new(alloc);
    for (position, link) in links.iter().enumerate() {
        push_allowed(&mut kept, *link, allowed[position + 1])?;
    }
    Ok(kept)
}

// Appends a link if it is allowed.
fn push_allowed(
    kept: &mut Vec<(u32, u32)>,
    link: (u32, u32),
    is_allowed: bool,
) -> Result<(), Memory>
    ensures { OnOk result (kept.new.items ≡ kept.old.items ++ (if is_allowed then link ∷ [] else [])) }
{
    if is_allowed {
        kept.push(link)?;
    }
    Ok(())
}

/// A flag for each rule number up to the number of rules: false for the rules that are cut.
pub(crate) fn uncut(alloc: Global, rules: usize, cut: &[u32]) -> Result<Vec<bool>, Memory>
    requires { rules < 2 ^ 32 }
    ensures { IfOk result (λ allowed. allowed.items ≡ all_cut cut.now (replicate (suc rules) true)) }
{
    let mut allowed = all_allowed(alloc, rules + 1)?;
    cut_all(&mut allowed, cut);
    Ok(allowed)
}

// A flag for each number below `count`, all of them true.
fn all_allowed(alloc: Global, count: usize) -> Result<Vec<bool>, Memory>
    ensures { IfOk result (λ allowed. allowed.items ≡ replicate count true) }
{
    vec![in alloc; true; count]
}

// Makes the flags of the numbers of a list false; a number past the flags has none.
fn cut_all(allowed: &mut [bool], cut: &[u32])
    ensures { allowed.new ≡ all_cut cut.now allowed.old }
{
    for number in cut {
        if (*number as usize) < allowed.len() {
            allowed[*number as usize] = false;
        }
    }
}
