//! The graph of a program, built once for many questions.

ghost use Rattle.std.specs.Prelude.{◌≡◌, ◌↔◌, ℕ, ◌+◌, ◌<◌, ◌≤◌, ◌^◌, length, map, All, IfOk, OnOk, slice_index_or};
ghost use Rattle.std.specs.Prelude.{None, true, false, replicate, ◌==◌, ◌&&◌, ◌||◌, if◌then◌else◌, ◌++◌, ◌∷◌, []};
ghost use Rattle.std.specs.List.{Contains};
ghost use Rattle.std.specs.List.Sorted.{IsStrictlyIncreasing};
ghost use Rattle.model.specs.Programs.{Program as PlainProgram};
ghost use Rattle.model.specs.Paths.{Path, IsReached, IsInSet, pre};
ghost use Rattle.its_model.specs.Views.{program_of};
ghost use Rattle.its_graph.specs.Groups.{values_in, Joins};
ghost use Rattle.its_graph.specs.Links.{arrivals, members_from, shared_leader};
ghost use Rattle.its_graph.specs.Graphs.{IsGraphOf, none_of, flagged, ArePartsBelow, ArePartsOf, HaveSameSets};

use crate::flood::{KNOWN, UNKNOWN, fill};
use crate::links::{allowed_links, link_limit, links_in, symbol_limit, uncut};
use crate::listing::leaders_in;
use crate::pairs::{grouped, swapped};
use its_model::Program;
use model::Memory;
use std::alloc::Global;

/// The graph of a program: its symbols, with an edge from source to target for each rule, and the virtual entry, rule
/// 0, which leads to the start symbol.
#[derive(Debug, Drop)]
pub struct Graph {
    pub start: u32,
    /// An upper bound on the numbers of symbols.
    pub symbols: usize,
    /// The source and the target of rule 1, rule 2 and so on.
    pub links: Vec<(u32, u32)>,
    /// For each symbol the virtual entry and the rules that lead to it, ascending.
    pub arriving: Vec<Vec<u32>>,
}

impl Graph {
    /// The graph of a program. The time is linear in its symbols and rules.
    ///
    /// # Errors
    ///
    /// `Memory` if an allocation fails.
    pub fn new(alloc: Global, p: &Program) -> Result<Graph, Memory>
        requires { length p.now.rules.items < 2 ^ 32 }
        ensures { IfOk result (λ graph. IsGraphOf graph (program_of p.now)) }
    {
        let symbols = symbol_limit(&p.rules)
            .max(p.start as usize + 1)
            .max(p.symbols.len());
        let links = links_in(alloc, &p.rules)?;
        let arriving = grouped(alloc, symbols, &arrivals_of(alloc, p.start, &links)?)?;
        Ok(Graph {
            start: p.start,
            symbols,
            links,
            arriving,
        })
    }

    /// The rules that can come just before a rule, ascending: those that lead to its source, and the virtual entry, 0,
    /// if that is the start symbol.
    pub fn pre(&self, rule: u32) -> &[u32]
        requires graph { (p : PlainProgram) × IsGraphOf self.now p }
        requires number { (0 < rule) × (rule ≤ length self.now.links.items) }
        ensures { (p : PlainProgram) → IsGraphOf self.now p → result.now ≡ pre p rule }
    {
        let (source, _) = self.links[rule as usize - 1];
        &self.arriving[source as usize]
    }

    /// For each symbol whether a path of rules that aren't cut leads to it from the start symbol. The time is linear in
    /// symbols, rules and cut.
    ///
    /// # Errors
    ///
    /// `Memory` if an allocation fails.
    pub fn reached(&self, alloc: Global, cut: &[u32]) -> Result<Vec<bool>, Memory>
        requires { (p : PlainProgram) × IsGraphOf self.now p }
        ensures one_each { IfOk result (λ seen. length seen.items ≡ self.now.symbols) }
        ensures reached { IfOk result (λ seen. (p : PlainProgram) → IsGraphOf self.now p
            → (b : ℕ) → (slice_index_or seen.items b false ≡ true) ↔ IsReached p (none_of cut.now) b) }
    {
        let allowed = uncut(alloc, self.links.len(), cut)?;
        let links = allowed_links(alloc, &self.links, &allowed)?;
        let next = grouped(alloc, self.symbols, &links)?;
        flooded(alloc, &next, self.start)
    }

    /// The set of a rule without a time, ascending: the rule itself, and each rule without a time from whose target a
    /// path of rules without a time, possibly empty, leads to its source. The time is linear in symbols and rules.
    ///
    /// # Errors
    ///
    /// `Memory` if an allocation fails.
    pub fn back_closure(
        &self,
        alloc: Global,
        untimed: &[bool],
        rule: u32,
    ) -> Result<Vec<u32>, Memory>
        requires graph { (p : PlainProgram) × IsGraphOf self.now p }
        requires flags { length untimed.now ≡ length self.now.links.items + 1 }
        requires entry { slice_index_or untimed.now 0 false ≡ false }
        requires untimed_rule { slice_index_or untimed.now rule false ≡ true }
        ensures ascending { IfOk result (λ found. IsStrictlyIncreasing found.items) }
        ensures members { IfOk result (λ found. (p : PlainProgram) → IsGraphOf self.now p
            → (e : ℕ) → Contains found.items e ↔ IsInSet p (flagged untimed.now) rule e) }
    {
        let links = allowed_links(alloc, &self.links, untimed)?;
        let previous = grouped(alloc, self.symbols, &swapped(alloc, &links)?)?;
        let (source, _) = self.links[rule as usize - 1];
        let seen = flooded(alloc, &previous, source)?;
        members(alloc, &self.links, untimed, &seen, rule)
    }

    /// For each rule, by its number, the strongly connected component of the graph of the rules without a time that has
    /// both its source and its target, named by the component's least symbol; none if these are in different
    /// components, nor for the virtual entry, 0. The rules without a time of one component have the same set. The time
    /// is near-linear in symbols and rules.
    ///
    /// # Errors
    ///
    /// `Memory` if an allocation fails.
    pub fn parts(&self, alloc: Global, untimed: &[bool]) -> Result<Vec<Option<u32>>, Memory>
        requires graph { (p : PlainProgram) × IsGraphOf self.now p }
        requires flags { length untimed.now ≡ length self.now.links.items + 1 }
        ensures one_each { IfOk result (λ parts. length parts.items ≡ length untimed.now) }
        ensures within { IfOk result (λ parts. ArePartsBelow self.now.symbols parts.items) }
        ensures named { IfOk result (λ parts. (p : PlainProgram) → IsGraphOf self.now p
            → ArePartsOf p (flagged untimed.now) parts.items) }
        ensures sets { IfOk result (λ parts. (p : PlainProgram) → IsGraphOf self.now p
            → HaveSameSets p (flagged untimed.now) parts.items) }
    {
        let links = allowed_links(alloc, &self.links, untimed)?;
        let leaders = leaders_in(alloc, link_limit(&self.links), &links)?;
        let parts = shared_leaders(alloc, &self.links, &leaders)?;
        Ok(parts)
    }
}

// The virtual entry and the rules, listed by the symbol that each leads to.
fn arrivals_of(alloc: Global, start: u32, links: &[(u32, u32)]) -> Result<Vec<(u32, u32)>, Memory>
    requires { length links.now < 2 ^ 32 }
    ensures { IfOk result (λ pairs. pairs.items ≡ arrivals start links.now) }
{
    let mut pairs = Vec::with_capacity(alloc, links.len())?;
    pairs.push((start, 0))?;
    for (position, (_, target)) in links.iter().enumerate() {
        pairs.push((*target, position as u32 + 1))?;
    }
    Ok(pairs)
}

// A flag for each node: whether a path, possibly empty, leads to it from the node `start`.
fn flooded(alloc: Global, next: &[Vec<u32>], start: u32) -> Result<Vec<bool>, Memory>
    requires within { start < length next.now }
    requires edges_within { (a : ℕ) → All (λ b. b < length next.now) (values_in next.now a) }
    ensures one_each { IfOk result (λ seen. length seen.items ≡ length next.now) }
    ensures reached { IfOk result
        (λ seen. (b : ℕ) → (slice_index_or seen.items b false ≡ true) ↔ Path (Joins next.now) start b) }
{
    let mut colors = no_colors(alloc, next.len())?;
    fill(alloc, next, &mut colors, start, UNKNOWN, KNOWN)?;
    are_known(alloc, &colors)
}

// A colour for each node, all unknown.
fn no_colors(alloc: Global, count: usize) -> Result<Vec<u8>, Memory>
    ensures { IfOk result (λ colors. colors.items ≡ replicate count 0) }
{
    vec![in alloc; UNKNOWN; count]
}

// A flag for each node: whether it is known.
fn are_known(alloc: Global, colors: &[u8]) -> Result<Vec<bool>, Memory>
    ensures { IfOk result (λ flags. flags.items ≡ map (λ color. color == 2) colors.now) }
{
    colors.iter().map(|color| *color == KNOWN).collect(alloc)
}

// The numbers of the rules in the set of a rule; `seen` marks the symbols from which its source is reached.
fn members(
    alloc: Global,
    links: &[(u32, u32)],
    untimed: &[bool],
    seen: &[bool],
    rule: u32,
) -> Result<Vec<u32>, Memory>
    requires few { length links.now < 2 ^ 32 }
    requires flags { length untimed.now ≡ length links.now + 1 }
    requires within { All (λ e. e.1 < length seen.now) links.now }
    ensures { IfOk result (λ found. found.items ≡ members_from untimed.now seen.now rule 1 links.now) }
{
    let mut found = Vec::new(alloc);
    for (position, (_, target)) in links.iter().enumerate() {
        let number = position as u32 + 1;
        let is_in = is_in_set(untimed, seen, rule, number, *target);
        push_member(&mut found, number, is_in)?;
    }
    Ok(found)
}

// Whether a rule, given by its number and target, is in the set of a rule.
fn is_in_set(untimed: &[bool], seen: &[bool], rule: u32, number: u32, target: u32) -> bool
    requires flag { number < length untimed.now }
    requires within { target < length seen.now }
    ensures { result
        ≡ ((number == rule) || (slice_index_or untimed.now number false && slice_index_or seen.now target false)) }
{
    number == rule || (untimed[number as usize] && seen[target as usize])
}

// Appends a number if it is a member.
fn push_member(found: &mut Vec<u32>, number: u32, is_member: bool) -> Result<(), Memory>
    ensures { OnOk result (found.new.items ≡ found.old.items ++ (if is_member then number ∷ [] else [])) }
{
    if is_member {
        found.push(number)?;
    }
    Ok(())
}

// For each link, the leader of both its ends, or none if they have different ones; the virtual entry, which comes
// first, has none.
fn shared_leaders(
    alloc: Global,
    links: &[(u32, u32)],
    leaders: &[u32],
) -> Result<Vec<Option<u32>>, Memory>
    requires { All (λ e. (e.0 < length leaders.now) × (e.1 < length leaders.now)) links.now }
    ensures { IfOk result (λ parts. parts.items ≡ None ∷ map (shared_leader leaders.now) links.now) }
{
    let mut parts = Vec::new(alloc);
    parts.push(None)?;
    for link in links {
        parts.push(leader_of_both(leaders, *link))?;
    }
    Ok(parts)
}

// The leader of both ends of a link, or none if they have different ones.
fn leader_of_both(leaders: &[u32], link: (u32, u32)) -> Option<u32>
    requires from { link.0 < length leaders.now }
    requires to { link.1 < length leaders.now }
    ensures { result ≡ shared_leader leaders.now link }
{
    let (from, to) = link;
    let leader = leaders[from as usize];
    let is_same = leader == leaders[to as usize];
    if is_same { Some(leader) } else { None }
}
