//! Computes the lead of nonterminals at a class of pieces, from the rules of a grammar.

ghost use Rattle.std.specs.Prelude.{◌≡◌, List, [], ◌∷◌, IfOk, IsTrue};
ghost use Rattle.text_core.specs.Readers.{onto};
ghost use Rattle.text_grammar.specs.Leads.{Lead, Stuck, better, entry, lead, lead_among, row_after};
ghost use Rattle.text_grammar.specs.Spelled.{alternatives_of, body_of};
ghost use Rattle.text_grammar.specs.Views.{lead_of, alternatives_in, rules_view};

use crate::entry::Entry;
use crate::symbol::{Item, Symbol};
use std::alloc::{AllocError, Global};

/// The lead of a nonterminal at a class, by the rules of a grammar, after this many rounds. The recursion is as deep as
/// nonterminals begin with one another, which is at most the number of rounds.
///
/// # Errors
///
/// `AllocError` if an allocation fails.
#[cycle(lead)]
pub(crate) fn lead_of_nonterminal(
    alloc: Global,
    rules: &[&[Item]],
    class: u32,
    number: u32,
    rounds: u32,
) -> Result<Entry, AllocError>
    ensures { IfOk result (λ e. lead_of e ≡ entry (row_after (rules_view rules.now) class rounds) number) }
{
    if rounds == 0 {
        return Ok(Entry::Stuck);
    }
    match rules.get(number as usize) {
        Some(bodies) => lead_of_bodies(alloc, rules, class, bodies, rounds - 1),
        None => Ok(Entry::Stuck),
    }
}

// The lead of a nonterminal whose alternatives are at the front of these items.
#[cycle(lead)]
fn lead_of_bodies(
    alloc: Global,
    rules: &[&[Item]],
    class: u32,
    bodies: &[Item],
    rounds: u32,
) -> Result<Entry, AllocError>
    ensures { IfOk result (λ e. lead_of e
        ≡ lead_among class (row_after (rules_view rules.now) class rounds) (alternatives_of bodies.now)) }
{
    let mut found = Entry::Stuck;
    let mut next = Some(bodies);
    while let Some(body) = next {
        if !begins_with_another(class, body) {
            found = better_of(found, lead_of_body(alloc, rules, class, body, rounds)?);
        }
        next = behind_or(body);
    }
    Ok(found)
}

// The lead of the body at the front of these items.
#[cycle(lead)]
fn lead_of_body(
    alloc: Global,
    rules: &[&[Item]],
    class: u32,
    body: &[Item],
    rounds: u32,
) -> Result<Entry, AllocError>
    ensures { IfOk result (λ e. lead_of e
        ≡ lead class (row_after (rules_view rules.now) class rounds) (body_of body.now)) }
{
    let mut marks = Vec::new(alloc);
    let mut left = body;
    while let Some((item, after)) = left.split_first() {
        left = after;
        match item {
            Item::APiece(other) if *other == class => {
                let rest = stack_of(alloc, left)?;
                return Ok(Entry::Matches { marks, rest });
            }
            Item::APiece(_) => return Ok(Entry::Stuck),
            Item::AMark(mark) => marks.push(*mark)?,
            Item::AMade(number) => match lead_of_nonterminal(
                alloc, rules, class, *number, rounds,
            )? {
                Entry::Stuck => return Ok(Entry::Stuck),
                Entry::Passes { marks: more } => marks.extend_from_slice(&more)?,
                Entry::Matches {
                    marks: more,
                    rest: inner,
                } => {
                    marks.extend_from_slice(&more)?;
                    let mut rest = stack_of(alloc, left)?;
                    rest.extend_from_slice(&inner)?;
                    return Ok(Entry::Matches { marks, rest });
                }
            },
            Item::Or | Item::End => break,
        }
    }
    Ok(Entry::Passes { marks })
}

// Whether the first symbol of the body at the front of these items, apart from marks, is a piece of another class. Then
// no piece of the class can come first. For most bodies this quick test suffices, and it needs no memory. It may answer
// no although no piece of the class can come first.
fn begins_with_another(class: u32, body: &[Item]) -> bool
    ensures { IsTrue result → (row : List Lead) → lead class row (body_of body.now) ≡ Stuck }
{
    for item in body {
        match item {
            Item::APiece(other) => return *other != class,
            Item::AMark(_) => {}
            Item::AMade(_) | Item::Or | Item::End => return false,
        }
    }
    false
}

// The items after the `Or` that ends the first body, if one does.
fn behind_or(body: &[Item]) -> Option<&[Item]>
    ensures { alternatives_of body.now ≡ body_of body.now ∷ alternatives_in result }
{
    let mut left = body;
    while let Some((item, after)) = left.split_first() {
        left = after;
        match item {
            Item::APiece(_) | Item::AMade(_) | Item::AMark(_) => {}
            Item::Or => return Some(left),
            Item::End => return None,
        }
    }
    None
}

// The better of two entries: one that matches, else one that passes; if both do, the first one.
fn better_of(first: Entry, second: Entry) -> Entry
    ensures { lead_of result ≡ better (lead_of first) (lead_of second) }
{
    match (first, second) {
        (Entry::Matches { marks, rest }, _) => Entry::Matches { marks, rest },
        (Entry::Passes { .. }, Entry::Matches { marks, rest }) => Entry::Matches { marks, rest },
        (Entry::Passes { marks }, _) => Entry::Passes { marks },
        (Entry::Stuck, second) => second,
    }
}

// The body at the front of these items, as a stack.
fn stack_of(alloc: Global, body: &[Item]) -> Result<Vec<Symbol>, AllocError>
    ensures { IfOk result (λ stack. onto stack.items [] ≡ body_of body.now) }
{
    let mut stack = Vec::new(alloc);
    for item in body {
        match item {
            Item::APiece(class) => stack.push(Symbol::Piece(*class))?,
            Item::AMade(number) => stack.push(Symbol::Made(*number))?,
            Item::AMark(mark) => stack.push(Symbol::Mark(*mark))?,
            Item::Or | Item::End => break,
        }
    }
    stack.reverse();
    Ok(stack)
}
