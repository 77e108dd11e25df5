//! Prints claims.

ghost use Rattle.std.specs.Prelude.{◌≡◌, ◌++◌, codes, IfOk, OnOk};
ghost use Rattle.signed_bounds.specs.Views.{signed_of};
ghost use Rattle.claim_types.specs.Views.{claim_of, claims_of, support_of};
ghost use Rattle.potential_writer.specs.Claims.{claim_line, claim_lines, side_text, support_text};

use crate::bounds::push_bound;
use crate::numbers::{push_number, push_numbers};
use claim_types::{Claim, Support};
use model::Memory;
use signed_bounds::Signed;
use std::alloc::Global;

/// The lines of claims; a claim on a symbol has none. The call goes as deep as the deepest bound.
///
/// # Errors
///
/// `Memory` where an allocation fails.
pub fn print_claims(alloc: Global, claims: &[Claim]) -> Result<Vec<u8>, Memory>
    ensures { IfOk result (λ text. text.items ≡ claim_lines (claims_of claims.now)) }
{
    let mut text = Vec::new(alloc);
    push_claims(&mut text, claims)?;
    Ok(text)
}

// The lines of claims.
fn push_claims(text: &mut Vec<u8>, claims: &[Claim]) -> Result<(), Memory>
    ensures { OnOk result (text.new.items ≡ text.old.items ++ claim_lines (claims_of claims.now)) }
{
    for claim in claims {
        push_claim(text, claim)?;
    }
    Ok(())
}

// The line of a claim.
fn push_claim(text: &mut Vec<u8>, claim: &Claim) -> Result<(), Memory>
    ensures { OnOk result (text.new.items ≡ text.old.items ++ claim_line (claim_of claim.now)) }
{
    match claim {
        Claim::OnTime(rule, by) => {
            text.extend_from_slice(b"claim time ")?;
            push_number(text, *rule)?;
            text.extend_from_slice(b" by ")?;
            push_support(text, by)?;
            text.extend_from_slice(b"\n")
        }
        Claim::OnCost(rule, by) => {
            text.extend_from_slice(b"claim cost ")?;
            push_number(text, *rule)?;
            text.extend_from_slice(b" by ")?;
            push_support(text, by)?;
            text.extend_from_slice(b"\n")
        }
        Claim::OnTotal(by) => {
            text.extend_from_slice(b"claim total by ")?;
            push_support(text, by)?;
            text.extend_from_slice(b"\n")
        }
        Claim::OnAbove(rule, place, cited, bound) => {
            text.extend_from_slice(b"claim above ")?;
            push_side_line(text, *rule, *place, cited, bound)
        }
        Claim::OnBelow(rule, place, cited, bound) => {
            text.extend_from_slice(b"claim below ")?;
            push_side_line(text, *rule, *place, cited, bound)
        }
        Claim::OnSymbol(_, _) => Ok(()),
    }
}

// The facts that are cited.
fn push_support(text: &mut Vec<u8>, by: &Support) -> Result<(), Memory>
    ensures { OnOk result (text.new.items ≡ text.old.items ++ support_text (support_of by.now)) }
{
    match by {
        Support::ByOne(number) => push_number(text, *number),
        Support::ByEach(numbers, bound) => {
            push_numbers(text, numbers)?;
            text.extend_from_slice(b" to ")?;
            push_bound(text, bound)
        }
    }
}

// A rule and a place, the facts that are cited, the bound, and the end of the line.
fn push_side_line(
    text: &mut Vec<u8>,
    rule: u32,
    place: u32,
    cited: &[u32],
    bound: &Signed,
) -> Result<(), Memory>
    ensures { OnOk result (text.new.items
        ≡ text.old.items ++ (side_text rule place cited.now (signed_of bound.now) ++ codes "\n")) }
{
    push_side(text, rule, place, cited, bound)?;
    text.extend_from_slice(b"\n")
}

// A rule and a place, the facts that are cited, and the bound.
#[tactic(auto, unfolding(crate::specs::Claims::side_text))]
fn push_side(
    text: &mut Vec<u8>,
    rule: u32,
    place: u32,
    cited: &[u32],
    bound: &Signed,
) -> Result<(), Memory>
    ensures { OnOk result (text.new.items
        ≡ text.old.items ++ side_text rule place cited.now (signed_of bound.now)) }
{
    push_number(text, rule)?;
    text.extend_from_slice(b".")?;
    push_number(text, place)?;
    text.extend_from_slice(b" by ")?;
    push_numbers(text, cited)?;
    text.extend_from_slice(b" to ")?;
    push_bound(text, bound)
}
