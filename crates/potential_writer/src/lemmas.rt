//! Prints lemmas.

ghost use Rattle.std.specs.Prelude.{◌≡◌, ◌++◌, map, codes, IfOk, OnOk};
ghost use Rattle.its_model.specs.Views.{program_of};
ghost use Rattle.section_writer.specs.Lists.{each_behind, separated};
ghost use Rattle.potential_types.specs.Views.{fall_of, lemma_of, node_of, payment_of, peak_of, phases_node_of, row_node_of};
ghost use Rattle.potential_types.specs.Views.{sized_of};
ghost use Rattle.potential_writer.specs.Lemmas.{fall_text, lemma_line, lemma_lines, node_text, payment_text, peak_text};
ghost use Rattle.potential_writer.specs.Lemmas.{phase_steps_text, phases_text, row_text, sized_text};

use crate::bounds::push_bound;
use crate::certificates::push_certificate;
use crate::combining::push_combination;
use crate::moves::{push_functions, push_table};
use crate::numbers::{push_long, push_numbers};
use crate::phases::{push_counts, push_phase_moves};
use crate::polynomials::push_form;
use its_model::Program;
use model::Memory;
use potential_types::{
    FallNode, Payment, PeakNode, PhasesNode, RowNode, SignedLemma, SignedNode, SizedNode,
};
use std::alloc::Global;

/// The lines of lemmas about a program. The name of a symbol that isn't there is left out. The call goes as deep as the
/// deepest bound.
///
/// # Errors
///
/// `Memory` where an allocation fails.
pub fn print_lemmas(alloc: Global, p: &Program, lemmas: &[SignedLemma]) -> Result<Vec<u8>, Memory>
    ensures { IfOk result (λ text. text.items ≡ lemma_lines (program_of p.now) (map lemma_of lemmas.now)) }
{
    let mut text = Vec::new(alloc);
    push_lemmas(&mut text, p, lemmas)?;
    Ok(text)
}

// The lines of lemmas.
fn push_lemmas(text: &mut Vec<u8>, p: &Program, lemmas: &[SignedLemma]) -> Result<(), Memory>
    ensures { OnOk result (text.new.items
        ≡ text.old.items ++ lemma_lines (program_of p.now) (map lemma_of lemmas.now)) }
{
    for lemma in lemmas {
        push_lemma(text, p, lemma)?;
    }
    Ok(())
}

// The line of a lemma.
fn push_lemma(text: &mut Vec<u8>, p: &Program, lemma: &SignedLemma) -> Result<(), Memory>
    ensures { OnOk result (text.new.items
        ≡ text.old.items ++ lemma_line (program_of p.now) (lemma_of lemma.now)) }
{
    text.extend_from_slice(b"signed ")?;
    push_node(text, p, &lemma.node)?;
    text.extend_from_slice(b" to ")?;
    push_bound(text, &lemma.bound)?;
    text.extend_from_slice(b"\n")
}

// A node.
fn push_node(text: &mut Vec<u8>, p: &Program, node: &SignedNode) -> Result<(), Memory>
    ensures { OnOk result (text.new.items ≡ text.old.items ++ node_text (program_of p.now) (node_of node.now)) }
{
    match node {
        SignedNode::Fall(n) => push_fall(text, p, n),
        SignedNode::Peak(n) => push_peak(text, p, n),
        SignedNode::Row(n) => push_row(text, n),
        SignedNode::Combined(n) => push_combination(text, n),
        SignedNode::Sized(n) => push_sized(text, n),
        SignedNode::InPhases(n) => push_phases(text, p, n),
    }
}

// A potential that pays.
fn push_fall(text: &mut Vec<u8>, p: &Program, n: &FallNode) -> Result<(), Memory>
    ensures { OnOk result (text.new.items
        ≡ text.old.items ++ fall_text (program_of p.now) (fall_of n.now)) }
{
    text.extend_from_slice(b"fall ")?;
    push_table(text, p, &n.potential)?;
    text.extend_from_slice(b" pays [")?;
    push_payments(text, &n.payments)?;
    text.extend_from_slice(b"]")
}

// The payments, with a semicolon and a blank between them.
fn push_payments(text: &mut Vec<u8>, payments: &[Payment]) -> Result<(), Memory>
    ensures { OnOk result (text.new.items
        ≡ text.old.items ++ separated (codes "; ") (map payment_text (map payment_of payments.now))) }
{
    let Some((first, others)) = payments.split_first() else {
        return Ok(());
    };
    push_payment(text, first)?;
    push_more_payments(text, others)
}

// A semicolon and a blank before each payment.
fn push_more_payments(text: &mut Vec<u8>, payments: &[Payment]) -> Result<(), Memory>
    ensures { OnOk result (text.new.items
        ≡ text.old.items ++ each_behind (codes "; ") (map payment_text (map payment_of payments.now))) }
{
    for payment in payments {
        text.extend_from_slice(b"; ")?;
        push_payment(text, payment)?;
    }
    Ok(())
}

// A payment.
fn push_payment(text: &mut Vec<u8>, payment: &Payment) -> Result<(), Memory>
    ensures { OnOk result (text.new.items ≡ text.old.items ++ payment_text (payment_of payment.now)) }
{
    push_form(text, payment.rule, &payment.amount)?;
    text.extend_from_slice(b" ")?;
    push_certificate(text, &payment.floor)?;
    text.extend_from_slice(b" ")?;
    push_certificate(text, &payment.positive)
}

// A potential that covers a polynomial.
fn push_peak(text: &mut Vec<u8>, p: &Program, n: &PeakNode) -> Result<(), Memory>
    ensures { OnOk result (text.new.items
        ≡ text.old.items ++ peak_text (program_of p.now) (peak_of n.now)) }
{
    text.extend_from_slice(b"peak ")?;
    push_form(text, n.rule, &n.form)?;
    text.extend_from_slice(b" ")?;
    push_certificate(text, &n.floor)?;
    text.extend_from_slice(b" ")?;
    push_table(text, p, &n.potential)
}

// A polynomial that is at most a number.
fn push_row(text: &mut Vec<u8>, n: &RowNode) -> Result<(), Memory>
    ensures { OnOk result (text.new.items
        ≡ text.old.items ++ row_text (row_node_of n.now)) }
{
    text.extend_from_slice(b"row ")?;
    push_form(text, n.rule, &n.form)?;
    text.extend_from_slice(b" ")?;
    push_certificate(text, &n.certificate)?;
    text.extend_from_slice(b" most ")?;
    push_long(text, n.number)
}

// A polynomial that is bounded by sizes.
fn push_sized(text: &mut Vec<u8>, n: &SizedNode) -> Result<(), Memory>
    ensures { OnOk result (text.new.items
        ≡ text.old.items ++ sized_text (sized_of n.now)) }
{
    text.extend_from_slice(b"sized ")?;
    push_form(text, n.rule, &n.form)?;
    text.extend_from_slice(b" by ")?;
    push_numbers(text, &n.cited)
}

// Two phases.
fn push_phases(text: &mut Vec<u8>, p: &Program, n: &PhasesNode) -> Result<(), Memory>
    ensures { OnOk result (text.new.items
        ≡ text.old.items ++ phases_text (program_of p.now) (phases_node_of n.now)) }
{
    text.extend_from_slice(b"phases ")?;
    push_functions(text, p, &n.firsts)?;
    text.extend_from_slice(b" ")?;
    push_functions(text, p, &n.seconds)?;
    push_phase_steps(text, n)
}

// The denominator, the moves and the counted rules of two phases.
#[tactic(auto, unfolding(crate::specs::Lemmas::phase_steps_text))]
fn push_phase_steps(text: &mut Vec<u8>, n: &PhasesNode) -> Result<(), Memory>
    ensures { OnOk result (text.new.items ≡ text.old.items ++ phase_steps_text (phases_node_of n.now)) }
{
    text.extend_from_slice(b" den ")?;
    push_long(text, n.den)?;
    text.extend_from_slice(b" moves [")?;
    push_phase_moves(text, &n.moves)?;
    text.extend_from_slice(b"]")?;
    push_counts(text, &n.counted)
}
