//! The answer to a line: `check`, and after a blank lemmas, ` over ` and rules; or `given` and facts before this.

ghost use Rattle.its_model.specs.Valid.{IsValid};
ghost use Rattle.its_model.specs.Views.{program_of};

use crate::facts::parse_facts;
use crate::lemmas::parse_lemmas;
use crate::programs::program;
use check_potentials::{Ground, LemmaFault, Memory, check_lemmas, prepared_rows};
use its_model::Program;
use potential_types::{Reason, SignedFact, SignedLemma};
use std::alloc::{AllocError, Global};

/// Answers a line. `check` is answered by how many facts are known after the lemmas, if all are accepted, or by the
/// number of the first lemma that isn't, and the first reason, with its rule. Facts that are `given` are known before
/// the lemmas.
pub(crate) fn answer(alloc: Global, line: &str) -> Result<String, Memory> {
    let Some((call, rest)) = line.split_once(' ') else {
        return String::from_str(alloc, line);
    };
    match call {
        "check" => answer_over_rules(alloc, "", rest),
        "given" => {
            let (facts, checked) = rest.split_once(" check ").unwrap_or(("", rest));
            answer_over_rules(alloc, facts, checked)
        }
        _ => String::from_str(alloc, line),
    }
}

// The answer about facts, lemmas and rules.
fn answer_over_rules(alloc: Global, facts: &str, text: &str) -> Result<String, Memory> {
    let Some((lemmas, rules)) = text.split_once(" over ") else {
        return String::from_str(alloc, "no rules");
    };
    match program(alloc, rules)? {
        None => String::from_str(alloc, "not read"),
        Some(p) => {
            let known = parse_facts(alloc, facts)?;
            let listed = parse_lemmas(alloc, lemmas)?;
            verdict_text(alloc, &p, known, &listed)
        }
    }
}

// Whether lemmas are accepted over a program after some facts, or which is refused first.
fn verdict_text(
    alloc: Global,
    p: &Program,
    known: Vec<SignedFact>,
    lemmas: &[SignedLemma],
) -> Result<String, Memory>
    requires { IsValid (program_of p.now) }
{
    let rules = prepared_rows(alloc, p)?;
    let ground = Ground {
        program: p,
        rules: &rules,
    };
    match check_lemmas(alloc, ground, known, lemmas) {
        Ok(facts) => format!(in alloc; "accepted {}", facts.len()),
        Err(LemmaFault::Refused(refusal)) => {
            let reason = reason_text(alloc, refusal.reason)?;
            format!(in alloc; "{} {reason}", refusal.number)
        }
        Err(LemmaFault::Memory) => Err(AllocError),
    }
}

// A reason in words.
fn reason_text(alloc: Global, reason: Reason) -> Result<String, Memory> {
    match reason {
        Reason::BadShape => String::from_str(alloc, "shape"),
        Reason::MissingTime(rule) => format!(in alloc; "missing {}", rule),
        Reason::BadMove(rule) => format!(in alloc; "move {}", rule),
        Reason::BadFloor(rule) => format!(in alloc; "floor {}", rule),
        Reason::BadAmount(rule) => format!(in alloc; "amount {}", rule),
        Reason::BadGain(rule) => format!(in alloc; "gain {}", rule),
        Reason::LowBound => String::from_str(alloc, "bound"),
    }
}
