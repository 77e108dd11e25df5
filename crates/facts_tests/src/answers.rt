//! The answer to a line: a call, and after a blank facts with their proofs, a semicolon, and rules.

ghost use Rattle.std.specs.Prelude.{IfOk};
ghost use Rattle.its_model.specs.Valid.{IsValid};
ghost use Rattle.its_model.specs.Views.{program_of};

use crate::fact_parser::parse_facts;
use crate::programs::{all_rows, one_line, program};
use facts_certs::facts_cert;
use facts_proof::facts_proof;
use facts_section::facts_section;
use its_model::Program;
use its_writer::print;
use location_facts::{LocFact, LocFacts, facts, facts_fault, strengthen};
use model::Memory;
use refined_programs::SymbolCopy;
use refinement_check::{AcceptError, accept};
use std::alloc::{AllocError, Global};

/// Answers a line. `faults` is answered by the first fault of the facts: `nothing`, or the number of a fact and of a
/// rule. `strengthened` is answered by the canonical text of the program strengthened by them, with `/` for a line
/// feed, if they have no fault. The other calls have a number of pivots in place of facts, and are about the facts that
/// are kept within it: `kept` is answered by these facts, as a line writes them, or `none`, and by their first fault;
/// `found` by the text of the program strengthened by them; `section` by whether the section that they make is
/// accepted, and how many facts each of its copies has; `certified` by the text of the accepted section, with `/` for a
/// line feed, or `nothing`; and `proved` by how many claims the proof file of the analysis with facts has, or `nothing`.
pub(crate) fn answer(alloc: Global, line: &str) -> Result<String, Memory> {
    let Some((call, rest)) = line.split_once(' ') else {
        return String::from_str(alloc, line);
    };
    let Some((facts, rules)) = rest.split_once(';') else {
        return String::from_str(alloc, line);
    };
    match program(alloc, rules)? {
        None => String::from_str(alloc, "not read"),
        Some(p) => match call {
            "faults" => fault_text(alloc, &p, &parse_facts(alloc, facts)?),
            "strengthened" => strengthened_text(alloc, &p, &parse_facts(alloc, facts)?),
            "kept" => kept_text(alloc, &p, pivots_of(facts)),
            "found" => strengthened_by_kept_text(alloc, &p, pivots_of(facts)),
            "section" => section_text(alloc, &p, pivots_of(facts)),
            "certified" => certificate_text(alloc, &p, pivots_of(facts)),
            "proved" => claim_count_text(alloc, &p, pivots_of(facts)),
            _ => String::from_str(alloc, "no call"),
        },
    }
}

// A number of pivots.
fn pivots_of(text: &str) -> u32 {
    text.trim().parse::<u32>().unwrap_or(0)
}

// The first fault of facts, as text.
fn fault_text(alloc: Global, p: &Program, facts: &LocFacts) -> Result<String, Memory>
    requires { IsValid (program_of p.now) }
{
    match facts_fault(alloc, p, &all_rows(alloc, p)?, facts)? {
        None => String::from_str(alloc, "nothing"),
        Some(fault) => format!(in alloc; "fact {} rule {}", fault.fact, fault.rule),
    }
}

// The text of a program strengthened by facts without a fault.
fn strengthened_text(alloc: Global, p: &Program, facts: &LocFacts) -> Result<String, Memory>
    requires { IsValid (program_of p.now) }
{
    match facts_fault(alloc, p, &all_rows(alloc, p)?, facts)? {
        None => one_line(alloc, &print(alloc, &strengthen(alloc, p, facts)?)?),
        Some(_) => String::from_str(alloc, "something is wrong"),
    }
}

// The facts that are kept within a number of pivots, and their first fault.
fn kept_text(alloc: Global, p: &Program, pivots: u32) -> Result<String, Memory>
    requires { IsValid (program_of p.now) }
{
    let found = facts(alloc, p, &all_rows(alloc, p)?, pivots)?;
    let written = facts_text(alloc, &found.kept)?;
    let fault = fault_text(alloc, p, &found)?;
    format!(in alloc; "{written}, {fault} wrong")
}

// Facts as a line writes them.
fn facts_text(alloc: Global, kept: &[LocFact]) -> Result<String, Memory> {
    let mut text = String::new(alloc);
    for fact in kept {
        if !text.is_empty() {
            text.push_str(" | ")?;
        }
        let numbers = format!(in alloc;
            "{} {} {} {}",
            fact.symbol, fact.plus, fact.minus, fact.least
        )?;
        text.push_str(&numbers)?;
    }
    if kept.is_empty() {
        text.push_str("none")?;
    }
    Ok(text)
}

// The program strengthened by the facts that are kept within a number of pivots.
fn strengthened_by_kept(alloc: Global, p: &Program, pivots: u32) -> Result<Program, Memory>
    requires { IsValid (program_of p.now) }
    ensures { IfOk result (λ q. IsValid (program_of q)) }
{
    let found = facts(alloc, p, &all_rows(alloc, p)?, pivots)?;
    strengthen(alloc, p, &found)
}

// The text of the program strengthened by the facts that are kept within a number of pivots.
fn strengthened_by_kept_text(alloc: Global, p: &Program, pivots: u32) -> Result<String, Memory>
    requires { IsValid (program_of p.now) }
{
    let strong = strengthened_by_kept(alloc, p, pivots)?;
    one_line(alloc, &print(alloc, &strong)?)
}

// Whether the section made of the facts that are kept within a number of pivots is accepted, or its first fault.
fn section_text(alloc: Global, p: &Program, pivots: u32) -> Result<String, Memory>
    requires { IsValid (program_of p.now) }
{
    let prepared_rules = all_rows(alloc, p)?;
    let found = facts(alloc, p, &prepared_rules, pivots)?;
    let section = facts_section(alloc, p, &prepared_rules, &found)?;
    match accept(alloc, p, &section) {
        Ok(()) => counts_text(alloc, &section.copies),
        Err(AcceptError::Wrong(fault)) => format!(in alloc; "{fault:?}"),
        Err(AcceptError::Memory) => Err(AllocError),
    }
}

// The text of the section made of the facts that are kept within a number of pivots, if it is accepted.
fn certificate_text(alloc: Global, p: &Program, pivots: u32) -> Result<String, Memory>
    requires { IsValid (program_of p.now) }
{
    let prepared_rules = all_rows(alloc, p)?;
    let found = facts(alloc, p, &prepared_rules, pivots)?;
    match facts_cert(alloc, p, &prepared_rules, &found)? {
        Some(cert) => one_line(alloc, &cert.text),
        None => String::from_str(alloc, "nothing"),
    }
}

// How many claims the proof file of the analysis with the facts that are kept within a number of pivots has.
fn claim_count_text(alloc: Global, p: &Program, pivots: u32) -> Result<String, Memory>
    requires { IsValid (program_of p.now) }
{
    match facts_proof(alloc, p, pivots)? {
        Some(proof) => format!(in alloc; "accepted, claims {}", proof.file.claims.len()),
        None => String::from_str(alloc, "nothing"),
    }
}

// How many facts each copy of an accepted section has.
fn counts_text(alloc: Global, copies: &[SymbolCopy]) -> Result<String, Memory> {
    let mut text = String::from_str(alloc, "accepted, facts")?;
    for copy in copies {
        let number = format!(in alloc; " {}", copy.facts.len())?;
        text.push_str(&number)?;
    }
    Ok(text)
}
