//! The answer to a line: a call, and after a blank copies, branches and rules, divided by semicolons, or rules alone.

ghost use Rattle.its_model.specs.Valid.{IsValid};
ghost use Rattle.its_model.specs.Views.{program_of};

use crate::programs::{all_rows, program};
use crate::sections::section;
use fact_makers::{section_by_symbol, section_with_facts};
use its_model::Program;
use model::Memory;
use refined_programs::{Section, spell};
use refinement_check::{AcceptError, SectionFault, accept};
use section_makers::{
    section_by_guards, section_by_last_rule, section_with_peeled_loops,
    section_with_unrolled_loops, without_large_atoms,
};
use section_writer::print_section;
use std::alloc::{AllocError, Global};

/// Answers a line. `accept` is answered by `accepted`, or by the first fault: the number of a copy, of a branch or of
/// an end, and then of a fact. `rules` is answered by the number of symbols of the program that the section spells, and
/// by the source and the target of each of its rules; and `text` by the section's text, with `/` for a line feed.
/// `last`, `section_with_peeled_loops`, `section_with_unrolled_loops` and `cells` have rules alone: they are answered as `accept` and `rules` are of a
/// section that is made of their program; `facts` and `facts_of_cells` as `accept` and `text` are of a section with
/// further facts; and `small` by how many atoms each rule keeps if those with numbers over 100 are left out.
pub(crate) fn answer(alloc: Global, line: &str) -> Result<String, Memory> {
    let Some((call, rest)) = line.split_once(' ') else {
        return String::from_str(alloc, line);
    };
    match call {
        "accept" | "rules" | "text" => answer_on_section(alloc, call, rest),
        "last" | "peeled" | "unrolled" | "cells" | "facts" | "facts_of_cells" | "small" => {
            match program(alloc, rest)? {
                None => String::from_str(alloc, "not read"),
                Some(p) => answer_on_program(alloc, call, &p),
            }
        }
        _ => String::from_str(alloc, line),
    }
}

// The answer about a section that is written in the line.
fn answer_on_section(alloc: Global, call: &str, rest: &str) -> Result<String, Memory> {
    let Some((copies, rest)) = rest.split_once(';') else {
        return String::from_str(alloc, "no section");
    };
    let Some((branches, rules)) = rest.split_once(';') else {
        return String::from_str(alloc, "no section");
    };
    let Some(p) = program(alloc, rules)? else {
        return String::from_str(alloc, "not read");
    };
    let section = section(alloc, copies, branches)?;
    match call {
        "rules" => rules_text(alloc, &p, &section),
        "text" => section_text(alloc, &p, &section),
        _ => accepted_text(alloc, &p, &section),
    }
}

// The answer about what is made of a program.
fn answer_on_program(alloc: Global, call: &str, p: &Program) -> Result<String, Memory>
    requires { IsValid (program_of p.now) }
{
    match call {
        "last" => acceptance_and_rules_text(alloc, p, &section_by_last_rule(alloc, p)?),
        "peeled" => acceptance_and_rules_text(alloc, p, &section_with_peeled_loops(alloc, p)?),
        "unrolled" => acceptance_and_rules_text(alloc, p, &section_with_unrolled_loops(alloc, p)?),
        "cells" => acceptance_and_rules_text(
            alloc,
            p,
            &section_by_guards(alloc, p, &all_rows(alloc, p)?)?,
        ),
        "facts" => facts_text(alloc, p, section_by_symbol(alloc, p)?),
        "facts_of_cells" => facts_text(
            alloc,
            p,
            section_by_guards(alloc, p, &all_rows(alloc, p)?)?,
        ),
        _ => atoms_text(alloc, &without_large_atoms(alloc, p, 100)?),
    }
}

// Whether a section is accepted, and the symbols and rules of its program.
fn acceptance_and_rules_text(
    alloc: Global,
    p: &Program,
    section: &Section,
) -> Result<String, Memory>
    requires { IsValid (program_of p.now) }
{
    let accepted = accepted_text(alloc, p, section)?;
    let rules = rules_text(alloc, p, section)?;
    format!(in alloc; "{accepted}, {rules}")
}

// Whether a section with further facts is accepted, and its text.
fn facts_text(alloc: Global, p: &Program, section: Section) -> Result<String, Memory>
    requires { IsValid (program_of p.now) }
{
    let section = section_with_facts(alloc, p, &all_rows(alloc, p)?, section)?;
    let accepted = accepted_text(alloc, p, &section)?;
    let text = section_text(alloc, p, &section)?;
    format!(in alloc; "{accepted}, {text}")
}

// The text of a section, with `/` for a line feed.
fn section_text(alloc: Global, p: &Program, section: &Section) -> Result<String, Memory> {
    let mut line = Vec::new(alloc);
    for byte in &print_section(alloc, p, section)? {
        line.push(if *byte == b'\n' { b'/' } else { *byte })?;
    }
    String::from_str(alloc, str::from_utf8(&line).unwrap_or("no text"))
}

// How many atoms each rule has.
fn atoms_text(alloc: Global, p: &Program) -> Result<String, Memory> {
    let mut text = String::new(alloc);
    for rule in &p.rules {
        if !text.is_empty() {
            text.push_str(" ")?;
        }
        let number = format!(in alloc; "{}", rule.guard.len())?;
        text.push_str(&number)?;
    }
    Ok(text)
}

// Whether a section is accepted, or its first fault.
fn accepted_text(alloc: Global, p: &Program, section: &Section) -> Result<String, Memory>
    requires { IsValid (program_of p.now) }
{
    match accept(alloc, p, section) {
        Ok(()) => String::from_str(alloc, "accepted"),
        Err(AcceptError::Wrong(fault)) => fault_text(alloc, fault),
        Err(AcceptError::Memory) => Err(AllocError),
    }
}

// A fault in words.
fn fault_text(alloc: Global, fault: SectionFault) -> Result<String, Memory> {
    match fault {
        SectionFault::Start => String::from_str(alloc, "start"),
        SectionFault::Facts { copy } => format!(in alloc; "facts {}", copy),
        SectionFault::Branch { branch } => format!(in alloc; "from {}", branch),
        SectionFault::Test { branch } => format!(in alloc; "if {}", branch),
        SectionFault::Shape { end } => format!(in alloc; "shape {}", end),
        SectionFault::Rules => String::from_str(alloc, "rules"),
        SectionFault::Limit { end } => format!(in alloc; "limit {}", end),
        SectionFault::Never { end } => format!(in alloc; "never {}", end),
        SectionFault::Fact { end, fact } => format!(in alloc; "fact {} {}", end, fact),
    }
}

// The number of symbols of the program that a section spells, and the source and the target of each rule.
fn rules_text(alloc: Global, p: &Program, section: &Section) -> Result<String, Memory> {
    let spelled = spell(alloc, p, section)?;
    let mut text = format!(in alloc; "{} symbols:", spelled.symbols.len())?;
    for rule in &spelled.rules {
        let ends = format!(in alloc; " {}>{}", rule.source, rule.target)?;
        text.push_str(&ends)?;
    }
    Ok(text)
}
