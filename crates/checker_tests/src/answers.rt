//! The answer to a line: lemmas divided by `|`, after each `!` a gap, and after a semicolon rules from l0.

ghost use Rattle.std.specs.Prelude.{IfOk, IfSome};
ghost use Rattle.its_model.specs.Valid.{IsValid};
ghost use Rattle.its_model.specs.Views.{program_of};

use crate::gaps::gap;
use crate::lemmas::lemma;
use cert_types::{Fact, ProofFile};
use check_file::{CheckError, can_be_numbered, check};
use its_model::Program;
use its_reader::{ReadError, read};
use model::Memory;
use std::alloc::{AllocError, Global};

/// The verdict of the checker on a line.
pub(crate) fn answer(alloc: Global, line: &str) -> Result<String, Memory> {
    let Some((proofs, rules)) = line.split_once(';') else {
        return String::from_str(alloc, line);
    };
    if line.starts_with('#') {
        return String::from_str(alloc, line);
    }
    let file = listed_file(alloc, proofs)?;
    match program(alloc, rules)? {
        None => String::from_str(alloc, "not read"),
        Some(p) => verdict(alloc, &p, &file),
    }
}

// The program with these rules, from l0, if they are read.
fn program(alloc: Global, rules: &str) -> Result<Option<Program>, Memory>
    ensures { IfOk result (λ read. IfSome read (λ p. IsValid (program_of p))) }
{
    let mut text = b"(STARTTERM (FUNCTIONSYMBOLS l0))(RULES ".to_vec(alloc)?;
    text.extend_from_slice(rules.as_bytes())?;
    text.push(b')')?;
    match read(alloc, &text) {
        Ok(p) => Ok(Some(p)),
        Err(ReadError::Memory) => Err(AllocError),
        Err(_) => Ok(None),
    }
}

// The file that a line writes.
fn listed_file(alloc: Global, text: &str) -> Result<ProofFile, Memory> {
    let mut lemmas = Vec::new(alloc);
    let mut gaps = Vec::new(alloc);
    let (shown, open) = text.split_once('!').unwrap_or((text, ""));
    for words in shown.split('|') {
        if let Some(proof) = lemma(alloc, words)? {
            lemmas.push(proof)?;
        }
    }
    for words in open.split('!') {
        if !words.trim().is_empty() {
            gaps.push(gap(alloc, words.trim())?)?;
        }
    }
    Ok(ProofFile { lemmas, gaps })
}

// The verdict of the checker on a file.
fn verdict(alloc: Global, p: &Program, file: &ProofFile) -> Result<String, Memory>
    requires { IsValid (program_of p.now) }
{
    if !can_be_numbered(file) {
        return String::from_str(alloc, "too many");
    }
    match check(alloc, p, file) {
        Ok(facts) => accepted(alloc, &facts),
        Err(
            CheckError::No {
                lemma,
                node,
                reason,
            },
        ) => format!(in alloc; "no lemma {lemma} node {node}: {reason:?}"),
        Err(CheckError::NoGap { gap, fault }) => format!(in alloc; "no gap {gap}: {fault:?}"),
        Err(CheckError::Memory) => Err(AllocError),
    }
}

// That all is accepted, with the facts.
fn accepted(alloc: Global, facts: &[Fact]) -> Result<String, Memory> {
    let mut text = String::from_str(alloc, "accepted")?;
    for fact in facts {
        text.push_str(format!(in alloc; ", {fact:?}")?.as_str())?;
    }
    Ok(text)
}
