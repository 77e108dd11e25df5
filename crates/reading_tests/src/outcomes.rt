//! The result of reading a text: the program, with expressions in prefix notation, or the refusal.

use itoa::Buffer;
use its_model::{Atom, Name, Program, Rel, Rule};
use its_reader::{LimitKind, ReadError, read};
use model::Memory;
use poly_terms::Expr;
use std::alloc::{AllocError, Global};

/// The result of reading.
#[derive(Drop)]
pub(crate) enum Outcome {
    /// The symbols, the start and the rules.
    Program(String),
    /// The first fault of the text, and its byte.
    Refused(&'static str, u64),
}

/// The result of reading a text.
pub(crate) fn outcome_of(alloc: Global, text: &[u8]) -> Result<Outcome, Memory> {
    match read(alloc, text) {
        Ok(program) => {
            let mut out = Vec::new(alloc);
            push_program(&mut out, &program)?;
            Ok(Outcome::Program(text_from(alloc, &out)?))
        }
        Err(error) => refusal(&error),
    }
}

// Bytes as text.
fn text_from(alloc: Global, bytes: &[u8]) -> Result<String, Memory> {
    String::from_str(alloc, str::from_utf8(bytes).unwrap_or("no text"))
}

fn push_program(out: &mut Vec<u8>, p: &Program) -> Result<(), Memory> {
    for symbol in &p.symbols {
        push_name(out, &symbol.name)?;
        out.push(b'/')?;
        push_number(out, symbol.arity as i128)?;
        out.push(b' ')?;
    }
    push_number(out, p.start as i128)?;
    push_names(out, &p.start_names)?;
    for rule in &p.rules {
        push_rule(out, rule)?;
    }
    Ok(())
}

// A rule: from where to where, how many left and free variables there are, their names, the updates, the guard, and
// the cost where there is one.
fn push_rule(out: &mut Vec<u8>, rule: &Rule) -> Result<(), Memory> {
    out.extend_from_slice(b" | ")?;
    push_number(out, rule.source as i128)?;
    out.push(b'>')?;
    push_number(out, rule.target as i128)?;
    out.push(b' ')?;
    push_number(out, rule.left as i128)?;
    out.push(b'+')?;
    push_number(out, rule.free as i128)?;
    push_names(out, &rule.names)?;
    for update in &rule.updates {
        out.push(b' ')?;
        push_expr(out, update)?;
    }
    for atom in &rule.guard {
        push_atom(out, atom)?;
    }
    push_cost(out, &rule.cost)
}

fn push_cost(out: &mut Vec<u8>, cost: &Option<Expr>) -> Result<(), Memory> {
    match cost {
        Some(cost) => {
            out.extend_from_slice(b" $ ")?;
            push_expr(out, cost)
        }
        None => Ok(()),
    }
}

fn push_atom(out: &mut Vec<u8>, atom: &Atom) -> Result<(), Memory> {
    match atom {
        Atom::Always => out.extend_from_slice(b" ? always"),
        Atom::Compare { left, rel, right } => {
            out.extend_from_slice(b" ? ")?;
            push_expr(out, left)?;
            out.extend_from_slice(relation(*rel))?;
            push_expr(out, right)
        }
    }
}

fn relation(rel: Rel) -> &'static [u8] {
    match rel {
        Rel::Ge => b" >= ",
        Rel::Gt => b" > ",
        Rel::Le => b" <= ",
        Rel::Lt => b" < ",
        Rel::Eq => b" = ",
    }
}

// An expression, each operator before its operands; variables by number.
fn push_expr(out: &mut Vec<u8>, e: &Expr) -> Result<(), Memory> {
    match e {
        Expr::Num(z) => push_number(out, *z),
        Expr::Var(v) => {
            out.push(b'v')?;
            push_number(out, *v as i128)
        }
        Expr::Neg(d) => {
            out.push(b'~')?;
            push_expr(out, d)
        }
        Expr::Add(d, f) => {
            out.push(b'+')?;
            push_expr(out, d)?;
            out.push(b' ')?;
            push_expr(out, f)
        }
        Expr::Sub(d, f) => {
            out.push(b'-')?;
            push_expr(out, d)?;
            out.push(b' ')?;
            push_expr(out, f)
        }
        Expr::Mul(d, f) => {
            out.push(b'*')?;
            push_expr(out, d)?;
            out.push(b' ')?;
            push_expr(out, f)
        }
        Expr::Pow(d, n) => {
            out.push(b'^')?;
            push_number(out, *n as i128)?;
            out.push(b' ')?;
            push_expr(out, d)
        }
    }
}

fn push_names(out: &mut Vec<u8>, names: &[Name]) -> Result<(), Memory> {
    out.push(b'(')?;
    for name in names {
        push_name(out, name)?;
        out.push(b' ')?;
    }
    out.push(b')')?;
    Ok(())
}

fn push_name(out: &mut Vec<u8>, name: &Name) -> Result<(), Memory> {
    out.extend_from_slice(&name.bytes)
}

fn push_number(out: &mut Vec<u8>, number: i128) -> Result<(), Memory> {
    let mut buffer = Buffer::new();
    out.extend_from_slice(buffer.format(number).as_bytes())
}

fn refusal(error: &ReadError) -> Result<Outcome, Memory> {
    let (kind, at) = match error {
        ReadError::NotAscii { at } => ("NotAscii", *at),
        ReadError::Syntax { at } => ("Syntax", *at),
        ReadError::MissingSection { at } => ("MissingSection", *at),
        ReadError::RepeatedSection { at } => ("RepeatedSection", *at),
        ReadError::ManyTargets { at } => ("ManyTargets", *at),
        ReadError::LeftNotVariable { at } => ("LeftNotVariable", *at),
        ReadError::LeftRepeated { at } => ("LeftRepeated", *at),
        ReadError::ArityDiffers { at } => ("ArityDiffers", *at),
        ReadError::NumberTooLarge { at } => ("NumberTooLarge", *at),
        ReadError::Limit { kind, at } => (limit(*kind), *at),
        ReadError::StartUnknown { at } => ("StartUnknown", *at),
        ReadError::Disjunction { at } => ("Disjunction", *at),
        ReadError::Memory => return Err(AllocError),
    };
    Ok(Outcome::Refused(kind, at))
}

fn limit(kind: LimitKind) -> &'static str {
    match kind {
        LimitKind::Rules => "Limit Rules",
        LimitKind::Arity => "Limit Arity",
        LimitKind::Variables => "Limit Variables",
        LimitKind::Atoms => "Limit Atoms",
        LimitKind::Name => "Limit Name",
        LimitKind::Tokens => "Limit Tokens",
        LimitKind::Terms => "Limit Terms",
        LimitKind::Degree => "Limit Degree",
    }
}
