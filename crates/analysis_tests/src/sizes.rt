//! The sizes of single places and of loops over given tables.

ghost use Rattle.std.specs.Prelude.{◌<◌, length, map};
ghost use Rattle.std.specs.List.{All};
ghost use Rattle.model.specs.Programs.{Program as PlainProgram};
ghost use Rattle.its_graph.specs.Graphs.{IsGraphOf};
ghost use Rattle.its_model.specs.Valid.{IsValid};
ghost use Rattle.its_model.specs.Views.{program_of};
ghost use Rattle.cert_types.specs.cert_rules.AcceptsSizes.{AreAscending};
ghost use Rattle.cert_types.specs.Composing.{AreRowsOf};
ghost use Rattle.cert_types.specs.Views.{member_of};
ghost use Rattle.time_bounds.specs.Candidates.{IsAccepted};

use crate::members::{ascend, members_at};
use crate::programs::all_rows;
use crate::size_texts::answer_text;
use crate::tables::table;
use crate::words::{number, result_variables};
use cert_types::{Member, ResultVariable};
use guard_prep::RuleRows;
use its_graph::Graph;
use its_model::Program;
use model::Memory;
use size_bounds::{SizeAnswer, Table, cycle, spread, uses_of_lemmas};
use std::alloc::Global;

/// The question about members: the size of the only one, or that of all members of a loop.
#[derive(Clone, Copy)]
pub(crate) enum Asked {
    Alone,
    Looping,
}

// A question about members over known bounds.
#[derive(Drop)]
struct SizeQuestion {
    asked: Asked,
    result_variables: Vec<ResultVariable>,
    known: Table,
}

// The answer for the first member by itself.
fn alone(
    alloc: Global,
    g: &Graph,
    prepared_rules: &[RuleRows],
    t: &Table,
    members: &[Member],
) -> Result<SizeAnswer, Memory>
    requires given { (p : PlainProgram) × (IsValid p × (IsGraphOf g.now p × (AreRowsOf prepared_rules.now p
        × All (IsAccepted p) (map member_of members.now)))) }
    requires some { 0 < length members.now }
{
    spread(alloc, g, prepared_rules, t, &members[0])
}

// The answer for the members of a loop.
fn together(
    alloc: Global,
    g: &Graph,
    prepared_rules: &[RuleRows],
    t: &Table,
    members: &[Member],
) -> Result<SizeAnswer, Memory>
    requires given { (p : PlainProgram) × (IsValid p × (IsGraphOf g.now p × (AreRowsOf prepared_rules.now p
        × All (IsAccepted p) (map member_of members.now)))) }
    requires some { 0 < length members.now }
    requires ascending { AreAscending (map member_of members.now) }
{
    cycle(alloc, g, prepared_rules, t, members)
}

// Asks the question about members.
fn asked_of(
    alloc: Global,
    g: &Graph,
    prepared_rules: &[RuleRows],
    question: &SizeQuestion,
    members: &[Member],
) -> Result<String, Memory>
    requires { (p : PlainProgram) × (IsValid p × (IsGraphOf g.now p × (AreRowsOf prepared_rules.now p
        × All (IsAccepted p) (map member_of members.now)))) }
{
    if members.is_empty() {
        return String::from_str(alloc, "no members");
    }
    match question.asked {
        Asked::Alone => {
            let found = alone(alloc, g, prepared_rules, &question.known, members)?;
            answer_text(alloc, &found, members)
        }
        Asked::Looping => {
            let are_ascending = ascend(members);
            if !are_ascending {
                return String::from_str(alloc, "not ascending");
            }
            let found = together(alloc, g, prepared_rules, &question.known, members)?;
            answer_text(alloc, &found, members)
        }
    }
}

// The answer to a question about a program with this graph and these rows.
fn answer_by(
    alloc: Global,
    g: &Graph,
    prepared_rules: &[RuleRows],
    question: &SizeQuestion,
) -> Result<String, Memory>
    requires { (p : PlainProgram) × (IsValid p × (IsGraphOf g.now p × AreRowsOf prepared_rules.now p)) }
{
    let members = members_at(alloc, prepared_rules, &question.result_variables)?;
    asked_of(alloc, g, prepared_rules, question, &members)
}

/// The answer to a question about places of a program, divided by blanks, with the known bounds after a comma.
pub(crate) fn sizes_text(
    alloc: Global,
    p: &Program,
    asked: Asked,
    written: &str,
) -> Result<String, Memory>
    requires { IsValid (program_of p.now) }
{
    let (places, entries) = written.split_once(',').unwrap_or((written, ""));
    let question = SizeQuestion {
        asked,
        result_variables: result_variables(alloc, places)?,
        known: table(alloc, entries)?,
    };
    let graph = Graph::new(alloc, p)?;
    let prepared_rules = all_rows(alloc, p)?;
    answer_by(alloc, &graph, &prepared_rules, &question)
}

/// How lemmas, divided by blanks, are cited.
pub(crate) fn uses_text(alloc: Global, written: &str) -> Result<String, Memory> {
    let mut lemmas = Vec::new(alloc);
    for word in written.split_whitespace() {
        lemmas.push(number(word))?;
    }
    let uses = uses_of_lemmas(alloc, &lemmas)?;
    format!(in alloc; "{uses:?}")
}
