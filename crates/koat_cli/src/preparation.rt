//! Prepares the program's answer, before it is written: reads the files of the request, and answers by their contents.

ghost use Rattle.std.specs.Prelude.{◌≡◌, ◌≤◌, ◌<◌, ◌^◌, length, map, string_bytes, IfOk};
ghost use Rattle.its_model.specs.Valid.{IsValid};
ghost use Rattle.its_model.specs.Views.{program_of};
ghost use Rattle.command_line.specs.Requests.{OfProgram, OfPair, OfFile, While};
ghost use Rattle.call_plans.specs.Calls.{shelf_use_of};
ghost use Rattle.call_plans.specs.Plans.{IsAnswerByPlan, HasRow};
ghost use Rattle.koat_cli.specs.Answers.{FetchesNothing, IsAnswer};
ghost use Rattle.koat_cli.specs.Calls.{call_of};
ghost use Rattle.koat_cli.specs.RequestPlans.{plan_of, program_answers, second_plan, number_answers};

use crate::analysis::{report, report_with_facts};
use crate::best::{accepted_certificate, best};
use crate::generated::{figures_answer, generated};
use crate::lasso_reader::Lassos;
use crate::lp_reader::LinearPrograms;
use crate::program_reader::Programs;
use crate::proof_reader::Proofs;
use crate::proving::proof_of_analysis;
use crate::run_reader::Runs;
use crate::while_reader::WhilePrograms;
use crate::while_task::WhileTask;
use call_plans::{FetchResult, Status, StatusText, answer_file, fetch_and_read, status_with_text};
use command_line::{FileTask, NumberTask, PairTask, ProgramTask, Request, parse_request, usage};
use its_model::Program;
use model::Memory;
use outside_io::Shelf;
use std::alloc::Global;

/// Prepares the status and the text of a call with these words. The shelf's contents don't change.
pub(crate) fn prepare<F: Shelf>(
    alloc: Global,
    words: &[String],
    shelf: &mut F,
) -> Result<StatusText, Memory>
    ensures keeps_files { F.files_if_disclosed shelf.new ≡ F.files_if_disclosed shelf.old }
    ensures keeps_count { F.faults shelf.old ≤ F.faults shelf.new }
    ensures untouched { FetchesNothing (map string_bytes words.now) → shelf.new ≡ shelf.old }
    ensures fault { IfOk result (λ reply.
        F.faults shelf.old < F.faults shelf.new → reply.status ≡ Status.ReadFault) }
    ensures says { IfOk result (λ reply.
        IsAnswer (call_of F.Shelf words.now shelf.old shelf.new) reply.status reply.text.items) }
{
    match parse_request(alloc, words)? {
        Some(Request::OfProgram { task, pivots, file }) => {
            answer_program_file(alloc, task, pivots, &file, shelf)
        }
        Some(Request::OfPair { task, file, second }) => {
            answer_pair(alloc, task, &file, &second, shelf)
        }
        Some(Request::OfNumber { task, n }) => answer_number(alloc, task, n),
        Some(Request::OfFile { task, file }) => answer_other_file(alloc, task, &file, shelf),
        Some(Request::While { pivots, file }) => answer_while_file(alloc, pivots, &file, shelf),
        None => status_with_text(alloc, Status::Usage, usage()),
    }
}

// The answer on the program in a file.
fn answer_program_file<F: Shelf>(
    alloc: Global,
    task: ProgramTask,
    pivots: u32,
    file: &String,
    shelf: &mut F,
) -> Result<StatusText, Memory>
    ensures keeps_files { F.files_if_disclosed shelf.new ≡ F.files_if_disclosed shelf.old }
    ensures keeps_count { F.faults shelf.old ≤ F.faults shelf.new }
    ensures fault { IfOk result (λ reply.
        F.faults shelf.old < F.faults shelf.new → reply.status ≡ Status.ReadFault) }
    ensures says { IfOk result (λ reply. IsAnswerByPlan (shelf_use_of F.Shelf shelf.old shelf.new) (F.fetches shelf.old)
        (plan_of (OfProgram task pivots (string_bytes file.now))) reply.status reply.text.items) }
{
    match fetch_and_read(alloc, &Programs, file, shelf)? {
        FetchResult::Answer(reply) => Ok(reply),
        FetchResult::Meaning(program) => answer_program(alloc, task, pivots, &program),
    }
}

// The answer on a program.
fn answer_program(
    alloc: Global,
    task: ProgramTask,
    pivots: u32,
    program: &Program,
) -> Result<StatusText, Memory>
    requires valid { IsValid (program_of program.now) }
    requires few { length (program_of program.now).symbols < 2 ^ 32 }
    ensures { IfOk result (λ reply.
        HasRow (program_answers task pivots (program_of program.now)) reply.status reply.text.items) }
{
    match task {
        ProgramTask::Analyse => report(alloc, program, pivots),
        ProgramTask::Prove => proof_of_analysis(alloc, program, pivots),
        ProgramTask::Facts => report_with_facts(alloc, program, pivots),
        ProgramTask::Best => best(alloc, program, pivots),
        ProgramTask::Certify => accepted_certificate(alloc, program, pivots),
    }
}

// The answer on the program in a file and a second file about it.
fn answer_pair<F: Shelf>(
    alloc: Global,
    task: PairTask,
    file: &String,
    second: &String,
    shelf: &mut F,
) -> Result<StatusText, Memory>
    ensures keeps_files { F.files_if_disclosed shelf.new ≡ F.files_if_disclosed shelf.old }
    ensures keeps_count { F.faults shelf.old ≤ F.faults shelf.new }
    ensures fault { IfOk result (λ reply.
        F.faults shelf.old < F.faults shelf.new → reply.status ≡ Status.ReadFault) }
    ensures says { IfOk result (λ reply. IsAnswerByPlan (shelf_use_of F.Shelf shelf.old shelf.new) (F.fetches shelf.old)
        (plan_of (OfPair task (string_bytes file.now) (string_bytes second.now))) reply.status reply.text.items) }
{
    match fetch_and_read(alloc, &Programs, file, shelf)? {
        FetchResult::Answer(reply) => Ok(reply),
        FetchResult::Meaning(program) => answer_second_file(alloc, task, &program, second, shelf),
    }
}

// The answer on a program and a file about it.
fn answer_second_file<F: Shelf>(
    alloc: Global,
    task: PairTask,
    program: &Program,
    second: &String,
    shelf: &mut F,
) -> Result<StatusText, Memory>
    requires valid { IsValid (program_of program.now) }
    requires few { length (program_of program.now).symbols < 2 ^ 32 }
    ensures keeps_files { F.files_if_disclosed shelf.new ≡ F.files_if_disclosed shelf.old }
    ensures keeps_count { F.faults shelf.old ≤ F.faults shelf.new }
    ensures fault { IfOk result (λ reply.
        F.faults shelf.old < F.faults shelf.new → reply.status ≡ Status.ReadFault) }
    ensures says { IfOk result (λ reply. IsAnswerByPlan (shelf_use_of F.Shelf shelf.old shelf.new) (F.fetches shelf.old)
        (second_plan task (program_of program.now) (string_bytes second.now)) reply.status reply.text.items) }
{
    match task {
        PairTask::Check => answer_file(alloc, &Proofs { program }, second, shelf),
        PairTask::Replay => answer_file(alloc, &Runs { program }, second, shelf),
        PairTask::Lasso => answer_file(alloc, &Lassos { program }, second, shelf),
    }
}

// The answer on a file of another kind than a program's.
fn answer_other_file<F: Shelf>(
    alloc: Global,
    task: FileTask,
    file: &String,
    shelf: &mut F,
) -> Result<StatusText, Memory>
    ensures keeps_files { F.files_if_disclosed shelf.new ≡ F.files_if_disclosed shelf.old }
    ensures keeps_count { F.faults shelf.old ≤ F.faults shelf.new }
    ensures fault { IfOk result (λ reply.
        F.faults shelf.old < F.faults shelf.new → reply.status ≡ Status.ReadFault) }
    ensures says { IfOk result (λ reply. IsAnswerByPlan (shelf_use_of F.Shelf shelf.old shelf.new) (F.fetches shelf.old)
        (plan_of (OfFile task (string_bytes file.now))) reply.status reply.text.items) }
{
    match task {
        FileTask::Lp => answer_file(alloc, &LinearPrograms, file, shelf),
        FileTask::Translate => answer_file(
            alloc,
            &WhilePrograms {
                task: WhileTask::Translate,
            },
            file,
            shelf,
        ),
    }
}

// The answer on the executions of the while program in a file.
fn answer_while_file<F: Shelf>(
    alloc: Global,
    pivots: u32,
    file: &String,
    shelf: &mut F,
) -> Result<StatusText, Memory>
    ensures keeps_files { F.files_if_disclosed shelf.new ≡ F.files_if_disclosed shelf.old }
    ensures keeps_count { F.faults shelf.old ≤ F.faults shelf.new }
    ensures fault { IfOk result (λ reply.
        F.faults shelf.old < F.faults shelf.new → reply.status ≡ Status.ReadFault) }
    ensures says { IfOk result (λ reply. IsAnswerByPlan (shelf_use_of F.Shelf shelf.old shelf.new) (F.fetches shelf.old)
        (plan_of (While pivots (string_bytes file.now))) reply.status reply.text.items) }
{
    answer_file(
        alloc,
        &WhilePrograms {
            task: WhileTask::Executions(pivots),
        },
        file,
        shelf,
    )
}

// The answer on a number.
fn answer_number(alloc: Global, task: NumberTask, n: u32) -> Result<StatusText, Memory>
    requires { n ≤ 100 }
    ensures { IfOk result (λ reply. HasRow (number_answers task n) reply.status reply.text.items) }
{
    match task {
        NumberTask::Generate => generated(alloc, n),
        NumberTask::Selfrun => figures_answer(alloc, n),
    }
}
