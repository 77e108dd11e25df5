//! `run`: the top call.

ghost use Rattle.std.specs.Prelude.{◌≡◌, ◌≤◌, map, string_bytes, IsSome};
ghost use Rattle.call_plans.specs.Calls.{sink_use_of};
ghost use Rattle.koat_cli.specs.Answers.{FetchesNothing};
ghost use Rattle.koat_cli.specs.Calls.{call_of};
ghost use Rattle.koat_cli.specs.Ends.{Ends};
ghost use Rattle.koat_cli.specs.Means.{Means};

use crate::preparation::prepare;
use call_plans::Status;
use outside_io::{PutFailed, Shelf, Sink};
use std::alloc::Global;

/// Executes the command of the words after the program's name, and returns how it ended.
///
/// - `analyse [--pivots N] FILE` fetches the file, of at most 4,194,304 bytes, and writes its report. The file is an
///   integer transition system in the KoAT format. The report gives each rule a bound on how often it occurs in a run,
///   each rule with a cost a bound on what its steps cost together, the run a total of what all its steps cost, and
///   each argument after a rule a bound on its absolute value, in terms of the absolute values of the inputs, or says
///   why there is none. A step by a rule without a cost costs 1. N is how many pivots each linear program may take,
///   from 0 to 1,000,000; the default is 10,000.
/// - `prove [--pivots N] FILE` fetches the file of a program, and writes the proof file of what its analysis finds: a
///   lemma for each bound, or for several, and a gap for each rule that no function of the places of known size ranks.
///   `check` accepts it, if it has at most 67,108,864 bytes.
/// - `check FILE PROOF` fetches the file of a program, and then that of a proof, of at most 67,108,864 bytes, and
///   writes the facts of all its lemmas, and its gaps, if all of them are accepted; of a proof of the third form what
///   its claims state, if its section, its lemmas and its claims are accepted. It solves no linear program, and trusts
///   none that was solved.
/// - `replay FILE RUN` fetches the file of a program, and then that of a run, of at most 67,108,864 bytes, and writes
///   the tally along the run: how many steps it has, how often each rule occurs, what the steps by each rule with a
///   cost and all steps cost together, each up to 2^127, and the greatest absolute value of each argument after each
///   rule; each but the number of steps beside the value, up to 2^127, of its bound at the absolute start values, or
///   `unknown` if there is none. The bounds are those that an analysis with 10,000 pivots finds.
/// - `lasso FILE RUN` fetches the file of a program, and then that of a lasso, of at most 67,108,864 bytes, and writes
///   the rules of its turn, and what the turn costs, up to 2^127, if all steps are steps of the program and the turn
///   leads back to where it begins; or, of a lasso of the second form, if the turn is shown to move on by the same
///   differences each time, and then these differences, too.
/// - `generate N` writes the generated program of a number from 0 to 100 as its canonical text, which spells it.
/// - `selfrun N` analyses that program, with 10,000 pivots for each linear program, and writes the figures of what was
///   found: how many rules there are, how many of them have a time, how many of all places have a size, the total, and
///   how many lemmas state the bounds.
/// - `facts [--pivots N] FILE` fetches the file of a program, and writes the facts that are kept at its locations, for
///   each two places the strongest one: `fact NAME: x2 >= 1` says that in every run the second value is at least 1
///   whenever the run is at the location. It is followed by the report of the program whose guards have these facts at
///   the sources of its rules, too, so that more bounds are found; they are bounds of the program itself.
/// - `best [--pivots N] FILE` fetches the file of a program, and writes the facts that are kept at its locations, and
///   then a line for each rule, each rule with a cost, all steps, and each argument after a rule from above and from
///   below: a bound over the start values themselves, or that none is known; and why a time or a cost is missing, by
///   the analysis with these facts. A bound is that of this analysis, or the first one on its subject that accepted
///   proof files state, or the minimum of both.
/// - `certify [--pivots N] FILE` fetches the file of a program, and writes a proof file that `check` accepts, if it has
///   at most 67,108,864 bytes: one that `best` finds, or that of the analysis with facts; or, if that one isn't read back
///   and accepted, that of `prove`.
/// - `lp FILE` fetches the file of a linear program, of at most 4,194,304 bytes, solves it exactly, and writes the
///   end: a solution of least cost, or a dual, which shows that there is no solution, and after how many pivots of
///   Bland's rule it is reached. No number of pivots is set.
/// - `while [--pivots N] FILE` fetches the file of a while program, of at most 4,194,304 bytes, and writes the position
///   of the first byte of each statement, `point K at P`, followed by the report of its translation.
/// - `translate FILE` fetches the file of a while program, and writes its translation, an integer transition system, as
///   its canonical text.
/// - Other words get the usage text.
///
/// Each file is fetched once, the second of two only after the first gave a program. The whole text is written by one
/// put, and the status is this:
///
/// - `Done`: with `analyse`, the file spells a program, and its report was written, in which every rule has a time,
///   every rule with a cost a bound on it, and the run a total. On every run of the program, from any integers and by
///   any choice of rules, each rule occurs at most as often as its time says, its steps together cost at most what its
///   cost says, if it has one, all steps together cost at most what the total says, and each argument after a rule
///   stays within its size, if it has one. With `facts`, the same with the report after the facts, and each fact holds
///   on every run, too. With `best`, facts and lines were written in which every rule has a time, every rule with a
///   cost a bound on it, and all steps together one; each fact and each bound in a line holds on every run. With
///   `prove`, the proof file of the same analysis was written. With `certify`, a proof file was written which is
///   accepted for the program. With `check`, the files spell a program and a proof file that is accepted, and its
///   facts, or what its claims state, were written: each of them holds on every run of the program, whoever made the
///   proof. With `replay`, the steps are a run of the program, no value exceeds 128 bits on the way, that of a step's
///   cost included, and the tally was written: each number of it is at most the value of the bound beside it. With
///   `lasso`, the steps are a run of the program, no value exceeds 128 bits on the way, and the turn leads back, or is
///   shown to move on by the differences that were written: each rule that was written occurs without end, so no bound
///   on its use holds; and if a turn that leads back costs something, no bound on what all steps cost. With `selfrun`,
///   its figures were written, and every rule of the generated program has a time. With `generate`, that program's
///   text was written. With `lp`, the end of the sequence of tableaux was written. With `while`, the file spells a
///   while program, and the report of its translation was written after the positions: from a value for each input,
///   each execution has at most as many steps as the total says, and some execution of n steps ends with these values
///   exactly where some run of n steps of the translation does. With `translate`, the translation was written.
/// - `Unknown`: with `analyse`, `facts` and `while`, the same, where some rule has no time, or some rule with a cost
///   no bound on it: the report says why, and every bound that it gives holds on every run. With `facts` the reasons
///   are those of the strengthened program. With `best`, facts and lines that hold on every run were written, of which
///   some of those on rules, costs and all steps lacks its bound. With `prove`, the proof file of such an analysis was
///   written. With `selfrun`, the figures of such an analysis of the generated program were written. With `lp`, why
///   the end isn't reached was written.
/// - `Usage`: the words are no command line.
/// - `ReadFault`: the command needs a file, and the shelf had a fault in this call, or discloses that it lacks the file
///   of the program, of the linear program or of the while program, or, where a program is spelled, the file of the
///   proof, of the run or of the lasso.
/// - `ProgramRefused`: the command needs a file, and the file of the program has too many bytes, or has a fault as the
///   text of a program within the limits: the text states the first fault, and its byte. With `lp`, the same of the
///   file of the linear program, and with `while` and `translate` of that of the while program.
/// - `ProofRefused`: with `check`, the first file spells a program, and the second has too many bytes, or has a fault
///   as the text of a proof file of the program within the limits: the text states the first fault, and its byte.
/// - `NotAccepted`: with `check`, the files spell a program and a proof file, of which some node of a lemma isn't accepted, or
///   some gap; or, of the third form, its section, some lemma about potentials or some claim: the text states the first
///   one, and why. What comes after a section that isn't accepted isn't read.
/// - `RunRefused`: with `replay` and `lasso`, the first file spells a program, and the second has too many bytes, or
///   has a fault as the text of a run, or of a lasso, of the program within the limits: the text states the first
///   fault, and its byte.
/// - `NotARun`: with `replay` and `lasso`, the files spell a program and steps of it, of which some isn't a step from
///   where the run is, or a value of it or of its cost exceeds 128 bits: the text states the first one, and why. With
///   `lasso` also where the turn leads elsewhere: the text states the first place with another value, or 0 where the
///   symbol is another one; and where a turn of the second form isn't shown to move on: the text says why.
/// - `WriteFault`: the sink had a fault; a prefix of the text of the status that would have come was written.
/// - `Memory`: memory ran out; the sink is unchanged.
///
/// With each status but the last two the whole text of the status was appended to the sink. The shelf's contents never
/// change, and the whole shelf is unchanged by words for which no file is fetched. Where the shelf's count of faults is
/// greater after the call than before, the status is `ReadFault`, `WriteFault` or `Memory`. Another call may follow any
/// status.
pub fn run<F: Shelf, S: Sink>(
    alloc: Global,
    words: &[String],
    shelf: &mut F,
    sink: &mut S,
) -> Status
    ensures ends { Ends result (call_of F.Shelf words.now shelf.old shelf.new) (sink_use_of S.Sink sink.old sink.new) }
    ensures means { Means result (call_of F.Shelf words.now shelf.old shelf.new) (sink_use_of S.Sink sink.old sink.new) }
    ensures memory { result ≡ Status.Memory → sink.new ≡ sink.old }

    ensures untouched { FetchesNothing (map string_bytes words.now) → shelf.new ≡ shelf.old }
    ensures keeps_files { F.files_if_disclosed shelf.new ≡ F.files_if_disclosed shelf.old }
    ensures keeps_shelf_count { F.faults shelf.old ≤ F.faults shelf.new }
    ensures keeps_sink_count { S.faults sink.old ≤ S.faults sink.new }
    ensures keeps_disclosing { IsSome (S.written sink.old) → IsSome (S.written sink.new) }
{
    let Ok(reply) = prepare(alloc, words, shelf) else {
        return Status::Memory;
    };
    match sink.put(&reply.text) {
        Ok(()) => reply.status,
        Err(PutFailed) => Status::WriteFault,
    }
}
