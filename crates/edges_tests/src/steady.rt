//! The top call on a shelf and a sink without faults: it never ends with a fault of writing, and with one of reading
//! only if the shelf lacks a file of the request.

ghost use Rattle.std.specs.Prelude.{◌≡◌, ◌≢◌, map, string_bytes};
ghost use Rattle.outside_io.specs.SteadyShelf.{held_files};
ghost use Rattle.command_line.specs.Requests.{Request, HasRequest};
ghost use Rattle.koat_cli.specs.RequestPlans.{plan_of};
ghost use Rattle.call_plans.specs.Endings.{EndsOn};

use crate::scenarios::{Scenario, scenario_of};
use crate::words::push_item;
use koat_cli::{Status, run};
use model::Memory;
use outside_io::{SteadyShelf, SteadySink};
use std::alloc::Global;

fn run_steadily(
    alloc: Global,
    words: &[String],
    shelf: &mut SteadyShelf,
    sink: &mut SteadySink,
) -> Status
    ensures never_a_write_fault { result ≢ Status.WriteFault }
    ensures read_fault_only_where_lacking { result ≡ Status.ReadFault
        → (request : Request) × (HasRequest (map string_bytes words.now) request
        × EndsOn (held_files shelf.old) (plan_of request) Status.ReadFault) }
{
    run(alloc, words, shelf, sink)
}

/// The status of each call of a scenario, whose faults are left out.
pub(crate) fn steady_runs(alloc: Global, text: &str) -> Result<String, Memory> {
    let Scenario { calls, files, .. } = scenario_of(alloc, text)?;
    let mut shelf = SteadyShelf::new(files);
    let mut statuses = String::new(alloc);
    for words in &calls {
        let status = run_steadily(alloc, words, &mut shelf, &mut SteadySink);
        push_item(&mut statuses, &format!(in alloc; "{status:?}")?)?;
    }
    Ok(statuses)
}
