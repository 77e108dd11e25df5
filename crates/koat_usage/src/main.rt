//! The program `koat` under another name, which is run on words that are no command line, and so ends with another
//! status.
#![tactic(auto)]

use koat_cli::run_program;
use outside_io::{FileShelf, OutSink, all_words};
use std::process::ExitCode;

fn main(rt: HostRuntime) -> ExitCode {
    run_program(
        rt.alloc(),
        all_words(&rt),
        &mut FileShelf::new(&rt),
        &mut OutSink::new(&rt),
    )
}
