//! Answers each line of the standard input by one line: what a public call of the crates at the program's edges does.
//! A line without a call, such as a remark that begins with `#`, is written unchanged. A `~` stands for a line feed.
#![tactic(auto)]

mod answers;
mod calls;
mod contents;
mod limits;
mod prefixes;
mod processes;
mod proof_checks;
mod requests;
mod scenarios;
mod shelves;
mod sinks;
mod steady;
mod words;

use crate::words::first_and_rest;
use outside_io::{FileShelf, OutSink};
use std::{fs, io};

// A file of six bytes, which lines fetch from the system.
const SIX_BYTES: &str = "six-bytes.txt";

fn main(rt: HostRuntime) -> io::Result<()> {
    let alloc = rt.alloc();
    fs::write(&rt, SIX_BYTES, "l0(A)\n")?;
    for line in rt.lines(alloc) {
        let line = line?;
        let text = match first_and_rest(line.as_str()) {
            ("system-fetch", files) => shelves::fetch_all(alloc, &mut FileShelf::new(&rt), files)?,
            ("system-put", pieces) => sinks::put_all(alloc, &mut OutSink::new(&rt), pieces)?,
            _ => answers::answer(alloc, line.as_str())?,
        };
        println!(rt; "{text}")?;
    }
    fs::remove_file(&rt, SIX_BYTES)?;
    let rest = shelves::fetch_all(alloc, &mut FileShelf::new(&rt), "-:9")?;
    println!(rt; "standard input after its last line: {rest}")
}
