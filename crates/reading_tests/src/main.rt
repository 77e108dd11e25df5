//! Answers each line of the standard input by one line: the result of reading the text in it. A line without a call,
//! such as a remark that begins with `#`, is written unchanged.
#![tactic(auto)]

mod answers;
mod beginnings;
mod changed;
mod guards;
mod outcomes;
mod over_first;
mod printed;
mod proofs;
mod replays;
mod runs;
mod writing;

use std::io;

fn main(rt: HostRuntime) -> io::Result<()> {
    for line in rt.lines(rt.alloc()) {
        let text = answers::answer(rt.alloc(), line?.as_str())?;
        println!(rt; "{text}")?;
    }
    Ok(())
}
