//! Benchmarks: makes the call in each line of the standard input a number of times, and answers by one line, with its
//! result the last time. A line without a call, such as a remark that begins with `#`, is written unchanged.
#![tactic(auto)]

mod answers;
mod graphs;
mod problems;
mod runs;

use std::io;

fn main(rt: HostRuntime) -> io::Result<()> {
    for line in rt.lines(rt.alloc()) {
        let text = answers::answer(rt.alloc(), line?.as_str())?;
        println!(rt; "{text}")?;
    }
    Ok(())
}
