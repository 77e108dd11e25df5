//! Answers each line of the standard input by one line: the result of an analysis, or of one of its searches, for the
//! rules in it. A line without a call, such as a remark that begins with `#`, is written unchanged.
#![tactic(auto)]

mod analysis;
mod answers;
mod locals;
mod loops;
mod members;
mod programs;
mod size_texts;
mod sizes;
mod tables;
mod words;

use std::io;

fn main(rt: HostRuntime) -> io::Result<()> {
    for line in rt.lines(rt.alloc()) {
        let text = answers::answer(rt.alloc(), line?.as_str())?;
        println!(rt; "{text}")?;
    }
    Ok(())
}
