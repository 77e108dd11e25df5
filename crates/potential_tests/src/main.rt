//! Answers each line of the standard input by one line: whether the lemmas in it are accepted over the program in it,
//! or which of them is refused, and why. A line without a call, as a remark that begins with `#`, is written as it is.
#![tactic(auto)]

mod answers;
mod bounds;
mod facts;
mod lemmas;
mod numbers;
mod programs;
mod tables;

use std::io;

fn main(rt: HostRuntime) -> io::Result<()> {
    for line in rt.lines(rt.alloc()) {
        let text = answers::answer(rt.alloc(), line?.as_str())?;
        println!(rt; "{text}")?;
    }
    Ok(())
}
