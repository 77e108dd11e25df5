//! Answers each line of the standard input by one line: whether the section of a program in it is accepted, or the
//! program that it spells. A line without a call, such as a remark that begins with `#`, is written unchanged.
#![tactic(auto)]

mod answers;
mod programs;
mod sections;

use std::io;

fn main(rt: HostRuntime) -> io::Result<()> {
    for line in rt.lines(rt.alloc()) {
        let text = answers::answer(rt.alloc(), line?.as_str())?;
        println!(rt; "{text}")?;
    }
    Ok(())
}
