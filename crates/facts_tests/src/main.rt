//! Answers each line of the standard input by one line: the result of a public call on the facts and the rules in it. A
//! line without a call, such as a remark that begins with `#`, is written unchanged.
#![tactic(auto)]

mod answers;
mod fact_parser;
mod programs;

use std::io;

fn main(rt: HostRuntime) -> io::Result<()> {
    for line in rt.lines(rt.alloc()) {
        let text = answers::answer(rt.alloc(), line?.as_str())?;
        println!(rt; "{text}")?;
    }
    Ok(())
}
