//! Answers each line of the standard input by one line: the checker's verdict on the lemmas and gaps in it, for the
//! rules in it. A line that begins with `#`, a remark, is written unchanged.
#![tactic(auto)]

mod answers;
mod gaps;
mod lemmas;
mod nodes;
mod words;

use std::io;

fn main(rt: HostRuntime) -> io::Result<()> {
    for line in rt.lines(rt.alloc()) {
        let text = answers::answer(rt.alloc(), line?.as_str())?;
        println!(rt; "{text}")?;
    }
    Ok(())
}
