//! Answers each line of the standard input by one line: the answer on the file of a linear program in it, with the
//! status before it. In the file and in the answer `|` is written for a line feed. A line that begins with `#` is
//! written unchanged.
#![tactic(auto)]

mod answers;

use std::io;

fn main(rt: HostRuntime) -> io::Result<()> {
    for line in rt.lines(rt.alloc()) {
        let text = answers::answer(rt.alloc(), line?.as_str())?;
        println!(rt; "{text}")?;
    }
    Ok(())
}
