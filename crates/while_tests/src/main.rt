//! Answers each line of the standard input by one line: the result of reading the while program in it, or its
//! translation. A line that begins with `#`, a remark, is written unchanged.
#![tactic(auto)]

mod answers;
mod writing;

use std::io;

fn main(rt: HostRuntime) -> io::Result<()> {
    for line in rt.lines(rt.alloc()) {
        let text = answers::answer(rt.alloc(), line?.as_str())?;
        println!(rt; "{text}")?;
    }
    Ok(())
}
