//! Answers each line of the standard input by one line: the result for the lasso in it. A line without a `;`, such as a
//! remark that begins with `#`, is written unchanged.
#![tactic(auto)]

mod moving;
mod turns;

use std::io;

fn main(rt: HostRuntime) -> io::Result<()> {
    for line in rt.lines(rt.alloc()) {
        let text = turns::answer_line(rt.alloc(), line?.as_str())?;
        println!(rt; "{text}")?;
    }
    Ok(())
}
