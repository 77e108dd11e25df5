//! Answers each line of the standard input by one line: the result of a public call on the expression, the rule, the
//! rows or the edges in it. A line without a call, such as a remark that begins with `#`, is written unchanged.
#![tactic(auto)]

mod answers;
mod certificates;
mod closures;
mod expressions;
mod graphs;
mod plain;
mod rules;
mod trees;
mod words;

use std::io;

fn main(rt: HostRuntime) -> io::Result<()> {
    for line in rt.lines(rt.alloc()) {
        let text = answers::answer(rt.alloc(), line?.as_str())?;
        println!(rt; "{text}")?;
    }
    Ok(())
}
