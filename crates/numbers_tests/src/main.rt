//! Answers each line of the standard input by one line: the result of a public call on the fractions, the sparse rows,
//! the linear program or the question in it. A line without a call, such as a remark that begins with `#`, is written
//! unchanged.
#![tactic(auto)]

mod answers;
mod fractions;
mod linear_programs;
mod many;
mod questions;
mod row_pairs;
mod solutions;
mod sparse;
mod words;

use std::io;

fn main(rt: HostRuntime) -> io::Result<()> {
    for line in rt.lines(rt.alloc()) {
        let text = answers::answer(rt.alloc(), line?.as_str())?;
        println!(rt; "{text}")?;
    }
    Ok(())
}
