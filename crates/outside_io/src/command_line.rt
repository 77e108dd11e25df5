//! The words of the command line. Their contents are trusted to the operating system.

use std::alloc::Global;
use std::env::Env;
use std::{env, io};

/// All words of the command line, the program's name first.
///
/// Errors: of the kind `InvalidData` where a word isn't UTF-8; else where memory doesn't suffice for them or the system
/// refuses them.
pub fn all_words<R: Env + Alloc<A = Global>>(runtime: &R) -> io::Result<Vec<String>> {
    Ok(env::args(runtime)?.collect(runtime.alloc())?)
}
