//! The requests of words.

use crate::words::words_of;
use command_line::parse_request;
use model::Memory;
use std::alloc::Global;

/// The request of the words, if they are a command line.
pub(crate) fn request(alloc: Global, text: &str) -> Result<String, Memory> {
    let request = parse_request(alloc, &words_of(alloc, text)?)?;
    format!(in alloc; "{request:?}")
}
