//! Plans of calls: which files a call reads, in which order and of which kinds, and the table by which it answers.
//!
//! Builds on `model` and `outside_io`. A command is one line of a table of plans. How a call ends, what its status
//! means and when it comes are defined and proved here once for every plan: a file is lacking, too long, refused, or
//! has a meaning, and only in the last case is the next file fetched. [`fetch_and_read`] fetches a file and reads it by
//! a [`Reader`]; [`answer_file`] gives the answer for the text of a command's last file.
#![tactic(auto)]

mod answering;
mod file_reading;
mod law;
mod reader;
mod status;
mod status_text;

pub use answering::{FileCommand, answer_file};
pub use file_reading::{FetchResult, fetch_and_read};
pub use law::worked_plans_hold;
pub use model::Memory;
pub use reader::{Read, Reader};
pub use status::Status;
pub use status_text::{StatusText, status_with_text};
