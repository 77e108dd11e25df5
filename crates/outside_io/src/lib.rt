//! The program's contact with the outside: shelves, from which files are fetched by name, and sinks, into which pieces
//! of text are put.
//!
//! Builds on `model`. The crates above are written over the traits [`Shelf`] and [`Sink`] and use their contracts
//! alone: `Ok` of a fetch gives the held bytes, `Ok` of a put appends the whole piece, and a failure comes only where a
//! count of faults rose or the name isn't held. There are three pairs of implementations: in memory, with faults at
//! chosen calls; steady, which never fails; and the files and the standard output of the operating system.
#![tactic(auto)]

mod command_line;
mod file_shelf;
mod memory_file;
mod memory_shelf;
mod memory_sink;
mod out_sink;
mod reading;
mod shelf;
mod sink;
mod steady;
mod stop;
mod worked;

pub use command_line::all_words;
pub use file_shelf::FileShelf;
pub use memory_file::{MemoryFile, first_file_of_a_name_counts};
pub use memory_shelf::MemoryShelf;
pub use memory_sink::MemorySink;
pub use model::Memory;
pub use out_sink::OutSink;
pub use shelf::{FetchError, Shelf};
pub use sink::{PutFailed, Sink};
pub use steady::{SteadyShelf, SteadySink, steady_counts_never_rise};
pub use stop::Stop;
pub use worked::worked_puts_hold;
