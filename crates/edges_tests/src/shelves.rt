//! Fetches from shelves through the trait, as a caller that is generic over its shelf makes them.

use crate::scenarios::{Scenario, scenario_of};
use crate::words::{first_part, number, push_bytes, push_item, word_of};
use model::Memory;
use outside_io::{FetchError, MemoryShelf, Shelf, SteadyShelf};
use std::alloc::{AllocError, Global};

/// The answers of a shelf for files, each of which is written as a name and a limit: `p:9`.
pub(crate) fn fetch_all<S: Shelf>(
    alloc: Global,
    shelf: &mut S,
    files: &str,
) -> Result<String, Memory> {
    let mut text = String::new(alloc);
    for file in files.split_whitespace() {
        let fetched = fetch_one(alloc, shelf, file)?;
        push_item(&mut text, &fetched)?;
    }
    Ok(text)
}

// The answer of a shelf for a file: its bytes in quotes, or why there are none.
fn fetch_one<S: Shelf>(alloc: Global, shelf: &mut S, file: &str) -> Result<String, Memory> {
    let (name, limit) = file.split_once(':').unwrap_or((file, ""));
    let name = word_of(alloc, name)?;
    match shelf.fetch(alloc, name.as_str(), number(limit)) {
        Ok(bytes) => quoted(alloc, &bytes),
        Err(FetchError::Failed) => String::from_str(alloc, "failed"),
        Err(FetchError::TooLong) => String::from_str(alloc, "too long"),
        Err(FetchError::Memory) => Err(AllocError),
    }
}

/// Bytes in quotes.
pub(crate) fn quoted(alloc: Global, bytes: &[u8]) -> Result<String, Memory> {
    let mut text = String::from_str(alloc, "'")?;
    push_bytes(&mut text, bytes)?;
    text.push_str("'")?;
    Ok(text)
}

/// The answers of a shelf in memory for files, and how many fetches it counts before and after. After an `@` follow its
/// files and its faults, as in a scenario.
pub(crate) fn memory_fetches(alloc: Global, text: &str) -> Result<String, Memory> {
    let (names, _) = first_part(text);
    let Scenario { files, failing, .. } = scenario_of(alloc, text)?;
    let mut shelf = MemoryShelf::new(files, failing);
    let before = shelf.calls();
    let fetched = fetch_all(alloc, &mut shelf, names)?;
    let after = shelf.calls();
    format!(in alloc; "{before} fetches, {fetched}, {after} fetches")
}

/// The answers of a shelf without faults for files. After an `@` follow its files, as in a scenario.
pub(crate) fn steady_fetches(alloc: Global, text: &str) -> Result<String, Memory> {
    let (names, _) = first_part(text);
    let Scenario { files, .. } = scenario_of(alloc, text)?;
    fetch_all(alloc, &mut SteadyShelf::new(files), names)
}
