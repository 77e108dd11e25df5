//! Files in memory, and the look-up of one by its name.

ghost use Rattle.std.specs.Prelude.{◌≡◌, ◌≤◌, ◌↔◌, None, Some, IfOk, IsErrOf, length};
ghost use Rattle.std.specs.Option.{option_copied};
ghost use Rattle.std.specs.FinMap.{get};
ghost use Rattle.outside_io.specs.Files.{HoldsMore};
ghost use Rattle.outside_io.specs.MemoryFiles.{FirstCounts, files_of};

use crate::shelf::FetchError;
use std::alloc::Global;

/// One file in memory.
#[derive(Clone, Debug, PartialEq, Eq, Drop)]
pub struct MemoryFile {
    /// The name by which it is fetched.
    pub name: String,
    /// Its contents.
    pub bytes: Vec<u8>,
}

/// A list of files as a map from names to bytes: of several files with one name the first counts.
pub fn first_file_of_a_name_counts()
    ensures { FirstCounts }
{}

// The bytes of the first file of this name.
fn first_file<'a>(files: &'a [MemoryFile], name: &str) -> Option<&'a [u8]>
    ensures { option_copied result ≡ get (files_of files.now) name.now }
{
    for file in files {
        if name == file.name.as_str() {
            return Some(file.bytes.as_slice());
        }
    }
    None
}

// A copy of the first file of this name, if there is one of at most `limit` bytes.
pub(crate) fn copy_of(
    files: &[MemoryFile],
    alloc: Global,
    name: &str,
    limit: u64,
) -> Result<Vec<u8>, FetchError>
    ensures ok { IfOk result (λ file. get (files_of files.now) name.now ≡ Some file.items) }
    ensures within { IfOk result (λ file. length file.items ≤ limit) }
    ensures failed { IsErrOf result FetchError.Failed ↔ (get (files_of files.now) name.now ≡ None) }
    ensures too_long { IsErrOf result FetchError.TooLong ↔ HoldsMore (files_of files.now) name.now limit }
{
    let Some(bytes) = first_file(files, name) else {
        return Err(FetchError::Failed);
    };
    if bytes.len() as u64 > limit {
        return Err(FetchError::TooLong);
    }
    Ok(Vec::from_slice(alloc, bytes)?)
}
