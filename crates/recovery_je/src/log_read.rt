// A log that was read.
ghost use Rattle.std.specs.Prelude.{◌≡◌, [], None, MatchOption};
ghost use Rattle.file_use.specs.Live.{entries_in_file};
ghost use Rattle.log_trees.specs.Placed.{entry_at};
ghost use Rattle.recovery_je.specs.LogRead.{entries_of_files, AreFilesRead, IsFileWith};

use crate::file_entries::FileEntries;
use je_lsn::{FileNo, Lsn};
use std::alloc::Global;
use std::marker::Model;

/// The files of a log in order, seen as their entries, and beside them what is asked of all of them: the files' numbers, and whether
/// each entry is whole, so no delta.
#[derive(Drop)]
pub(crate) struct LogRead {
    pub(crate) numbers: Vec<u32>,
    pub(crate) files: Vec<FileEntries>,
    pub(crate) whole: bool,
}

impl Model for LogRead {
    ghost use Rattle.std.specs.Prelude.{◌≡◌, List, map};
    ghost use Rattle.log_trees.specs.Placed.{Placed};
    ghost use Rattle.recovery_je.specs.Putting.{are_whole};
    ghost use Rattle.recovery_je.specs.LogRead.{entries_of_files, AreFilesRead};

    ghost Value = { List Placed };

    ghost view = { λ a. entries_of_files a.files.items };

    ghost invariant = { λ a. AreFilesRead a.numbers.items a.files.items × (a.whole ≡ are_whole (entries_of_files a.files.items)) };
}

// The file that an LSN names, among those of these numbers.
fn file_among<'a>(numbers: &[u32], files: &'a [FileEntries], at: Lsn) -> Option<&'a FileEntries>
    requires { AreFilesRead numbers.now files.now }
    ensures { MatchOption result (None ≡ entry_at (entries_of_files files.now) at) (λ file. IsFileWith (entries_of_files files.now) at file.now) }
{
    match numbers.binary_search(&at.file().0) {
        Ok(i) => Some(&files[i]),
        Err(_) => None,
    }
}

// The file of this number, among those of these numbers.
fn file_numbered<'a>(
    numbers: &[u32],
    files: &'a [FileEntries],
    file: FileNo,
) -> Option<&'a FileEntries>
    requires { AreFilesRead numbers.now files.now }
    ensures { MatchOption result ([] ≡ entries_in_file file.0 (entries_of_files files.now)) (λ found. found.now.1 ≡ entries_in_file file.0 (entries_of_files files.now)) }
{
    match numbers.binary_search(&file.0) {
        Ok(i) => Some(&files[i]),
        Err(_) => None,
    }
}

impl LogRead {
    /// The log of no files. It takes no memory.
    pub(crate) fn none(alloc: Global) -> LogRead
        ensures { result ≡ [] }
    {
        LogRead {
            numbers: Vec::new(alloc),
            files: Vec::new(alloc),
            whole: true,
        }
    }

    /// The file of this number, if it is one of these.
    pub(crate) fn file(&self, file: FileNo) -> Option<&FileEntries>
        ensures { MatchOption result ([] ≡ entries_in_file file.0 self.now) (λ found. found.now.1 ≡ entries_in_file file.0 self.now) }
    {
        file_numbered(self.numbers.as_slice(), self.files.as_slice(), file)
    }

    /// The file that an LSN names, if it is one of these.
    pub(crate) fn file_with(&self, at: Lsn) -> Option<&FileEntries>
        ensures { MatchOption result (None ≡ entry_at self.now at) (λ file. IsFileWith self.now at file.now) }
    {
        file_among(self.numbers.as_slice(), self.files.as_slice(), at)
    }
}
