// How many entries count for the nodes that are made when a log is read.
ghost use Rattle.std.specs.Prelude.{◌≡◌, ℕ, List, nat_le, IfOk};
ghost use Rattle.std.specs.List.{count_by};
ghost use Rattle.log_trees.specs.Placed.{Placed};
ghost use Rattle.recovery_je.specs.LogRead.{AreStanding, entries_of_files};
ghost use Rattle.recovery_je.specs.Putting.{count_from as counted_from};

use crate::file_entries::FileEntries;
use crate::log_read::LogRead;
use je_lsn::{FileNo, Lsn};
use std::alloc::AllocError;

// How many of the entries of a file at these offsets stand at an LSN or behind it.
fn count_offsets(number: FileNo, offsets: &[u32], redo: Lsn) -> u64
    ensures { (bytes : List ℕ) (es : List Placed) → AreStanding number.0 bytes offsets.now es → result ≡ count_by (λ p. nat_le redo p.0) es }
{
    let mut count = 0u64;
    for at in offsets {
        if redo.as_u64() <= Lsn::new(number, *at).as_u64() {
            count += 1;
        }
    }
    count
}

// How many entries of a file stand at an LSN or behind it.
fn count_file(file: &FileEntries, redo: Lsn) -> u64
    ensures { result ≡ count_by (λ p. nat_le redo p.0) file.now.1 }
{
    count_offsets(file.number, file.offsets.as_slice(), redo)
}

// How many entries of files stand at an LSN or behind it.
fn count_files(files: &[FileEntries], redo: Lsn) -> Result<u64, AllocError>
    ensures { IfOk result (λ count. count ≡ count_by (λ p. nat_le redo p.0) (entries_of_files files.now)) }
{
    let mut count = 0u64;
    for file in files {
        let Some(more) = count.checked_add(count_file(file, redo)) else {
            return Err(AllocError);
        };
        count = more;
    }
    Ok(count)
}

/// How many entries count for the nodes that are made where those from an LSN on are redone: these; or all, where one is a
/// delta, since then each node that was read waits to be logged. More than a u64 holds are too many for memory.
pub(crate) fn count_from(entries: &LogRead, redo: Lsn) -> Result<u64, AllocError>
    ensures { IfOk result (λ count. count ≡ counted_from redo entries.now) }
{
    if entries.whole {
        count_files(entries.files.as_slice(), redo)
    } else {
        count_files(entries.files.as_slice(), Lsn::from_u64(0))
    }
}
