// Entries by their LSNs.
ghost use Rattle.std.specs.Prelude.{◌≡◌, IfOk};
ghost use Rattle.log_trees.specs.Placed.{AreInOrder, entry_at as entry_at_lsn};

use crate::log_read::LogRead;
use je_lsn::Lsn;
use log_entry::Entry;
use std::alloc::{AllocError, Global};

/// The entry that an LSN names, if one does. LSNs rise, so this takes the logarithm of their number, and the time of the entry.
pub(crate) fn entry_at(
    alloc: Global,
    entries: &LogRead,
    at: Lsn,
) -> Result<Option<Entry>, AllocError>
    requires { AreInOrder entries.now }
    ensures { IfOk result (λ found. found ≡ entry_at_lsn entries.now at) }
{
    match entries.file_with(at) {
        Some(file) => file.entry(alloc, at.offset()),
        None => Ok(None),
    }
}
