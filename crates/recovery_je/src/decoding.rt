// Entries where they stand in a file's bytes.
ghost use Rattle.std.specs.Prelude.{◌≡◌, IfOk};
ghost use Rattle.log_entry.specs.declared.entry.Entry.{Entry as Stored};
ghost use Rattle.recovery_je.specs.LogRead.{HasEntryAt};

use log_entry::{Decoded, Entry, decode_at};
use std::alloc::{AllocError, Global};

/// The entry at an offset of a file's bytes, where one was found when the file was read. The only error is out of memory.
pub(crate) fn decode_found(alloc: Global, bytes: &[u8], at: u32) -> Result<Entry, AllocError>
    requires { (e : Stored) × HasEntryAt bytes.now at e }
    ensures { (e : Stored) → HasEntryAt bytes.now at e → IfOk result (λ entry. entry ≡ e) }
{
    match decode_at(alloc, bytes, at as usize)? {
        Decoded::Whole { entry, .. } => Ok(entry),
        Decoded::Torn(_) => unreachable!(),
    }
}
