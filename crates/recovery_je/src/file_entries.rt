// A file of a log that was read.
ghost use Rattle.std.specs.Prelude.{◌≡◌, ◌+◌, ◌*◌, ◌^◌, ℕ, List, IfOk};
ghost use Rattle.log_trees.specs.Placed.{Placed, AreInOrder, entry_at as entry_at_lsn};
ghost use Rattle.recovery_je.specs.LogRead.{AreStanding, HasOffset};

use crate::decoding::decode_found;
use je_lsn::FileNo;
use log_entry::Entry;
use std::alloc::{AllocError, Global};
use std::marker::Model;

/// A file of a log: its number, its bytes, and where the entries of its valid prefix stand in them, from the left. It is seen as the number
/// and the entries with their LSNs; an entry is decoded when it is asked for.
#[derive(Drop)]
pub(crate) struct FileEntries {
    pub(crate) number: FileNo,
    pub(crate) bytes: Vec<u8>,
    pub(crate) offsets: Vec<u32>,
}

impl Model for FileEntries {
    ghost use Rattle.std.specs.Prelude.{ℕ, List};
    ghost use Rattle.log_trees.specs.Placed.{Placed};
    ghost use Rattle.recovery_je.specs.LogRead.{entries_in, AreStanding};

    ghost Value = { ℕ × List Placed };

    ghost view = { λ a. (a.number.0, entries_in a.number.0 a.bytes.items) };

    ghost invariant = { λ a. AreStanding a.number.0 a.bytes.items a.offsets.items (entries_in a.number.0 a.bytes.items) };
}

// Whether an offset is among these, which rise.
fn has_offset(offsets: &[u32], at: u32) -> bool
    ensures { (f : ℕ) (bytes : List ℕ) (es : List Placed) → AreInOrder es → AreStanding f bytes offsets.now es → HasOffset f bytes es at result }
{
    match offsets.binary_search(&at) {
        Ok(_) => true,
        Err(_) => false,
    }
}

impl FileEntries {
    /// The entry at an offset, if one stands there.
    pub(crate) fn entry(&self, alloc: Global, at: u32) -> Result<Option<Entry>, AllocError>
        ensures { IfOk result (λ found. found ≡ entry_at_lsn self.now.1 (self.now.0 * 2 ^ 32 + at)) }
    {
        if !has_offset(self.offsets.as_slice(), at) {
            return Ok(None);
        }
        Ok(Some(decode_found(alloc, &self.bytes, at)?))
    }
}
