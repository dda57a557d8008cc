// What is noted of entries while they are read.
ghost use Rattle.std.specs.Prelude.{◌≡◌, ◌∷◌, ◌&&◌, [], not, OnOk};
ghost use Rattle.log_replay.specs.Wrong.{or_else};
ghost use Rattle.log_meaning.specs.ReadNodes.{is_delta};
ghost use Rattle.recovery_je.specs.Noting.{AreNotesOf, NotesMore};

use crate::checkpoint_end::{CheckpointEnd, end_in};
use crate::numbers::Numbers;
use je_lsn::Lsn;
use log_entry::Entry;
use std::alloc::{AllocError, Global};

/// What is asked of all entries, noted of each one when it is read: whether each is whole, so no delta; the last checkpoint that ended,
/// if one did; and the greatest numbers.
#[derive(Drop)]
pub(crate) struct ReadNotes {
    pub(crate) whole: bool,
    pub(crate) end: Option<CheckpointEnd>,
    pub(crate) numbers: Numbers,
}

// Whether an entry is whole: it is no delta.
fn is_whole(entry: &Entry) -> bool
    ensures { result ≡ not (is_delta entry.now) }
{
    match entry {
        Entry::BinDelta { .. } => false,
        _ => true,
    }
}

// Whether all entries are whole with one more.
fn is_still_whole(whole: bool, entry: &Entry) -> bool
    ensures { result ≡ (whole && not (is_delta entry.now)) }
{
    whole && is_whole(entry)
}

// Keeps the end of a checkpoint that was found, if one was.
fn note_end(last: &mut Option<CheckpointEnd>, found: Option<CheckpointEnd>)
    ensures { last.new ≡ or_else found last.old }
{
    match found {
        Some(end) => *last = Some(end),
        None => (),
    }
}

impl ReadNotes {
    /// Of no entries.
    pub(crate) fn new() -> ReadNotes
        ensures { AreNotesOf [] result }
    {
        ReadNotes {
            whole: true,
            end: None,
            numbers: Numbers::none(),
        }
    }

    /// Notes one more.
    pub(crate) fn take(&mut self, alloc: Global, at: Lsn, entry: &Entry) -> Result<(), AllocError>
        ensures { OnOk result (NotesMore ((at, entry.now) ∷ []) self.old self.new) }
    {
        let found = end_in(alloc, at, entry)?;
        self.whole = is_still_whole(self.whole, entry);
        self.numbers = self.numbers.with(entry);
        note_end(&mut self.end, found);
        Ok(())
    }
}
