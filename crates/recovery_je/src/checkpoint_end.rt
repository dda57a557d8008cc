// The end of a checkpoint.
ghost use Rattle.std.specs.Prelude.{◌≡◌, Some, IfOk, unwrap_or};
ghost use Rattle.log_meaning.specs.Checkpoint.{checkpoint_in, no_checkpoint};

use je_lsn::Lsn;
use je_order::List;
use log_entry::{Entry, Root};
use std::alloc::{AllocError, Global};
use std::marker::Model;

/// The end of a checkpoint: its LSN and number, the LSN from which on entries are redone, the numbers that
/// were allocated last, and the roots.
#[derive(Drop)]
pub(crate) struct CheckpointEnd {
    pub(crate) at: Lsn,
    pub(crate) number: u64,
    pub(crate) redo: Lsn,
    pub(crate) last_txn: u64,
    pub(crate) last_node: u64,
    pub(crate) last_db: u32,
    pub(crate) roots: List<Root>,
}

impl Model for CheckpointEnd {
    ghost use Rattle.log_meaning.specs.Checkpoint.{Checkpoint};

    ghost Value = { Checkpoint };

    ghost view = { λ a. record { at = a.at; number = a.number; redo = a.redo; last_txn = a.last_txn; last_node = a.last_node; last_db = a.last_db; roots = a.roots } };
}

// Copies of roots.
fn copy_roots(alloc: Global, roots: &[Root]) -> Result<List<Root>, AllocError>
    ensures { IfOk result (λ copies. copies ≡ roots.now) }
{
    Ok(List::from_vec(Vec::from_slice(alloc, roots)?))
}

/// The checkpoint that an entry at an LSN ends.
pub(crate) fn end_in(
    alloc: Global,
    at: Lsn,
    entry: &Entry,
) -> Result<Option<CheckpointEnd>, AllocError>
    ensures { IfOk result (λ found. found ≡ checkpoint_in at entry.now) }
{
    match entry {
        Entry::CkptEnd {
            number,
            redo,
            last_txn,
            last_node,
            last_db,
            roots,
            ..
        } => Ok(Some(CheckpointEnd {
            at,
            number: *number,
            redo: *redo,
            last_txn: last_txn.0,
            last_node: *last_node,
            last_db: *last_db,
            roots: copy_roots(alloc, roots.as_slice())?,
        })),
        _ => Ok(None),
    }
}

/// What stands for a checkpoint in a log without one.
pub(crate) fn or_none(alloc: Global, end: Option<CheckpointEnd>) -> CheckpointEnd
    ensures { result ≡ unwrap_or end no_checkpoint }
{
    match end {
        Some(end) => end,
        None => CheckpointEnd {
            at: Lsn::from_u64(0),
            number: 0,
            redo: Lsn::from_u64(0),
            last_txn: 0,
            last_node: 0,
            last_db: 0,
            roots: List::new(alloc),
        },
    }
}
