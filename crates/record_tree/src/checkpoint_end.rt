// What a checkpoint's end says beside its roots.
use je_lsn::Lsn;

/// What a checkpoint's end says beside its roots, its redo LSN and the last node's number.
#[derive(Clone, Copy)]
pub struct CheckpointEnd {
    /// The checkpoint's number.
    pub number: u64,
    /// Where it began.
    pub start: Lsn,
    /// The transaction number that was allocated last.
    pub last_txn: u64,
    /// The database number that was allocated last.
    pub last_db: u32,
}
