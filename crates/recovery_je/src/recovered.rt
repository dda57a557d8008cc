// An environment that was recovered.
use crate::OpeningStore;
use je_lsn::Lsn;
use log_replay::LastFile;
use record_tree::Loads;

/// An environment that was recovered from its files.
#[derive(Drop)]
pub struct Recovered<T: Loads> {
    /// The trees of the catalog and of the databases that it names, and no others.
    pub trees: T,
    /// The store that they hold.
    pub opening: OpeningStore<T>,
    /// How many databases the store has.
    pub databases: u64,
    /// How many records it has.
    pub records: u64,
    /// The transaction number that was allocated last, 0 where none was.
    pub last_txn: u64,
    /// The greatest node number in the log. Nodes that the redo made have the numbers behind it.
    pub last_node: u64,
    /// The database number that was allocated last, 0 where none was.
    pub last_db: u32,
    /// The number of the last checkpoint that ended, 0 where none did.
    pub checkpoint: u64,
    /// The LSN from which on entries were redone: that of the last checkpoint that ended, 0 where none did.
    pub redo: Lsn,
    /// How many entries count for the nodes that were made: those that stand at that LSN or behind it; all of the log's, where one is
    /// a delta, since then each node that was read waits to be logged.
    pub redone: u64,
    /// The last file; None where there is no file.
    pub tail: Option<LastFile>,
}
