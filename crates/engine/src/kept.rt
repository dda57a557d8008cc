// What an open environment keeps in memory beside its trees.
use checkpointer::Checkpointer;
use db_names::DbNames;
use index_map::IndexMap;
use je_lsn::Lsn;
use store_model::{Fault, Totals};

/// What an open environment keeps in memory beside its log and its trees.
#[derive(Drop)]
pub struct Kept {
    /// How many databases and records the committed store has.
    pub totals: Totals,
    /// The transaction number allocated last.
    pub last_txn: u64,
    /// The database number allocated last.
    pub last_db: u32,
    /// A number that no node's number is above.
    pub last_node: u64,
    /// How many transactions were committed since opening.
    pub commits: u64,
    /// The first fault, after which each call is Invalid.
    pub fault: Option<Fault>,
    /// The LSN from which on a redo may begin: where the log ended at opening, or the redo LSN of a checkpoint that ended
    /// since.
    pub since: Lsn,
    /// The checkpoints.
    pub checkpoints: Checkpointer,
    /// The indexes, by the numbers of their databases.
    pub indexes: IndexMap,
    /// The names of the databases, by their numbers.
    pub names: DbNames,
}
