// What the end of a checkpoint needs to know.
use je_lsn::Lsn;

/// What the end of a checkpoint needs to know beside the trees.
#[derive(Clone, Copy)]
pub struct Finish {
    /// Where the log ended as the environment was opened.
    pub since: Lsn,
    /// An LSN that no entry of a transaction under way stands before.
    pub first: Option<Lsn>,
    /// The transaction number that was allocated last.
    pub last_txn: u64,
    /// The database number that was allocated last.
    pub last_db: u32,
    /// How many Commits are owed.
    pub owed: u32,
}
