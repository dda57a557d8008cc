// How much of a log is live.
use crate::file_use::FileUse;
use je_order::List;

/// How much of each file of a log is live, in order of the files' numbers, and what the log has: how many databases, how
/// many records in all of them, and the transaction number that was allocated last, 0 where none was.
#[derive(Drop)]
pub struct LogUse {
    pub files: List<FileUse>,
    pub databases: u64,
    pub records: u64,
    pub last_txn: u64,
}
