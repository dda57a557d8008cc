// A transaction under way.
use store_model::{Durability, Isolation};

/// A transaction under way. It is not `Drop`: `commit` or `abort` has to take it, or the program does not compile. It is a token of the
/// environment that began it, and of no other one.
pub struct Txn {
    pub(crate) session: u8,
}

/// How a transaction begins.
#[derive(Clone, Copy, Debug, PartialEq, Eq)]
pub struct TxnOptions {
    /// What its reads see and lock.
    pub isolation: Isolation,
    /// What its commit waits for.
    pub durability: Durability,
}

impl Default for TxnOptions {
    /// Repeatable reads, and a commit that is synced.
    fn default() -> TxnOptions {
        TxnOptions {
            isolation: Isolation::RepeatableRead,
            durability: Durability::Sync,
        }
    }
}
