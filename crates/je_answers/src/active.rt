// A transaction under way.
use je_order::{List, TxnId};
use store_model::{Durability, Isolation};

/// A transaction under way: its number, the session that it is of (1 to 64), and how it was begun. Its
/// own changes stand beside it, by its number.
#[derive(Drop)]
pub struct Active {
    pub txn: TxnId,
    pub session: u8,
    pub level: Isolation,
    pub durability: Durability,
    /// Whether its calls wait for locks; if not, they are answered that a lock is not available.
    pub waits: bool,
    /// Whether it is that of one call outside a transaction, which waits.
    pub is_auto: bool,
    /// The cycle whose victim it was; it can then only be aborted.
    pub deadlock: Option<List<TxnId>>,
}
