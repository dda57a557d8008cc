// Who asks for locks.
use je_order::TxnId;
use store_model::Isolation;

/// A transaction as it asks for locks.
#[derive(Clone, Copy)]
pub struct Asker {
    pub txn: TxnId,
    pub level: Isolation,
    pub waits: bool,
}
