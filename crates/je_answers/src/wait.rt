// A call that waits.
use je_order::TxnId;
use store_model::Call;

/// A call that waits for a lock: the session and the line of the script that gave it, the call, and its
/// transaction.
#[derive(Drop)]
pub struct Wait {
    pub session: u8,
    pub line: u32,
    pub call: Call,
    pub txn: TxnId,
}
