// A change that is not committed.
use crate::Data;
use je_lsn::Lsn;
use je_order::TxnId;

/// A change of a record by an active transaction, which has logged it and not committed.
#[derive(Drop)]
pub struct Write {
    /// The transaction.
    pub txn: TxnId,
    /// The LSN of the change's log entry.
    pub at: Lsn,
    /// The record's new data; None where the record is deleted.
    pub value: Option<Data>,
}
