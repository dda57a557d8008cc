// What transactions under way wrote, beside their own changes.
use je_lsn::Lsn;
use je_order::TxnId;
use record_tree::TreeName;
use std::collections::BTreeMap;

/// The names that one transaction wrote, in order; how many of its changes were of a name that had a record
/// just then; and the LSN of the first one, 0 where there is none.
#[derive(Drop)]
pub struct OwnNames {
    pub names: Vec<TreeName>,
    pub had: u64,
    pub first: Lsn,
}

/// What each transaction under way wrote. Ending one takes no memory, so the names stand here.
#[derive(Drop)]
pub struct Written {
    pub by_txn: BTreeMap<TxnId, OwnNames>,
}
