// One lock of one transaction.
use je_order::TxnId;
use lock_mode::LockType;

/// A transaction and a lock type: what an owner holds on a record, or what a waiter asks of it.
#[derive(Clone, Copy, Debug, PartialEq, Eq)]
pub struct Lock {
    pub txn: TxnId,
    pub mode: LockType,
}
