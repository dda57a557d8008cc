// The answer to a request.
use je_order::TxnId;
use lock_mode::LockType;

/// What became of a request: it was granted, and this is what its transaction held on the record before; or it
/// waits, and of the owners that it conflicts with this is the least.
#[derive(Clone, Copy, Debug, PartialEq, Eq)]
pub enum Asked {
    Granted { was: Option<LockType> },
    Blocked { owner: TxnId },
}
