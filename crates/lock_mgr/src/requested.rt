// The answer to a request.
use je_order::{List, TxnId};
use lock_mode::LockType;

/// What became of a request. `was` is what its transaction held on the record before, `owner` the least owner
/// that it conflicts with. `Granted`: it has the lock. `Waiting`: it waits.
/// `NotAvailable`: it was not to wait, and nothing is asked any more. `Victims`: it waits, and its wait
/// closed cycles; each victim's wait was taken back, one after another, and stands here with the cycle
/// as the waits stood: each waits for the next, the last for the first, and none is named twice. The
/// asking transaction may be among them.
#[derive(Debug, Drop)]
pub enum Requested {
    Granted {
        was: Option<LockType>,
    },
    Waiting {
        owner: TxnId,
    },
    NotAvailable {
        owner: TxnId,
    },
    Victims {
        owner: TxnId,
        victims: List<(TxnId, List<TxnId>)>,
    },
}
