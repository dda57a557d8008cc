// What became of a call's locks.
use je_order::{List, TxnId};

/// What became of the locks that a call needs. `owner` is the least owner in the way, and `at` the place
/// of the need that is stopped, from 0. `Ready`: it has them all. `Waiting`: it waits for that one.
/// `NotAvailable`: it was not to wait. `Victims`: it waits, and its wait closed cycles; each victim's wait
/// was taken back, one after another, and stands here with the cycle as the waits stood. The call's own
/// transaction may be among them.
#[derive(Debug, Drop)]
pub enum Locked {
    Ready,
    Waiting {
        at: usize,
        owner: TxnId,
    },
    NotAvailable {
        owner: TxnId,
    },
    Victims {
        at: usize,
        owner: TxnId,
        victims: List<(TxnId, List<TxnId>)>,
    },
}
