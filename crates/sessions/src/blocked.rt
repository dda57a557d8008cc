// A call that was made to wait.
use je_order::{List, TxnId};

/// The place of the need for which a call was made to wait, the least owner in its way, and the victims of the
/// cycles that its wait closed, each with its cycle.
#[derive(Drop)]
pub struct Blocked {
    pub at: usize,
    pub owner: TxnId,
    pub victims: Vec<(TxnId, List<TxnId>)>,
}
