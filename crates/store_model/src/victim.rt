// A call that lost its wait.
use je_order::{List, TxnId};

/// A waiting call that an event answers with a deadlock: its session and line, and the cycle, in which
/// each transaction waits for the next and the last for the first.
#[derive(Drop)]
pub struct Victim {
    pub session: u8,
    pub line: u32,
    pub cycle: List<TxnId>,
}
