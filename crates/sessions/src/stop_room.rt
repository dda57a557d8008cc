// Room for what a stop tells.
use crate::NamedDb;
use je_answers::Wait;
use je_order::{List, TxnId, Word};
use store_model::Victim;

/// What a call needs of memory where it begins to wait, made before any lock is changed.
#[derive(Drop)]
pub struct StopRoom {
    pub wait: Wait,
    pub db: Word,
    pub others: List<NamedDb>,
    pub told: Vec<Victim>,
    pub buffers: Vec<Vec<TxnId>>,
}
