// What a call comes to.
use je_order::{List, Name};
use store_model::{Answer, RecordChange};

/// What a call on records comes to: its answer, whether this is the record that the call took, its
/// changes in order, and where its cursor then stands.
#[derive(Drop)]
pub struct Evaluation {
    pub answer: Answer,
    pub answered: bool,
    pub changes: List<RecordChange>,
    pub place: Option<Name>,
}
