// What a call came to.
use je_order::List;
use store_model::{Answer, Victim};

/// What a call came to: its answer, and the waiting calls that it answers with a deadlock.
#[derive(Drop)]
pub struct Outcome {
    pub answer: Answer,
    pub victims: List<Victim>,
}
