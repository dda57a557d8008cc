// What a call that waited came to.
use store_model::{Answer, Durability};

/// What a call that waited came to, for the thread that waits.
#[derive(Drop)]
pub(crate) enum Reply {
    /// It was answered, and its transaction's commits wait for this.
    Answered(Answer, Durability),
    /// There was no memory: its session was ended.
    Memory,
}
