// What a call comes to where nobody has a lock.
use store_model::{Answer, RecordChange};

/// What a call outside a transaction comes to where no transaction is under way: all of a `TargetPlan` but the locks, and a
/// cursor's place, as it has none.
#[derive(Drop)]
pub struct OutcomePlan {
    /// The answer, where the log has room.
    pub answer: Answer,
    /// The changes, in order, each with its database's number.
    pub changes: Vec<(u32, RecordChange)>,
}
