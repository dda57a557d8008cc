// What a call comes to where there are indexes.
use je_order::Name;
use store_model::{Answer, Need, RecordChange};

/// What a call of a transaction comes to on the records of a database, and in its indexes or through one.
#[derive(Drop)]
pub struct TargetPlan {
    /// The answer, where the locks are got and the log has room.
    pub answer: Answer,
    /// The changes, in order, each with its database's number: each in the database itself is followed by those in
    /// its indexes.
    pub changes: Vec<(u32, RecordChange)>,
    /// The locks that the call needs, in the order in which they are asked for.
    pub needs: Vec<Need>,
    /// Where its cursor then stands, if the call is answered so.
    pub place: Option<Name>,
}
