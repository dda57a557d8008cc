// What a call waits for.
use crate::Kind;
use je_order::{Bound, Word};

/// The record on which a call waits, or the end behind all records of a database, and of which kind the
/// database is.
#[derive(Drop, PartialEq, Eq)]
pub struct LockTarget {
    pub db: Word,
    pub kind: Kind,
    pub at: Bound,
}
