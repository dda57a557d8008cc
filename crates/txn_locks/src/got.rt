// A lock that a call got.
use lock_mode::LockType;
use lock_table::RecordId;

/// A lock that a call got, and what its transaction held on the record before.
#[derive(Drop)]
pub struct Got {
    pub at: RecordId,
    pub was: Option<LockType>,
}
