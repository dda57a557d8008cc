// A lock that a call needs.
use je_order::Bound;
use lock_mode::LockType;

/// A lock that a call needs: the number of its database, the record or the end, and the type.
#[derive(Drop)]
pub struct Need {
    pub db: u32,
    pub at: Bound,
    pub asked: LockType,
}
