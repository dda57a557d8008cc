//! The lock table: which transaction holds which lock on which record, who waits, and who is granted
//! when a lock goes. It stands on `lock_mode` for the rules and on `je_order` for the names. Upward it
//! promises that owners never conflict, that no one is left waiting who could be granted, and each
//! call's effect on the lists of owners and waits exactly. What a grant needs is made ready when a
//! request begins to wait, so that a release takes no memory.
#![tactic(auto)]

pub mod asked;
pub mod calls;
pub mod dbs;
pub mod held;
pub mod holders;
pub mod listed;
pub mod lists;
pub mod lock;
pub mod queue;
pub mod queues;
pub mod ranges;
pub mod reads;
pub mod record_id;
pub mod table;

pub use asked::Asked;
pub use lock::Lock;
pub use record_id::RecordId;
pub use table::LockTable;
