//! The locks that a call of a transaction takes, one need after another, and gives back. It stands on
//! `lock_mgr` for locks without deadlock and on `je_answers` for what a call takes, when it waits and
//! what its level keeps. Upward it promises these definitions by equation, and that a call that cannot
//! be answered, as where memory runs out, leaves all locks as they were.
#![tactic(auto)]

pub mod call_locks;
pub mod got;
pub mod locked;
pub mod reading;
pub mod taking;
pub mod undoing;

pub use call_locks::CallLocks;
pub use got::Got;
pub use locked::Locked;
