//! Locks without deadlock. It stands on `lock_table` for owners and waits, and on `waits_for` for the
//! search. Upward it promises that after every call no transaction waits for itself by way of others:
//! a wait that closes a cycle costs the cycle's greatest transaction its wait, cycle by cycle, and
//! each such victim is handed out with its cycle as the waits stood. Which cycles and victims these are the
//! waits alone settle.
#![tactic(auto)]

pub mod laws;
pub mod manager;
pub mod requested;
pub mod victims;

pub use manager::LockMgr;
pub use requested::Requested;
