//! The sessions of an environment: their transactions, the locks that these hold and wait for, their cursors, and
//! the calls that wait. It stands on `active_txns`, `open_cursors` and `txn_locks`, whose lists and locks it keeps together, and on
//! `je_answers`, which says where each step of an event leaves an environment; it reads no records and
//! writes no log. Upward it promises each step as `je_answers` has it, and that running out of memory in one
//! leaves the sessions as they were.
#![tactic(auto)]

pub mod all_sessions;
pub mod asker;
pub mod asking;
pub mod blocked;
pub mod copying;
pub mod ending;
pub mod finding;
pub mod named_db;
pub mod refusing;
pub mod spare;
pub mod stop_room;
pub mod taken;
pub mod taking;
pub mod telling;
pub mod using;

pub use all_sessions::Sessions;
pub use named_db::NamedDb;
pub use taken::Taken;
