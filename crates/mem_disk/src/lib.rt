//! A disk in memory, for tests and for whatever wants no folder. It stands on `je_disk`. It is observable:
//! it keeps its files and, beside them, a record of all changes, and its history is that record played
//! from an empty disk. It fails where it is told to. Its jobs have nothing to do: a sync job is a number,
//! and what it makes stable is in the record.
#![tactic(auto)]

pub mod change;
pub mod crash_state;
pub mod fault_plan;
pub mod file_map;
pub mod file_state;
pub mod job;
pub mod memory;

pub use change::Change;
pub use crash_state::MemCrashState;
pub use job::{MemDone, MemJob, MemReadDone, MemReadJob};
pub use memory::MemDisk;
