//! The disk: what the log buffer asks of a folder of numbered log files. It stands on `je_lsn`. A disk
//! may tell what it holds. Then its contract says of each call which state it leaves, and which states
//! the disk passes on the way; an adapter over a real folder is not observable. Every disk counts its
//! faults, and says that it failed only where that count rose. A disk may set room aside behind the bytes of a
//! file that grows, so what a crash leaves of the file may be longer than what was put there. Syncs and readings
//! of whole files can be begun as jobs, which run outside the disk, and are ended on it or given up.
#![tactic(auto)]

pub mod disk;
pub mod error;
pub mod extension;
pub mod job;
pub mod jobs;

pub use disk::Disk;
pub use error::DiskErr;
pub use extension::{EXTENSION, extended};
pub use job::{ReadDone, ReadJob, SyncDone, SyncJob};
pub use jobs::Jobs;
