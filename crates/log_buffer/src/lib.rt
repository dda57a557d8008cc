//! The log buffer: the end of a log of many files, over a disk. It stands on `log_file` for what a log
//! is, on `log_entry` for how entries are encoded, and on `je_disk`. What is appended goes into a write
//! buffer of bytes, which is written out once it is long and before each sync. An entry goes into the
//! last file, or behind the header of a next one where it would make the last one too long. Upward it
//! promises that the disk's files and the write buffer are together the log that was appended, entry by
//! entry, each at the place that it was given; that `read` gives back an entry from its place; and that
//! each answer other than success has its cause.
#![tactic(auto)]

pub mod appending;
pub mod buffer;
pub mod encoding;
pub mod error;
pub mod fetching;
pub mod foreseeing;
pub mod laws;
pub mod log_pos;
pub mod next_place;
pub mod opening;
pub mod reading;
pub mod reserving;
pub mod syncing;
pub mod write_buffer;
pub mod writing;

pub use buffer::LogBuffer;
pub use error::LogErr;
pub use laws::{
    entries_go_last, files_are_bounded, kept_is_left, logs_grow, written_entries_stay,
    zeros_are_torn,
};
pub use log_pos::LogPos;
pub use next_place::NextPlace;
