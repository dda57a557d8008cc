//! Log files: what the bytes of one file are, and the log as its files. It stands on `log_entry` for
//! entries and on `je_disk` for files. A file begins with its header, and its valid prefix is the whole
//! entries behind it, up to where they end; what follows is the torn tail. Upward it promises that
//! `scan` finds the valid prefix, or what is wrong with the header, and that what was appended entry by
//! entry is found again.
#![tactic(auto)]

pub mod file_scan;
pub mod laws;
pub mod reading;
pub mod scanning;
pub mod valid_prefix;

pub use file_scan::FileScan;
pub use laws::{entries_are_placed, files_are_found, files_are_one_list};
pub use reading::{Scanned, read_whole, scan};
pub use scanning::{HEADER_SIZE, LOG_VERSION, scan_bytes};
pub use valid_prefix::ValidPrefix;
