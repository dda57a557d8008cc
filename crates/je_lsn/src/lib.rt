//! Places in the log: a log file's number, an LSN, and the names of log files. It stands on
//! `je_order`, for copies that are equal. A contract sees an `Lsn` as one number, in whose order LSNs
//! are compared; a log file's name is read back as its number, and no other name is read as one.
#![tactic(auto)]

pub mod file_no;
pub mod lsn;
pub mod naming;

pub use file_no::{FileNo, LAST_FILE};
pub use lsn::Lsn;
pub use naming::{file_name, hex_digit, parse_name};
