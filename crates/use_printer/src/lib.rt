//! How much of a log is live, as text: a line for all files, one for each file, one of databases and records, and one of the
//! last transaction. `put_use` sends the lines. It stands on file_use and on text_out.
#![tactic(auto)]

pub mod printing;

pub use printing::put_use;
