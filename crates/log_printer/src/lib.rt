//! The log as text: a line for each entry, with its place, kind and size, and whose it is, and a last one where a file's
//! tail is torn. `read_log` reads the files of a disk, one after another, and keeps of each entry what is printed, without its
//! key and data, or tells the first file that is damaged; it changes nothing. `put_log` sends the lines. It stands on log_file and
//! log_replay, and on text_out.
#![tactic(auto)]

mod entry_kind;
mod file_lines;
mod log_err;
mod log_line;
mod making;
pub mod printing;
pub mod reading;

pub use entry_kind::EntryKind;
pub use file_lines::FileLines;
pub use log_err::LogErr;
pub use log_line::LogLine;
pub use printing::put_log;
pub use reading::read_log;
