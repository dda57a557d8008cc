//! What a check of a log's files finds: all that is wrong with them, in the order of reading, where reading goes on
//! behind each part that is wrong. It stands on what a log means. Upward it promises that the first that a check
//! finds is what opening answers, and that without a finding a check has counted the databases that opening reads. Its
//! functions have nothing to do: their contracts are the laws.
#![tactic(auto)]

mod checked;
mod database_count;
mod file_run;
mod finding;
pub mod laws;

pub use checked::Checked;
pub use database_count::DatabaseCount;
pub use file_run::FileRun;
pub use finding::Finding;
pub use laws::{checks_begin_as_opening, checks_begin_as_readings, parts_begin_as_opening};
