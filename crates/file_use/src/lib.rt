//! How much of each file of a log is live: which entries an environment that opens the log still needs for its records
//! and for the trees of the last checkpoint. It stands on what a log means. It has types and definitions, and no code:
//! `recovery_je` counts by them.
#![tactic(auto)]

mod file_use;
mod log_use;

pub use file_use::FileUse;
pub use log_use::LogUse;
