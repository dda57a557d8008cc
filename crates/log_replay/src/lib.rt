//! What a log without checkpoints means: the store that replaying its entries leaves, with the numbers
//! that were allocated last, or what is wrong with its files; and what records mean as a store. It stands
//! on the files of logs, the catalog and the model. It has definitions and laws, and hardly any code: logs
//! with checkpoints, which are read in earnest, are `log_meaning`'s. Upward it promises that a transaction
//! whose changes may be logged leaves the store and the numbers that its changes make.
#![tactic(auto)]

pub mod corruption;
pub mod last_file;
pub mod laws;
mod numbered;
pub mod numbers;
mod place;

pub use corruption::Corruption;
pub use last_file::LastFile;
pub use laws::{
    changes_are_logged, indexes_are_judged, kept_is_right, logs_are_read, transactions_are_kept,
};
pub use numbers::{index_of, is_plain, kind_of, number_of};
