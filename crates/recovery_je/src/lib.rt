//! Reading the files of an environment: the trees that its log means, or what is wrong with it. It stands
//! on the files of logs, on what a log with checkpoints means, and on trees in memory by what the trait
//! `Loads` says of them. Upward it promises that the files mean the store that the trees hold, with the
//! numbers that were allocated last, or that the corruption is the first in the order of reading; that a
//! check of the files finds all that is wrong; and how much of each file is live.
#![tactic(auto)]

pub mod check;
mod checking;
mod checkpoint_end;
mod decoding;
mod descending;
mod entry_checks;
mod file_entries;
mod file_len;
mod finishing;
mod gap_checks;
mod gaps;
mod giving_back;
mod images;
mod indexes;
mod live_entries;
mod live_images;
mod log_read;
mod lookup;
mod node_checks;
mod numbered;
mod numbers;
pub mod opening_store;
mod read_err;
mod read_notes;
mod reading;
mod record_checks;
pub mod recover_err;
pub mod recovered;
mod recovering;
pub mod recovery;
mod redo_count;
mod redoing;
mod rest_checks;
mod root_checks;
mod roots;
mod settling;
mod slot_checks;
mod tree_check;
pub mod usage;
mod waiting;
mod waiting_change;
mod walking;

pub use check::check_disk;
pub use opening_store::OpeningStore;
pub use recover_err::RecoverErr;
pub use recovered::Recovered;
pub use recovery::{recover, recover_disk};
pub use usage::log_use;
