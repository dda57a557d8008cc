//! The engine: an open environment over a disk, change by change. It opens the environment that a disk has, logs what
//! calls change, and closes the log. It stands on `in_tree` for the
//! records and the log, on `txn_core` for what changes are planned, on `recovery_je` for opening, on `index_map` and
//! `db_names` for what is kept beside the catalog, and on `crash_recovery` for what a crash leaves. Upward it promises that an
//! environment that is opened is where the model starts, that what is logged is what was planned, that what the disk's images mean at each
//! moment is the store changed by the first of the attempted commits, at least the synced ones, and that
//! a fault of the disk is its only cause of failing beside memory. Users speak of an engine by the
//! definitions of specs/Whole alone.
#![tactic(auto)]

mod closing;
mod config;
mod engine;
mod filling;
mod kept;
mod open_err;
mod opening;

pub use closing::{Records, close_log};
pub use config::Config;
pub use engine::{Engine, NUMBERS_FOR_CHANGE};
pub use kept::Kept;
pub use open_err::OpenErr;
pub use opening::{Opened, Opening, Stopped, no_opening};
