//! The trees of an environment's databases in memory, over their log. It stands on `db_tree` for the tree of one database, and on
//! `log_buffer` for the log. Over a log buffer the trees of all databases (`LogTrees`) are the records that transactions read and
//! change: a change takes all its memory first, is logged, and is then set in its cell. While a log is read again they are
//! `LoadedTrees`: nodes come with their images and stand on their levels, each record is committed, and `LogTrees` go on with them.
#![tactic(auto)]

pub mod checkpointing;
mod filled;
mod filling;
mod forest;
pub mod laws;
pub mod loaded_trees;
mod loading;
pub mod logged_trees;
mod logging_checkpoints;
pub mod making_new;
mod making_ready;
pub mod observed;
mod placed;
mod preparing;
mod reading;
mod stored;
pub mod trees;
mod writing;

pub use laws::loaded_trees_fit;
pub use loaded_trees::LoadedTrees;
pub use logged_trees::LogTrees;
pub(crate) use placed::Placed;
pub use trees::{LAST_NODE, Trees};
