//! The records of one database in memory: an ordered map from names to cells. A cell has what is
//! committed of its record, and the one change that an active transaction may have made to it. Names
//! and short data lie in the map's own nodes. It stands on `je_order` for names, on `je_lsn` and on
//! `node_core` for the versions that images show. A contract sees the map as the list of its names and
//! cells, in which names rise strictly. Upward it promises that the list changes at the one name that a
//! call gives, and that a search finds the first cell from an edge on, or the last one below it. Beside the
//! map stand runs of names, each with a bound of how many cells it has, so that cells need not be counted
//! where they are few for sure; no contract sees them.
#![tactic(auto)]

pub mod cell;
pub mod cells;
pub mod committed_change;
pub mod data;
pub mod edge_ref;
mod held_data;
mod held_name;
mod runs;
pub mod sort_key;
pub mod write;

pub use cell::{Cell, is_same_version};
pub use cells::Cells;
pub use committed_change::CommittedChange;
pub use data::Data;
pub use edge_ref::EdgeRef;
pub use sort_key::SortKey;
pub use write::Write;
