//! The checkpoints of an environment: their numbers, their steps, and when the end may be logged. It stands on `record_tree` for
//! the trees, which know the nodes that are noted: those that were dirty as the checkpoint began, those above them, and those
//! that were split off a noted one or put above a noted root since. It has no log. Upward it promises that a flush
//! logs the next node that is noted and dirty, the lowest level first, that an end is logged only where there is none, and that its redo LSN is
//! above neither its own beginning nor the first entry of a transaction under way, nor what an image of a node lacks.
#![tactic(auto)]

pub mod checkpointer;
pub mod ended;
pub mod finish;
mod numbers;
mod stepping;
pub mod under_way;

pub use checkpointer::Checkpointer;
pub use ended::Ended;
pub use finish::Finish;
pub use under_way::UnderWay;
