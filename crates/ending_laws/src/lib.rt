//! What has to hold before the end of a checkpoint is logged. It stands on `txn_log` for a log that gives records while
//! transactions are under way, and on `tree_images` for trees that fit a log. Upward it promises that the end may be
//! logged where the trees fit, no image lacks what was logged before the redo LSN, and each transaction under way began behind
//! it. Its function has nothing to do: its contract is the law.
#![tactic(auto)]

pub mod laws;
