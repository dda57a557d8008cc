//! Trees that fit their log down to the images of their nodes, and the roots that a checkpoint's end names.
//! It stands on the trees in memory, on the trees that a log shows and on what a log means. A tree fits a
//! log (`FitsTree`) where it is one of the log, the last image of each node that does not wait is sound,
//! down to the BINs and within the node's bounds, and each record stands where its cell says. Upward it
//! promises that such trees may be named by a checkpoint's end: their images are read with no corruption,
//! and what they lack is behind the redo LSN. A tree fits while its log grows, its records change, names get
//! slots in it and its nodes are logged, but for the nodes that are still to be logged. Its functions have
//! nothing to do: their contracts are the laws.
#![tactic(auto)]

pub mod laws;

pub use laws::{
    bins_are_exact, cells_are_recorded, forests_may_end, images_are_logged, newest_changes_rise,
    nodes_are_in_order, nodes_are_logged, nodes_are_split, read_trees_fit, redone_trees_fit,
    roots_are_right, sound_images_are_read, sound_images_stay, trees_are_placed,
};
