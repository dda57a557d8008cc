//! Nodes as log entries: the image that a node's entry shows, and the node that entries show. It stands on
//! `node_core` for nodes and on `log_entry` for entries. Upward it promises that a node's entry is read
//! back as the node's committed slots, that a delta with its full image is too, and that entries of which
//! none is made are told from others: an entry of another kind, a delta of another node, and a full image
//! with a delta that together have more slots than a node has.
#![tactic(auto)]

pub mod laws;
pub mod reading;
pub mod slots;

pub use laws::{images_are_entries, nodes_are_read_back};
pub use reading::from_entries;
