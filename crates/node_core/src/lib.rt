//! Nodes of the trees: a BIN, whose slots name records, and an IN, whose slots name children. It stands
//! on `je_order` for names and on `je_lsn`. A contract sees a node's slots as one list, in which names
//! rise strictly. Upward it promises that a slot is found by its name, that a put changes the one slot of
//! that name, and that the slots which a delta shows, put into the last full image, make the image that
//! the node has now.
#![tactic(auto)]

pub mod laws;
pub mod node;
pub mod slot;
pub mod slots;

pub use laws::slots_are_their_names;
pub use node::Node;
pub use slot::{Marked, Slot, Version};
pub use slots::Slots;
