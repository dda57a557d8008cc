//! The tree of one database in memory, and how it stands to the log. It stands on `tree_nodes` for the
//! nodes, on `record_map` for the records and on `log_entry` for images. A tree fits a log (`IsTreeOf`) where each node's last
//! image shows what its children's do, and a BIN's what is committed, but for names that the node is marked for. Upward it
//! promises that each step of a tree and its log keeps this, and that what the images of a checkpoint
//! lack is behind its redo LSN. A name gets its slot in a BIN that is split for it where it is full, with the nodes above: in memory first, and the
//! images of the halves are made then, so that nothing is left to fail when they are logged.
#![tactic(auto)]

pub mod clearing;
pub mod finishing;
pub mod growing;
pub mod image_slot;
pub mod imaging;
pub mod laws;
pub mod loading;
pub mod log_node;
pub mod logged_nodes;
pub mod new_waits;
pub mod node_at;
pub mod node_image;
pub mod node_split;
pub mod noting;
pub mod placing;
pub mod planning;
pub mod reading;
pub mod settling;
pub mod slot_made;
pub mod slot_room;
pub mod splitting;
pub mod tree;
pub mod waiting;

pub use laws::{images_show_their_nodes, splits_are_few, trees_are_covered, trees_fit_their_log};
pub use new_waits::NewWaits;
pub use node_at::NodeAt;
pub use node_image::NodeImage;
pub use node_split::NodeSplit;
pub use slot_made::SlotMade;
pub use slot_room::SlotRoom;
pub use tree::DbTree;
