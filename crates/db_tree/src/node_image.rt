// The image of a node.
use log_entry::Entry;
use record_map::SortKey;

/// The image of a node that is to be logged. The LSNs of an IN's children are set when it is logged (`DbTree::finish_image`).
#[derive(Drop)]
pub struct NodeImage {
    /// The node's level, with the BINs at 0.
    pub level: usize,
    /// Its low.
    pub low: SortKey,
    /// The entry.
    pub entry: Entry,
    /// Whether the node waited to be logged before it was put in here.
    pub waited: bool,
    /// The lows of its children, in the order of the entry's slots; none of a BIN.
    pub children: Vec<SortKey>,
}
