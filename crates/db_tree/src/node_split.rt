// A node that is to be split.
use record_map::SortKey;

/// A node that is to be split: it keeps the names below `middle`, and a new node gets those from there on.
#[derive(Drop)]
pub struct NodeSplit {
    /// The node's low.
    pub low: SortKey,
    /// The low of the new node.
    pub middle: SortKey,
    /// The low behind the node; None where it is the last of its level.
    pub high: Option<SortKey>,
}
