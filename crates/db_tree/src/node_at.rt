// A node, by its place.
use record_map::SortKey;

/// A node of a tree, by its place.
#[derive(Drop)]
pub struct NodeAt {
    /// Its level, with the BINs at 0.
    pub level: usize,
    /// Its low.
    pub low: SortKey,
}
