// Where a node of an environment's trees is.
use record_map::SortKey;

/// A node of the tree of a database, by its place and its number.
#[derive(Drop)]
pub struct NodePlace {
    /// Its level, with the BINs at 0.
    pub level: usize,
    /// The number of its database.
    pub db: u32,
    /// Its own number.
    pub node: u64,
    /// Its low.
    pub low: SortKey,
}
