// What is kept of a transaction's own changes.

/// How many changes a transaction has made, and how many of them set a name. Their names and data stand in the
/// cells of the trees.
#[derive(Clone, Copy, Debug, PartialEq, Eq)]
pub struct OwnCounts {
    pub len: u64,
    pub set: u64,
}
