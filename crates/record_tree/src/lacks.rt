// A leaf that is not in memory.

/// A leaf lies in the way that is not in memory: the number of its database and its own number. It has to be
/// loaded, and the call made again.
#[derive(Clone, Copy, Debug, PartialEq, Eq)]
pub struct Lacks {
    pub db: u32,
    pub node: u64,
}
