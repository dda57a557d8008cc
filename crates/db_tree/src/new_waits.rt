// What loading a node does to the nodes that wait.

/// How many nodes wait to be logged at most more than before where a node is loaded, and whether the one whose place it takes
/// waited.
#[derive(Drop)]
pub struct NewWaits {
    pub more: usize,
    pub replaced: bool,
}
