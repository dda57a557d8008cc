// Why a tree was not changed.

/// Why a change of a tree was not made.
#[derive(Clone, Copy, Debug, PartialEq, Eq)]
pub enum TreeErr {
    /// The disk failed, and the log with it: nothing more can be logged.
    Fault,
    /// The log has no room for the entries. Nothing changed.
    Full,
    /// No node number is left. Nothing changed.
    IdsEnded,
    /// Out of memory. Nothing changed.
    Memory,
}
