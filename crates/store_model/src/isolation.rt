// How far a transaction is kept apart from the others.

/// What a transaction's reads see and lock (Getting Started with Transaction Processing, "Isolation").
/// Write locks are kept to the transaction's end at every level.
#[derive(Clone, Copy, Debug, PartialEq, Eq)]
pub enum Isolation {
    /// Reads see what others have not committed yet, and lock nothing.
    ReadUncommitted,
    /// Reads see what is committed; a read lock goes when its call is answered.
    ReadCommitted,
    /// A record that was read stays as it was read until the transaction ends.
    RepeatableRead,
    /// No record comes into a range that was read until the transaction ends.
    Serializable,
}
