// Whose turn it is to sync.

/// What a commit that waits to be durable does next.
pub(crate) enum Turn<J> {
    /// Nothing: it is durable.
    Covered,
    /// Nothing: the disk failed.
    Failed,
    /// It runs this job, which covers it.
    Runs(J),
}
