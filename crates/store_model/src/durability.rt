// What a commit waits for.

/// What has to be done before a commit is acknowledged (Getting Started with Transaction Processing,
/// "Durability").
#[derive(Clone, Copy, Debug, PartialEq, Eq)]
pub enum Durability {
    /// The log is written out and synced.
    Sync,
    /// The log is written out to its files.
    WriteNoSync,
    /// Nothing: the commit is in the log's buffer.
    NoSync,
}
