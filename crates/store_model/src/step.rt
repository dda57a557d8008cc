// A step of maintenance.

/// A step of maintenance, as an `m` line of a script gives it.
#[derive(Clone, Copy, Debug, PartialEq, Eq)]
pub enum Step {
    /// Begins a checkpoint.
    Begin,
    /// Logs one node for the checkpoint.
    Flush,
    /// Ends the checkpoint.
    Finish,
    /// Syncs the log.
    Sync,
}
