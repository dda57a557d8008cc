// What ending a checkpoint came to.

use je_lsn::Lsn;

/// What ending a checkpoint came to.
#[derive(Clone, Copy, Debug, PartialEq, Eq)]
pub enum Ended {
    /// Its end is in the log, with this redo LSN.
    Done(Lsn),
    /// So many nodes are left to be logged before.
    Left(u64),
}
