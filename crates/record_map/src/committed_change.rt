// What a commit did for a name.
use je_lsn::Lsn;

/// A change that was committed.
#[derive(Copy, Clone, Drop)]
pub struct CommittedChange {
    /// Where it was logged.
    pub from: Lsn,
    /// Whether the last image of the cell's BIN says what is committed now.
    pub is_shown: bool,
}
