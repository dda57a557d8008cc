// What is wrong with the files of a log.
use je_lsn::{FileNo, Lsn};

/// Why an environment cannot be opened. Of several the first in the order of reading is told: the files
/// in rising number, then the numbers between them, then the catalog's records by name, then the
/// databases' records by number and name.
#[derive(Clone, Copy, Debug, PartialEq, Eq)]
pub enum Corruption {
    /// A file does not begin with its header (offset 0), or one that is not the last ends in bytes that
    /// are no whole entries (the offset where they begin).
    Damaged(Lsn),
    /// A file between the first and the last is not there; the offset is 0.
    Missing(Lsn),
    /// The entry there put a record that breaks a rule of the catalog or of its database's kind.
    Tree(Lsn),
    /// A file is of another version of the format.
    VersionUnknown { file: FileNo, version: u32 },
}
