// The last file of a log.
use je_lsn::FileNo;

/// The last file of a log as it was read. The bytes from `end` to `len` are the torn tail.
#[derive(Clone, Copy, Debug, PartialEq, Eq)]
pub struct LastFile {
    pub file: FileNo,
    /// The offset of its last entry, 0 where that is the header or there is none.
    pub last: u32,
    /// Where its valid prefix ends; 0 where it lacks a whole header.
    pub end: u32,
    /// How many bytes it has.
    pub len: u64,
}
