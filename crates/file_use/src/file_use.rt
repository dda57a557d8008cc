// How much of a file is live.
use je_lsn::FileNo;

/// How many bytes a log file has, and how many of them are those of live entries.
#[derive(Clone, Copy)]
pub struct FileUse {
    pub file: FileNo,
    /// All bytes of the file, a torn tail included.
    pub total: u64,
    /// The bytes of its live entries.
    pub live: u64,
}
