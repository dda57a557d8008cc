// How much of a file is valid.
use je_lsn::FileNo;

/// A file's valid prefix: how many entries it has, the header among them, and where it ends. Both are 0 where there is
/// no whole header.
#[derive(Drop)]
pub struct FileRun {
    pub file: FileNo,
    pub entries: u64,
    pub end: u32,
}
