// How long a file is.
use je_lsn::FileNo;

/// How long a log file is: how many bytes it has, how many entries its valid prefix has, the header among them, and where that ends.
/// The last two are 0 where there is no whole header.
#[derive(Clone, Copy)]
pub(crate) struct FileLen {
    pub(crate) number: FileNo,
    pub(crate) len: u64,
    pub(crate) entries: u64,
    pub(crate) end: u32,
}
