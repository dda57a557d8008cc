// A file's valid prefix.
use je_order::List;
use log_entry::Entry;

/// The valid prefix of a file: the whole entries from its beginning, of which the first is the
/// header.
#[derive(Drop)]
pub struct ValidPrefix {
    /// The entries behind the header, in order.
    pub entries: List<Entry>,
    /// The offset of the last entry, 0 where that is the header or there is none.
    pub last: u32,
    /// The offset where the valid prefix ends and the torn tail begins, 0 where there is no whole
    /// header.
    pub end: u32,
}
