// What a file's bytes are.
use crate::ValidPrefix;

/// What a file's bytes are, told by their first entry.
#[derive(Drop)]
pub enum FileScan {
    /// The file's valid prefix; an empty one where no whole entry comes first.
    Prefix(ValidPrefix),
    /// The header of another version of the format.
    VersionUnknown { version: u32 },
    /// A whole entry comes first that is not this file's header.
    Damaged,
}
