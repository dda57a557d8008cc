// The kind of an entry.
ghost use Rattle.std.specs.Prelude.{◌≡◌};
ghost use Rattle.log_printer.specs.LogLines.{kind_of_entry, kind_word};

use log_entry::Entry;

/// The kind of a log entry.
#[derive(Clone, Copy, Debug, PartialEq, Eq)]
pub enum EntryKind {
    FileHeader,
    Put,
    Delete,
    Migrated,
    Commit,
    In,
    Bin,
    BinDelta,
    CkptStart,
    CkptEnd,
    FileSummary,
}

// The kind of an entry.
pub(crate) fn kind_of_entry(entry: &Entry) -> EntryKind
    ensures { result ≡ kind_of_entry entry.now }
{
    match entry {
        Entry::FileHeader { .. } => EntryKind::FileHeader,
        Entry::Put { .. } => EntryKind::Put,
        Entry::Delete { .. } => EntryKind::Delete,
        Entry::Migrated { .. } => EntryKind::Migrated,
        Entry::Commit { .. } => EntryKind::Commit,
        Entry::In { .. } => EntryKind::In,
        Entry::Bin { .. } => EntryKind::Bin,
        Entry::BinDelta { .. } => EntryKind::BinDelta,
        Entry::CkptStart { .. } => EntryKind::CkptStart,
        Entry::CkptEnd { .. } => EntryKind::CkptEnd,
        Entry::FileSummary { .. } => EntryKind::FileSummary,
    }
}

// The word that a line has for a kind.
pub(crate) fn kind_word(kind: EntryKind) -> &'static [u8]
    ensures { result.now ≡ kind_word kind }
{
    match kind {
        EntryKind::FileHeader => b"FileHeader",
        EntryKind::Put => b"Put",
        EntryKind::Delete => b"Delete",
        EntryKind::Migrated => b"Migrated",
        EntryKind::Commit => b"Commit",
        EntryKind::In => b"IN",
        EntryKind::Bin => b"BIN",
        EntryKind::BinDelta => b"BINDelta",
        EntryKind::CkptStart => b"CkptStart",
        EntryKind::CkptEnd => b"CkptEnd",
        EntryKind::FileSummary => b"FileSummary",
    }
}
