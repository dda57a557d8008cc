// What the log keeps.
use crate::{ChildSlot, FileUsage, RecordSlot, Root};
use je_lsn::Lsn;
use je_order::{List, Name, Octets, TxnId};

/// A log entry. A transaction's changes count once its `Commit` is in the log. What each kind holds, and
/// its limits, are this project's own.
#[derive(Drop)]
pub enum Entry {
    /// The first entry of a file: the format's version and the file's own number.
    FileHeader {
        version: u32,
        file: u32,
    },
    /// The transaction put a record into the database; the value is empty where the dup is the data.
    Put {
        txn: TxnId,
        db: u32,
        name: Name,
        value: Octets,
    },
    /// The transaction deleted a record of the database.
    Delete {
        txn: TxnId,
        db: u32,
        name: Name,
    },
    /// A committed record that was copied to here from a file that is cleaned.
    Migrated {
        db: u32,
        name: Name,
        value: Octets,
    },
    /// The transaction ended, and its changes count.
    Commit {
        txn: TxnId,
    },
    /// An image of an IN: its level, from 2 to 64, and 1 to 128 children whose names rise strictly.
    In {
        db: u32,
        node: u64,
        level: u8,
        slots: List<ChildSlot>,
    },
    /// A full image of a BIN: at most 128 records whose names rise strictly.
    Bin {
        db: u32,
        node: u64,
        slots: List<RecordSlot>,
    },
    /// A BIN by what was set since its full image, which stands at `full`: these records alone.
    BinDelta {
        db: u32,
        node: u64,
        full: Lsn,
        slots: List<RecordSlot>,
    },
    /// A checkpoint began.
    CkptStart {
        number: u64,
    },
    /// The checkpoint that began at `start` ended: from where on changes are redone, the numbers that
    /// were allocated last, the LSN of a `FileSummary` if there is one, and the roots of the
    /// databases' trees, whose databases' numbers rise strictly.
    CkptEnd {
        number: u64,
        start: Lsn,
        redo: Lsn,
        last_txn: TxnId,
        last_node: u64,
        last_db: u32,
        summary: Option<Lsn>,
        roots: List<Root>,
    },
    /// What the log's files hold: at most 1,000,000 files whose numbers rise strictly.
    FileSummary {
        files: List<FileUsage>,
    },
}
