// An entry as it is handed over to be written.
use crate::Entry;
use je_order::TxnId;

/// An entry that is to be written: any entry, or the change of a record by its parts, which stay where the
/// caller has them and are copied only into what is written.
#[derive(Clone, Copy)]
pub enum EntryRef<'a> {
    /// An entry as it is.
    Whole(&'a Entry),
    /// The `Put` of a record under this key and dup.
    Put {
        txn: TxnId,
        db: u32,
        key: &'a [u8],
        dup: &'a [u8],
        value: &'a [u8],
    },
    /// The `Delete` of the record under this key and dup.
    Delete {
        txn: TxnId,
        db: u32,
        key: &'a [u8],
        dup: &'a [u8],
    },
}
