// The line of an entry.
use crate::entry_kind::EntryKind;
use je_lsn::Lsn;
use je_order::TxnId;

/// What is printed of an entry: its place, its kind, how many bytes it has, its prev field, and the transaction and the
/// database whose it is, if it is one's.
#[derive(Clone, Copy)]
pub struct LogLine {
    pub at: Lsn,
    pub kind: EntryKind,
    pub size: u32,
    pub prev: u32,
    pub txn: Option<TxnId>,
    pub db: Option<u32>,
}
