// A cursor.
use crate::Txn;

/// A cursor of a transaction, on a database or an index. A transaction has at most 8 at once. `close_cursor` takes one; one that is let go keeps its
/// number until the transaction ends, which closes all of them.
#[derive(Drop)]
pub struct Cursor<'t> {
    pub(crate) txn: &'t Txn,
    pub(crate) number: u8,
}
