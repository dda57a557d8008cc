// Who looks at records.
ghost use Rattle.std.specs.Prelude.{◌≡◌, option_map};
ghost use Rattle.record_tree.specs.Occupied.{occupied_by};
ghost use Rattle.txn_views.specs.Seen.{sees, seen_value};

use je_order::TxnId;
use record_map::{Cell, Data};
use store_model::Isolation;
use txn_core::reading::committed_in;

/// A transaction and its level.
#[derive(Clone, Copy)]
pub struct Viewer {
    pub txn: TxnId,
    pub level: Isolation,
}

impl Viewer {
    // Whether it sees what a transaction changed and has not committed.
    fn sees(self, writer: TxnId) -> bool
        ensures { result ≡ sees self.level self.txn writer }
    {
        match self.level {
            Isolation::ReadUncommitted => true,
            _ => writer == self.txn,
        }
    }

    /// The data that it sees in a cell, if it sees a record there.
    pub fn data_in<'a>(self, cell: &'a Cell) -> Option<&'a Data>
        ensures { option_map (λ d. d.now) result ≡ seen_value self.level self.txn (occupied_by cell.now) }
    {
        match &cell.write {
            Some(write) => {
                if self.sees(write.txn) {
                    return write.value.as_ref();
                }
                committed_in(cell)
            }
            None => committed_in(cell),
        }
    }
}
