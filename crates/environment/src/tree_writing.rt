// The trees and their log get changes.
ghost use Rattle.std.specs.Prelude.{◌≡◌, ◌≤◌, true, false, unwrap_or, IfOk, IfSome};
ghost use Rattle.std.specs.List.{AllByRecursion};
ghost use Rattle.log_buffer.specs.Buffer.{disk_of as disk_below, has_failed};
ghost use Rattle.log_entry.specs.Body.{IsEntry};
ghost use Rattle.record_map.specs.Cells.{value_at};
ghost use Rattle.record_tree.specs.Logged.{entry_for};
ghost use Rattle.record_tree.specs.Occupied.{AreFewNew, IsFreeFor, write_in};
ghost use Rattle.in_tree.specs.Observed.{cells_of, has_tree_of, limit_in};
ghost use Rattle.engine.specs.Whole.{AreLeft};
ghost use Rattle.environment.specs.Writing.{WritesTrees, wrote_by};

use crate::wrote::{TreesWrote, Wrote};
use in_tree::LogTrees;
use je_disk::Disk;
use je_lsn::Lsn;
use je_order::TxnId;
use record_tree::{Records, TreeChange, TreeErr};
use std::alloc::{AllocError, Global};

// An LSN, 0 where there is none.
fn lsn_or_none(first: Option<Lsn>) -> Lsn
    ensures { result ≡ unwrap_or first 0 }
{
    match first {
        Some(lsn) => lsn,
        None => Lsn::from_u64(0),
    }
}

// Makes changes of a transaction in the trees and logs them, with room for so many Commits behind them.
pub(crate) fn write_changes<D: Disk>(
    trees: &mut LogTrees<D>,
    alloc: Global,
    txn: TxnId,
    changes: &[TreeChange],
    owed: u32,
) -> Result<TreesWrote, AllocError>
    requires trees { AllByRecursion (λ c. has_tree_of trees.old c.db ≡ true) changes.now }
    requires free { AllByRecursion (λ c. IsFreeFor txn (write_in (value_at c.name (cells_of trees.old c.db)))) changes.now }
    requires few { AreFewNew (cells_of trees.old) changes.now }
    requires new { AllByRecursion (λ c. IfSome c.makes (λ d. has_tree_of trees.old d ≡ false)) changes.now }
    requires entries { AllByRecursion (λ c. IsEntry (entry_for txn c.db c.name c.value)) changes.now }
    ensures writes { WritesTrees D.meaning trees.old trees.new txn changes.now owed result }
    ensures never_falls { D.meaning.faults (disk_below trees.old.log) ≤ D.meaning.faults (disk_below trees.new.log) }
{
    match trees.write_all(alloc, txn, changes, owed) {
        Ok(first) => Ok(TreesWrote::Done(lsn_or_none(first))),
        Err(TreeErr::Full) => Ok(TreesWrote::Full),
        Err(TreeErr::Fault) => Ok(TreesWrote::Failed),
        Err(TreeErr::IdsEnded) => Err(AllocError),
        Err(TreeErr::Memory) => Err(AllocError),
    }
}

// What changes come to that may lack numbers: no room in the log is told first.
pub(crate) fn limit_of<D: Disk>(
    trees: &mut LogTrees<D>,
    alloc: Global,
    txn: TxnId,
    changes: &[TreeChange],
    owed: u32,
) -> Result<Wrote, AllocError>
    requires works { has_failed trees.old.log ≡ false }
    requires trees { AllByRecursion (λ c. has_tree_of trees.old c.db ≡ true) changes.now }
    requires entries { AllByRecursion (λ c. IsEntry (entry_for txn c.db c.name c.value)) changes.now }
    ensures answer { IfOk result (λ wrote. wrote ≡ wrote_by (limit_in trees.old changes.now owed)) }
    ensures same { AreLeft trees.old trees.new }
{
    match trees.find_limit(alloc, txn, changes, owed)? {
        Some(TreeErr::Full) => Ok(Wrote::Full),
        _ => Ok(Wrote::NoNumbers),
    }
}
