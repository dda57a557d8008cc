// A new index is logged and filled.
ghost use Rattle.std.specs.Prelude.{◌≡◌, ◌≤◌, ◌<◌, ◌+◌, ◌∷◌, [], ℕ, suc, List, None, true, false, IfErr, IfOk, OnOk, length};
ghost use Rattle.std.specs.List.{AllByRecursion};
ghost use Rattle.log_buffer.specs.Buffer.{has_failed};
ghost use Rattle.log_entry.specs.Body.{IsEntry};
ghost use Rattle.log_entry.specs.declared.entry.Entry.{Entry};
ghost use Rattle.record_map.specs.Cells.{value_at};
ghost use Rattle.record_tree.specs.Logged.{entry_for, most_entries, IsEndOf, IsFront, IsLimit, IsUndone, LogsTransaction};
ghost use Rattle.record_tree.specs.Occupied.{AreSame, IsFreeFor, write_in};
ghost use Rattle.record_tree.specs.declared.tree_err.TreeErr.{TreeErr as Reason};
ghost use Rattle.in_tree.specs.Filling.{AreFilling};
ghost use Rattle.in_tree.specs.Limits.{commit_sizes, HasRoomFor, TriedFitting};
ghost use Rattle.in_tree.specs.Observed.{cells_of, has_tree_of, limit_filling_in, waits_of, GrewTrees};
ghost use Rattle.txn_core.specs.Transactions.{HasCommitted, HasTreesAfter, LeavesWrites};
ghost use Rattle.engine.specs.Steps.{HasStepCause, LogsChanges, refusal_by, txn_of};
ghost use Rattle.engine.specs.Whole.{AreLeft, CanGoOn, EndsNear, LeavesCells, contents, disk_of};

use crate::engine::{Engine, NUMBERS_FOR_CHANGE, refusal};
use in_tree::LogTrees;
use je_disk::Disk;
use je_order::TxnId;
use record_tree::{TreeChange, TreeErr};
use std::alloc::{AllocError, Global};
use store_model::{Answer, Fault, LAST_DATABASE, LAST_TXN};
use txn_core::{PlannedChanges, changed_names, commit_names};

// Makes changes that make a database and fill it as one transaction: writes them, logs its Commit, and then drops the tree of the
// database `gone`. `owed` Commits have room in the log before and behind it, that of this transaction among them. Neither Full, IdsEnded nor
// Memory changes anything. Fault: the disk failed; what the trees have is not said.
fn commit_filled<D: Disk>(
    trees: &mut LogTrees<D>,
    alloc: Global,
    txn: TxnId,
    changes: &[TreeChange],
    gone: Option<u32>,
    owed: u32,
) -> Result<(), TreeErr>
    requires free { AllByRecursion (λ c. IsFreeFor txn (write_in (value_at c.name (cells_of trees.old c.db)))) changes.now }
    requires some { 1 ≤ owed }
    requires fills { AreFilling (has_tree_of trees.old) changes.now }
    requires entries { AllByRecursion (λ c. IsEntry (entry_for txn c.db c.name c.value)) changes.now }
    ensures values { OnOk result (HasCommitted changes.now gone (cells_of trees.old) (cells_of trees.new)) }
    ensures writes { OnOk result (LeavesWrites changes.now gone (cells_of trees.old) (cells_of trees.new)) }
    ensures left { OnOk result ((n : ℕ) → owed ≡ suc n → HasRoomFor trees.new.log (commit_sizes n)) }
    ensures trees { OnOk result (HasTreesAfter changes.now gone (has_tree_of trees.old) (has_tree_of trees.new)) }
    ensures grew { OnOk result ((entries : List Entry) × LogsTransaction txn changes.now entries × GrewTrees D.meaning trees.old trees.new entries × (length entries + waits_of trees.new ≤ waits_of trees.old + (most_entries (length changes.now) + 1))) }
    ensures tried { IsEndOf Reason.Fault result ((entries : List Entry) × (front : List Entry) × LogsTransaction txn changes.now entries × IsFront front entries × TriedFitting D.meaning trees.old.log trees.new.log front) }
    ensures limited { IfErr result (λ e. IsLimit e → limit_filling_in trees.old changes.now owed ≡ Some e) }
    ensures room { OnOk result (limit_filling_in trees.old changes.now owed ≡ None) }
    ensures fault_room { IsEndOf Reason.Fault result (limit_filling_in trees.old changes.now owed ≡ None) }
    ensures same { IfErr result (λ e. IsUndone e → AreSame (cells_of trees.old) (cells_of trees.new) × ((d : ℕ) → has_tree_of trees.new d ≡ has_tree_of trees.old d)
        × GrewTrees D.meaning trees.old trees.new [] × (waits_of trees.new ≡ waits_of trees.old)) }
{
    let Ok(names) = changed_names(alloc, changes) else {
        return Err(TreeErr::Memory);
    };
    trees.write_new(alloc, txn, changes, owed)?;
    commit_names(trees, txn, names.as_slice(), gone)
}

impl<D: Disk> Engine<D> {
    // What changes that make an index and fill it are answered that may lack numbers.
    fn refuse_filled(
        &mut self,
        alloc: Global,
        planned: &PlannedChanges,
        owed: u32,
    ) -> Result<Answer, AllocError>
        requires works { has_failed self.old.trees.log ≡ false }
        requires numbers { self.old.kept.last_txn < LAST_TXN }
        requires entries { AllByRecursion (λ c. IsEntry (entry_for (txn_of (self.old.kept.last_txn + 1)) c.db c.name c.value)) planned.now.changes.items }
        ensures answer { IfOk result (λ answer. answer ≡ refusal_by (limit_filling_in self.old.trees planned.now.changes.items owed)) }
        ensures same { AreLeft self.old.trees self.new.trees }
        ensures kept { self.new.kept ≡ self.old.kept }
    {
        let txn = TxnId(self.kept.last_txn + 1);
        let changes = planned.changes.as_slice();
        let found = self.trees.find_filling_limit(alloc, txn, changes, owed)?;
        Ok(refusal(found))
    }

    /// Logs planned changes that make an index and fill it, as `log_among` logs others.
    pub fn log_filled(
        &mut self,
        alloc: Global,
        planned: PlannedChanges,
        owed: u32,
    ) -> Result<Answer, AllocError>
        requires bounds { CanGoOn self.old }
        requires works { has_failed self.old.trees.log ≡ false }
        requires free { planned.last_db ≤ LAST_DATABASE → AllByRecursion (λ c. IsFreeFor (txn_of (self.old.kept.last_txn + 1)) (write_in (value_at c.name (cells_of self.old.trees c.db)))) planned.changes.items }
        requires some { 1 ≤ owed }
        requires numbers { self.old.kept.last_txn < LAST_TXN }
        requires fills { planned.last_db ≤ LAST_DATABASE → AreFilling (has_tree_of self.old.trees) planned.changes.items }
        requires entries { AllByRecursion (λ c. IsEntry (entry_for (txn_of (self.old.kept.last_txn + 1)) c.db c.name c.value)) planned.changes.items }
        ensures trees { LeavesCells self.old.trees self.new.trees planned owed result }
        ensures near { EndsNear self.old.trees self.new.trees (length planned.changes.items) result }
        ensures logs { LogsChanges D.meaning self.old.trees.log self.new.trees.log (contents self.old.trees self.old.kept) (contents self.new.trees self.new.kept) planned (limit_filling_in self.old.trees planned.changes.items owed) result }
        ensures indexes { self.new.kept.indexes ≡ self.old.kept.indexes }
        ensures names { self.new.kept.names ≡ self.old.kept.names }
        ensures bounds { CanGoOn self.new }
        ensures cause { HasStepCause (D.meaning.faults (disk_of self.old)) (D.meaning.faults (disk_of self.new)) result }
    {
        let txn = self.kept.last_txn + 1;
        if self.lacks_numbers(&planned) {
            let answer = self.refuse_filled(alloc, &planned, owed)?;
            self.kept.last_txn = txn;
            return Ok(answer);
        }
        self.trees.are_ordered();
        let PlannedChanges {
            changes,
            last_db,
            totals,
            gone,
        } = planned;
        match commit_filled(
            &mut self.trees,
            alloc,
            TxnId(txn),
            changes.as_slice(),
            gone,
            owed,
        ) {
            Ok(()) => {
                self.trees.are_ordered();
                self.kept.last_txn = txn;
                self.kept.commits += 1;
                self.kept.totals = totals;
                self.kept.last_db = last_db as u32;
                self.kept.last_node += changes.len() as u64 * NUMBERS_FOR_CHANGE;
                Ok(Answer::Logged {
                    commit: self.kept.commits,
                })
            }
            Err(TreeErr::Full) => {
                self.kept.last_txn = txn;
                Ok(Answer::LogFull)
            }
            Err(TreeErr::Fault) => {
                self.kept.fault = Some(Fault::Disk);
                Ok(Answer::DiskFault)
            }
            Err(TreeErr::IdsEnded) => Err(AllocError),
            Err(TreeErr::Memory) => Err(AllocError),
        }
    }
}
