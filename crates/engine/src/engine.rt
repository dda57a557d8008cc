// An open environment.
ghost use Rattle.std.specs.Prelude.{◌≡◌, ◌≤◌, ◌<◌, ◌+◌, Option, None, Some, true, false, IfSome, IfOk, length, nat_lt, ◌||◌};
ghost use Rattle.std.specs.List.{AllByRecursion};
ghost use Rattle.je_disk.specs.Moments.{now};
ghost use Rattle.log_buffer.specs.Buffer.{has_failed};
ghost use Rattle.log_entry.specs.Body.{IsEntry};
ghost use Rattle.record_map.specs.Cells.{value_at};
ghost use Rattle.record_tree.specs.Logged.{entry_for};
ghost use Rattle.record_tree.specs.Occupied.{AreFewNew, IsFreeFor, write_in};
ghost use Rattle.in_tree.specs.Observed.{cells_of, has_tree_of, limit_in};
ghost use Rattle.engine.specs.Limits.{last_number, numbers_for};
ghost use Rattle.engine.specs.Steps.{HasStepCause, LogsChanges, refusal_by, txn_of};
ghost use Rattle.engine.specs.Whole.{AreLeft, CanGoOn, EndsNear, LeavesCells, contents, disk_of};

use crate::kept::Kept;
use in_tree::{LAST_NODE, LogTrees};
use je_disk::Disk;
use je_order::TxnId;
use record_tree::TreeErr;
use std::alloc::{AllocError, Global};
use store_model::{Answer, Fault, LAST_DATABASE, LAST_TXN};
use txn_core::{PlannedChanges, commit_changes};

/// How many node numbers a change of a record may allocate: one for each of 64 levels, one for a root above
/// them, and one for the root of a database.
pub const NUMBERS_FOR_CHANGE: u64 = 66;

/// An open environment: its log over its disk with the trees of its databases, and what is kept in memory
/// beside them. It is made by `open`, and logs what calls change by `log_among`.
pub struct Engine<D> {
    /// The trees, over the log, over its disk.
    pub trees: LogTrees<D>,
    /// What is kept beside them.
    pub kept: Kept,
}

// What changes are answered that may lack numbers, where the trees find this limit: no room in the log is told first.
pub(crate) fn refusal(found: Option<TreeErr>) -> Answer
    ensures { result ≡ refusal_by found }
{
    match found {
        Some(TreeErr::Full) => Answer::LogFull,
        _ => Answer::IdsEnded,
    }
}

impl<D: Disk> Engine<D> {
    // Whether the changes may lack a number of a database or of a node.
    pub(crate) fn lacks_numbers(&self, planned: &PlannedChanges) -> bool
        ensures { result ≡ (nat_lt LAST_DATABASE planned.now.last_db || nat_lt last_number (self.now.kept.last_node + numbers_for (length planned.now.changes.items))) }
    {
        if u64::from(LAST_DATABASE) < planned.last_db {
            return true;
        }
        let Some(numbers) = (planned.changes.len() as u64).checked_mul(NUMBERS_FOR_CHANGE) else {
            return true;
        };
        match self.kept.last_node.checked_add(numbers) {
            Some(last) => LAST_NODE < last,
            None => true,
        }
    }

    // What changes are answered that may lack numbers.
    fn refuse(
        &mut self,
        alloc: Global,
        planned: &PlannedChanges,
        owed: u32,
    ) -> Result<Answer, AllocError>
        requires works { has_failed self.old.trees.log ≡ false }
        requires trees { AllByRecursion (λ c. has_tree_of self.old.trees c.db ≡ true) planned.now.changes.items }
        requires numbers { self.old.kept.last_txn < LAST_TXN }
        requires entries { AllByRecursion (λ c. IsEntry (entry_for (txn_of (self.old.kept.last_txn + 1)) c.db c.name c.value)) planned.now.changes.items }
        ensures answer { IfOk result (λ answer. answer ≡ refusal_by (limit_in self.old.trees planned.now.changes.items owed)) }
        ensures same { AreLeft self.old.trees self.new.trees }
        ensures kept { self.new.kept ≡ self.old.kept }
    {
        let txn = TxnId(self.kept.last_txn + 1);
        let changes = planned.changes.as_slice();
        let found = self.trees.find_limit(alloc, txn, changes, owed)?;
        Ok(refusal(found))
    }

    /// Logs planned changes of a valid environment as one transaction, with room for as many Commits, that of these changes among
    /// them; no other transaction has a change of their names, and of those of each database at most one is of a name that is not
    /// occupied. Running out of memory leaves the environment as it was.
    pub fn log_among(
        &mut self,
        alloc: Global,
        planned: PlannedChanges,
        owed: u32,
    ) -> Result<Answer, AllocError>
        requires bounds { CanGoOn self.old }
        requires works { has_failed self.old.trees.log ≡ false }
        requires free { AllByRecursion (λ c. IsFreeFor (txn_of (self.old.kept.last_txn + 1)) (write_in (value_at c.name (cells_of self.old.trees c.db)))) planned.changes.items }
        requires some { 1 ≤ owed }
        requires numbers { self.old.kept.last_txn < LAST_TXN }
        requires few { AreFewNew (cells_of self.old.trees) planned.changes.items }
        requires there { AllByRecursion (λ c. has_tree_of self.old.trees c.db ≡ true) planned.changes.items }
        requires new { planned.last_db ≤ LAST_DATABASE → AllByRecursion (λ c. IfSome c.makes (λ d. has_tree_of self.old.trees d ≡ false)) planned.changes.items }
        requires entries { AllByRecursion (λ c. IsEntry (entry_for (txn_of (self.old.kept.last_txn + 1)) c.db c.name c.value)) planned.changes.items }
        ensures trees { LeavesCells self.old.trees self.new.trees planned owed result }
        ensures near { EndsNear self.old.trees self.new.trees (length planned.changes.items) result }
        ensures logs { LogsChanges D.meaning self.old.trees.log self.new.trees.log (contents self.old.trees self.old.kept) (contents self.new.trees self.new.kept) planned (limit_in self.old.trees planned.changes.items owed) result }
        ensures indexes { self.new.kept.indexes ≡ self.old.kept.indexes }
        ensures names { self.new.kept.names ≡ self.old.kept.names }
        ensures bounds { CanGoOn self.new }
        ensures cause { HasStepCause (D.meaning.faults (disk_of self.old)) (D.meaning.faults (disk_of self.new)) result }
    {
        let txn = self.kept.last_txn + 1;
        if self.lacks_numbers(&planned) {
            let answer = self.refuse(alloc, &planned, owed)?;
            self.kept.last_txn = txn;
            return Ok(answer);
        }
        self.trees.are_ordered();
        let PlannedChanges {
            changes,
            last_db,
            totals,
            gone,
        } = planned;
        match commit_changes(
            &mut self.trees,
            alloc,
            TxnId(txn),
            changes.as_slice(),
            gone,
            owed,
        ) {
            Ok(()) => {
                self.trees.are_ordered();
                self.kept.last_txn = txn;
                self.kept.commits += 1;
                self.kept.totals = totals;
                self.kept.last_db = last_db as u32;
                self.kept.last_node += changes.len() as u64 * NUMBERS_FOR_CHANGE;
                Ok(Answer::Logged {
                    commit: self.kept.commits,
                })
            }
            Err(TreeErr::Full) => {
                self.kept.last_txn = txn;
                Ok(Answer::LogFull)
            }
            Err(TreeErr::Fault) => {
                self.kept.fault = Some(Fault::Disk);
                Ok(Answer::DiskFault)
            }
            Err(TreeErr::IdsEnded) => Err(AllocError),
            Err(TreeErr::Memory) => Err(AllocError),
        }
    }
}
