// The log and the trees get the changes of a call on records.
ghost use Rattle.std.specs.Prelude.{◌≡◌, ◌≤◌, ◌+◌, true, false, nat_lt, IfSome};
ghost use Rattle.std.specs.List.{AllByRecursion};
ghost use Rattle.log_buffer.specs.Buffer.{has_failed};
ghost use Rattle.log_entry.specs.Body.{IsEntry};
ghost use Rattle.record_map.specs.Cells.{value_at};
ghost use Rattle.record_tree.specs.Logged.{entry_for};
ghost use Rattle.record_tree.specs.Occupied.{IsFreeFor, write_in};
ghost use Rattle.in_tree.specs.Observed.{cells_of, has_tree_of};
ghost use Rattle.engine.specs.Limits.{last_number, numbers_for};
ghost use Rattle.environment.specs.Whole.{disk_of};
ghost use Rattle.environment.specs.Writing.{WritesAll};

use crate::environment::Environment;
use crate::own_changes::count_had;
use crate::own_names::{append_at, make_room_at};
use crate::tree_writing::{limit_of, write_changes};
use crate::wrote::{TreesWrote, Wrote};
use engine::NUMBERS_FOR_CHANGE;
use in_tree::LAST_NODE;
use je_disk::Disk;
use je_order::TxnId;
use record_tree::{Records, TreeChange, TreeName};
use std::alloc::{AllocError, Global};
use store_model::Fault;

// Whether so many changes may lack a number of a node.
fn may_lack(last_node: u64, changes: usize) -> bool
    ensures { result ≡ nat_lt last_number (last_node + numbers_for changes) }
{
    let Some(numbers) = (changes as u64).checked_mul(NUMBERS_FOR_CHANGE) else {
        return true;
    };
    match last_node.checked_add(numbers) {
        Some(last) => LAST_NODE < last,
        None => true,
    }
}

impl<D: Disk> Environment<D> {
    // Logs changes of a transaction and makes them in the trees, and notes their names. Where the disk failed, the
    // fault is noted.
    pub(crate) fn write_all(
        &mut self,
        alloc: Global,
        txn: TxnId,
        changes: &[TreeChange],
        names: Vec<TreeName>,
        owed: u32,
    ) -> Result<Wrote, AllocError>
        requires works { has_failed self.old.engine.trees.log ≡ false }
        requires trees { AllByRecursion (λ c. has_tree_of self.old.engine.trees c.db ≡ true) changes.now }
        requires free { AllByRecursion (λ c. IsFreeFor txn (write_in (value_at c.name (cells_of self.old.engine.trees c.db)))) changes.now }
        requires new { AllByRecursion (λ c. IfSome c.makes (λ d. has_tree_of self.old.engine.trees d ≡ false)) changes.now }
        requires entries { AllByRecursion (λ c. IsEntry (entry_for txn c.db c.name c.value)) changes.now }
        ensures sessions { self.new.sessions ≡ self.old.sessions }
        ensures writes { WritesAll D.meaning self.old self.new txn changes.now names.items owed result }
        ensures never_falls { D.meaning.faults (disk_of self.old) ≤ D.meaning.faults (disk_of self.new) }
    {
        if may_lack(self.engine.kept.last_node, changes.len()) {
            return limit_of(&mut self.engine.trees, alloc, txn, changes, owed);
        }
        self.engine.trees.are_ordered();
        // Of each database a call changes at most one name without a record: were it otherwise, this would run out of memory.
        let Some(had) = count_had(&self.engine.trees, txn, changes) else {
            return Err(AllocError);
        };
        make_room_at(&mut self.written.by_txn, alloc, txn, names.len(), had)?;
        let wrote = write_changes(&mut self.engine.trees, alloc, txn, changes, owed)?;
        self.engine.trees.are_ordered();
        match wrote {
            TreesWrote::Done(first) => {
                append_at(&mut self.written.by_txn, txn, names, had, first);
                self.engine.kept.last_node += changes.len() as u64 * NUMBERS_FOR_CHANGE;
                Ok(Wrote::Done)
            }
            TreesWrote::Failed => {
                self.engine.kept.fault = Some(Fault::Disk);
                Ok(Wrote::Failed)
            }
            TreesWrote::Full => Ok(Wrote::Full),
        }
    }
}
