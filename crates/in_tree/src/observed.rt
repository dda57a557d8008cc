// What the crates above ask of the trees of an environment.
ghost use Rattle.std.specs.Prelude.{◌≡◌, ◌++◌, ◌∷◌, ℕ, Some, true, false, length, IfOk};
ghost use Rattle.std.specs.List.{AllByRecursion};
ghost use Rattle.log_entry.specs.Body.{IsEntry};
ghost use Rattle.log_buffer.specs.Buffer.{has_failed, IsUnchanged};
ghost use Rattle.record_map.specs.Cells.{IsRising};
ghost use Rattle.record_tree.specs.Logged.{entry_for, IsLimit};
ghost use Rattle.record_tree.specs.Occupied.{AreSame};
ghost use Rattle.in_tree.specs.Filled.{limit_behind_slot};
ghost use Rattle.db_tree.specs.NodeImages.{IsLoggable};
ghost use Rattle.in_tree.specs.Forest.{is_there, IsSameForest};
ghost use Rattle.in_tree.specs.Limits.{commit_sizes, limit_behind};
ghost use Rattle.in_tree.specs.Observed.{cells_of, has_tree_of, last_node_of, limit_filling_in, limit_in, trees_of, waits_of};
ghost use Rattle.in_tree.specs.Placing.{placed_sizes, AreLoggable};

use crate::filling::no_room;
use crate::loading::has_tree;
use crate::preparing::{last_behind, place_all, take_back_all};
use crate::{LogTrees, Placed, forest};
use db_tree::SlotRoom;
use je_disk::Disk;
use je_order::TxnId;
use record_tree::{TreeChange, TreeErr};
use std::alloc::{AllocError, Global};

// The limit that a call ended with. Another end is out of memory.
fn limit_of_end(error: TreeErr) -> Result<Option<TreeErr>, AllocError>
    ensures { IfOk result (λ limit. (limit ≡ Some error) × IsLimit error) }
{
    match error {
        TreeErr::Full => Ok(Some(TreeErr::Full)),
        TreeErr::IdsEnded => Ok(Some(TreeErr::IdsEnded)),
        TreeErr::Fault => Err(AllocError),
        TreeErr::Memory => Err(AllocError),
    }
}

impl<D: Disk> LogTrees<D> {
    /// The occupied names of each database are in order. Nothing is done.
    pub fn are_ordered(&self)
        ensures { (d : ℕ) → IsRising (cells_of self.now d) }
    {
        let _trees = &self.trees;
    }

    /// The limit that changes of the transaction would meet, with `owed` Commits behind them, if there is one: Full or IdsEnded. Nothing
    /// is left changed, and it takes no lasting memory. The one error is that memory runs out.
    pub fn find_limit(
        &mut self,
        alloc: Global,
        txn: TxnId,
        changes: &[TreeChange],
        owed: u32,
    ) -> Result<Option<TreeErr>, AllocError>
        requires entries { AllByRecursion (λ c. IsEntry (entry_for txn c.db c.name c.value)) changes.now }
        requires trees { AllByRecursion (λ c. has_tree_of self.old c.db ≡ true) changes.now }
        requires works { has_failed self.old.log ≡ false }
        ensures limit { IfOk result (λ limit. limit ≡ limit_in self.old changes.now owed) }
        ensures same { AreSame (cells_of self.old) (cells_of self.new) × ((d : ℕ) → has_tree_of self.new d ≡ has_tree_of self.old d) × (waits_of self.new ≡ waits_of self.old) × IsUnchanged self.old.log self.new.log }
        ensures trees { ((d : ℕ) → trees_of self.new d ≡ trees_of self.old d) × (last_node_of self.new ≡ last_node_of self.old) }
    {
        let fanout = self.trees.fanout;
        let last = self.trees.last_node;
        match place_all(&mut self.trees.forest, alloc, fanout, changes, last) {
            Ok(placed) => {
                let found = self.limit_behind(alloc, txn, changes, &placed, owed);
                take_back_all(&mut self.trees.forest, changes, placed.rooms.as_slice());
                drop(placed);
                found
            }
            Err(TreeErr::IdsEnded) => Ok(Some(TreeErr::IdsEnded)),
            Err(_) => Err(AllocError),
        }
    }

    /// The same for changes that make a database and fill it: the first one makes it, the others put names into it. The new tree is built
    /// and dropped again. Where the first one's own database has no tree, it takes no slot.
    pub fn find_filling_limit(
        &mut self,
        alloc: Global,
        txn: TxnId,
        changes: &[TreeChange],
        owed: u32,
    ) -> Result<Option<TreeErr>, AllocError>
        requires entries { AllByRecursion (λ c. IsEntry (entry_for txn c.db c.name c.value)) changes.now }
        requires works { has_failed self.old.log ≡ false }
        ensures limit { IfOk result (λ limit. limit ≡ limit_filling_in self.old changes.now owed) }
        ensures same { AreSame (cells_of self.old) (cells_of self.new) × ((d : ℕ) → has_tree_of self.new d ≡ has_tree_of self.old d) × (waits_of self.new ≡ waits_of self.old) × IsUnchanged self.old.log self.new.log }
        ensures trees { ((d : ℕ) → trees_of self.new d ≡ trees_of self.old d) × (last_node_of self.new ≡ last_node_of self.old) }
    {
        let Some((change, rows)) = changes.split_first() else {
            return Ok(None);
        };
        if has_tree(&self.trees.forest, change.db) {
            return self.limit_with_slot(alloc, txn, change, rows, owed);
        }
        let room = no_room(alloc);
        self.limit_filled(alloc, txn, change, rows, &room, owed)
    }

    // That limit, where the change that makes the database gets its slot: this is taken back.
    fn limit_with_slot(
        &mut self,
        alloc: Global,
        txn: TxnId,
        change: &TreeChange,
        rows: &[TreeChange],
        owed: u32,
    ) -> Result<Option<TreeErr>, AllocError>
        requires there { is_there self.old.trees.forest change.now.db ≡ true }
        requires entry { IsEntry (entry_for txn change.now.db change.now.name change.now.value) }
        requires entries { AllByRecursion (λ c. IsEntry (entry_for txn c.db c.name c.value)) rows.now }
        requires works { has_failed self.old.log ≡ false }
        ensures limit { IfOk result (λ limit. limit ≡ limit_filling_in self.old (change.now ∷ rows.now) owed) }
        ensures back { IsSameForest self.old.trees.forest self.new.trees.forest }
        ensures log { self.new.log ≡ self.old.log }
        ensures last { self.new.trees.last_node ≡ self.old.trees.last_node }
    {
        let fanout = self.trees.fanout;
        let first = self.trees.last_node + 1;
        let (db, name) = (change.db, &change.name);
        match forest::place(&mut self.trees.forest, alloc, db, fanout, name, first) {
            Ok(room) => {
                let found = self.limit_filled(alloc, txn, change, rows, &room, owed);
                forest::take_back(&mut self.trees.forest, db, name, &room);
                drop(room);
                found
            }
            Err(error) => limit_of_end(error),
        }
    }

    // The limit of a new database that is filled, behind the slot of the change that makes it.
    fn limit_filled(
        &self,
        alloc: Global,
        txn: TxnId,
        change: &TreeChange,
        rows: &[TreeChange],
        room: &SlotRoom,
        owed: u32,
    ) -> Result<Option<TreeErr>, AllocError>
        requires entry { IsEntry (entry_for txn change.now.db change.now.name change.now.value) }
        requires entries { AllByRecursion (λ c. IsEntry (entry_for txn c.db c.name c.value)) rows.now }
        requires loggable { AllByRecursion (λ i. IsLoggable i.entry) room.now.images.items }
        ensures { IfOk result (λ limit. limit ≡ limit_behind_slot self.now change.now rows.now room.now owed) }
    {
        let number = last_behind(self.trees.last_node, room.made(), change);
        match self.try_fill(alloc, txn, change, rows, room, number, owed) {
            Ok(tried) => {
                drop(tried);
                Ok(None)
            }
            Err(error) => limit_of_end(error),
        }
    }

    // The limit that changes which have their slots would meet: the log's, and then that of numbers.
    fn limit_behind(
        &self,
        alloc: Global,
        txn: TxnId,
        changes: &[TreeChange],
        placed: &Placed,
        owed: u32,
    ) -> Result<Option<TreeErr>, AllocError>
        requires entries { AllByRecursion (λ c. IsEntry (entry_for txn c.db c.name c.value)) changes.now }
        requires loggable { AreLoggable placed.now.rooms.items }
        requires paired { length placed.now.rooms.items ≡ length changes.now }
        ensures { IfOk result (λ limit. limit ≡ limit_behind self.now.log (placed_sizes changes.now placed.now.rooms.items ++ commit_sizes owed) placed.now.last) }
    {
        match self.check(alloc, txn, changes, placed, owed) {
            Ok(sizes) => {
                drop(sizes);
                Ok(None)
            }
            Err(TreeErr::Full) => Ok(Some(TreeErr::Full)),
            Err(TreeErr::IdsEnded) => Ok(Some(TreeErr::IdsEnded)),
            Err(_) => Err(AllocError),
        }
    }
}
