// All memory that changes need is taken before the first of them is logged.
ghost use Rattle.std.specs.Prelude.{◌≡◌, ◌≤◌, ◌<◌, ◌||◌, ◌++◌, ℕ, true, false, length, nat_lt, IfErr, IfOk, IfSome, OnOk, OnErr, Some, None};
ghost use Rattle.std.specs.List.{AllByRecursion};
ghost use Rattle.je_lsn.specs.Naming.{last_file};
ghost use Rattle.log_entry.specs.Body.{IsEntry};
ghost use Rattle.log_buffer.specs.Buffer.{has_failed, IsUnchanged};
ghost use Rattle.record_tree.specs.Logged.{entry_for, is_made, IsLimit, IsEndOf};
ghost use Rattle.record_tree.specs.Occupied.{AreSame};
ghost use Rattle.record_tree.specs.declared.tree_err.TreeErr.{TreeErr as Reason};
ghost use Rattle.in_tree.specs.Forest.{cells_seen, is_there, IsSameForest, KeepsCells};
ghost use Rattle.in_tree.specs.Limits.{commit_sizes, end_behind, HasRoomFor};
ghost use Rattle.in_tree.specs.Observed.{limit_in};
ghost use Rattle.in_tree.specs.Placing.{placed_sizes, AreLoggable, AreMadeBy};
ghost use Rattle.in_tree.specs.Ready.{IsReady};
ghost use Rattle.in_tree.specs.Waits.{waits_in};

use crate::preparing::{drop_made, make_all, place_all, take_back_all};
use crate::trees::LAST_NODE;
use crate::writing::sizes_for;
use crate::{LogTrees, Placed};
use db_tree::SlotRoom;
use je_disk::Disk;
use je_order::TxnId;
use record_tree::{TreeChange, TreeErr};
use std::alloc::{AllocError, Global};

impl<D: Disk> LogTrees<D> {
    // Whether entries of these sizes pass the last file.
    pub(crate) fn passes(&self, sizes: &[u32]) -> bool
        ensures { result ≡ nat_lt last_file (end_behind self.now.log sizes.now) }
    {
        !self.log.has_files(sizes)
    }

    // The sizes of the entries that changes which have their slots and the Commits owed get, where they meet no limit.
    pub(crate) fn check(
        &self,
        alloc: Global,
        txn: TxnId,
        changes: &[TreeChange],
        placed: &Placed,
        owed: u32,
    ) -> Result<Vec<u32>, TreeErr>
        requires entries { AllByRecursion (λ c. IsEntry (entry_for txn c.db c.name c.value)) changes.now }
        requires loggable { AreLoggable placed.now.rooms.items }
        requires paired { length placed.now.rooms.items ≡ length changes.now }
        ensures sizes { IfOk result (λ sizes. sizes.items ≡ placed_sizes changes.now placed.now.rooms.items ++ commit_sizes owed) }
        ensures files { OnOk result (nat_lt last_file (end_behind self.now.log (placed_sizes changes.now placed.now.rooms.items ++ commit_sizes owed)) ≡ false) }
        ensures ids { OnOk result (placed.now.last ≤ 0x7fffffffffffffff) }
        ensures full { IsEndOf Reason.Full result (nat_lt last_file (end_behind self.now.log (placed_sizes changes.now placed.now.rooms.items ++ commit_sizes owed)) ≡ true) }
        ensures ended { IsEndOf Reason.IdsEnded result ((nat_lt last_file (end_behind self.now.log (placed_sizes changes.now placed.now.rooms.items ++ commit_sizes owed)) ≡ false) × (0x7fffffffffffffff < placed.now.last)) }
        ensures no_fault { IsEndOf Reason.Fault result ⊥ }
    {
        let Ok(sizes) = sizes_for(alloc, txn, changes, placed.rooms.as_slice(), owed) else {
            return Err(TreeErr::Memory);
        };
        if self.passes(sizes.as_slice()) {
            return Err(TreeErr::Full);
        }
        if placed.last > LAST_NODE {
            return Err(TreeErr::IdsEnded);
        }
        Ok(sizes)
    }

    // Makes room in the log for entries of these sizes, and the trees of the databases that the changes make. Where memory runs out no tree
    // changed.
    fn take_room(
        &mut self,
        alloc: Global,
        changes: &[TreeChange],
        placed: &Placed,
        sizes: &[u32],
    ) -> Result<(), AllocError>
        requires new { AllByRecursion (λ c. IfSome c.makes (λ d. is_there self.old.trees.forest d ≡ false)) changes.now }
        requires paired { length placed.now.rooms.items ≡ length changes.now }
        requires ids { placed.now.last ≤ 0x7fffffffffffffff }
        ensures same { AreSame (cells_seen self.old.trees.forest) (cells_seen self.new.trees.forest) }
        ensures made { OnOk result ((d : ℕ) → is_there self.new.trees.forest d ≡ (is_made d changes.now || is_there self.old.trees.forest d)) }
        ensures kept { OnOk result (KeepsCells self.old.trees.forest self.new.trees.forest) }
        ensures waits { OnOk result (waits_in self.new.trees.forest ≤ waits_in self.old.trees.forest) }
        ensures room { OnOk result (has_failed self.old.log ≡ false → end_behind self.old.log sizes.now ≤ last_file → HasRoomFor self.new.log sizes.now) }
        ensures log { IsUnchanged self.old.log self.new.log }
        ensures trees { OnOk result (AreMadeBy self.old.trees.last_node changes.now placed.now.rooms.items self.old.trees.forest self.new.trees.forest × (self.new.trees.last_node ≡ placed.now.last)) }
        ensures err { OnErr result (IsSameForest self.old.trees.forest self.new.trees.forest × (self.new.trees.last_node ≡ self.old.trees.last_node)) }
    {
        let Ok(()) = self.log.reserve(sizes) else {
            return Err(AllocError);
        };
        let rooms = placed.rooms.as_slice();
        let last = self.trees.last_node;
        match make_all(&mut self.trees.forest, alloc, changes, rooms, last) {
            Ok(()) => {
                self.trees.last_node = placed.last;
                Ok(())
            }
            Err(failed) => {
                drop_made(&mut self.trees.forest, changes);
                Err(failed)
            }
        }
    }

    // Takes all memory that writing changes which have their slots needs. Where it fails no tree changed.
    fn make_ready(
        &mut self,
        alloc: Global,
        txn: TxnId,
        changes: &[TreeChange],
        placed: &Placed,
        owed: u32,
    ) -> Result<(), TreeErr>
        requires new { AllByRecursion (λ c. IfSome c.makes (λ d. is_there self.old.trees.forest d ≡ false)) changes.now }
        requires entries { AllByRecursion (λ c. IsEntry (entry_for txn c.db c.name c.value)) changes.now }
        requires loggable { AreLoggable placed.now.rooms.items }
        requires paired { length placed.now.rooms.items ≡ length changes.now }
        requires works { has_failed self.old.log ≡ false }
        ensures same { AreSame (cells_seen self.old.trees.forest) (cells_seen self.new.trees.forest) }
        ensures made { OnOk result ((d : ℕ) → is_there self.new.trees.forest d ≡ (is_made d changes.now || is_there self.old.trees.forest d)) }
        ensures kept { OnOk result (KeepsCells self.old.trees.forest self.new.trees.forest) }
        ensures waits { OnOk result (waits_in self.new.trees.forest ≤ waits_in self.old.trees.forest) }
        ensures room { OnOk result (HasRoomFor self.new.log (placed_sizes changes.now placed.now.rooms.items ++ commit_sizes owed)) }
        ensures log { IsUnchanged self.old.log self.new.log }
        ensures files { OnOk result (nat_lt last_file (end_behind self.old.log (placed_sizes changes.now placed.now.rooms.items ++ commit_sizes owed)) ≡ false) }
        ensures ids { OnOk result (placed.now.last ≤ 0x7fffffffffffffff) }
        ensures full { IsEndOf Reason.Full result (nat_lt last_file (end_behind self.old.log (placed_sizes changes.now placed.now.rooms.items ++ commit_sizes owed)) ≡ true) }
        ensures ended { IsEndOf Reason.IdsEnded result ((nat_lt last_file (end_behind self.old.log (placed_sizes changes.now placed.now.rooms.items ++ commit_sizes owed)) ≡ false) × (0x7fffffffffffffff < placed.now.last)) }
        ensures no_fault { IsEndOf Reason.Fault result ⊥ }
        ensures trees { OnOk result (AreMadeBy self.old.trees.last_node changes.now placed.now.rooms.items self.old.trees.forest self.new.trees.forest × (self.new.trees.last_node ≡ placed.now.last)) }
        ensures err { OnErr result (IsSameForest self.old.trees.forest self.new.trees.forest × (self.new.trees.last_node ≡ self.old.trees.last_node)) }
    {
        match self.check(alloc, txn, changes, placed, owed) {
            Ok(sizes) => match self.take_room(alloc, changes, placed, sizes.as_slice()) {
                Ok(()) => Ok(()),
                Err(_) => Err(TreeErr::Memory),
            },
            Err(error) => Err(error),
        }
    }

    // Takes all memory that writing the changes needs: slots for their names, room in the log and the trees of databases. Where it fails
    // nothing changed.
    pub(crate) fn prepare(
        &mut self,
        alloc: Global,
        txn: TxnId,
        changes: &[TreeChange],
        owed: u32,
    ) -> Result<Vec<SlotRoom>, TreeErr>
        requires trees { AllByRecursion (λ c. is_there self.old.trees.forest c.db ≡ true) changes.now }
        requires new { AllByRecursion (λ c. IfSome c.makes (λ d. is_there self.old.trees.forest d ≡ false)) changes.now }
        requires entries { AllByRecursion (λ c. IsEntry (entry_for txn c.db c.name c.value)) changes.now }
        requires works { has_failed self.old.log ≡ false }
        ensures ready { IfOk result (λ rooms. IsReady self.old self.new changes.now rooms.items owed) }
        ensures same { AreSame (cells_seen self.old.trees.forest) (cells_seen self.new.trees.forest) }
        ensures log { IsUnchanged self.old.log self.new.log }
        ensures room { OnOk result (limit_in self.old changes.now owed ≡ None) }
        ensures limited { IfErr result (λ e. IsLimit e → limit_in self.old changes.now owed ≡ Some e) }
        ensures no_fault { IsEndOf Reason.Fault result ⊥ }
        ensures err { OnErr result (IsSameForest self.old.trees.forest self.new.trees.forest × (self.new.trees.last_node ≡ self.old.trees.last_node)) }
    {
        let fanout = self.trees.fanout;
        let last = self.trees.last_node;
        let placed = match place_all(&mut self.trees.forest, alloc, fanout, changes, last) {
            Ok(placed) => placed,
            Err(error) => return Err(error),
        };
        match self.make_ready(alloc, txn, changes, &placed, owed) {
            Ok(()) => {
                let Placed { rooms, last: _ } = placed;
                Ok(rooms)
            }
            Err(error) => {
                take_back_all(&mut self.trees.forest, changes, placed.rooms.as_slice());
                drop(placed);
                Err(error)
            }
        }
    }
}
