// A new database is made and filled, for indexes: all memory is taken before the first change is logged.
ghost use Rattle.std.specs.Prelude.{◌≡◌, ◌≤◌, ◌<◌, ◌+◌, ◌++◌, ◌∷◌, ◌||◌, [], ℕ, List, true, false, length, map, nat_lt, Some, None, IfErr, IfOk, OnOk, OnErr};
ghost use Rattle.std.specs.List.{AllByRecursion};
ghost use Rattle.je_lsn.specs.Naming.{last_file};
ghost use Rattle.log_entry.specs.Body.{IsEntry};
ghost use Rattle.log_entry.specs.Encoding.{size_of};
ghost use Rattle.log_entry.specs.declared.entry.Entry.{Entry};
ghost use Rattle.log_buffer.specs.Buffer.{has_failed, IsUnchanged};
ghost use Rattle.log_buffer.specs.NextPlaces.{IsBehind};
ghost use Rattle.log_buffer.specs.declared.log_pos.LogPos.{LogPos};
ghost use Rattle.record_tree.specs.Logged.{entry_for, is_made, most_entries, LogsChanges, IsFront, IsLimit, IsEndOf, IsUndone};
ghost use Rattle.record_tree.specs.Occupied.{AreSame, AreWritten};
ghost use Rattle.record_tree.specs.declared.tree_err.TreeErr.{TreeErr as Reason};
ghost use Rattle.db_tree.specs.NodeImages.{IsLoggable};
ghost use Rattle.db_tree.specs.Seen.{occupied};
ghost use Rattle.record_map.specs.Cells.{IsRising};
ghost use Rattle.in_tree.specs.Filled.{all_sizes, entries_with, first_sizes, limit_behind_slot, limit_filled, AreAllLoggable, IsFilledUp, IsLoggedNew, IsMadeNew, IsReadyToFill, IsTriedToFill};
ghost use Rattle.in_tree.specs.Filling.{AreFilling};
ghost use Rattle.in_tree.specs.Forest.{is_there, cells_seen, write_for, HasOne, IsSameForest};
ghost use Rattle.in_tree.specs.Limits.{change_size, commit_sizes, end_behind, GrewFitting, HasRoomFor, TriedFitting};
ghost use Rattle.in_tree.specs.Observed.{cells_of, has_tree_of, limit_filling_in, waits_of, GrewTrees};
ghost use Rattle.in_tree.specs.Waits.{waits_in};

use crate::filled::Filled;
use crate::filling::fill;
use crate::preparing::{last_behind, write_for};
use crate::trees::LAST_NODE;
use crate::writing::{append_image, change_size, log_one, push_commits, push_sizes, write_one};
use crate::{LogTrees, forest};
use db_tree::SlotRoom;
use je_disk::Disk;
use je_order::TxnId;
use log_buffer::{LogBuffer, NextPlace};
use log_entry::{Entry, EntryRef, ref_size};
use record_map::Write;
use record_tree::{TreeChange, TreeErr};
use std::alloc::{AllocError, Global};

// Puts the sizes of entries behind others.
fn push_entries(sizes: &mut Vec<u32>, entries: &[Entry]) -> Result<(), AllocError>
    requires { AllByRecursion IsLoggable entries.now }
    ensures { OnOk result (sizes.new.items ≡ sizes.old.items ++ map size_of entries.now) }
{
    for entry in entries {
        sizes.push(ref_size(&EntryRef::Whole(entry)))?;
    }
    Ok(())
}

// The same for those of changes, each behind its images.
fn push_rows(
    sizes: &mut Vec<u32>,
    txn: TxnId,
    rows: &[TreeChange],
    images: &[Vec<Entry>],
) -> Result<(), AllocError>
    requires entries { AllByRecursion (λ c. IsEntry (entry_for txn c.db c.name c.value)) rows.now }
    requires loggable { AreAllLoggable images.now }
    requires paired { length images.now ≡ length rows.now }
    ensures { OnOk result (sizes.new.items ≡ sizes.old.items ++ map size_of (entries_with txn rows.now images.now)) }
{
    for i in 0..rows.len() {
        push_entries(sizes, images[i].as_slice())?;
        sizes.push(change_size(txn, &rows[i]))?;
    }
    Ok(())
}

// The sizes of the change that makes a database behind the images that its slot takes.
fn first_sizes(
    alloc: Global,
    txn: TxnId,
    change: &TreeChange,
    room: &SlotRoom,
) -> Result<Vec<u32>, AllocError>
    requires entry { IsEntry (entry_for txn change.now.db change.now.name change.now.value) }
    requires loggable { AllByRecursion (λ i. IsLoggable i.entry) room.now.images.items }
    ensures { IfOk result (λ sizes. sizes.items ≡ first_sizes change.now room.now) }
{
    let mut sizes = Vec::new(alloc);
    push_sizes(&mut sizes, room.images.as_slice())?;
    sizes.push(change_size(txn, change))?;
    Ok(sizes)
}

// The place behind entries of these sizes.
fn place_behind(place: NextPlace, sizes: &[u32]) -> NextPlace
    ensures { (file_max : ℕ) (end : LogPos) → IsBehind file_max end [] place → IsBehind file_max end sizes.now result }
{
    let mut place = place;
    for size in sizes {
        let _at = place.take(*size);
    }
    place
}

// Logs entries in order, for which there is room.
fn log_entries<D: Disk>(log: &mut LogBuffer<D>, entries: &[Entry]) -> Result<(), TreeErr>
    requires loggable { AllByRecursion IsLoggable entries.now }
    requires room { (sizes : List ℕ) × HasRoomFor log.old (map size_of entries.now ++ sizes) }
    ensures grew { OnOk result (GrewFitting D.meaning log.old log.new entries.now) }
    ensures left { (sizes : List ℕ) → HasRoomFor log.old (map size_of entries.now ++ sizes) → OnOk result (HasRoomFor log.new sizes) }
    ensures tried { OnErr result ((front : List Entry) × IsFront front entries.now × TriedFitting D.meaning log.old log.new front) }
    ensures by_fault { IfErr result (λ e. e ≡ Reason.Fault) }
{
    for entry in entries {
        let _at = append_image(log, entry)?;
    }
    Ok(())
}

// Logs changes in order, each behind its images, for which there is room.
fn log_rows<D: Disk>(
    log: &mut LogBuffer<D>,
    txn: TxnId,
    rows: &[TreeChange],
    images: &[Vec<Entry>],
) -> Result<(), TreeErr>
    requires entries { AllByRecursion (λ c. IsEntry (entry_for txn c.db c.name c.value)) rows.now }
    requires loggable { AreAllLoggable images.now }
    requires paired { length images.now ≡ length rows.now }
    requires room { (sizes : List ℕ) × HasRoomFor log.old (map size_of (entries_with txn rows.now images.now) ++ sizes) }
    ensures grew { OnOk result (GrewFitting D.meaning log.old log.new (entries_with txn rows.now images.now)) }
    ensures left { (sizes : List ℕ) → HasRoomFor log.old (map size_of (entries_with txn rows.now images.now) ++ sizes) → OnOk result (HasRoomFor log.new sizes) }
    ensures tried { OnErr result ((front : List Entry) × IsFront front (entries_with txn rows.now images.now) × TriedFitting D.meaning log.old log.new front) }
    ensures by_fault { IfErr result (λ e. e ≡ Reason.Fault) }
{
    for i in 0..rows.len() {
        let row = &rows[i];
        log_entries(log, images[i].as_slice())?;
        let _at = log_one(log, txn, row)?;
    }
    Ok(())
}

impl<D: Disk> LogTrees<D> {
    // The sizes of all entries that making a database and filling it log: those of the change that makes it, of the others, and of the Commits
    // that are owed. Full or IdsEnded where they meet a limit.
    fn check_filled(
        &self,
        txn: TxnId,
        rows: &[TreeChange],
        filled: &Filled,
        owed: u32,
        first: Vec<u32>,
    ) -> Result<Vec<u32>, TreeErr>
        requires entries { AllByRecursion (λ c. IsEntry (entry_for txn c.db c.name c.value)) rows.now }
        requires loggable { AreAllLoggable filled.now.images.items }
        requires paired { length filled.now.images.items ≡ length rows.now }
        ensures sizes { IfOk result (λ sizes. sizes.items ≡ first.items ++ (map size_of (entries_with txn rows.now filled.now.images.items) ++ commit_sizes owed)) }
        ensures files { OnOk result (nat_lt last_file (end_behind self.now.log (first.items ++ (map size_of (entries_with txn rows.now filled.now.images.items) ++ commit_sizes owed))) ≡ false) }
        ensures ids { OnOk result (filled.now.last ≤ 0x7fffffffffffffff) }
        ensures full { IsEndOf Reason.Full result (nat_lt last_file (end_behind self.now.log (first.items ++ (map size_of (entries_with txn rows.now filled.now.images.items) ++ commit_sizes owed))) ≡ true) }
        ensures ended { IsEndOf Reason.IdsEnded result ((nat_lt last_file (end_behind self.now.log (first.items ++ (map size_of (entries_with txn rows.now filled.now.images.items) ++ commit_sizes owed))) ≡ false) × (0x7fffffffffffffff < filled.now.last)) }
        ensures no_fault { IsEndOf Reason.Fault result ⊥ }
    {
        let mut sizes = first;
        let Ok(()) = push_rows(&mut sizes, txn, rows, filled.images.as_slice()) else {
            return Err(TreeErr::Memory);
        };
        let Ok(()) = push_commits(&mut sizes, txn, owed) else {
            return Err(TreeErr::Memory);
        };
        if self.passes(sizes.as_slice()) {
            return Err(TreeErr::Full);
        }
        if filled.last > LAST_NODE {
            return Err(TreeErr::IdsEnded);
        }
        Ok(sizes)
    }

    // Fills the tree of a database whose root has the number, behind the change that makes it, which has its slot. It gives the sizes of all
    // entries too.
    pub(crate) fn try_fill(
        &self,
        alloc: Global,
        txn: TxnId,
        change: &TreeChange,
        rows: &[TreeChange],
        room: &SlotRoom,
        number: u64,
        owed: u32,
    ) -> Result<(Filled, Vec<u32>), TreeErr>
        requires entry { IsEntry (entry_for txn change.now.db change.now.name change.now.value) }
        requires entries { AllByRecursion (λ c. IsEntry (entry_for txn c.db c.name c.value)) rows.now }
        requires loggable { AllByRecursion (λ i. IsLoggable i.entry) room.now.images.items }
        ensures ok { IfOk result (λ tried. IsTriedToFill self.now txn change.now rows.now room.now number owed tried.0 tried.1.items) }
        ensures met { IfErr result (λ e. IsLimit e → limit_filled self.now.log self.now.trees.fanout change.now rows.now room.now number owed ≡ Some e) }
        ensures none { OnOk result (limit_filled self.now.log self.now.trees.fanout change.now rows.now room.now number owed ≡ None) }
        ensures no_fault { IsEndOf Reason.Fault result ⊥ }
    {
        let Ok(first) = first_sizes(alloc, txn, change, room) else {
            return Err(TreeErr::Memory);
        };
        let place = place_behind(self.log.next_place(), first.as_slice());
        let filled = match fill(alloc, self.trees.fanout, txn, rows, number, place) {
            Ok(filled) => filled,
            Err(error) => {
                drop(first);
                return Err(error);
            }
        };
        match self.check_filled(txn, rows, &filled, owed, first) {
            Ok(sizes) => Ok((filled, sizes)),
            Err(error) => {
                drop(filled);
                Err(error)
            }
        }
    }

    // Makes room in the log for entries of these sizes, and a tree of a root alone for a new database. Where memory runs out no tree changed.
    fn take_new(
        &mut self,
        alloc: Global,
        db: u32,
        number: u64,
        last: u64,
        sizes: &[u32],
    ) -> Result<(), AllocError>
        requires none { is_there self.old.trees.forest db ≡ false }
        requires ids { last ≤ 0x7fffffffffffffff }
        ensures made { OnOk result (IsMadeNew db number self.old.trees.forest self.new.trees.forest) }
        ensures last { OnOk result (self.new.trees.last_node ≡ last) }
        ensures waits { waits_in self.new.trees.forest ≤ waits_in self.old.trees.forest }
        ensures fanout { self.new.trees.fanout ≡ self.old.trees.fanout }
        ensures room { OnOk result (has_failed self.old.log ≡ false → end_behind self.old.log sizes.now ≤ last_file → HasRoomFor self.new.log sizes.now) }
        ensures log { IsUnchanged self.old.log self.new.log }
        ensures same { AreSame (cells_seen self.old.trees.forest) (cells_seen self.new.trees.forest) }
        ensures err { OnErr result (IsSameForest self.old.trees.forest self.new.trees.forest × (self.new.trees.last_node ≡ self.old.trees.last_node)) }
    {
        let Ok(()) = self.log.reserve(sizes) else {
            return Err(AllocError);
        };
        match forest::make(&mut self.trees.forest, alloc, db, number) {
            Ok(()) => {
                self.trees.last_node = last;
                Ok(())
            }
            Err(failed) => Err(failed),
        }
    }

    // Fills the tree of a new database, and takes all memory that this and the change that makes it need; that change has its slot. Where it
    // fails no tree changed.
    fn make_new(
        &mut self,
        alloc: Global,
        txn: TxnId,
        change: &TreeChange,
        rows: &[TreeChange],
        db: u32,
        room: &SlotRoom,
        owed: u32,
    ) -> Result<Filled, TreeErr>
        requires none { is_there self.old.trees.forest db ≡ false }
        requires entry { IsEntry (entry_for txn change.now.db change.now.name change.now.value) }
        requires entries { AllByRecursion (λ c. IsEntry (entry_for txn c.db c.name c.value)) rows.now }
        requires loggable { AllByRecursion (λ i. IsLoggable i.entry) room.now.images.items }
        requires works { has_failed self.old.log ≡ false }
        ensures ok { IfOk result (λ filled. IsFilledUp self.old self.new txn change.now rows.now room.now db owed filled) }
        ensures log { IsUnchanged self.old.log self.new.log }
        ensures same { AreSame (cells_seen self.old.trees.forest) (cells_seen self.new.trees.forest) }
        ensures met { IfErr result (λ e. IsLimit e → limit_behind_slot self.old change.now rows.now room.now owed ≡ Some e) }
        ensures none_met { OnOk result (limit_behind_slot self.old change.now rows.now room.now owed ≡ None) }
        ensures no_fault { IsEndOf Reason.Fault result ⊥ }
        ensures err { OnErr result (IsSameForest self.old.trees.forest self.new.trees.forest × (self.new.trees.last_node ≡ self.old.trees.last_node)) }
    {
        let number = last_behind(self.trees.last_node, room.made(), change);
        let (filled, sizes) = match self.try_fill(alloc, txn, change, rows, room, number, owed) {
            Ok(tried) => tried,
            Err(error) => return Err(error),
        };
        match self.take_new(alloc, db, number, filled.last, sizes.as_slice()) {
            Ok(()) => Ok(filled),
            Err(_) => {
                drop(filled);
                Err(TreeErr::Memory)
            }
        }
    }

    // Takes all memory that making a database and filling it needs: the slot of the change that makes it, its tree, and room in the log. Where
    // it fails nothing changed.
    fn prepare_new(
        &mut self,
        alloc: Global,
        txn: TxnId,
        change: &TreeChange,
        rows: &[TreeChange],
        db: u32,
        owed: u32,
    ) -> Result<(SlotRoom, Filled), TreeErr>
        requires there { is_there self.old.trees.forest change.now.db ≡ true }
        requires none { is_there self.old.trees.forest db ≡ false }
        requires entry { IsEntry (entry_for txn change.now.db change.now.name change.now.value) }
        requires entries { AllByRecursion (λ c. IsEntry (entry_for txn c.db c.name c.value)) rows.now }
        requires works { has_failed self.old.log ≡ false }
        ensures ready { IfOk result (λ ready. IsReadyToFill self.old self.new txn change.now rows.now db owed ready.0 ready.1) }
        ensures same { AreSame (cells_seen self.old.trees.forest) (cells_seen self.new.trees.forest) }
        ensures log { IsUnchanged self.old.log self.new.log }
        ensures room { OnOk result (limit_filling_in self.old (change.now ∷ rows.now) owed ≡ None) }
        ensures limited { IfErr result (λ e. IsLimit e → limit_filling_in self.old (change.now ∷ rows.now) owed ≡ Some e) }
        ensures no_fault { IsEndOf Reason.Fault result ⊥ }
        ensures err { OnErr result (IsSameForest self.old.trees.forest self.new.trees.forest × (self.new.trees.last_node ≡ self.old.trees.last_node)) }
    {
        let fanout = self.trees.fanout;
        let first = self.trees.last_node + 1;
        let name = &change.name;
        let room = match forest::place(
            &mut self.trees.forest,
            alloc,
            change.db,
            fanout,
            name,
            first,
        ) {
            Ok(room) => room,
            Err(error) => return Err(error),
        };
        match self.make_new(alloc, txn, change, rows, db, &room, owed) {
            Ok(filled) => Ok((room, filled)),
            Err(error) => {
                forest::take_back(&mut self.trees.forest, change.db, name, &room);
                drop(room);
                Err(error)
            }
        }
    }

    /// Makes a database and fills it for the transaction: `changes` are the change of the catalog that makes it, and behind that
    /// changes of the new database alone. Logs them in order, each behind the images of the nodes that are split for it. Room for `owed` Commits
    /// is left, that of the transaction among them. No node waits that did not. A name that is changed twice has its last change. An error but Fault leaves all as it was.
    pub fn write_new(
        &mut self,
        alloc: Global,
        txn: TxnId,
        changes: &[TreeChange],
        owed: u32,
    ) -> Result<(), TreeErr>
        requires fills { AreFilling (has_tree_of self.old) changes.now }
        requires entries { AllByRecursion (λ c. IsEntry (entry_for txn c.db c.name c.value)) changes.now }
        ensures cells { OnOk result (AreWritten txn changes.now (cells_of self.old) (cells_of self.new)) }
        ensures trees { OnOk result ((d : ℕ) → has_tree_of self.new d ≡ (is_made d changes.now || has_tree_of self.old d)) }
        ensures grew { OnOk result ((entries : List Entry) × LogsChanges txn changes.now entries × GrewTrees D.meaning self.old self.new entries × (length entries + waits_of self.new ≤ waits_of self.old + most_entries (length changes.now))) }
        ensures waits { OnOk result (waits_of self.new ≤ waits_of self.old) }
        ensures left { OnOk result (HasRoomFor self.new.log (commit_sizes owed)) }
        ensures tried { IsEndOf Reason.Fault result ((entries : List Entry) × (front : List Entry) × LogsChanges txn changes.now entries × IsFront front entries × TriedFitting D.meaning self.old.log self.new.log front) }
        ensures limited { IfErr result (λ e. IsLimit e → limit_filling_in self.old changes.now owed ≡ Some e) }
        ensures room { OnOk result (limit_filling_in self.old changes.now owed ≡ None) }
        ensures fault_room { IsEndOf Reason.Fault result (limit_filling_in self.old changes.now owed ≡ None) }
        ensures same { IfErr result (λ e. IsUndone e → AreSame (cells_of self.old) (cells_of self.new) × ((d : ℕ) → has_tree_of self.new d ≡ has_tree_of self.old d)
            × GrewTrees D.meaning self.old self.new [] × (waits_of self.new ≡ waits_of self.old)) }
    {
        if self.log.has_failed() {
            return Err(TreeErr::Fault);
        }
        let Some((change, rows)) = changes.split_first() else {
            unreachable!()
        };
        let Some(db) = change.makes else {
            unreachable!()
        };
        let Ok(write) = write_for(alloc, txn, change) else {
            return Err(TreeErr::Memory);
        };
        match self.prepare_new(alloc, txn, change, rows, db, owed) {
            Ok((room, filled)) => self.log_new(txn, change, rows, db, room, filled, write),
            Err(error) => {
                drop(write);
                Err(error)
            }
        }
    }

    // Logs the change that makes a database, and those that fill it; the tree that has them is the database's then.
    fn log_new(
        &mut self,
        txn: TxnId,
        change: &TreeChange,
        rows: &[TreeChange],
        db: u32,
        room: SlotRoom,
        filled: Filled,
        write: Box<Write>,
    ) -> Result<(), TreeErr>
        requires entry { IsEntry (entry_for txn change.now.db change.now.name change.now.value) }
        requires entries { AllByRecursion (λ c. IsEntry (entry_for txn c.db c.name c.value)) rows.now }
        requires loggable { AllByRecursion (λ i. IsLoggable i.entry) room.images.items }
        requires all_loggable { AreAllLoggable filled.images.items }
        requires paired { length filled.images.items ≡ length rows.now }
        requires room { (owed : ℕ) × HasRoomFor self.old.log (all_sizes txn change.now rows.now room filled owed) }
        requires there { HasOne self.old.trees.forest change.now.db change.now.name }
        requires new { is_there self.old.trees.forest db ≡ true }
        requires apart { change.now.db ≡ db → ⊥ }
        requires rising { IsRising (occupied filled.tree.cells) }
        requires write { write.value ≡ write_for txn change.now }
        ensures logged { OnOk result (IsLoggedNew D.meaning txn change.now rows.now db room filled self.old self.new) }
        ensures left { (owed : ℕ) → HasRoomFor self.old.log (all_sizes txn change.now rows.now room filled owed) → OnOk result (HasRoomFor self.new.log (commit_sizes owed)) }
        ensures tried { OnErr result ((entries : List Entry) × (front : List Entry) × LogsChanges txn (change.now ∷ rows.now) entries × IsFront front entries × TriedFitting D.meaning self.old.log self.new.log front) }
        ensures by_fault { IfErr result (λ e. e ≡ Reason.Fault) }
    {
        let forest = &mut self.trees.forest;
        match write_one(&mut self.log, forest, txn, change, room, write) {
            Ok(_) => {}
            Err(error) => {
                drop(filled);
                return Err(error);
            }
        }
        match log_rows(&mut self.log, txn, rows, filled.images.as_slice()) {
            Ok(()) => {}
            Err(error) => {
                drop(filled);
                return Err(error);
            }
        }
        forest::replace(&mut self.trees.forest, db, filled.tree);
        Ok(())
    }
}
