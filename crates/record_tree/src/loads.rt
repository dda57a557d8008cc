// Trees that are made of a log.
ghost use Rattle.std.specs.Prelude.{◌≡◌, ◌≤◌, ◌<◌, ◌-◌, ◌^◌, ◌==◌, ◌||◌, ◌&&◌, nat_le, min, ℕ, List, [], length, option_map, option_copied, find, not, None, Some, IsSome, OnOk, IfOk, Bool, true, false, if◌then◌else◌};
ghost use Rattle.std.specs.List.{list_any};
ghost use Rattle.std.specs.Ordering.{is_eq};
ghost use Rattle.je_order.specs.Order.{name_cmp};
ghost use Rattle.je_order.specs.declared.name.Name.{Name as Named};
ghost use Rattle.log_entry.specs.declared.entry.Entry.{Entry};
ghost use Rattle.record_map.specs.Cells.{IsRising, value_at};
ghost use Rattle.record_tree.specs.LoadedNodes.{AllNodes, node_read, HasPutNode, AreNodesStill, IsLoggedAt};
ghost use Rattle.record_tree.specs.LoadedSlots.{AllRead, AllSlots, shows_deletion_inside, HasGone, HasMoreSlots, HasPutSlot, AreSlotsStill, IsReadStill};
ghost use Rattle.record_tree.specs.Stored.{AllStored, stored_at, HasStored, AreStoredStill, lent, values_of};

use crate::{LoadErr, RecordRef, StoredRecord};
use je_lsn::Lsn;
use je_order::{Name, Octets};
use node_core::Node;
use record_map::SortKey;
use std::alloc::{AllocError, Global};

/// The trees of an environment in memory, while they are made of a log. No transaction is active, so
/// each record is committed. A contract sees the records, the nodes as they are put, and a relation that an
/// implementation names: that the trees fit a log down to the images of their nodes. Node numbers are not refused here: where none is left, nodes are made with the last
/// one, and whoever reads the log refuses it by the numbers that its entries may have allocated.
pub trait Loads {
    /// The records of each database, with the LSNs at which they were logged.
    ghost stored: { Self → AllStored };

    /// Whether a database of that number has a tree.
    ghost has_tree: { Self → ℕ → Bool };

    /// The nodes of each database.
    ghost nodes: { Self → AllNodes };

    /// Whether a name of a database has a slot that the next image of its BIN shows: that of a record, or of one that was deleted.
    ghost slots: { Self → AllSlots };

    /// What is read of each name: what is committed of it, and what the last image of its BIN says.
    ghost read: { Self → AllRead };

    /// The node number that was allocated last, at most 2^63 - 1.
    ghost last_number: { Self → ℕ };

    /// What holds of all such trees.
    ghost well_formed: { Self → Type 0 };

    /// The trees fit a log, whose LSNs are all below a base, down to the images of their nodes.
    ghost fits: { Self → List (ℕ × Entry) → ℕ → Type 0 };

    /// A redo begins at the LSN `from`, from which on nodes that it splits are found again. Nodes that it
    /// makes take the numbers behind `last_node`.
    fn begin_redo(&mut self, last_node: u64, from: Lsn)
        ensures formed { well_formed self.new }
        ensures nodes { AreNodesStill (nodes self.old) (nodes self.new) }
        ensures numbers { min last_node 0x7fffffffffffffff ≤ last_number self.new }
        ensures stored { AreStoredStill (stored self.old) (stored self.new) }
        ensures slots { AreSlotsStill (slots self.old) (slots self.new) }
        ensures read { IsReadStill (read self.old) (read self.new) }
        ensures trees { (d : ℕ) → has_tree self.new d ≡ has_tree self.old d };

    /// Whether the database has a tree.
    fn is_made(&self, db: u32) -> bool
        ensures made { result ≡ has_tree self.now db }
        ensures rising { (d : ℕ) → IsRising (stored self.now d) };

    /// The numbers of the databases with trees.
    fn databases(&self, alloc: Global) -> Result<Vec<u32>, AllocError>
        ensures { IfOk result (λ numbers. (d : ℕ) → has_tree self.now d ≡ list_any (λ n. n == d) numbers.items) };

    /// Makes an empty tree for a database without one. Its root takes the next node number.
    fn make(&mut self, alloc: Global, db: u32) -> Result<(), LoadErr>
        requires { has_tree self.old db ≡ false }
        ensures fits { (es : List (ℕ × Entry)) (base : ℕ) → fits self.old es base → OnOk result (fits self.new es base) }
        ensures stored { OnOk result (AreStoredStill (stored self.old) (stored self.new)) }
        ensures slots { OnOk result (AreSlotsStill (slots self.old) (slots self.new)) }
        ensures read { OnOk result (IsReadStill (read self.old) (read self.new)) }
        ensures trees { OnOk result ((d : ℕ) → has_tree self.new d ≡ ((d == db) || has_tree self.old d)) };

    /// Puts a node of a database's tree as the image at `at` shows it: its names lie from `low` on, and below `high` where it has an upper
    /// bound. The nodes of a tree come from the left, each behind those above it, and a BIN before its records. Where the image is not
    /// to be kept as the node's last one, the node waits to be logged. The slots within the bounds that the image has of records that were
    /// deleted are put with it, so that the node's next image has them too; those outside are read past.
    fn load_node(
        &mut self,
        alloc: Global,
        node: &Node,
        low: &Name,
        high: Option<&Name>,
        at: Lsn,
        keeps: bool,
    ) -> Result<(), LoadErr>
        ensures stored { OnOk result (AreStoredStill (stored self.old) (stored self.new)) }
        ensures slots { OnOk result (HasMoreSlots (slots self.old) (slots self.new) node.now.db (shows_deletion_inside low.now (option_copied high.entry) node.now.slots)) }
        ensures read { OnOk result (HasGone (read self.old) (read self.new) node.now.db (shows_deletion_inside low.now (option_copied high.entry) node.now.slots) at) }
        ensures nodes { OnOk result (HasPutNode (nodes self.old) (nodes self.new) node.now.db (node.now.level - 1) low.now (node_read node.now.number at keeps)) };

    /// Puts a record of the BIN that was put last, which was logged at `at`.
    fn load(
        &mut self,
        alloc: Global,
        db: u32,
        name: &Name,
        at: Lsn,
        value: &[u8],
    ) -> Result<(), LoadErr>
        ensures stored { OnOk result (HasStored (stored self.old) (stored self.new) db name.now (stored_at at (Some value.now))) }
        ensures slots { OnOk result (HasMoreSlots (slots self.old) (slots self.new) db (λ x. is_eq (name_cmp name.now x))) }
        ensures read { OnOk result (HasPutSlot (read self.old) (read self.new) db name.now at) }
        ensures nodes { (k : ℕ) (low : Named) → IsSome (nodes self.old db k low) → OnOk result (AreNodesStill (nodes self.old) (nodes self.new)) };

    /// Takes the tree of a database out, with its records. It takes no memory.
    fn drop_db(&mut self, db: u32)
        ensures stored { (d : ℕ) → stored self.new d ≡ (if d == db then [] else stored self.old d) }
        ensures slots { (d : ℕ) (x : Named) → slots self.new d x ≡ (if d == db then false else slots self.old d x) }
        ensures trees { (d : ℕ) → has_tree self.new d ≡ (if d == db then false else has_tree self.old d) }
        ensures fits { (es : List (ℕ × Entry)) (base : ℕ) → fits self.old es base → fits self.new es base };

    /// Makes a committed change, which was logged at `at`: the record's new data, or none where it is
    /// deleted. A redo finds the change again from the LSN `first` on. Nodes that are split for it take the
    /// next node numbers. A record that is deleted keeps its slot. Where all this is committed already, no node changes.
    fn redo(
        &mut self,
        alloc: Global,
        db: u32,
        name: Name,
        first: Lsn,
        at: Lsn,
        value: Option<Octets>,
    ) -> Result<(), LoadErr>
        requires { has_tree self.old db ≡ true }
        ensures fits { (es : List (ℕ × Entry)) (base : ℕ) → first < base → at < base → base < 2 ^ 64 → IsLoggedAt es db name at value → fits self.old es base → OnOk result (fits self.new es base) }
        ensures stored { OnOk result (HasStored (stored self.old) (stored self.new) db name (stored_at at value)) }
        ensures slots { OnOk result (HasMoreSlots (slots self.old) (slots self.new) db (λ x. is_eq (name_cmp name x))) }
        ensures nodes { slots self.old db name ≡ true → value_at name (stored self.old db) ≡ stored_at at value → OnOk result (AreNodesStill (nodes self.old) (nodes self.new)) }
        ensures trees { OnOk result ((d : ℕ) → has_tree self.new d ≡ has_tree self.old d) };

    /// How many records the database has.
    fn count(&self, db: u32) -> usize
        ensures { result ≡ length (stored self.now db) };

    /// The LSN and the data of the record of that name, if there is one.
    fn get(&self, db: u32, name: &SortKey) -> Option<(Lsn, &[u8])>
        ensures found { option_map (λ r. record { at = r.0; value = r.1.now }) result ≡ value_at name.now (stored self.now db) };

    /// Copies of the records of the database, in order.
    fn records(&self, alloc: Global, db: u32) -> Result<Vec<StoredRecord>, AllocError>
        ensures records { IfOk result (λ records. records.items ≡ stored self.now db) }
        ensures rising { (d : ℕ) → IsRising (stored self.now d) };

    /// The records of the database, in order, where they lie.
    fn lend_records(&self, alloc: Global, db: u32) -> Result<Vec<RecordRef<'_>>, AllocError>
        ensures records { IfOk result (λ records. lent records.items ≡ values_of (stored self.now db)) }
        ensures rising { (d : ℕ) → IsRising (stored self.now d) };

    /// The name of the first record whose dup is not empty, if there is one.
    fn first_with_dup(&self, db: u32) -> Option<&SortKey>
        ensures found { option_map (λ name. name.now) result ≡ option_map (λ r. r.0) (find (λ r. not (length r.0.dup == 0)) (stored self.now db)) };

    /// The name of the first record that is no duplicate: its data is not empty, or its dup has more than `limit`
    /// bytes.
    fn first_not_dup(&self, db: u32, limit: usize) -> Option<&SortKey>
        ensures found { option_map (λ name. name.now) result ≡ option_map (λ r. r.0) (find (λ r. not ((length r.1.value == 0) && nat_le (length r.0.dup) limit)) (stored self.now db)) };

    /// A database without a tree has no records.
    ghost none_stored: { (x : Self) (d : ℕ) → has_tree x d ≡ false → stored x d ≡ [] };

    /// And no nodes.
    ghost no_nodes: { (x : Self) (d k : ℕ) (low : Named) → has_tree x d ≡ false → nodes x d k low ≡ None };

    /// And nothing was read of its names.
    ghost none_read: { (x : Self) (d : ℕ) (name : Named) → has_tree x d ≡ false → read x d name ≡ None };
}
