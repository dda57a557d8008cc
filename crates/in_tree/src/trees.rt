// The trees of an environment.
ghost use Rattle.std.specs.Prelude.{◌≡◌, ◌≤◌, ◌<◌, ◌+◌, ◌*◌, ◌^◌, ◌==◌, ℕ, suc, List as Items, [], true, false, if◌then◌else◌, IfOk, IfSome, OnOk, OnErr, option_map};
ghost use Rattle.std.specs.Ordering.{is_eq};
ghost use Rattle.je_order.specs.Order.{name_cmp};
ghost use Rattle.je_order.specs.declared.name.Name.{Name};
ghost use Rattle.record_map.specs.Cells.{value_at, IsRising, first_of, last_of, from_edge, below_edge, edge_of};
ghost use Rattle.record_tree.specs.Logged.{IsEndOf};
ghost use Rattle.record_tree.specs.Occupied.{AreSame, occupied_by};
ghost use Rattle.record_tree.specs.declared.tree_err.TreeErr.{TreeErr as Reason};
ghost use Rattle.record_tree.specs.Stored.{stored_at, HasStored, AreStoredStill};
ghost use Rattle.in_tree.specs.Forest.{cells_at, cells_seen, is_there, HasSameTrees, IsSameForest, HasChange};
ghost use Rattle.record_tree.specs.LoadedNodes.{AreNodesStill, IsLoggedAt};
ghost use Rattle.db_tree.specs.Stored.{IsLoggedAlready};
ghost use Rattle.log_trees.specs.Placed.{Placed};
ghost use Rattle.in_tree.specs.Loaded.{AreAllParts, nodes_of, FitsUpTo};
ghost use Rattle.in_tree.specs.Waits.{waits_in};
ghost use Rattle.db_tree.specs.Seen.{with_value};
ghost use Rattle.record_tree.specs.LoadedSlots.{HasMoreSlots};
ghost use Rattle.in_tree.specs.Stored.{slots_held, stored_of, IsQuiet};

use crate::{forest, reading};
use db_tree::DbTree;
use je_lsn::Lsn;
use je_order::Octets;
use record_map::{Cell, EdgeRef, SortKey};
use record_tree::TreeErr;
use std::alloc::{AllocError, Global};
use std::collections::BTreeMap;

/// The greatest number that a node has.
pub const LAST_NODE: u64 = 0x7fff_ffff_ffff_ffff;

// How many nodes a name's slot makes at most.
const MOST_MADE: u64 = 64;

/// The trees of all databases. They begin without one; opening puts those in that the log has.
#[derive(Drop)]
pub struct Trees {
    /// The trees by their databases' numbers.
    pub(crate) forest: BTreeMap<u32, DbTree>,
    /// The node number that was allocated last.
    pub(crate) last_node: u64,
    /// How many slots a node has at most when one is put in.
    pub(crate) fanout: u32,
    ghost numbers: { last_node ≤ 0x7fffffffffffffff },
    ghost least: { 4 ≤ fanout },
    ghost most: { fanout ≤ 128 },
}

impl Trees {
    /// No trees, of nodes of at most so many slots. The numbers of nodes go on behind `last_node`. It takes no
    /// memory.
    pub fn new(alloc: Global, fanout: u32, last_node: u64) -> Trees
        requires numbers { last_node ≤ 0x7fffffffffffffff }
        requires least { 4 ≤ fanout }
        requires most { fanout ≤ 128 }
        ensures none { (d : ℕ) → is_there result.forest d ≡ false }
        ensures last { result.last_node ≡ last_node }
    {
        Trees {
            forest: BTreeMap::new(alloc),
            last_node,
            fanout,
        }
    }

    /// The cell of the name, where it is occupied, with the name as it is held.
    pub fn get(&self, db: u32, name: &SortKey) -> Option<(&SortKey, &Cell)>
        ensures name { IfSome result (λ p. p.0.now ≡ name.now) }
        ensures found { option_map (λ p. occupied_by p.1.now) result ≡ value_at name.now (cells_seen self.now.forest db) }
        ensures rising { IsRising (cells_seen self.now.forest db) }
    {
        reading::get(&self.forest, db, name)
    }

    /// The first occupied name that is not below the edge.
    pub fn next(&self, db: u32, from: EdgeRef<'_>) -> Option<(&SortKey, &Cell)>
        ensures found { option_map (λ p. (p.0.now, occupied_by p.1.now)) result ≡ first_of (from_edge (edge_of from.entry) (cells_seen self.now.forest db)) }
        ensures rising { IsRising (cells_seen self.now.forest db) }
    {
        reading::next(&self.forest, db, from)
    }

    /// The last occupied name below the edge.
    pub fn last_below(&self, db: u32, upto: EdgeRef<'_>) -> Option<(&SortKey, &Cell)>
        ensures found { option_map (λ p. (p.0.now, occupied_by p.1.now)) result ≡ last_of (below_edge (edge_of upto.entry) (cells_seen self.now.forest db)) }
        ensures rising { IsRising (cells_seen self.now.forest db) }
    {
        reading::last_below(&self.forest, db, upto)
    }

    /// Makes the tree of a database that has none: a root without records, with the next node number. IdsEnded
    /// where no number is left; an error leaves the trees as they were.
    pub fn make(&mut self, alloc: Global, db: u32) -> Result<(), TreeErr>
        requires { is_there self.old.forest db ≡ false }
        ensures same { AreSame (cells_seen self.old.forest) (cells_seen self.new.forest) }
        ensures trees { OnOk result ((d : ℕ) → is_there self.new.forest d ≡ (if d == db then true else is_there self.old.forest d)) }
        ensures number { OnOk result (self.new.last_node ≡ self.old.last_node + 1) }
        ensures ended { IsEndOf Reason.IdsEnded result (self.old.last_node ≡ 0x7fffffffffffffff) }
        ensures no_fault { IsEndOf Reason.Fault result ⊥ }
        ensures no_limit { IsEndOf Reason.Full result ⊥ }
        ensures err { OnErr result (IsSameForest self.old.forest self.new.forest) }
        ensures stored { AreStoredStill (stored_of self.old.forest) (stored_of self.new.forest) }
        ensures waits { waits_in self.new.forest ≤ waits_in self.old.forest }
        ensures quiet { IsQuiet self.old.forest → IsQuiet self.new.forest }
    {
        if self.last_node == LAST_NODE {
            return Err(TreeErr::IdsEnded);
        }
        let number = self.last_node + 1;
        match forest::make(&mut self.forest, alloc, db, number) {
            Ok(()) => {}
            Err(_) => return Err(TreeErr::Memory),
        }
        self.last_node = number;
        Ok(())
    }

    /// Takes the tree of a database out, with its records. It takes no memory.
    pub fn drop_db(&mut self, db: u32)
        ensures cells { (d : ℕ) → cells_seen self.new.forest d ≡ (if d == db then [] else cells_seen self.old.forest d) }
        ensures trees { (d : ℕ) → is_there self.new.forest d ≡ (if d == db then false else is_there self.old.forest d) }
        ensures waits { waits_in self.new.forest ≤ waits_in self.old.forest }
        ensures stored { (d : ℕ) → stored_of self.new.forest d ≡ (if d == db then [] else stored_of self.old.forest d) }
        ensures slots { (d : ℕ) (x : Name) → slots_held self.new.forest d x ≡ (if d == db then false else slots_held self.old.forest d x) }
        ensures quiet { IsQuiet self.old.forest → IsQuiet self.new.forest }
        ensures parts { AreAllParts self.old.forest → AreAllParts self.new.forest }
        ensures fits { (es : Items Placed) (base : ℕ) → FitsUpTo self.old.last_node self.old.forest es base → FitsUpTo self.new.last_node self.new.forest es base }
    {
        forest::drop_db(&mut self.forest, db);
    }

    // The number of the next node, where enough are left for the splits of a name's slot.
    fn next_number(&self) -> Option<u64>
        ensures { IfSome result (λ n. n ≡ suc self.now.last_node) }
    {
        if self.last_node < LAST_NODE - MOST_MADE {
            return Some(self.last_node + 1);
        }
        None
    }

    /// Sets what is committed of a name, as the log has it: the record that was logged at `at`, or none where the record was
    /// deleted there. A redo finds the change again from the LSN `first` on, which is `at` or before it. Nothing is
    /// logged: nodes that are split for the name wait to be logged, and it gives how many were made. None is split where fewer
    /// than 65 node numbers are left, or the root is at the last level. Where this is committed already, no node changes. Running out of
    /// memory changes no record.
    pub fn redo(
        &mut self,
        alloc: Global,
        db: u32,
        name: &SortKey,
        value: Option<Octets>,
        first: Lsn,
        at: Lsn,
    ) -> Result<usize, AllocError>
        requires { is_there self.old.forest db ≡ true }
        ensures cells { OnOk result (HasChange (cells_seen self.old.forest) (cells_seen self.new.forest) db name.now (with_value value)) }
        ensures stored { OnOk result (HasStored (stored_of self.old.forest) (stored_of self.new.forest) db name.now (stored_at at value)) }
        ensures slots { OnOk result (HasMoreSlots (slots_held self.old.forest) (slots_held self.new.forest) db (λ x. is_eq (name_cmp name.now x))) }
        ensures already { IsLoggedAlready (cells_at self.old.forest db) name.now at value → OnOk result (AreNodesStill (nodes_of self.old.forest) (nodes_of self.new.forest)) }
        ensures quiet { IsQuiet self.old.forest → IsQuiet self.new.forest }
        ensures same { OnErr result (AreSame (cells_seen self.old.forest) (cells_seen self.new.forest)) }
        ensures fits { (es : Items Placed) (base : ℕ) → first < base → at < base → base < 2 ^ 64 → IsLoggedAt es db name.now at value → IsQuiet self.old.forest → FitsUpTo self.old.last_node self.old.forest es base → OnOk result (FitsUpTo self.new.last_node self.new.forest es base) }
        ensures parts { AreAllParts self.old.forest → AreAllParts self.new.forest }
        ensures trees { HasSameTrees self.old.forest self.new.forest }
        ensures few { IfOk result (λ made. made ≤ 64) }
        ensures waits { IfOk result (λ made. waits_in self.new.forest ≤ waits_in self.old.forest + 2 * made) }
        ensures most { waits_in self.new.forest ≤ waits_in self.old.forest + 128 }
    {
        let number = self.next_number();
        let fanout = self.fanout;
        let made = forest::redo(
            &mut self.forest,
            alloc,
            db,
            fanout,
            number,
            name,
            value,
            first,
            at,
        )?;
        self.last_node = self.last_node.saturating_add(made as u64).min(LAST_NODE);
        Ok(made)
    }
}
