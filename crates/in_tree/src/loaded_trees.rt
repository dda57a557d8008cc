// The trees of an environment while its log is read again.
ghost use Rattle.std.specs.Prelude.{◌≡◌, ◌≤◌, ◌+◌, ◌-◌, ℕ, min, max, [], false, map, OnOk};
ghost use Rattle.db_tree.specs.Splits.{one_if};
ghost use Rattle.record_map.specs.Cells.{IsRising};
ghost use Rattle.record_tree.specs.Stored.{AreStoredStill};
ghost use Rattle.in_tree.specs.Stored.{committed_cell};
ghost use Rattle.in_tree.specs.Loaded.{AreFormed};
ghost use Rattle.in_tree.specs.Whole.{has_tree_in, last_number_of, seen_in, stored_within, waits_within};

use crate::trees::LAST_NODE;
use crate::{Trees, forest, loading, stored};
use db_tree::NewWaits;
use je_lsn::Lsn;
use je_order::{Name, Octets, copy_of};
use node_core::Node;
use record_map::SortKey;
use record_tree::{LoadErr, Loads, RecordRef, StoredRecord};
use std::alloc::{AllocError, Global};
use std::marker::Model;

// How many nodes wait at most where another one is loaded or a record redone. No memory holds as many.
const MOST_WAITS: u64 = 0x7fff_ffff_ffff_ffff;

// How many nodes wait more at most where a node is loaded.
const MOST_TO_COME: u64 = 513;

// How many nodes wait at most that a redo splits or makes.
const MOST_SPLIT: u64 = 128;

// At least as many as the nodes that wait behind a load, where at most so many did before it.
fn waits_behind(before: u64, waits: &NewWaits) -> u64
    requires before { before ≤ 0x7fffffffffffffff }
    requires more { waits.now.more ≤ 513 }
    ensures { result ≡ before + waits.now.more - one_if waits.now.replaced }
{
    (before + waits.more as u64).saturating_sub(waits.replaced as u64)
}

/// The trees of an environment while its log is read again, seen as these trees: no transaction has changed anything, so
/// each record in them is committed. Nodes that were split wait to be logged.
#[derive(Drop)]
pub struct LoadedTrees {
    pub(crate) trees: Trees,
    // At least as many as the nodes that wait to be logged.
    waits: u64,
}

impl Model for LoadedTrees {
    ghost use Rattle.in_tree.specs.declared.trees.Trees.{Trees as Forested};
    ghost use Rattle.in_tree.specs.Loaded.{AreLoaded};
    ghost use Rattle.in_tree.specs.contracts.trees.Trees as within;
    ghost use Rattle.std.specs.Coded.{codes};

    ghost Value = { Forested };

    ghost coded = { Prim.hlevel (codes, within.the_row.coded) };

    ghost view = { λ a. a.trees };

    ghost invariant = { λ a. AreLoaded a.trees.forest a.waits };
}

impl LoadedTrees {
    /// No trees, of nodes of at most `fanout` slots. The numbers of nodes go on behind `last_node`. It takes no
    /// memory.
    pub fn new(alloc: Global, fanout: u32, last_node: u64) -> LoadedTrees
        requires numbers { last_node ≤ 0x7fffffffffffffff }
        requires least { 4 ≤ fanout }
        requires most { fanout ≤ 128 }
        ensures none { (d : ℕ) → has_tree_in result d ≡ false }
        ensures stored { (d : ℕ) → stored_within result d ≡ [] }
    {
        LoadedTrees {
            trees: Trees::new(alloc, fanout, last_node),
            waits: 0,
        }
    }

    /// At least as many as the nodes that wait to be logged.
    pub fn waits(&self) -> u64
        ensures { waits_within self.now ≤ result }
    {
        self.waits
    }

    /// The node number that was allocated last; 2^63 - 1 where the numbers of nodes have ended.
    pub fn last_node(&self) -> u64
        ensures { result ≡ last_number_of self.now }
    {
        self.trees.last_node
    }

    // The trees themselves, in which each record is as transactions see it.
    pub(crate) fn into_trees(self) -> Trees
        ensures trees { result ≡ self }
        ensures seen { (d : ℕ) → seen_in result d ≡ map committed_cell (stored_within self d) }
        ensures rising { (d : ℕ) → IsRising (seen_in result d) }
    {
        let LoadedTrees { trees, waits: _ } = self;
        trees
    }

    // Takes a node's number as allocated, up to the last one.
    fn take_number(&mut self, number: u64)
        ensures same { self.new.forest ≡ self.old.forest }
        ensures formed { AreFormed self.new.forest }
        ensures number { self.new.last_node ≡ min (max self.old.last_node number) 0x7fffffffffffffff }
    {
        self.trees.last_node = self.trees.last_node.max(number).min(LAST_NODE);
    }
}

impl Loads for LoadedTrees {
    ghost use Rattle.std.specs.Ordering.{nat_cmp};
    ghost use Rattle.std.specs.BTreeMap.{get};
    ghost use Rattle.in_tree.specs.Forest.{is_there};
    ghost use Rattle.in_tree.specs.Stored.{slots_held, stored_of, none_read, none_stored};
    ghost use Rattle.in_tree.specs.Whole.{last_number_of};
    ghost use Rattle.in_tree.specs.LoadedFits.{formed_within, nodes_within, read_within, fits_within};
    ghost use Rattle.in_tree.specs.LoadedNodes.{no_nodes};

    ghost stored = { λ x. stored_of x.forest };

    ghost has_tree = { λ x d. is_there x.forest d };

    ghost well_formed = { formed_within };

    ghost nodes = { nodes_within };

    ghost slots = { λ x. slots_held x.forest };

    ghost read = { read_within };

    ghost last_number = { last_number_of };

    ghost fits = { fits_within };

    ghost none_stored = { λ x d none. none_stored (get nat_cmp x.forest d) none };

    ghost none_read = { λ x d name none. none_read (get nat_cmp x.forest d) name none };

    ghost no_nodes = { λ x d k low none. no_nodes (get nat_cmp x.forest d) k low none };

    fn begin_redo(&mut self, last_node: u64, _from: Lsn) {
        self.take_number(last_node);
    }

    fn is_made(&self, db: u32) -> bool {
        loading::has_tree(&self.trees.forest, db)
    }

    fn databases(&self, alloc: Global) -> Result<Vec<u32>, AllocError> {
        stored::databases(&self.trees.forest, alloc)
    }

    fn make(&mut self, alloc: Global, db: u32) -> Result<(), LoadErr> {
        let number = self.trees.last_node.saturating_add(1).min(LAST_NODE);
        forest::make(&mut self.trees.forest, alloc, db, number)?;
        self.take_number(number);
        Ok(())
    }

    fn load_node(
        &mut self,
        alloc: Global,
        node: &Node,
        low: &Name,
        high: Option<&Name>,
        at: Lsn,
        keeps: bool,
    ) -> Result<(), LoadErr> {
        self.take_number(node.number);
        if self.waits > MOST_WAITS {
            return Err(LoadErr::Memory);
        }
        let forest = &mut self.trees.forest;
        match loading::load_node(forest, alloc, node, low, high, at, keeps) {
            Ok(waits) => {
                self.waits = waits_behind(self.waits, &waits);
                Ok(())
            }
            Err(_) => {
                self.waits += MOST_TO_COME;
                Err(LoadErr::Memory)
            }
        }
    }

    fn load(
        &mut self,
        alloc: Global,
        db: u32,
        name: &Name,
        at: Lsn,
        value: &[u8],
    ) -> Result<(), LoadErr> {
        let copy = copy_of(name)?;
        let name = SortKey::new(alloc, copy)?;
        if !loading::has_tree(&self.trees.forest, db) {
            self.make(alloc, db)?;
        }
        loading::load(&mut self.trees.forest, alloc, db, name, at, value)?;
        Ok(())
    }

    fn drop_db(&mut self, db: u32) {
        self.trees.drop_db(db);
    }

    fn redo(
        &mut self,
        alloc: Global,
        db: u32,
        name: Name,
        first: Lsn,
        at: Lsn,
        value: Option<Octets>,
    ) -> Result<(), LoadErr> {
        if self.waits > MOST_WAITS {
            drop(name);
            drop(value);
            return Err(LoadErr::Memory);
        }
        let Ok(name) = SortKey::new(alloc, name) else {
            drop(value);
            return Err(LoadErr::Memory);
        };
        match self.trees.redo(alloc, db, &name, value, first, at) {
            Ok(made) => {
                self.waits += 2 * made as u64;
                Ok(())
            }
            Err(_) => {
                self.waits += MOST_SPLIT;
                Err(LoadErr::Memory)
            }
        }
    }

    fn count(&self, db: u32) -> usize {
        stored::count(&self.trees.forest, db)
    }

    fn get(&self, db: u32, name: &SortKey) -> Option<(Lsn, &[u8])> {
        stored::get(&self.trees.forest, db, name)
    }

    fn records(&self, alloc: Global, db: u32) -> Result<Vec<StoredRecord>, AllocError> {
        stored::records(&self.trees.forest, alloc, db)
    }

    fn lend_records(&self, alloc: Global, db: u32) -> Result<Vec<RecordRef<'_>>, AllocError> {
        stored::lend_records(&self.trees.forest, alloc, db)
    }

    fn first_with_dup(&self, db: u32) -> Option<&SortKey> {
        stored::first_with_dup(&self.trees.forest, db)
    }

    fn first_not_dup(&self, db: u32, limit: usize) -> Option<&SortKey> {
        stored::first_not_dup(&self.trees.forest, db, limit)
    }
}
