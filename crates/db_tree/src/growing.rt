// Nodes are split in memory, before their halves are logged.
ghost use Rattle.std.specs.Prelude.{◌≡◌, ◌<◌, ◌==◌, ◌≤◌, ◌+◌, ◌⊎◌, ℕ, suc, true, false, [], take, length, List as Rows, Option, None, Some, IsSome, IfOk, OnOk, OnErr};
ghost use Rattle.je_order.specs.declared.name.Name.{Name};
ghost use Rattle.record_map.specs.Cells.{value_at};
ghost use Rattle.std.specs.Ordering.{is_eq};
ghost use Rattle.je_order.specs.Order.{name_cmp};
ghost use Rattle.tree_nodes.specs.Nodes.{NodeRow, least};
ghost use Rattle.tree_nodes.specs.Levels.{row_of};
ghost use Rattle.tree_nodes.specs.Lows.{lows_of, with_low, with_root};
ghost use Rattle.db_tree.specs.Images.{Placed};
ghost use Rattle.db_tree.specs.NodeImages.{number_of};
ghost use Rattle.db_tree.specs.Notes.{AreUnnotedSince, is_noted_at};
ghost use Rattle.db_tree.specs.Numbers.{AreNumbered, AreNewNumbered};
ghost use Rattle.db_tree.specs.Splitting.{IsSplitAt, AreSplit, IsRaisedFrom, AreGrown};
ghost use Rattle.db_tree.specs.Splits.{lows_split, lows_behind, is_raised};
ghost use Rattle.db_tree.specs.Trees.{IsTree};
ghost use Rattle.db_tree.specs.Waiting.{waiting_of, waiting_raised};

use crate::{DbTree, NodeSplit};
use je_lsn::Lsn;
use je_order::cmp_bytes;
use record_map::{Cells, SortKey};
use std::alloc::{AllocError, Global};
use std::cmp::Ordering;
use tree_nodes::Node;

// Whether the name is the least one.
fn is_least(name: &SortKey) -> bool
    ensures { result ≡ is_eq (name_cmp name.now least) }
{
    match cmp_bytes(name.key(), &[]) {
        Ordering::Equal => cmp_bytes(name.dup(), &[]) == Ordering::Equal,
        _ => false,
    }
}

// The least name.
pub(crate) fn least_name(alloc: Global) -> Result<SortKey, AllocError>
    ensures { IfOk result (λ name. name ≡ least) }
{
    SortKey::plain(alloc, &[])
}

// The root above a root that was split. Until it is logged it is marked.
fn new_root(number: u64, mark: Lsn, noted: bool) -> Node
    ensures last { result.last ≡ None }
    ensures from { result.from ≡ Some mark }
    ensures forced { result.forced ≡ false }
    ensures number { result.number ≡ number }
    ensures noted { result.noted ≡ noted }
{
    Node {
        number,
        last: None,
        from: Some(mark),
        slots: 0,
        forced: false,
        noted,
    }
}

// Notes the names of a BIN as a run of the cells.
fn note_bin(cells: &mut Cells, alloc: Global, low: &SortKey)
    ensures { cells.new ≡ cells.old }
{
    match low.copy(alloc) {
        Ok(copy) => cells.note_run(copy),
        Err(failed) => drop(failed),
    }
}

// Notes the names of both halves of a BIN that is split, if one is, so that its cells need not be counted where it gets another one.
fn note_halves(cells: &mut Cells, alloc: Global, splits: &[NodeSplit])
    ensures { cells.new ≡ cells.old }
{
    if splits.len() == 0 {
        return;
    }
    note_bin(cells, alloc, &splits[0].middle);
    note_bin(cells, alloc, &splits[0].low);
}

impl DbTree {
    // Whether a new node of the level may begin at the name: no node does, and one of the level below does.
    fn may_begin(&self, level: usize, middle: &SortKey) -> bool
        ensures there { result ≡ true → level < length self.now.levels }
        ensures free { result ≡ true → value_at middle.now (row_of self.now.levels level) ≡ None }
        ensures nested { result ≡ true → (k : ℕ) → level ≡ suc k → IsSome (value_at middle.now (row_of self.now.levels k)) }
    {
        if level >= self.levels.height() {
            return false;
        }
        if let Some(_) = self.levels.at(level, middle) {
            return false;
        }
        if level == 0 {
            return true;
        }
        match self.levels.at(level - 1, middle) {
            Some(_) => true,
            None => false,
        }
    }

    // Whether the node of the level that begins at the name may go: none above begins there.
    fn may_go(&self, level: usize, middle: &SortKey) -> bool
        ensures there { result ≡ true → level < length self.now.levels }
        ensures above { result ≡ true → value_at middle.now (row_of self.now.levels (suc level)) ≡ None }
        ensures low { result ≡ true → middle.now ≡ least → ⊥ }
        ensures split { (before : Rows NodeRow) → IsSplitAt before self.now.levels level middle.now → result ≡ true }
    {
        let height = self.levels.height();
        if level >= height {
            return false;
        }
        if is_least(middle) {
            return false;
        }
        if level + 1 >= height {
            return true;
        }
        match self.levels.at(level + 1, middle) {
            Some(_) => false,
            None => true,
        }
    }

    // Splits the node of the level over the name: from there on its names are those of a new node.
    fn split_one(
        &mut self,
        alloc: Global,
        level: usize,
        middle: &SortKey,
        number: u64,
    ) -> Result<(), AllocError>
        ensures lows { OnOk result (lows_of self.new.levels ≡ with_low level middle.now (lows_of self.old.levels)) }
        ensures waits { OnOk result (waiting_of self.new.levels ≡ waiting_of self.old.levels) }
        ensures number { OnOk result (number_of self.new.levels level middle.now ≡ number) }
        ensures cells { self.new.cells ≡ self.old.cells }
        ensures tree { (es : Placed) (base : ℕ) (newest : Name → ℕ) → IsTree es base newest self.old.levels self.old.cells → IsTree es base newest self.new.levels self.new.cells }
        ensures split { OnOk result (IsSplitAt self.old.levels self.new.levels level middle.now) }
        ensures err { OnErr result (self.new.levels ≡ self.old.levels) }
    {
        let _height = self.levels.height();
        if !self.may_begin(level, middle) {
            return Err(AllocError);
        }
        let copy = middle.copy(alloc)?;
        self.split_node(level, copy, number, 0)
    }

    // Takes the split of a level back.
    fn join_one(&mut self, level: usize, middle: &SortKey)
        ensures cells { self.new.cells ≡ self.old.cells }
        ensures back { (before : Rows NodeRow) → IsSplitAt before self.old.levels level middle.now → self.new.levels ≡ before }
    {
        if self.may_go(level, middle) {
            self.join_node(level, middle);
        }
    }

    // Takes the first splits back, the one of the BINs last.
    fn join_all(&mut self, splits: &[NodeSplit], count: usize)
        requires { count ≤ length splits.now }
        ensures cells { self.new.cells ≡ self.old.cells }
        ensures back { (before : Rows NodeRow) → AreSplit 0 (take count splits.now) before self.old.levels → self.new.levels ≡ before }
    {
        for i in 0..count {
            let level = count - 1 - i;
            self.join_one(level, &splits[level].middle);
        }
    }

    // Splits nodes, one of each level from the BINs on. The new ones have the numbers from `first` on. Running out of memory
    // takes back what was split.
    fn split_each(
        &mut self,
        alloc: Global,
        splits: &[NodeSplit],
        first: u64,
    ) -> Result<(), AllocError>
        ensures lows { OnOk result (lows_of self.new.levels ≡ lows_split 0 splits.now (lows_of self.old.levels)) }
        ensures waits { OnOk result (waiting_of self.new.levels ≡ waiting_of self.old.levels) }
        ensures numbers { OnOk result (AreNumbered first splits.now self.new.levels) }
        ensures height { OnOk result (length self.new.levels ≡ length self.old.levels) }
        ensures cells { self.new.cells ≡ self.old.cells }
        ensures split { OnOk result (AreSplit 0 splits.now self.old.levels self.new.levels) }
        ensures err { OnErr result (self.new.levels ≡ self.old.levels) }
        ensures tree { OnOk result ((es : Placed) (base : ℕ) (newest : Name → ℕ) → IsTree es base newest self.old.levels self.old.cells → IsTree es base newest self.new.levels self.new.cells) }
    {
        for level in 0..splits.len() {
            let number = first.saturating_add(level as u64);
            match self.split_one(alloc, level, &splits[level].middle, number) {
                Ok(()) => {}
                Err(failed) => {
                    self.join_all(splits, level);
                    return Err(failed);
                }
            }
        }
        Ok(())
    }

    // Whether the node of the level with the low is noted.
    fn is_noted(&self, level: usize, low: &SortKey) -> bool
        requires { level < length self.now.levels }
        ensures { result ≡ is_noted_at self.now.levels level low.now }
    {
        match self.levels.at(level, low) {
            Some(node) => node.noted,
            None => false,
        }
    }

    // Puts a root above the top, which was split. It is noted where the old one is.
    fn raise_root(&mut self, alloc: Global, number: u64, mark: Lsn) -> Result<(), AllocError>
        ensures lows { OnOk result (lows_of self.new.levels ≡ with_root (lows_of self.old.levels)) }
        ensures waits { OnOk result (waiting_of self.new.levels ≡ waiting_raised true (waiting_of self.old.levels)) }
        ensures cells { self.new.cells ≡ self.old.cells }
        ensures raised { OnOk result (IsRaisedFrom true self.old.levels self.new.levels) }
        ensures number { OnOk result (number_of self.new.levels (length self.old.levels) least ≡ number) }
        ensures since { OnOk result (AreUnnotedSince mark self.old.levels → AreUnnotedSince mark self.new.levels) }
        ensures below { OnOk result ((k : ℕ) → k < length self.old.levels → row_of self.new.levels k ≡ row_of self.old.levels k) }
        ensures err { OnErr result (self.new.levels ≡ self.old.levels) }
        ensures tree { OnOk result ((es : Placed) (base : ℕ) (newest : Name → ℕ) → ((x : Name) → (mark ≤ newest x) ⊎ (mark < base)) → IsTree es base newest self.old.levels self.old.cells → IsTree es base newest self.new.levels self.new.cells) }
    {
        let least = least_name(alloc)?;
        let noted = self.is_noted(self.levels.height() - 1, &least);
        self.levels.raise(alloc, new_root(number, mark, noted))
    }

    /// Splits nodes, one of each level from the BINs on, and puts a root above the root where it is split too. The new
    /// nodes have the numbers from `first` on, in that order; a new root is marked from `mark` until it is logged. A new node is noted where the
    /// node is that it was part of, and a new root where the old one is. Running out of memory takes back what was split.
    pub fn grow(
        &mut self,
        alloc: Global,
        splits: &[NodeSplit],
        first: u64,
        mark: Lsn,
    ) -> Result<(), AllocError>
        ensures lows { OnOk result (lows_of self.new.levels ≡ lows_behind splits.now (lows_of self.old.levels)) }
        ensures waits { OnOk result (waiting_of self.new.levels ≡ waiting_raised (is_raised splits.now (lows_of self.old.levels)) (waiting_of self.old.levels)) }
        ensures cells { self.new.cells ≡ self.old.cells }
        ensures numbers { OnOk result (AreNewNumbered first splits.now (is_raised splits.now (lows_of self.old.levels)) self.new.levels) }
        ensures grown { OnOk result (AreGrown splits.now (is_raised splits.now (lows_of self.old.levels)) self.old.levels self.new.levels) }
        ensures since { OnOk result (AreUnnotedSince mark self.old.levels → AreUnnotedSince mark self.new.levels) }
        ensures err { OnErr result (self.new.levels ≡ self.old.levels) }
        ensures tree { OnOk result ((es : Placed) (base : ℕ) (newest : Name → ℕ) → ((x : Name) → (mark ≤ newest x) ⊎ (mark < base)) → IsTree es base newest self.old.levels self.old.cells → IsTree es base newest self.new.levels self.new.cells) }
    {
        let is_raised = splits.len() == self.levels.height();
        self.split_each(alloc, splits, first)?;
        note_halves(&mut self.cells, alloc, splits);
        if !is_raised {
            return Ok(());
        }
        let number = first.saturating_add(splits.len() as u64);
        match self.raise_root(alloc, number, mark) {
            Ok(()) => Ok(()),
            Err(failed) => {
                self.join_all(splits, splits.len());
                Err(failed)
            }
        }
    }

    // Takes the root away that was put above the top.
    fn lower_root(&mut self)
        ensures cells { self.new.cells ≡ self.old.cells }
        ensures back { (before : Rows NodeRow) → IsRaisedFrom true before self.old.levels → self.new.levels ≡ before }
    {
        if self.levels.height() > 1 {
            self.levels.lower();
        }
    }

    /// Takes back what `grow` did: a root that was put above the top goes, and each node that was split has the names again that
    /// it had. It takes no memory.
    pub fn shrink(&mut self, splits: &[NodeSplit], is_raised: bool)
        ensures cells { self.new.cells ≡ self.old.cells }
        ensures back { (before : Rows NodeRow) → AreGrown splits.now is_raised before self.old.levels → self.new.levels ≡ before }
    {
        if !is_raised {
            self.join_all(splits, splits.len());
            return;
        }
        self.lower_root();
        self.join_all(splits, splits.len());
    }
}
