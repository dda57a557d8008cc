// Nodes that are split without being logged wait to be logged.
ghost use Rattle.std.specs.Prelude.{◌≡◌, ◌<◌, ◌≤◌, ◌⊎◌, ◌+◌, ◌*◌, ◌∷◌, [], ℕ, Option, None, Some, IsSome, IfOk, IfErr, OnOk, OnErr, length, true};
ghost use Rattle.je_order.specs.declared.name.Name.{Name};
ghost use Rattle.record_map.specs.Cells.{value_at, IsRising};
ghost use Rattle.record_tree.specs.declared.tree_err.TreeErr.{TreeErr as Reason};
ghost use Rattle.tree_nodes.specs.Nodes.{earlier};
ghost use Rattle.db_tree.specs.Seen.{occupied};
ghost use Rattle.db_tree.specs.Images.{Placed};
ghost use Rattle.db_tree.specs.Trees.{IsTree, HasCell, cell_or_fresh};
ghost use Rattle.db_tree.specs.Notes.{AreUnnotedSince};
ghost use Rattle.db_tree.specs.NodeSteps.{AreWaiting, AreSplitWaiting, slot_splits};
ghost use Rattle.db_tree.specs.Waiting.{waiting_of, count_lows, halves_of};
ghost use Rattle.tree_nodes.specs.Lows.{lows_of};
ghost use Rattle.db_tree.specs.Shapes.{shape_in, count_in};
ghost use Rattle.db_tree.specs.Splits.{made_for, nodes_made, passes_top};

use crate::growing::least_name;
use crate::imaging::LAST_LEVEL;
use crate::{DbTree, NodeSplit, SlotMade};
use je_lsn::Lsn;
use record_map::SortKey;
use record_tree::TreeErr;
use std::alloc::{AllocError, Global};
use tree_nodes::Node;

// The node, waiting to be logged, where the log has a committed change at `mark` that its last image lacks.
fn waiting(node: &Node, mark: Lsn) -> Node
    ensures last { result.last ≡ node.now.last }
    ensures from { result.from ≡ Some (earlier node.now.from mark) }
    ensures number { result.number ≡ node.now.number }
    ensures forced { result.forced ≡ true }
    ensures noted { result.noted ≡ node.now.noted }
{
    let mut waits = node.marked(mark);
    waits.forced = true;
    waits
}

impl DbTree {
    // Lets the node of a level with the low wait to be logged, where there is one.
    fn wait(&mut self, level: usize, low: &SortKey, mark: Lsn)
        ensures few { count_lows (waiting_of self.new.levels) ≤ count_lows (waiting_of self.old.levels) + 1 }
        ensures waiting { AreWaiting (record { level = level; low = low.now } ∷ []) self.old.levels self.new.levels }
        ensures since { AreUnnotedSince mark self.old.levels → AreUnnotedSince mark self.new.levels }
        ensures cells { self.new.cells ≡ self.old.cells }
        ensures tree { (es : Placed) (base : ℕ) (newest : Name → ℕ) → IsTree es base newest self.old.levels self.old.cells → IsTree es base newest self.new.levels self.new.cells }
    {
        if level >= self.levels.height() {
            return;
        }
        let node = match self.levels.at(level, low) {
            Some(node) => node.copy(),
            None => return,
        };
        self.levels.set(level, low, waiting(&node, mark));
    }

    // Lets both halves of nodes wait, one of each level from the BINs on, and the node above them, where there is one with the least
    // low.
    fn wait_each(&mut self, splits: &[NodeSplit], mark: Lsn)
        ensures few { count_lows (waiting_of self.new.levels) ≤ count_lows (waiting_of self.old.levels) + 2 * length splits.now }
        ensures waiting { AreWaiting (halves_of 0 splits.now) self.old.levels self.new.levels }
        ensures since { AreUnnotedSince mark self.old.levels → AreUnnotedSince mark self.new.levels }
        ensures cells { self.new.cells ≡ self.old.cells }
        ensures tree { (es : Placed) (base : ℕ) (newest : Name → ℕ) → IsTree es base newest self.old.levels self.old.cells → IsTree es base newest self.new.levels self.new.cells }
    {
        for level in 0..splits.len() {
            self.wait(level, &splits[level].low, mark);
            self.wait(level, &splits[level].middle, mark);
        }
    }

    // Makes a slot for a name that has no cell, which splits these nodes; they wait to be logged. An error takes back what was split.
    fn place_waiting(
        &mut self,
        alloc: Global,
        name: &SortKey,
        splits: &[NodeSplit],
        first: u64,
        mark: Lsn,
    ) -> Result<(), AllocError>
        requires { value_at name.now self.old.cells ≡ None }
        ensures few { OnOk result (count_in self.new ≤ count_in self.old + 2 * made_for splits.now (lows_of self.old.levels)) }
        ensures split { OnOk result (AreSplitWaiting first splits.now self.old.levels self.new.levels) }
        ensures since { OnOk result (AreUnnotedSince mark self.old.levels → AreUnnotedSince mark self.new.levels) }
        ensures cell { OnOk result (HasCell self.old.cells self.new.cells name.now (cell_or_fresh (value_at name.now self.old.cells))) }
        ensures there { OnOk result (IsSome (value_at name.now self.new.cells)) }
        ensures same { occupied self.new.cells ≡ occupied self.old.cells }
        ensures kept { (x : Name) → IsSome (value_at x self.old.cells) → IsSome (value_at x self.new.cells) }
        ensures tree { OnOk result ((es : Placed) (base : ℕ) (newest : Name → ℕ) → ((x : Name) → (mark ≤ newest x) ⊎ (mark < base)) → IsTree es base newest self.old.levels self.old.cells → IsTree es base newest self.new.levels self.new.cells) }
        ensures err { OnErr result (self.new.levels ≡ self.old.levels) }
        ensures err_cells { OnErr result (self.new.cells ≡ self.old.cells) }
    {
        let is_raised = splits.len() == self.levels.height();
        let root = least_name(alloc)?;
        self.grow(alloc, splits, first, mark)?;
        let _grown = self.levels.height();
        match self.put_new(alloc, name) {
            Ok(()) => {}
            Err(failed) => {
                self.shrink(splits, is_raised);
                return Err(failed);
            }
        }
        self.wait_each(splits, mark);
        if !is_raised {
            return Ok(());
        }
        self.wait(splits.len(), &root, mark);
        Ok(())
    }

    /// Makes a slot for the name where it has none, as `place` does, but nothing is to be logged: the nodes that are split for it, and
    /// those that this makes, wait to be logged, and are marked from `mark`. The new ones have the numbers from `first` on. IdsEnded where a root would
    /// pass the last level; an error takes back what was split.
    pub fn place_unlogged(
        &mut self,
        alloc: Global,
        fanout: u32,
        name: &SortKey,
        first: u64,
        mark: Lsn,
    ) -> Result<SlotMade, TreeErr>
        ensures new { IfOk result (λ slot. slot.is_new ≡ true → value_at name.now self.old.cells ≡ None) }
        ensures waits { IfOk result (λ slot. count_in self.new ≤ count_in self.old + 2 * slot.nodes) }
        ensures split { OnOk result (AreSplitWaiting first (slot_splits fanout name.now (shape_in self.old)) self.old.levels self.new.levels) }
        ensures since { OnOk result (AreUnnotedSince mark self.old.levels → AreUnnotedSince mark self.new.levels) }
        ensures few { IfOk result (λ slot. slot.nodes ≤ 64) }
        ensures cell { OnOk result (HasCell self.old.cells self.new.cells name.now (cell_or_fresh (value_at name.now self.old.cells))) }
        ensures was_rising { IsRising self.old.cells }
        ensures rising { IsRising self.new.cells }
        ensures there { OnOk result (IsSome (value_at name.now self.new.cells)) }
        ensures same { occupied self.new.cells ≡ occupied self.old.cells }
        ensures kept { (x : Name) → IsSome (value_at x self.old.cells) → IsSome (value_at x self.new.cells) }
        ensures made { IfOk result (λ slot. slot.nodes ≡ nodes_made fanout name.now (shape_in self.old)) }
        ensures tree { OnOk result ((es : Placed) (base : ℕ) (newest : Name → ℕ) → ((x : Name) → (mark ≤ newest x) ⊎ (mark < base)) → IsTree es base newest self.old.levels self.old.cells → IsTree es base newest self.new.levels self.new.cells) }
        ensures high { IfErr result (λ e. e ≡ Reason.IdsEnded → passes_top fanout name.now (shape_in self.old) ≡ true) }
        ensures errors { IfErr result (λ e. (e ≡ Reason.IdsEnded) ⊎ (e ≡ Reason.Memory)) }
        ensures err { OnErr result (self.new.levels ≡ self.old.levels) }
        ensures err_cells { OnErr result (self.new.cells ≡ self.old.cells) }
        ensures idle { IsSome (value_at name.now self.old.cells) → OnOk result (self.new ≡ self.old) }
    {
        let _before = self.cells.len();
        let _height = self.levels.height();
        if self.has_cell(name) {
            return Ok(SlotMade::none());
        }
        let Ok(splits) = self.splits_for(alloc, fanout, name) else {
            return Err(TreeErr::Memory);
        };
        let nodes = splits.len() + (splits.len() == self.levels.height()) as usize;
        if nodes > LAST_LEVEL {
            return Err(TreeErr::IdsEnded);
        }
        match self.place_waiting(alloc, name, splits.as_slice(), first, mark) {
            Ok(()) => {}
            Err(_) => return Err(TreeErr::Memory),
        }
        let _after = self.cells.len();
        Ok(SlotMade {
            nodes,
            is_new: true,
        })
    }
}
