// Nodes are split, and INs get their images.
ghost use Rattle.std.specs.Prelude.{◌≡◌, ◌≤◌, ◌<◌, ◌++◌, ◌∷◌, ℕ, suc, [], length, Option, None, Some, IsSome, IfOk, OnOk, OnErr};
ghost use Rattle.je_order.specs.declared.name.Name.{Name};
ghost use Rattle.record_map.specs.Cells.{value_at};
ghost use Rattle.std.specs.Prelude.{List as Rows};
ghost use Rattle.tree_nodes.specs.Nodes.{NodeRow, least};
ghost use Rattle.tree_nodes.specs.Levels.{row_of, AreParts, HasPutAt};
ghost use Rattle.tree_nodes.specs.Lows.{lows_of, with_low};
ghost use Rattle.tree_nodes.specs.declared.node.Node.{Node as Kept};
ghost use Rattle.db_tree.specs.Images.{Placed};
ghost use Rattle.db_tree.specs.NodeImages.{number_of};
ghost use Rattle.db_tree.specs.Content.{child_slot_for, lsn_of, in_image};
ghost use Rattle.std.specs.List.{slice_get};
ghost use Rattle.db_tree.specs.Splitting.{children_in, split_off, name_of, cells_within, middle_of, AreSameByName, IsSplitOff};
ghost use Rattle.db_tree.specs.Trees.{IsTree};
ghost use Rattle.db_tree.specs.Waiting.{waiting_of};

use crate::DbTree;
use je_order::List;
use log_entry::{ChildSlot, Entry};
use node_core::{Slot, Version};
use record_map::{Cell, SortKey};
use std::alloc::{AllocError, Global};
use std::collections::btree_map::Range;
use tree_nodes::Node;

// The node that is split off: its image is that of the node that it was part of, until it is logged.
fn split_off(node: &Node, number: u64, slots: u32) -> Node
    ensures { result ≡ split_off number slots node.now }
{
    Node {
        number,
        last: node.last,
        from: node.from,
        slots,
        forced: false,
        noted: node.noted,
    }
}

// Puts the slot of a child in its IN's image behind the others.
fn push_child(slots: &mut Vec<ChildSlot>, slot: Slot) -> Result<(), AllocError>
    ensures { OnOk result (slots.new.items ≡ slots.old.items ++ child_slot_for slot.name (lsn_of slot.version)) }
{
    let Slot { name, version } = slot;
    match version {
        Version::There(child) => slots.push(ChildSlot { name, child })?,
        Version::Deleted | Version::Unset => drop(name),
    }
    Ok(())
}

// The name of the cell with so many before it.
pub(crate) fn nth_name(
    alloc: Global,
    cells: Range<'_, SortKey, Cell>,
    n: usize,
) -> Result<Option<SortKey>, AllocError>
    ensures { IfOk result (λ name. name ≡ name_of (slice_get cells.entry n)) }
{
    let mut left = n;
    for (name, _cell) in cells {
        if left == 0 {
            return Ok(Some(name.copy(alloc)?));
        }
        left -= 1;
    }
    Ok(None)
}

impl DbTree {
    /// Where the BIN with the low is split: the name of the first slot of its second half, where the first one, rounded up,
    /// stays. None where it has fewer than two slots.
    pub fn middle(&self, alloc: Global, low: &SortKey) -> Result<Option<SortKey>, AllocError>
        ensures { IfOk result (λ name. name ≡ middle_of (cells_within low.now (row_of self.now.levels 0) self.now.cells)) }
    {
        let _height = self.levels.height();
        let high = self.levels.upper_bound(0, low);
        let count = self.cells.count_between(low, high);
        nth_name(alloc, self.cells.between(low, high), count - count / 2)
    }

    /// Splits the node of the level over `middle`: from there on its names are those of a new node with the
    /// number, of so many slots. The level below has that low. Running out of memory changes nothing.
    pub fn split_node(
        &mut self,
        level: usize,
        middle: SortKey,
        number: u64,
        slots: u32,
    ) -> Result<(), AllocError>
        requires there { level < length self.old.levels }
        requires free { value_at middle (row_of self.old.levels level) ≡ None }
        requires nested { (k : ℕ) → level ≡ suc k → IsSome (value_at middle (row_of self.old.levels k)) }
        ensures put { OnOk result (IsSplitOff self.old.levels self.new.levels level middle) }
        ensures lows { OnOk result (lows_of self.new.levels ≡ with_low level middle (lows_of self.old.levels)) }
        ensures waits { OnOk result (waiting_of self.new.levels ≡ waiting_of self.old.levels) }
        ensures number { OnOk result (number_of self.new.levels level middle ≡ number) }
        ensures tree { (es : Placed) (base : ℕ) (newest : Name → ℕ) → IsTree es base newest self.old.levels self.old.cells → IsTree es base newest self.new.levels self.new.cells }
        ensures cells { self.new.cells ≡ self.old.cells }
        ensures err { OnErr result (self.new.levels ≡ self.old.levels) }
    {
        let (_low, node) = self.levels.over(level, &middle);
        let right = split_off(node, number, slots);
        self.levels.split(level, middle, right)?;
        Ok(())
    }

    /// Takes back a split, the last one of the level: the node under `middle` goes, and each low has the node that it had before. It
    /// takes no memory.
    pub fn join_node(&mut self, level: usize, middle: &SortKey)
        requires there { level < length self.old.levels }
        requires above { value_at middle.now (row_of self.old.levels (suc level)) ≡ None }
        requires low { middle.now ≡ least → ⊥ }
        ensures back { (before : Rows NodeRow) (node : Kept) → value_at middle.now (row_of before level) ≡ None → HasPutAt before self.old.levels level middle.now node → AreSameByName before self.new.levels }
        ensures parts { AreParts self.new.levels }
        ensures height { length self.new.levels ≡ length self.old.levels }
        ensures cells { self.new.cells ≡ self.old.cells }
    {
        self.levels.join(level, middle);
    }
}
