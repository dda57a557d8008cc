// Which nodes are to be split where a name gets a slot.
ghost use Rattle.std.specs.Prelude.{◌≡◌, ◌<◌, [], length, filter, Option, None, Some, IfOk, IfSome, option_copied, option_map};
ghost use Rattle.std.specs.declared.cmp.Ordering.TheVariants.{Less};
ghost use Rattle.std.specs.List.{slice_get};
ghost use Rattle.std.specs.Map.{keys_of};
ghost use Rattle.je_order.specs.Order.{name_cmp};
ghost use Rattle.je_order.specs.Edges.{is_between};
ghost use Rattle.je_order.specs.Edges.Edge.{At};
ghost use Rattle.record_map.specs.Cells.{count_if, upper_edge};
ghost use Rattle.tree_nodes.specs.Lows.{lows_of, lows_at};
ghost use Rattle.db_tree.specs.Splits.{slot_names, middle_name, split_over, splits_from};

use crate::splitting::nth_name;
use crate::{DbTree, NodeSplit};
use record_map::SortKey;
use std::alloc::{AllocError, Global};

// A copy of a bound, if there is one.
fn copy_bound(alloc: Global, bound: Option<&SortKey>) -> Result<Option<SortKey>, AllocError>
    ensures { IfOk result (λ copy. copy ≡ option_copied bound.entry) }
{
    match bound {
        Some(name) => Ok(Some(name.copy(alloc)?)),
        None => Ok(None),
    }
}

// The count, where it is not below the least one that is wanted.
fn at_least(least: usize, count: usize) -> Option<usize>
    ensures { result ≡ count_if least count }
{
    if count < least {
        return None;
    }
    Some(count)
}

impl DbTree {
    // How many slots the nodes of a level have from a name on and below another one, where there are as many as the fanout.
    fn count_slots(
        &self,
        fanout: u32,
        level: usize,
        low: &SortKey,
        high: Option<&SortKey>,
    ) -> Option<usize>
        requires there { level < length self.now.levels }
        requires forward { IfSome high (λ h. name_cmp low.now h.now ≡ Less) }
        ensures { result ≡ count_if fanout (length (filter (is_between (At low.now) (upper_edge (option_copied high.entry))) (slot_names self.now.cells (lows_of self.now.levels) level))) }
    {
        if level == 0 {
            return self.cells.count_if(low, high, fanout as usize);
        }
        at_least(
            fanout as usize,
            self.levels.count_between(level - 1, low, high),
        )
    }

    // The name of the slot with so many before it.
    fn nth_slot(
        &self,
        alloc: Global,
        level: usize,
        low: &SortKey,
        high: Option<&SortKey>,
        n: usize,
    ) -> Result<Option<SortKey>, AllocError>
        requires there { level < length self.now.levels }
        requires forward { IfSome high (λ h. name_cmp low.now h.now ≡ Less) }
        ensures { IfOk result (λ found. found ≡ slice_get (filter (is_between (At low.now) (upper_edge (option_copied high.entry))) (slot_names self.now.cells (lows_of self.now.levels) level)) n) }
    {
        if level == 0 {
            return nth_name(alloc, self.cells.between(low, high), n);
        }
        self.levels.nth_low(alloc, level - 1, low, high, n)
    }

    // The name that the second half of the slots begins with, where there are as many as the fanout.
    fn middle_within(
        &self,
        alloc: Global,
        fanout: u32,
        level: usize,
        low: &SortKey,
        high: Option<&SortKey>,
    ) -> Result<Option<SortKey>, AllocError>
        requires there { level < length self.now.levels }
        requires forward { IfSome high (λ h. name_cmp low.now h.now ≡ Less) }
        ensures { IfOk result (λ found. found ≡ middle_name fanout (filter (is_between (At low.now) (upper_edge (option_copied high.entry))) (slot_names self.now.cells (lows_of self.now.levels) level))) }
    {
        let Some(count) = self.count_slots(fanout, level, low, high) else {
            return Ok(None);
        };
        Ok(self.nth_slot(alloc, level, low, high, count - count / 2)?)
    }

    // How the node of a level over the name is split, if it is.
    fn split_over(
        &self,
        alloc: Global,
        fanout: u32,
        level: usize,
        name: &SortKey,
    ) -> Result<Option<NodeSplit>, AllocError>
        requires { level < length self.now.levels }
        ensures { IfOk result (λ split. split ≡ split_over fanout name.now (slot_names self.now.cells (lows_of self.now.levels) level) (lows_at (lows_of self.now.levels) level)) }
    {
        let (low, _node) = self.levels.over(level, name);
        let high = self.levels.upper_bound(level, low);
        let Some(middle) = self.middle_within(alloc, fanout, level, low, high)? else {
            return Ok(None);
        };
        Ok(Some(NodeSplit {
            low: low.copy(alloc)?,
            middle,
            high: copy_bound(alloc, high)?,
        }))
    }

    /// The nodes that are to be split where the name gets a slot, the BIN first. A node is split that has `fanout`
    /// slots or more, and an IN only where its child is split.
    pub fn splits_for(
        &self,
        alloc: Global,
        fanout: u32,
        name: &SortKey,
    ) -> Result<Vec<NodeSplit>, AllocError>
        ensures { IfOk result (λ splits. splits.items ≡ splits_from fanout name.now (keys_of self.now.cells) (lows_of self.now.levels)) }
    {
        let mut splits = Vec::new(alloc);
        for level in 0..self.levels.height() {
            match self.split_over(alloc, fanout, level, name)? {
                Some(split) => splits.push(split)?,
                None => return Ok(splits),
            }
        }
        Ok(splits)
    }
}
