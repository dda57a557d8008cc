// Which nodes are logged where nodes are split.
ghost use Rattle.std.specs.Prelude.{◌≡◌, ◌<◌, ◌++◌, ◌∷◌, ◌&&◌, not, [], true, length, filter, IfOk, IfSome, OnOk, option_copied};
ghost use Rattle.std.specs.declared.cmp.Ordering.TheVariants.{Less};
ghost use Rattle.je_order.specs.Order.{name_cmp};
ghost use Rattle.record_map.specs.Cells.{last_of};
ghost use Rattle.tree_nodes.specs.Levels.{row_of};
ghost use Rattle.db_tree.specs.Waiting.{is_same_name, is_logged_before, waits_at, waiting_in, waiting_of, waiting_before, at_level, halves_of, logged_for};

use crate::growing::least_name;
use crate::imaging::lows_in;
use crate::{DbTree, NodeAt, NodeSplit};
use record_map::SortKey;
use std::alloc::{AllocError, Global};

// The low behind a node that is split.
fn upper_of<'a>(split: &'a NodeSplit) -> Option<&'a SortKey>
    ensures { option_copied result ≡ split.entry.now.high }
{
    match &split.high {
        Some(high) => Some(high),
        None => None,
    }
}

// Whether a node that is split has names.
fn has_names(split: &NodeSplit) -> bool
    ensures { result ≡ true → IfSome split.now.high (λ h. name_cmp split.now.low h ≡ Less) }
{
    match &split.high {
        Some(high) => split.low < *high,
        None => true,
    }
}

// Puts the halves of a node of a level behind the others.
fn push_halves(
    nodes: &mut Vec<NodeAt>,
    alloc: Global,
    level: usize,
    split: &NodeSplit,
) -> Result<(), AllocError>
    ensures { OnOk result (nodes.new.items ≡ nodes.old.items ++ halves_of level (split.now ∷ [])) }
{
    nodes.push(NodeAt {
        level,
        low: split.low.copy(alloc)?,
    })?;
    nodes.push(NodeAt {
        level,
        low: split.middle.copy(alloc)?,
    })?;
    Ok(())
}

// Puts the halves of nodes behind the others, of each level from the BINs on.
fn push_all_halves(
    nodes: &mut Vec<NodeAt>,
    alloc: Global,
    splits: &[NodeSplit],
) -> Result<(), AllocError>
    ensures { OnOk result (nodes.new.items ≡ nodes.old.items ++ halves_of 0 splits.now) }
{
    for level in 0..splits.len() {
        push_halves(nodes, alloc, level, &splits[level])?;
    }
    Ok(())
}

impl DbTree {
    // Whether the node of a level with the low waits to be logged.
    pub(crate) fn waits(&self, level: usize, low: &SortKey) -> bool
        requires { level < length self.now.levels }
        ensures { result ≡ waits_at self.now.levels level low.now }
    {
        match self.levels.at(level, low) {
            Some(node) => node.forced,
            None => false,
        }
    }

    // Puts the node of a level with the low behind the others, if it waits and is not the one that is split.
    fn push_if_waits(
        &self,
        nodes: &mut Vec<NodeAt>,
        level: usize,
        low: SortKey,
        split: &NodeSplit,
    ) -> Result<(), AllocError>
        requires { level < length self.now.levels }
        ensures { OnOk result (nodes.new.items ≡ nodes.old.items ++ at_level level (filter (λ y. waits_at self.now.levels level y && not (is_same_name y split.now.low)) (low ∷ []))) }
    {
        if !self.waits(level, &low) || low == split.low {
            drop(low);
            return Ok(());
        }
        nodes.push(NodeAt { level, low })?;
        Ok(())
    }

    // Puts the nodes of a level with these lows behind the others that wait, but for the one that is split.
    fn push_each(
        &self,
        nodes: &mut Vec<NodeAt>,
        level: usize,
        lows: Vec<SortKey>,
        split: &NodeSplit,
    ) -> Result<(), AllocError>
        requires { level < length self.now.levels }
        ensures { OnOk result (nodes.new.items ≡ nodes.old.items ++ at_level level (filter (λ y. waits_at self.now.levels level y && not (is_same_name y split.now.low)) lows.items)) }
    {
        for low in lows {
            self.push_if_waits(nodes, level, low, split)?;
        }
        Ok(())
    }

    // Puts the nodes of a level behind the others that wait below the topmost one that is split, but for the one of the level
    // that is split.
    fn push_waiting(
        &self,
        nodes: &mut Vec<NodeAt>,
        alloc: Global,
        level: usize,
        top: &NodeSplit,
        split: &NodeSplit,
    ) -> Result<(), AllocError>
        ensures { OnOk result (nodes.new.items ≡ nodes.old.items ++ at_level level (filter (is_logged_before top.now split.now) (waiting_in (row_of self.now.levels level)))) }
    {
        if level >= self.levels.height() || !has_names(top) {
            return Err(AllocError);
        }
        let slots = self.levels.slots(alloc, level, &top.low, upper_of(top))?;
        self.push_each(nodes, level, lows_in(alloc, slots)?, split)
    }

    // The nodes that wait below the topmost one that is split, level by level from the BINs on.
    fn waiting_before(&self, alloc: Global, splits: &[NodeSplit]) -> Result<Vec<NodeAt>, AllocError>
        ensures { IfOk result (λ nodes. nodes.items ≡ waiting_before (last_of splits.now) splits.now (waiting_of self.now.levels)) }
    {
        let mut nodes = Vec::new(alloc);
        if splits.len() == 0 {
            return Ok(nodes);
        }
        let top = &splits[splits.len() - 1];
        for level in 0..splits.len() {
            self.push_waiting(&mut nodes, alloc, level, top, &splits[level])?;
        }
        Ok(nodes)
    }

    // The nodes that are logged where nodes are split, one of each level from the BINs on: those that have to be logged before, the
    // halves, and a new root.
    pub(crate) fn nodes_for(
        &self,
        alloc: Global,
        splits: &[NodeSplit],
        is_raised: bool,
    ) -> Result<Vec<NodeAt>, AllocError>
        ensures { IfOk result (λ nodes. nodes.items ≡ logged_for splits.now is_raised (waiting_of self.now.levels)) }
    {
        let mut nodes = self.waiting_before(alloc, splits)?;
        push_all_halves(&mut nodes, alloc, splits)?;
        if !is_raised {
            return Ok(nodes);
        }
        nodes.push(NodeAt {
            level: splits.len(),
            low: least_name(alloc)?,
        })?;
        Ok(nodes)
    }
}
