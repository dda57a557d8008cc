// All levels of a tree.
ghost use Rattle.std.specs.Prelude.{◌≡◌, ◌<◌, ◌≤◌, ◌+◌, ◌-◌, ℕ, true, suc, zero, [], ◌∷◌, length, take, Option, None, Some, IsSome, IfSome, IfOk, OnOk, OnErr, option_copied, option_map, map};
ghost use Rattle.std.specs.declared.cmp.Ordering.TheVariants.{Less};
ghost use Rattle.je_order.specs.Order.{name_cmp};
ghost use Rattle.je_order.specs.Edges.Edge.{At};
ghost use Rattle.record_map.specs.Cells.{value_at, between_edges, upper_edge};
ghost use Rattle.tree_nodes.specs.Nodes.{least, IsOver, low_behind, HasPut};
ghost use Rattle.std.specs.Prelude.{filter};
ghost use Rattle.std.specs.List.{slice_get};
ghost use Rattle.std.specs.Map.{keys_of};
ghost use Rattle.je_order.specs.Edges.{is_between};
ghost use Rattle.tree_nodes.specs.Lows.{lows_of, low_up_to, with_low, with_root};
ghost use Rattle.tree_nodes.specs.Marks.{AllFrom, AllSince, IsMarkOr};
ghost use Rattle.tree_nodes.specs.Noted.{AreNoted, HasNotedLevel, NextIn, count_all_due};
ghost use Rattle.tree_nodes.specs.Levels.{row_of, AreParts, HasPutAt, HasTakenAt, HasMarkedAt, HasUnmarkedAt, HasRaised, slot_of};

use crate::{Level, Node};
use je_lsn::Lsn;
use je_order::List;
use node_core::Slot;
use record_map::SortKey;
use std::alloc::{AllocError, Global};
use std::marker::Model;

/// The levels of a tree, the BINs first, seen as the list of its levels. A level is given by its place in
/// that list.
#[derive(Drop)]
pub struct Levels {
    levels: Vec<Level>,
}

impl Model for Levels {
    ghost use Rattle.std.specs.Prelude.{List as Items};
    ghost use Rattle.tree_nodes.specs.Nodes.{NodeRow};
    ghost use Rattle.tree_nodes.specs.Levels.{AreParts};

    ghost Value = { Items NodeRow };

    ghost view = { λ a. a.levels.items };

    ghost invariant = { λ a. AreParts a.levels.items };
}

// Puts the node in place of the one with the low.
fn set_in(levels: &mut [Level], level: usize, low: &SortKey, node: Node)
    requires parts { AreParts levels.old }
    requires there { IsSome (value_at low.now (row_of levels.old level)) }
    ensures put { HasPutAt levels.old levels.new level low.now node }
    ensures parts { AreParts levels.new }
{
    let row = &mut levels[level];
    row.set(low, node);
}

// Marks the node over the name.
fn mark_in(levels: &mut [Level], level: usize, name: &SortKey, from: Lsn)
    requires parts { AreParts levels.old }
    requires there { level < length levels.old }
    ensures marked { HasMarkedAt levels.old levels.new level name.now from }
    ensures parts { AreParts levels.new }
{
    let row = &mut levels[level];
    row.mark(name, from);
}

// Takes the mark of the node over the name.
fn unmark_in(levels: &mut [Level], level: usize, name: &SortKey)
    requires parts { AreParts levels.old }
    requires there { level < length levels.old }
    ensures unmarked { HasUnmarkedAt levels.old levels.new level name.now }
    ensures parts { AreParts levels.new }
{
    let row = &mut levels[level];
    row.unmark(name);
}

// Puts the node under a low that no node of the level has.
fn split_in(
    levels: &mut [Level],
    level: usize,
    middle: SortKey,
    node: Node,
) -> Result<(), AllocError>
    requires parts { AreParts levels.old }
    requires there { level < length levels.old }
    requires free { value_at middle (row_of levels.old level) ≡ None }
    requires nested { (k : ℕ) → level ≡ suc k → IsSome (value_at middle (row_of levels.old k)) }
    ensures ok { OnOk result (HasPutAt levels.old levels.new level middle node) }
    ensures low { OnOk result (lows_of levels.new ≡ with_low level middle (lows_of levels.old)) }
    ensures err { OnErr result (levels.new ≡ levels.old) }
    ensures parts { AreParts levels.new }
{
    let row = &mut levels[level];
    row.put(middle, node)?;
    Ok(())
}

// Takes the node of the low out, where no node above has that low.
fn remove_in(levels: &mut [Level], level: usize, low: &SortKey)
    requires parts { AreParts levels.old }
    requires there { level < length levels.old }
    requires above { value_at low.now (row_of levels.old (suc level)) ≡ None }
    requires low { low.now ≡ least → ⊥ }
    ensures taken { HasTakenAt levels.old levels.new level low.now }
    ensures parts { AreParts levels.new }
{
    let row = &mut levels[level];
    row.remove(low);
}

// Notes the nodes of a level that are dirty, or of which a child is noted.
fn note_level(levels: &mut [Level], level: usize)
    requires parts { AreParts levels.old }
    requires there { level < length levels.old }
    ensures noted { HasNotedLevel levels.old levels.new level }
    ensures parts { AreParts levels.new }
{
    let (below, rest) = levels.split_at_mut(level);
    let row = &mut rest[0];
    row.note_dirty();
    if level > 0 {
        row.note_above(&below[level - 1]);
    }
}

// Notes the nodes that are dirty and those above them.
fn note_all(levels: &mut [Level])
    requires parts { AreParts levels.old }
    ensures noted { AreNoted levels.old levels.new }
    ensures parts { AreParts levels.new }
{
    for level in 0..levels.len() {
        note_level(levels, level);
    }
}

impl Levels {
    /// One level of one node, the root.
    pub fn new(alloc: Global, root: Node) -> Result<Levels, AllocError>
        ensures height { IfOk result (λ levels. length levels ≡ 1) }
        ensures root { IfOk result (λ levels. HasPut [] (row_of levels 0) least root) }
        ensures low { IfOk result (λ levels. lows_of levels ≡ (least ∷ []) ∷ []) }
    {
        let mut levels = Vec::new(alloc);
        levels.push(Level::with_root(alloc, root)?)?;
        Ok(Levels { levels })
    }

    /// How many levels there are.
    pub fn height(&self) -> usize
        ensures value { result ≡ length self.now }
        ensures parts { AreParts self.now }
    {
        self.levels.as_slice().len()
    }

    /// The node of a level with the low, and None where no node has it.
    pub fn at(&self, level: usize, low: &SortKey) -> Option<&Node>
        requires { level < length self.now }
        ensures { option_copied result ≡ value_at low.now (row_of self.now level) }
    {
        let Levels { levels } = self;
        let row: &Level = &levels[level];
        row.at(low)
    }

    /// The node of a level over the name, with its low.
    pub fn over(&self, level: usize, name: &SortKey) -> (&SortKey, &Node)
        requires { level < length self.now }
        ensures over { IsOver (row_of self.now level) name.now (result.0.now, result.1.now) }
        ensures low { result.0.now ≡ low_up_to name.now (keys_of (row_of self.now level)) }
        ensures parts { AreParts self.now }
    {
        let Levels { levels } = self;
        let row: &Level = &levels[level];
        row.over(name)
    }

    /// The low of the node of a level behind the one with this low; None where that is the last.
    pub fn upper_bound(&self, level: usize, low: &SortKey) -> Option<&SortKey>
        requires { level < length self.now }
        ensures { option_copied result ≡ low_behind low.now (row_of self.now level) }
    {
        let Levels { levels } = self;
        let row: &Level = &levels[level];
        row.upper_bound(low)
    }

    /// How many nodes of a level there are from a low on and below another one. It goes over these.
    pub fn count_between(&self, level: usize, low: &SortKey, high: Option<&SortKey>) -> usize
        requires there { level < length self.now }
        requires forward { IfSome high (λ h. name_cmp low.now h.now ≡ Less) }
        ensures { result ≡ length (filter (is_between (At low.now) (upper_edge (option_copied high.entry))) (keys_of (row_of self.now level))) }
    {
        let Levels { levels } = self;
        let row: &Level = &levels[level];
        row.count_between(low, high)
    }

    /// The low of the node of a level with so many before it, of those from a low on and below another one. It
    /// goes over these.
    pub fn nth_low(
        &self,
        alloc: Global,
        level: usize,
        low: &SortKey,
        high: Option<&SortKey>,
        n: usize,
    ) -> Result<Option<SortKey>, AllocError>
        requires there { level < length self.now }
        requires forward { IfSome high (λ h. name_cmp low.now h.now ≡ Less) }
        ensures { IfOk result (λ found. found ≡ slice_get (filter (is_between (At low.now) (upper_edge (option_copied high.entry))) (keys_of (row_of self.now level))) n) }
    {
        let Levels { levels } = self;
        let row: &Level = &levels[level];
        row.nth_low(alloc, low, high, n)
    }

    /// The slots that the nodes of a level from a low on and below another one make in the IN above.
    pub fn slots(
        &self,
        alloc: Global,
        level: usize,
        low: &SortKey,
        high: Option<&SortKey>,
    ) -> Result<List<Slot>, AllocError>
        requires there { level < length self.now }
        requires forward { IfSome high (λ h. name_cmp low.now h.now ≡ Less) }
        ensures { IfOk result (λ slots. slots ≡ map slot_of (between_edges (At low.now) (upper_edge (option_copied high.entry)) (row_of self.now level))) }
    {
        let Levels { levels } = self;
        let row: &Level = &levels[level];
        row.slots(alloc, low, high)
    }

    /// Puts the node in place of the one of the level with the low. It takes no memory.
    pub fn set(&mut self, level: usize, low: &SortKey, node: Node)
        requires { IsSome (value_at low.now (row_of self.old level)) }
        ensures put { HasPutAt self.old self.new level low.now node }
        ensures parts { AreParts self.new }
    {
        set_in(self.levels.as_mut_slice(), level, low, node);
    }

    /// Marks the node of the level over the name: the log has a committed change at `from` that its last
    /// image lacks. It takes no memory.
    pub fn mark(&mut self, level: usize, name: &SortKey, from: Lsn)
        requires { level < length self.old }
        ensures marked { HasMarkedAt self.old self.new level name.now from }
        ensures parts { AreParts self.new }
    {
        mark_in(self.levels.as_mut_slice(), level, name, from);
    }

    /// Takes the mark of the node of the level over the name: its last image lacks nothing of what it has. It takes no memory.
    pub fn unmark(&mut self, level: usize, name: &SortKey)
        requires { level < length self.old }
        ensures unmarked { HasUnmarkedAt self.old self.new level name.now }
        ensures parts { AreParts self.new }
    {
        unmark_in(self.levels.as_mut_slice(), level, name);
    }

    /// Splits a node of the level: from `middle` on its names are those of the new node. The level below has
    /// that low. Running out of memory changes nothing.
    pub fn split(&mut self, level: usize, middle: SortKey, node: Node) -> Result<(), AllocError>
        requires there { level < length self.old }
        requires free { value_at middle (row_of self.old level) ≡ None }
        requires nested { (k : ℕ) → level ≡ suc k → IsSome (value_at middle (row_of self.old k)) }
        ensures ok { OnOk result (HasPutAt self.old self.new level middle node) }
        ensures low { OnOk result (lows_of self.new ≡ with_low level middle (lows_of self.old)) }
        ensures err { OnErr result (self.new ≡ self.old) }
        ensures parts { AreParts self.new }
    {
        split_in(self.levels.as_mut_slice(), level, middle, node)
    }

    /// Takes back a split: the node of the low goes, and its names are those of the node before it. No node above has that
    /// low. It takes no memory.
    pub fn join(&mut self, level: usize, low: &SortKey)
        requires there { level < length self.old }
        requires above { value_at low.now (row_of self.old (suc level)) ≡ None }
        requires low { low.now ≡ least → ⊥ }
        ensures taken { HasTakenAt self.old self.new level low.now }
        ensures parts { AreParts self.new }
    {
        remove_in(self.levels.as_mut_slice(), level, low);
    }

    /// Puts a root above the top. Running out of memory changes nothing.
    pub fn raise(&mut self, alloc: Global, root: Node) -> Result<(), AllocError>
        ensures ok { OnOk result (HasRaised self.old self.new root) }
        ensures low { OnOk result (lows_of self.new ≡ with_root (lows_of self.old)) }
        ensures front { OnOk result (take (length self.old) self.new ≡ self.old) }
        ensures err { OnErr result (self.new ≡ self.old) }
        ensures parts { AreParts self.new }
    {
        let Levels { levels } = self;
        let level = Level::with_root(alloc, root)?;
        levels.push(level)?;
        Ok(())
    }

    /// Takes the top away, which is not the only level. It takes no memory.
    pub fn lower(&mut self)
        requires { 1 < length self.old }
        ensures value { self.new ≡ take (length self.old - 1) self.old }
        ensures parts { AreParts self.new }
    {
        drop(self.levels.pop());
    }

    /// Notes the nodes that are dirty and those above them, and no others. It takes no memory, and goes over all nodes.
    pub fn note_dirty(&mut self)
        ensures noted { AreNoted self.old self.new }
        ensures parts { AreParts self.new }
    {
        note_all(self.levels.as_mut_slice());
    }

    /// The next node that a checkpoint logs, with its level and its low: of those that are noted and dirty the one of the lowest level, and of
    /// these the one with the least number. It goes over the levels up to that one.
    pub fn next_due(&self) -> Option<(usize, &SortKey, &Node)>
        ensures { NextIn self.now (option_map (λ p. (p.0, p.1.now, p.2.now)) result) }
    {
        let Levels { levels } = self;
        for level in 0..levels.len() {
            let row: &Level = &levels[level];
            if let Some((low, node)) = row.next_due() {
                return Some((level, low, node));
            }
        }
        None
    }

    /// How many nodes are noted and dirty; None where these are 2^64 or more. It goes over the levels.
    pub fn count_due(&self) -> Option<u64>
        ensures { IfSome result (λ count. count ≡ count_all_due self.now) }
    {
        let mut count = 0u64;
        for row in self.levels.as_slice() {
            count = count.checked_add(row.count_due())?;
        }
        Some(count)
    }

    /// Whether no node waits to be logged, and no last image lacks what was logged before an LSN. It goes over all nodes.
    pub fn is_since(&self, since: Lsn) -> bool
        ensures { result ≡ true → AllSince since self.now }
    {
        let Levels { levels } = self;
        for level in 0..levels.len() {
            let row: &Level = &levels[level];
            if row.has_before(since) {
                return false;
            }
        }
        true
    }

    /// The least of an LSN and of those from which on images of nodes lack something. It goes over all nodes.
    pub fn least_mark(&self, bound: Lsn) -> Lsn
        ensures upto { result ≤ bound }
        ensures all { AllFrom result self.now }
        ensures some { IsMarkOr bound self.now result }
        ensures parts { AreParts self.now }
    {
        let Levels { levels } = self;
        let mut least = bound;
        for level in 0..levels.len() {
            let row: &Level = &levels[level];
            least = row.least_mark(least);
        }
        least
    }
}
