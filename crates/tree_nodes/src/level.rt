// One level of a tree.
ghost use Rattle.std.specs.Prelude.{◌≡◌, ◌<◌, ◌≤◌, ◌||◌, ℕ, false, ◌++◌, ◌∷◌, [], length, set, vec_len, vec_capacity, List as Items, Option, None, Some, IsSome, IfSome, IfOk, OnOk, OnErr, option_copied, option_map, map, if◌then◌else◌};
ghost use Rattle.std.specs.List.{AllByRecursion, slice_get};
ghost use Rattle.std.specs.Prelude.{filter};
ghost use Rattle.std.specs.Map.{keys_of, lookup};
ghost use Rattle.std.specs.BTreeMap.{is_at};
ghost use Rattle.std.specs.BTreeSet.{insert_key};
ghost use Rattle.je_order.specs.Order.{name_cmp};
ghost use Rattle.je_order.specs.Edges.Edge.{At, Behind};
ghost use Rattle.std.specs.declared.cmp.Ordering.TheVariants.{Less};
ghost use Rattle.tree_nodes.specs.Levels.{slot_of};
ghost use Rattle.je_order.specs.declared.name.Name.{Name};
ghost use Rattle.record_map.specs.Cells.{value_at, IsRising, first_of, last_of, from_edge, below_edge, between_edges, upper_edge};
ghost use Rattle.je_order.specs.Edges.{is_between};
ghost use Rattle.tree_nodes.specs.Lows.{low_up_to};
ghost use Rattle.tree_nodes.specs.Noted.{NextDue, count_due, has_noted_child, is_low_over, noted_row};
ghost use Rattle.tree_nodes.specs.Marks.{IsFromRow, IsMarkOrOfRow, IsSinceRow};
ghost use Rattle.tree_nodes.specs.Due.{AreDueKept, due_number, name_in, number_in, without};
ghost use Rattle.tree_nodes.specs.Nodes.{least, IsUpTo, IsOver, IsLowOver, HasMarked, HasUnmarked, low_behind, HasPut, HasTaken, is_dirty, marked, node_at, placed, ArePlaces};

use crate::Node;
use crate::due_numbers::DueNumbers;
use crate::marks::{has_before, least_mark};
use je_lsn::Lsn;
use je_order::List;
use node_core::{Slot, Version};
use record_map::SortKey;
use std::alloc::{AllocError, Global};
use std::collections::BTreeMap;
use std::collections::btree_map::Range;
use std::marker::Model;
use std::ops::Bound;

/// The nodes of one level, seen as the list of their lows and nodes, in which lows rise. A low's node stays at its
/// place, so that a change of it takes no memory.
#[derive(Drop)]
pub struct Level {
    lows: BTreeMap<SortKey, usize>,
    nodes: Vec<Node>,
    /// The low of the node at each place; None where the node was taken out.
    names: Vec<Option<SortKey>>,
    /// The number of the node at each place that is noted and dirty, and has a low.
    due: DueNumbers,
}

impl Model for Level {
    ghost use Rattle.tree_nodes.specs.Nodes.{NodeRow, placed};
    ghost use Rattle.tree_nodes.specs.Due.{AreDueKept};

    ghost Value = { NodeRow };

    ghost view = { λ a. placed a.lows.entries a.nodes.items };

    ghost invariant = { λ a. AreDueKept a.lows.entries a.nodes.items a.names.items a.due };
}

#[tactic(auto, using(record_map::proofs::EdgeLaws::last_is))]
// The greatest low up to a name, and the place of its node.
fn low_over<'a>(lows: &'a BTreeMap<SortKey, usize>, name: &SortKey) -> (&'a SortKey, usize)
    requires { IsSome (value_at least lows.now.entries) }
    ensures over { IsLowOver lows.entry.now.entries name.now (result.0.now, result.1) }
    ensures last { last_of (below_edge (Behind name.now) lows.entry.now.entries) ≡ Some (result.0.now, result.1) }
{
    let mut below = lows.range((Bound::Unbounded, Bound::Included(name)));
    match below.next_back() {
        Some((low, place)) => (low, *place),
        None => unreachable!(),
    }
}

// The first low above another one, and the place of its node.
fn first_behind<'a>(
    lows: &'a BTreeMap<SortKey, usize>,
    low: &SortKey,
) -> Option<(&'a SortKey, &'a usize)>
    ensures { option_map (λ p. (p.0.now, p.1.now)) result ≡ first_of (from_edge (Behind low.now) lows.entry.now.entries) }
{
    lows.range((Bound::Excluded(low), Bound::Unbounded)).next()
}

// The lows from one on and below another one.
fn lows_between<'a>(
    lows: &'a BTreeMap<SortKey, usize>,
    low: &SortKey,
    high: Option<&SortKey>,
) -> Range<'a, SortKey, usize>
    requires { IfSome high (λ h. name_cmp low.now h.now ≡ Less) }
    ensures { result ≡ between_edges (At low.now) (upper_edge (option_copied high.entry)) lows.entry.now.entries }
{
    let end = match high {
        Some(name) => Bound::Excluded(name),
        None => Bound::Unbounded,
    };
    lows.range((Bound::Included(low), end))
}

// How many lows there are from one on and below another one.
fn count_lows(lows: &BTreeMap<SortKey, usize>, low: &SortKey, high: Option<&SortKey>) -> usize
    requires { IfSome high (λ h. name_cmp low.now h.now ≡ Less) }
    ensures { result ≡ length (between_edges (At low.now) (upper_edge (option_copied high.entry)) lows.now.entries) }
{
    let end = match high {
        Some(name) => Bound::Excluded(name),
        None => Bound::Unbounded,
    };
    lows.range((Bound::Included(low), end)).count()
}

// The name with so many before it.
fn nth_name(
    alloc: Global,
    lows: Range<'_, SortKey, usize>,
    n: usize,
) -> Result<Option<SortKey>, AllocError>
    ensures { IfOk result (λ name. name ≡ option_map (λ e. e.0) (slice_get lows.entry n)) }
{
    let mut left = n;
    for (name, _place) in lows {
        if left == 0 {
            return Ok(Some(name.copy(alloc)?));
        }
        left -= 1;
    }
    Ok(None)
}

// The slot of an IN that a child makes.
fn slot_of(alloc: Global, low: &SortKey, node: &Node) -> Result<Slot, AllocError>
    ensures { IfOk result (λ slot. slot ≡ slot_of (low.now, node.now)) }
{
    let version = match node.last {
        Some(lsn) => Version::There(lsn),
        None => Version::Unset,
    };
    Ok(Slot {
        name: low.to_name(alloc)?,
        version,
    })
}

// The slots of the nodes at the places of some lows.
fn slots_of(
    alloc: Global,
    lows: Range<'_, SortKey, usize>,
    nodes: &[Node],
) -> Result<List<Slot>, AllocError>
    requires { AllByRecursion (λ e. e.1 < length nodes.now) lows }
    ensures { IfOk result (λ slots. slots ≡ map slot_of (placed lows.entry nodes.now)) }
{
    let mut slots = Vec::new(alloc);
    for (name, place) in lows {
        slots.push(slot_of(alloc, name, &nodes[*place])?)?;
    }
    Ok(List::from_vec(slots))
}

// The place of a low's node.
fn place_of(lows: &BTreeMap<SortKey, usize>, low: &SortKey) -> usize
    requires { IsSome (value_at low.now lows.now.entries) }
    ensures { value_at low.now lows.now.entries ≡ Some result }
{
    match lows.get(low) {
        Some(place) => *place,
        None => unreachable!(),
    }
}

// The place of a low's node, if it has one.
fn place_at(lows: &BTreeMap<SortKey, usize>, low: &SortKey) -> Option<usize>
    ensures { result ≡ value_at low.now lows.now.entries }
{
    match lows.get(low) {
        Some(place) => Some(*place),
        None => None,
    }
}

// Puts a copy of the node behind the others, for which there is room.
fn push_node(nodes: &mut Vec<Node>, node: &Node)
    requires { vec_len nodes.old < vec_capacity nodes.old }
    ensures { nodes.new.items ≡ nodes.old.items ++ node.now ∷ [] }
{
    let Node {
        number,
        last,
        from,
        slots,
        forced,
        noted,
    } = node;
    let copy = Node {
        number: *number,
        last: *last,
        from: *from,
        slots: *slots,
        forced: *forced,
        noted: *noted,
    };
    match nodes.push(copy) {
        Ok(()) => {}
        Err(failed) => drop(failed),
    }
}

// The number of the node at a place, if some low has the place and the node is due.
fn due_number(nodes: &[Node], names: &[Option<SortKey>], place: usize) -> Option<u64>
    requires within { place < length nodes.now }
    requires same { length names.now ≡ length nodes.now }
    ensures { result ≡ due_number (name_in names.now place) (node_at nodes.now place) }
{
    let node = &nodes[place];
    match &names[place] {
        Some(_) if node.is_due() => Some(node.number),
        _ => None,
    }
}

// Sets the number at a place to that of its node, if it is due.
fn note_due(nodes: &[Node], names: &[Option<SortKey>], due: &mut DueNumbers, place: usize)
    requires within { place < length nodes.now }
    requires same { length names.now ≡ length nodes.now }
    requires covers { length nodes.now ≤ length due.old }
    ensures { due.new ≡ set due.old place (due_number (name_in names.now place) (node_at nodes.now place)) }
{
    due.set(place, due_number(nodes, names, place));
}

// Notes the nodes that are dirty, and no others.
fn note_each(nodes: &mut [Node], names: &[Option<SortKey>], due: &mut DueNumbers)
    requires same { length names.now ≡ length nodes.old }
    requires covers { length nodes.old ≤ length due.old }
    ensures size { length nodes.new ≡ length nodes.old }
    ensures due { (lows : Items (Name × ℕ)) → AreDueKept lows nodes.old names.now due.old → AreDueKept lows nodes.new names.now due.new }
    ensures noted { (lows : Items (Name × ℕ)) → AllByRecursion (λ e. e.1 < length nodes.old) lows → placed lows nodes.new ≡ noted_row (λ e. is_dirty e.1) (placed lows nodes.old) }
{
    for place in 0..nodes.len() {
        let noted = nodes[place].is_dirty();
        nodes[place] = nodes[place].noted(noted);
        note_due(nodes, names, due, place);
    }
}

// No node stands at the place from now on, if there is one.
fn forget(names: &mut Vec<Option<SortKey>>, due: &mut DueNumbers, place: Option<usize>)
    requires within { IfSome place (λ p. p < length names.old.items) }
    requires covers { IfSome place (λ p. p < length due.old) }
    ensures names { names.new.items ≡ without place names.old.items }
    ensures due { due.new ≡ without place due.old }
{
    match place {
        Some(place) => {
            names[place] = None;
            due.set(place, None);
        }
        None => {}
    }
}

// Takes room for one node more, and gives a copy of its low.
fn room_for(
    nodes: &mut Vec<Node>,
    names: &mut Vec<Option<SortKey>>,
    due: &mut DueNumbers,
    low: &SortKey,
) -> Result<SortKey, AllocError>
    requires covers { length nodes.old.items ≤ length due.old }
    ensures nodes { nodes.new.items ≡ nodes.old.items }
    ensures names { names.new.items ≡ names.old.items }
    ensures due { (i : ℕ) → number_in due.new i ≡ number_in due.old i }
    ensures longer { length due.old ≤ length due.new }
    ensures copy { IfOk result (λ copy. copy ≡ low.now) }
    ensures room { OnOk result (vec_len nodes.new < vec_capacity nodes.new) }
    ensures room_of_names { OnOk result (vec_len names.new < vec_capacity names.new) }
    ensures covers { OnOk result (length nodes.new.items < length due.new) }
{
    due.cover(nodes.as_slice().len())?;
    nodes.reserve(1)?;
    names.reserve(1)?;
    low.copy(*names.allocator())
}

// Puts a copy of the node behind the others, and its low, for which there is room.
fn push_placed(
    nodes: &mut Vec<Node>,
    names: &mut Vec<Option<SortKey>>,
    due: &mut DueNumbers,
    node: &Node,
    low: SortKey,
)
    requires room { vec_len nodes.old < vec_capacity nodes.old }
    requires room_of_names { vec_len names.old < vec_capacity names.old }
    requires same { length names.old.items ≡ length nodes.old.items }
    requires covers { length nodes.old.items < length due.old }
    ensures nodes { nodes.new.items ≡ nodes.old.items ++ node.now ∷ [] }
    ensures names { names.new.items ≡ names.old.items ++ Some low ∷ [] }
    ensures due { due.new ≡ set due.old (length nodes.old.items) (due_number (Some low) node.now) }
{
    let place = nodes.as_slice().len();
    push_node(nodes, node);
    match names.push(Some(low)) {
        Ok(()) => {}
        Err(failed) => drop(failed),
    }
    note_due(nodes.as_slice(), names.as_slice(), due, place);
}

// Notes the nodes of a level over the lows whose nodes are noted, of those at the places of some lows.
fn note_parents(row: &mut Level, lows: &BTreeMap<SortKey, usize>, nodes: &[Node])
    requires least { IsSome (value_at least row.old) }
    requires places { AllByRecursion (λ e. e.1 < length nodes.now) lows.now.entries }
    requires rising { IsRising row.old }
    ensures noted { row.new ≡ noted_row (λ e. e.1.noted || has_noted_child (placed lows.now.entries nodes.now) row.old e.0) row.old }
    ensures rising { IsRising row.new }
{
    for (low, place) in lows {
        if nodes[*place].is_noted() {
            row.note_over(low);
        }
    }
}

impl Level {
    /// No nodes. It takes no memory.
    pub fn new(alloc: Global) -> Level
        ensures { result ≡ [] }
    {
        Level {
            lows: BTreeMap::new(alloc),
            nodes: Vec::new(alloc),
            names: Vec::new(alloc),
            due: DueNumbers::new(alloc),
        }
    }

    /// One node, over all names.
    pub fn with_root(alloc: Global, root: Node) -> Result<Level, AllocError>
        ensures root { IfOk result (λ level. HasPut [] level least root) }
        ensures low { IfOk result (λ level. keys_of level ≡ least ∷ []) }
        ensures rising { IfOk result IsRising }
    {
        let mut level = Level::new(alloc);
        level.put(SortKey::plain(alloc, &[])?, root)?;
        Ok(level)
    }

    /// The node with the low, and None where no node has it.
    pub fn at(&self, low: &SortKey) -> Option<&Node>
        ensures { option_copied result ≡ value_at low.now self.now }
    {
        let Level {
            lows,
            nodes,
            names: _,
            due: _,
        } = self;
        match lows.get(low) {
            Some(place) => Some(&nodes[*place]),
            None => None,
        }
    }

    /// The node over the name, with its low.
    pub fn over(&self, name: &SortKey) -> (&SortKey, &Node)
        requires { IsSome (value_at least self.now) }
        ensures over { IsOver self.now name.now (result.0.now, result.1.now) }
        ensures low { result.0.now ≡ low_up_to name.now (keys_of self.now) }
    {
        let Level {
            lows,
            nodes,
            names: _,
            due: _,
        } = self;
        let (low, place) = low_over(lows, name);
        (low, &nodes[place])
    }

    /// The low of the node behind the one with this low; None where that is the last.
    pub fn upper_bound(&self, low: &SortKey) -> Option<&SortKey>
        ensures { option_copied result ≡ low_behind low.now self.now }
    {
        let Level {
            lows,
            nodes: _,
            names: _,
            due: _,
        } = self;
        match first_behind(lows, low) {
            Some((high, _place)) => Some(high),
            None => None,
        }
    }

    /// How many nodes there are from a low on and below another one. It goes over these.
    pub fn count_between(&self, low: &SortKey, high: Option<&SortKey>) -> usize
        requires { IfSome high (λ h. name_cmp low.now h.now ≡ Less) }
        ensures { result ≡ length (filter (is_between (At low.now) (upper_edge (option_copied high.entry))) (keys_of self.now)) }
    {
        let Level {
            lows,
            nodes: _,
            names: _,
            due: _,
        } = self;
        count_lows(lows, low, high)
    }

    /// The low of the node with so many before it, of those from a low on and below another one. It goes over these.
    pub fn nth_low(
        &self,
        alloc: Global,
        low: &SortKey,
        high: Option<&SortKey>,
        n: usize,
    ) -> Result<Option<SortKey>, AllocError>
        requires { IfSome high (λ h. name_cmp low.now h.now ≡ Less) }
        ensures { IfOk result (λ found. found ≡ slice_get (filter (is_between (At low.now) (upper_edge (option_copied high.entry))) (keys_of self.now)) n) }
    {
        let Level {
            lows,
            nodes: _,
            names: _,
            due: _,
        } = self;
        nth_name(alloc, lows_between(lows, low, high), n)
    }

    /// The slots that the nodes from a low on and below another one make in the IN above.
    pub fn slots(
        &self,
        alloc: Global,
        low: &SortKey,
        high: Option<&SortKey>,
    ) -> Result<List<Slot>, AllocError>
        requires { IfSome high (λ h. name_cmp low.now h.now ≡ Less) }
        ensures { IfOk result (λ slots. slots ≡ map slot_of (between_edges (At low.now) (upper_edge (option_copied high.entry)) self.now)) }
    {
        let Level {
            lows,
            nodes,
            names: _,
            due: _,
        } = self;
        slots_of(alloc, lows_between(lows, low, high), nodes.as_slice())
    }

    /// Puts the node in place of the one with the low. It takes no memory.
    pub fn set(&mut self, low: &SortKey, node: Node)
        requires { IsSome (value_at low.now self.old) }
        ensures put { HasPut self.old self.new low.now node }
        ensures rising { IsRising self.new }
    {
        let Level {
            lows,
            nodes,
            names,
            due,
        } = self;
        let place = place_of(lows, low);
        nodes[place] = node;
        note_due(nodes.as_slice(), names.as_slice(), due, place);
    }

    /// Marks the node over the name: the log has a committed change at `from` that its last image lacks. It
    /// takes no memory.
    pub fn mark(&mut self, name: &SortKey, from: Lsn)
        requires { IsSome (value_at least self.old) }
        ensures marked { HasMarked self.old self.new name.now from }
        ensures rising { IsRising self.new }
    {
        let Level {
            lows,
            nodes,
            names,
            due,
        } = self;
        let (_low, place) = low_over(lows, name);
        nodes[place] = nodes[place].marked(from);
        note_due(nodes.as_slice(), names.as_slice(), due, place);
    }

    /// Takes the mark of the node over the name: its last image lacks nothing of what it has. It takes no memory.
    pub fn unmark(&mut self, name: &SortKey)
        requires { IsSome (value_at least self.old) }
        ensures unmarked { HasUnmarked self.old self.new name.now }
        ensures rising { IsRising self.new }
    {
        let Level {
            lows,
            nodes,
            names,
            due,
        } = self;
        let (_low, place) = low_over(lows, name);
        nodes[place] = nodes[place].unmarked();
        note_due(nodes.as_slice(), names.as_slice(), due, place);
    }

    /// Puts the node under a low that no node has. Running out of memory changes nothing.
    pub fn put(&mut self, low: SortKey, node: Node) -> Result<(), AllocError>
        requires { value_at low self.old ≡ None }
        ensures put { OnOk result (HasPut self.old self.new low node) }
        ensures low { OnOk result (keys_of self.new ≡ insert_key name_cmp (keys_of self.old) low) }
        ensures err { OnErr result (self.new ≡ self.old) }
        ensures rising { IsRising self.new }
    {
        let Level {
            lows,
            nodes,
            names,
            due,
        } = self;
        let copy = room_for(nodes, names, due, &low)?;
        drop(lows.insert(low, nodes.as_slice().len())?);
        push_placed(nodes, names, due, &node, copy);
        Ok(())
    }

    /// Takes the node of the low out, which was put in last. It takes no memory.
    pub fn remove(&mut self, low: &SortKey)
        ensures taken { HasTaken self.old self.new low.now }
        ensures rising { IsRising self.new }
    {
        let Level {
            lows,
            nodes: _,
            names,
            due,
        } = self;
        let place = place_at(lows, low);
        drop(lows.remove(low));
        forget(names, due, place);
    }

    /// Notes the nodes that are dirty, and no others. It takes no memory, and goes over all nodes.
    pub fn note_dirty(&mut self)
        ensures noted { self.new ≡ noted_row (λ e. is_dirty e.1) self.old }
        ensures rising { IsRising self.new }
    {
        let Level {
            lows: _,
            nodes,
            names,
            due,
        } = self;
        note_each(nodes.as_mut_slice(), names.as_slice(), due);
    }

    // Notes the node over the name.
    fn note_over(&mut self, name: &SortKey)
        requires { IsSome (value_at least self.old) }
        ensures noted { self.new ≡ noted_row (λ e. e.1.noted || is_low_over self.old name.now e.0) self.old }
        ensures rising { IsRising self.new }
    {
        let Level {
            lows,
            nodes,
            names,
            due,
        } = self;
        let (_low, place) = low_over(lows, name);
        nodes[place] = nodes[place].noted(true);
        note_due(nodes.as_slice(), names.as_slice(), due, place);
    }

    /// Notes the nodes of which a child is noted, which is a node of the level below. It takes no memory, and goes over that level.
    pub fn note_above(&mut self, below: &Level)
        requires least { IsSome (value_at least self.old) }
        requires rising { IsRising self.old }
        ensures noted { self.new ≡ noted_row (λ e. e.1.noted || has_noted_child below.now self.old e.0) self.old }
        ensures rising { IsRising self.new }
    {
        let Level {
            lows,
            nodes,
            names: _,
            due: _,
        } = below;
        note_parents(self, lows, nodes.as_slice());
    }

    /// The node with the least number of those that are noted and dirty, with its low.
    pub fn next_due(&self) -> Option<(&SortKey, &Node)>
        ensures { NextDue self.now (option_map (λ p. (p.0.now, p.1.now)) result) }
    {
        let Level {
            lows: _,
            nodes,
            names,
            due,
        } = self;
        match due.least() {
            Some(place) => match &names[place] {
                Some(low) => Some((low, &nodes[place])),
                None => unreachable!(),
            },
            None => None,
        }
    }

    /// How many nodes are noted and dirty.
    pub fn count_due(&self) -> u64
        ensures { result ≡ count_due self.now }
    {
        let Level {
            lows: _,
            nodes: _,
            names: _,
            due,
        } = self;
        due.count() as u64
    }

    /// Whether a node waits to be logged, or its last image lacks what was logged before an LSN. It goes over the level.
    pub fn has_before(&self, since: Lsn) -> bool
        ensures { result ≡ false → IsSinceRow since self.now }
    {
        let Level {
            lows: _,
            nodes,
            names,
            due: _,
        } = self;
        has_before(nodes.as_slice(), names.as_slice(), since)
    }

    /// The least of an LSN and of those from which on images of nodes lack something. It goes over the level.
    pub fn least_mark(&self, bound: Lsn) -> Lsn
        ensures upto { result ≤ bound }
        ensures all { IsFromRow result self.now }
        ensures some { IsMarkOrOfRow bound self.now result }
    {
        let Level {
            lows: _,
            nodes,
            names,
            due: _,
        } = self;
        least_mark(nodes.as_slice(), names.as_slice(), bound)
    }
}
