// Records and nodes that a log has are put into a tree.
ghost use Rattle.std.specs.Prelude.{◌≡◌, ◌<◌, ◌≤◌, ◌+◌, ◌-◌, ◌∷◌, [], Bool, ℕ, suc, length, take, option_copied, OnOk, OnErr, IsSome, IfOk, ◌&&◌};
ghost use Rattle.std.specs.Ordering.{is_eq};
ghost use Rattle.je_order.specs.Order.{name_cmp};
ghost use Rattle.je_order.specs.declared.name.Name.{Name};
ghost use Rattle.record_map.specs.Cells.{value_at, IsRising};
ghost use Rattle.tree_nodes.specs.Levels.{row_of};
ghost use Rattle.record_tree.specs.LoadedNodes.{node_read};
ghost use Rattle.record_tree.specs.LoadedSlots.{is_inside as is_name_inside, shows_deletion_inside};
ghost use Rattle.db_tree.specs.Loading.{deleted_cell, has_version, loaded_by, GetsDeletions, HasMore, HasLoaded, IsLoaded};
ghost use Rattle.db_tree.specs.Trees.{HasCell};
ghost use Rattle.db_tree.specs.Stored.{loaded_cell};
ghost use Rattle.db_tree.specs.Shapes.{count_in};
ghost use Rattle.db_tree.specs.Splits.{one_if};
ghost use Rattle.db_tree.specs.Waiting.{waiting_of, count_lows, waits_at};

use crate::{DbTree, NewWaits};
use je_lsn::Lsn;
use je_order::{Name as Key, copy_of};
use node_core::{Marked, Node as Image, Version};
use record_map::{Cell, Cells, Data, SortKey};
use std::alloc::{AllocError, Global};
use tree_nodes::{Levels, Node};

// The cell of a record that was logged at `at`.
fn loaded_cell(alloc: Global, at: Lsn, value: &[u8]) -> Result<Cell, AllocError>
    ensures { IfOk result (λ cell. cell ≡ loaded_cell at value.now) }
{
    Ok(Cell {
        version: Version::There(at),
        shown: Version::There(at),
        touched: at,
        data: Data::from_slice(alloc, value)?,
        write: None,
    })
}

// The cell of a record that was deleted, as the image at `at` shows it.
fn deleted_cell(at: Lsn) -> Cell
    ensures { result ≡ deleted_cell at }
{
    Cell {
        version: Version::Deleted,
        shown: Version::Deleted,
        touched: at,
        data: Data::empty(),
        write: None,
    }
}

// Whether the name has a slot that an image shows.
fn has_version(cells: &Cells, name: &SortKey) -> bool
    ensures { result ≡ has_version (value_at name.now cells.now) }
{
    match cells.get(name) {
        Some(cell) => cell.version.is_committed(),
        None => false,
    }
}

// A copy of the name, to look it up.
fn key_of(alloc: Global, name: &Key) -> Result<SortKey, AllocError>
    ensures { IfOk result (λ key. key ≡ name.now) }
{
    let copy = copy_of(name)?;
    SortKey::new(alloc, copy)
}

// Puts the slot of a name whose record was deleted, where it has none. Running out of memory changes nothing.
fn put_deletion(cells: &mut Cells, alloc: Global, name: &Key, at: Lsn) -> Result<(), AllocError>
    ensures got { OnOk result (GetsDeletions (λ x. is_eq (name_cmp name.now x)) at cells.old cells.new) }
    ensures err { OnErr result (cells.new ≡ cells.old) }
{
    let name = key_of(alloc, name)?;
    if has_version(cells, &name) {
        drop(name);
        return Ok(());
    }
    cells.insert(name, deleted_cell(at))
}

// Whether a name lies within bounds, the lower one included.
fn is_inside(low: &Key, high: Option<&Key>, name: &Key) -> bool
    ensures { result ≡ is_name_inside low.now (option_copied high.entry) name.now }
{
    if name.cmp(low).is_lt() {
        return false;
    }
    match high {
        Some(high) => name.cmp(high).is_lt(),
        None => true,
    }
}

// Puts the slot of a name whose record was deleted, where it has none and lies within the bounds. Running out of memory changes nothing.
fn put_inside(
    cells: &mut Cells,
    alloc: Global,
    low: &Key,
    high: Option<&Key>,
    name: &Key,
    at: Lsn,
) -> Result<(), AllocError>
    ensures got { OnOk result (GetsDeletions (λ x. is_name_inside low.now (option_copied high.entry) x && is_eq (name_cmp name.now x)) at cells.old cells.new) }
    ensures err { OnErr result (cells.new ≡ cells.old) }
{
    if !is_inside(low, high, name) {
        return Ok(());
    }
    put_deletion(cells, alloc, name, at)
}

// Puts the slot, if it is that of a record that was deleted, and its name lies within the bounds.
fn put_slot(
    cells: &mut Cells,
    alloc: Global,
    low: &Key,
    high: Option<&Key>,
    marked: &Marked,
    at: Lsn,
) -> Result<(), AllocError>
    ensures got { OnOk result (GetsDeletions (shows_deletion_inside low.now (option_copied high.entry) (marked.now ∷ [])) at cells.old cells.new) }
    ensures err { OnErr result (cells.new ≡ cells.old) }
{
    match marked.slot.version {
        Version::Deleted => put_inside(cells, alloc, low, high, &marked.slot.name, at),
        Version::There(_) | Version::Unset => Ok(()),
    }
}

// Puts those of the slots that are of records that were deleted, and whose names lie within the bounds.
fn put_deletions(
    cells: &mut Cells,
    alloc: Global,
    low: &Key,
    high: Option<&Key>,
    slots: &[Marked],
    at: Lsn,
) -> Result<(), AllocError>
    ensures got { OnOk result (GetsDeletions (shows_deletion_inside low.now (option_copied high.entry) slots.now) at cells.old cells.new) }
    ensures some { (count : ℕ) × GetsDeletions (shows_deletion_inside low.now (option_copied high.entry) (take count slots.now)) at cells.old cells.new }
{
    for marked in slots {
        put_slot(cells, alloc, low, high, marked, at)?;
    }
    Ok(())
}

// Notes the names of a BIN as a run of the cells, where the node is one.
fn note_low(cells: &mut Cells, alloc: Global, low: &Key, level: usize)
    ensures { cells.new ≡ cells.old }
{
    if level > 0 {
        return;
    }
    match key_of(alloc, low) {
        Ok(key) => cells.note_run(key),
        Err(failed) => drop(failed),
    }
}

// Puts the slots of a node of a level as `put_deletions` does, and notes the names of a BIN as a run of the cells.
fn put_and_note(
    cells: &mut Cells,
    alloc: Global,
    low: &Key,
    high: Option<&Key>,
    slots: &[Marked],
    at: Lsn,
    level: usize,
) -> Result<(), AllocError>
    ensures got { OnOk result (GetsDeletions (shows_deletion_inside low.now (option_copied high.entry) slots.now) at cells.old cells.new) }
    ensures some { (count : ℕ) × GetsDeletions (shows_deletion_inside low.now (option_copied high.entry) (take count slots.now)) at cells.old cells.new }
{
    put_deletions(cells, alloc, low, high, slots, at)?;
    note_low(cells, alloc, low, level);
    Ok(())
}

// How many of the slots an image shows.
fn count_shown(slots: &[Marked]) -> u32
    requires { length slots.now ≤ 128 }
{
    let mut count = 0;
    for marked in slots {
        if marked.slot.version.is_committed() {
            count += 1;
        }
    }
    count
}

// The node that its image at `at` shows. Where that is not to be kept as its last one, the node waits to be logged.
fn shown_node(image: &Image, at: Lsn, keeps: bool) -> Node
    ensures { loaded_by result ≡ node_read image.now.number at keeps }
{
    let slots = count_shown(image.slots.as_slice());
    if keeps {
        return Node {
            number: image.number,
            last: Some(at),
            from: None,
            slots,
            forced: false,
            noted: false,
        };
    }
    Node {
        number: image.number,
        last: None,
        from: Some(at),
        slots,
        forced: true,
        noted: false,
    }
}

// The level of the node, the BINs first.
fn level_of(image: &Image) -> usize
    ensures level { result ≡ image.now.level - 1 }
    ensures few { result < 256 }
{
    usize::from(image.level).saturating_sub(1)
}

// A node without an image, for a low whose node is still to come.
fn unlogged(number: u64) -> Node {
    Node {
        number,
        last: None,
        from: None,
        slots: 0,
        forced: true,
        noted: false,
    }
}

// Puts a node without an image above the top.
fn raise_one(levels: &mut Levels, alloc: Global, number: u64) -> Result<(), AllocError>
    ensures height { OnOk result (length levels.new ≡ suc (length levels.old)) }
    ensures more { (level : ℕ) (low : Name) → length levels.old ≤ level → OnOk result (HasMore levels.old levels.new level low) }
    ensures few { count_lows (waiting_of levels.new) ≤ count_lows (waiting_of levels.old) + 1 }
{
    levels.raise(alloc, unlogged(number))
}

// Raises a tree until it has the level. It gives by how much.
fn raise_to(
    levels: &mut Levels,
    alloc: Global,
    level: usize,
    number: u64,
) -> Result<usize, AllocError>
    requires { level < 256 }
    ensures height { OnOk result (level < length levels.new) }
    ensures more { (low : Name) → OnOk result (HasMore levels.old levels.new level low) }
    ensures few { IfOk result (λ made. count_lows (waiting_of levels.new) ≤ count_lows (waiting_of levels.old) + made) }
    ensures made { IfOk result (λ made. made ≤ 256) }
    ensures most { count_lows (waiting_of levels.new) ≤ count_lows (waiting_of levels.old) + 256 }
{
    let mut made = 0;
    for i in levels.height()..level + 1 {
        raise_one(levels, alloc, number)?;
        made += 1;
    }
    Ok(made)
}

// Puts a node without an image under the low, where the level has none. The level below has that low. It gives how many were put.
fn put_low(
    levels: &mut Levels,
    alloc: Global,
    level: usize,
    low: &SortKey,
    number: u64,
) -> Result<usize, AllocError>
    requires there { level < length levels.old }
    requires nested { (k : ℕ) → level ≡ suc k → IsSome (value_at low.now (row_of levels.old k)) }
    ensures here { OnOk result (IsSome (value_at low.now (row_of levels.new level))) }
    ensures height { OnOk result (length levels.new ≡ length levels.old) }
    ensures more { (top : ℕ) → level ≤ top → OnOk result (HasMore levels.old levels.new top low.now) }
    ensures few { IfOk result (λ made. count_lows (waiting_of levels.new) ≤ count_lows (waiting_of levels.old) + made) }
    ensures made { IfOk result (λ made. made ≤ 1) }
    ensures most { count_lows (waiting_of levels.new) ≤ count_lows (waiting_of levels.old) + 1 }
{
    if let Some(_) = levels.at(level, low) {
        return Ok(0);
    }
    let copy = low.copy(alloc)?;
    levels.split(level, copy, unlogged(number))?;
    Ok(1)
}

// Puts the low on the level and on each one below. It gives how many nodes were put.
fn put_lows(
    levels: &mut Levels,
    alloc: Global,
    level: usize,
    low: &SortKey,
    number: u64,
) -> Result<usize, AllocError>
    requires there { level < length levels.old }
    requires level { level < 256 }
    ensures here { OnOk result (IsSome (value_at low.now (row_of levels.new level))) }
    ensures there { OnOk result (level < length levels.new) }
    ensures more { OnOk result (HasMore levels.old levels.new level low.now) }
    ensures few { IfOk result (λ made. count_lows (waiting_of levels.new) ≤ count_lows (waiting_of levels.old) + made) }
    ensures made { IfOk result (λ made. made ≤ 256) }
    ensures most { count_lows (waiting_of levels.new) ≤ count_lows (waiting_of levels.old) + 256 }
{
    let mut made = 0;
    for k in 0..level {
        made += put_low(levels, alloc, k, low, number)?;
    }
    made += put_low(levels, alloc, level, low, number)?;
    Ok(made)
}

// Whether the node of a level with the low waits to be logged.
fn waits_there(levels: &Levels, level: usize, low: &SortKey) -> bool
    requires { level < length levels.now }
    ensures { result ≡ waits_at levels.now level low.now }
{
    match levels.at(level, low) {
        Some(node) => node.forced,
        None => false,
    }
}

// Puts a node of a level under its low. The lows of a level are among those of the level below, so the low is put there too, and
// the nodes that it gets there come later. It gives how many nodes wait more for this at most, this one among them, and whether
// the one whose place it takes waited.
fn put_node(
    levels: &mut Levels,
    alloc: Global,
    level: usize,
    low: &SortKey,
    node: Node,
) -> Result<NewWaits, AllocError>
    requires level { level < 256 }
    ensures loaded { OnOk result (HasLoaded levels.old levels.new level low.now node) }
    ensures few { IfOk result (λ waits. count_lows (waiting_of levels.new) + one_if waits.replaced ≤ count_lows (waiting_of levels.old) + waits.more) }
    ensures made { IfOk result (λ waits. waits.more ≤ 513) }
    ensures most { count_lows (waiting_of levels.new) ≤ count_lows (waiting_of levels.old) + 513 }
{
    let raised = raise_to(levels, alloc, level, node.number)?;
    let made = put_lows(levels, alloc, level, low, node.number)?;
    let _height = levels.height();
    let replaced = waits_there(levels, level, low);
    let more = raised + made + node.forced as usize;
    levels.set(level, low, node);
    Ok(NewWaits { more, replaced })
}

impl DbTree {
    /// Puts a node as its image at `at` shows it, with the slots within its bounds that this has of records that were deleted; those of its
    /// records come later. Its names lie from the low on, and below `high` where it has an upper bound. Where that image is not to be kept as its last one, the
    /// node waits to be logged. Where the levels had no such low, other nodes stand there that wait to be logged, until their images
    /// come. It gives how many nodes wait more at most, and whether one that waited gave its place to this one.
    pub fn load_node(
        &mut self,
        alloc: Global,
        image: &Image,
        low: &Key,
        high: Option<&Key>,
        at: Lsn,
        keeps: bool,
    ) -> Result<NewWaits, AllocError>
        ensures slots { OnOk result (GetsDeletions (shows_deletion_inside low.now (option_copied high.entry) image.now.slots) at self.old.cells self.new.cells) }
        ensures some { (count : ℕ) × GetsDeletions (shows_deletion_inside low.now (option_copied high.entry) (take count image.now.slots)) at self.old.cells self.new.cells }
        ensures was_rising { IsRising self.old.cells }
        ensures rising { IsRising self.new.cells }
        ensures loaded { OnOk result (IsLoaded self.old.levels self.new.levels (image.now.level - 1) low.now (node_read image.now.number at keeps)) }
        ensures few { IfOk result (λ waits. count_in self.new + one_if waits.replaced ≤ count_in self.old + waits.more) }
        ensures made { IfOk result (λ waits. waits.more ≤ 513) }
        ensures most { count_in self.new ≤ count_in self.old + 513 }
    {
        let _before = self.cells.len();
        let slots = image.slots.as_slice();
        let level = level_of(image);
        let done = put_and_note(&mut self.cells, alloc, low, high, slots, at, level);
        let _after = self.cells.len();
        done?;
        let low = key_of(alloc, low)?;
        let node = shown_node(image, at, keeps);
        put_node(&mut self.levels, alloc, level, &low, node)
    }

    /// Puts the cell of a record that was logged at `at`, which the last image of its BIN shows. Running out of memory
    /// changes nothing.
    pub fn load(
        &mut self,
        alloc: Global,
        name: SortKey,
        at: Lsn,
        value: &[u8],
    ) -> Result<(), AllocError>
        ensures cell { OnOk result (HasCell self.old.cells self.new.cells name (loaded_cell at value.now)) }
        ensures err { OnErr result (self.new.cells ≡ self.old.cells) }
        ensures levels { self.new.levels ≡ self.old.levels }
        ensures was_rising { IsRising self.old.cells }
        ensures rising { IsRising self.new.cells }
    {
        let _before = self.cells.len();
        let cell = loaded_cell(alloc, at, value)?;
        self.cells.insert(name, cell)
    }
}
