// The tree of one database.
ghost use Rattle.std.specs.Prelude.{◌≡◌, ◌<◌, ◌≤◌, ◌⊎◌, ◌++◌, ◌∷◌, ◌+◌, ◌^◌, ℕ, true, [], Option, None, Some, IsSome, IfOk, IfSome, OnOk, OnErr, List as Items, option_map, unwrap_or, if◌then◌else◌};
ghost use Rattle.std.specs.Ordering.{is_eq};
ghost use Rattle.je_order.specs.Order.{name_cmp};
ghost use Rattle.je_order.specs.declared.name.Name.{Name};
ghost use Rattle.std.specs.BTreeMap.{insert_entry};
ghost use Rattle.record_map.specs.Cells.{value_at, fresh, is_as_shown, with_version, with_write, committed, IsRising};
ghost use Rattle.db_tree.specs.declared.node_at.NodeAt.{NodeAt};
ghost use Rattle.db_tree.specs.Images.{Placed};
ghost use Rattle.tree_nodes.specs.Nodes.{least};
ghost use Rattle.tree_nodes.specs.Levels.{row_of, HasMarkedAt};
ghost use Rattle.tree_nodes.specs.Lows.{lows_of};
ghost use Rattle.db_tree.specs.Content.{slot_for, record_slots, bin_image};
ghost use Rattle.db_tree.specs.Trees.{IsTree, HasCell, cell_or_fresh, given_up};
ghost use Rattle.db_tree.specs.Seen.{occupied, seen, with_change, with_value};
ghost use Rattle.db_tree.specs.Dirty.{AreExact, IsCommitAt, IsMarkedOrSettled, IsCommittedOver, IsRedoneAt};
ghost use Rattle.record_map.specs.Cells.{is_same_version};
ghost use Rattle.db_tree.specs.Stored.{with_logged};
ghost use Rattle.db_tree.specs.Stored.{HasLogged, loaded_cell, version_logged, IsLoggedAlready};
ghost use Rattle.record_tree.specs.Occupied.{after_commit, after_abort};
ghost use Rattle.node_core.specs.declared.slot.Version.TheVariants.{There};
ghost use Rattle.db_tree.specs.NodeSteps.{AreSameNodes, IsOneNode, written_lsn};
ghost use Rattle.std.specs.Map.{set_value};
ghost use Rattle.std.specs.BTreeMap.{is_at};
ghost use Rattle.record_map.specs.declared.cell.Cell.{Cell as Kept};
ghost use Rattle.db_tree.specs.Shapes.{shape_in, new_shape, AreAlike};

use crate::settling::may_settle;
use je_lsn::Lsn;
use je_order::{List, Octets};
use log_entry::{Entry, RecordSlot};
use node_core::Version;
use record_map::{Cell, Cells, Data, SortKey, Write, is_same_version};
use std::alloc::{AllocError, Global};
use std::collections::btree_map::Range;
use tree_nodes::{Levels, Node};

/// The tree of one database: its records, and the nodes that part them.
#[derive(Drop)]
pub struct DbTree {
    pub cells: Cells,
    pub levels: Levels,
}

// Makes a cell for a name that has none.
fn make_new(cells: &mut Cells, alloc: Global, name: &SortKey) -> Result<(), AllocError>
    requires { value_at name.now cells.old ≡ None }
    ensures cell { OnOk result (HasCell cells.old cells.new name.now (cell_or_fresh (value_at name.now cells.old))) }
    ensures list { OnOk result (cells.new ≡ insert_entry name_cmp cells.old name.now fresh) }
    ensures err { OnErr result (cells.new ≡ cells.old) }
{
    cells.insert(name.copy(alloc)?, Cell::new())
}

// What is committed where a change was logged at `at`, with its data: the record there, or that it was deleted.
fn logged(value: Option<Octets>, at: Lsn) -> (Version, Data)
    ensures version { result.0 ≡ version_logged at value }
    ensures bytes { result.1 ≡ unwrap_or value [] }
{
    match value {
        Some(octets) => (Version::There(at), Data::new(octets)),
        None => (Version::Deleted, Data::empty()),
    }
}

// Puts the cell of a name that has none, with a version and its data, and says whether the last image of its BIN says that.
fn put_version(
    cells: &mut Cells,
    alloc: Global,
    name: &SortKey,
    version: Version,
    data: Data,
    commit: Lsn,
    last: &Option<Lsn>,
) -> Result<bool, AllocError>
    requires { value_at name.now cells.old ≡ None }
    ensures cell { OnOk result (HasCell cells.old cells.new name.now (with_version version «data» commit last.now fresh)) }
    ensures shown { IfOk result (λ shown. option_map (is_as_shown last.now) (value_at name.now cells.new) ≡ Some shown) }
    ensures err { OnErr result (cells.new ≡ cells.old) }
    ensures rising { IsRising cells.new }
{
    let mut cell = Cell::new();
    cell.set_version(version, data, commit, last);
    let is_shown = cell.is_as_shown(last);
    let _len = cells.len();
    let copy = name.copy(alloc)?;
    cells.insert(copy, cell)?;
    Ok(is_shown)
}

// Sets what is committed of a name, in a cell that it makes where there is none: the record that was logged at `at`, or none. It says whether
// the last image of its BIN, which is at `last`, says that.
fn make_logged(
    cells: &mut Cells,
    alloc: Global,
    name: &SortKey,
    value: Option<Octets>,
    at: Lsn,
    commit: Lsn,
    last: &Option<Lsn>,
) -> Result<bool, AllocError>
    ensures shown { IfOk result (λ shown. option_map (is_as_shown last.now) (value_at name.now cells.new) ≡ Some shown) }
    ensures cell { OnOk result (HasCell cells.old cells.new name.now (with_logged value at commit last.now (cell_or_fresh (value_at name.now cells.old)))) }
    ensures err { OnErr result (cells.new ≡ cells.old) }
    ensures rising { IsRising cells.new }
{
    let (version, data) = logged(value, at);
    match cells.give_version(name, &version, data, commit, last) {
        Ok(is_shown) => Ok(is_shown),
        Err(data) => Ok(put_version(cells, alloc, name, version, data, commit, last)?),
    }
}

// Sets what is committed of a name that has a cell: the record that was logged at `at`, or none.
fn set_logged(
    cells: &mut Cells,
    name: &SortKey,
    value: Option<Octets>,
    at: Lsn,
    commit: Lsn,
    last: &Option<Lsn>,
)
    requires { IsSome (value_at name.now cells.old) }
    ensures others { (x : Name) → value_at x cells.new ≡ (if is_eq (name_cmp name.now x) then option_map (with_logged value at commit last.now) (value_at name.now cells.old) else value_at x cells.old) }
    ensures rising { IsRising cells.new }
{
    match value {
        Some(octets) => {
            cells.set_version(name, Version::There(at), Data::new(octets), commit, last);
        }
        None => cells.set_version(name, Version::Deleted, Data::empty(), commit, last),
    }
}

// An LSN at which a change that was logged at `at` counts as committed: behind the BIN's last image, which may be
// behind the change and before its Commit. No image is logged before the redo is over.
fn behind(last: &Option<Lsn>, at: Lsn) -> Lsn
    ensures above { IfSome last.now (λ l. l + 1 < 2 ^ 64 → l < result) }
    ensures upto { (next : ℕ) → at ≤ next → IfSome last.now (λ l. l < next) → result ≤ next }
{
    match last {
        Some(image) if *image >= at => Lsn::from_u64(image.as_u64().saturating_add(1)),
        _ => at,
    }
}

// What is committed where a change was logged at `at`: the record there, or that it was deleted.
fn version_logged(value: &Option<Octets>, at: Lsn) -> Version
    ensures { result ≡ version_logged at value.now }
{
    match value {
        Some(_) => Version::There(at),
        None => Version::Deleted,
    }
}

// Gives the change of the name up.
fn give_up(cells: &mut Cells, name: &SortKey)
    ensures { (x : Name) → value_at x cells.new ≡ (if is_eq (name_cmp name.now x) then given_up (value_at name.now cells.old) else value_at x cells.old) }
{
    let is_committed = match cells.get(name) {
        Some(cell) => cell.version.is_committed(),
        None => return,
    };
    if is_committed {
        cells.set_write(name, None);
        return;
    }
    cells.remove(name);
}

// Puts the slot of a cell in its BIN's image behind the others.
fn push_slot(
    slots: &mut Vec<RecordSlot>,
    alloc: Global,
    name: &SortKey,
    cell: &Cell,
) -> Result<(), AllocError>
    ensures { OnOk result (slots.new.items ≡ slots.old.items ++ slot_for name.now cell.now.version) }
{
    let lsn = match cell.version {
        Version::There(lsn) => Some(lsn),
        Version::Deleted => None,
        Version::Unset => return Ok(()),
    };
    slots.push(RecordSlot {
        name: name.to_name(alloc)?,
        lsn,
    })?;
    Ok(())
}

// The slots of cells in their BIN's image.
pub(crate) fn record_slots(
    alloc: Global,
    cells: Range<'_, SortKey, Cell>,
) -> Result<List<RecordSlot>, AllocError>
    ensures { IfOk result (λ slots. slots ≡ record_slots cells.entry) }
{
    let mut slots = Vec::new(alloc);
    for (name, cell) in cells {
        push_slot(&mut slots, alloc, name, cell)?;
    }
    Ok(List::from_vec(slots))
}

impl DbTree {
    /// The tree of a new database: a root without records, which has no image.
    pub fn new(alloc: Global, number: u64) -> Result<DbTree, AllocError>
        ensures tree { IfOk result (λ tree. (es : Placed) (base : ℕ) (newest : Name → ℕ) → IsTree es base newest tree.levels tree.cells) }
        ensures cells { IfOk result (λ tree. tree.cells ≡ []) }
        ensures lows { IfOk result (λ tree. lows_of tree.levels ≡ (least ∷ []) ∷ []) }
        ensures shape { IfOk result (λ tree. shape_in tree ≡ new_shape) }
        ensures root { IfOk result (λ tree. IsOneNode tree.levels number) }
    {
        let root = Node {
            number,
            last: None,
            from: None,
            slots: 0,
            forced: false,
            noted: false,
        };
        Ok(DbTree {
            cells: Cells::new(alloc),
            levels: Levels::new(alloc, root)?,
        })
    }

    // Makes a cell for a name that has none.
    pub(crate) fn put_new(&mut self, alloc: Global, name: &SortKey) -> Result<(), AllocError>
        requires { value_at name.now self.old.cells ≡ None }
        ensures there { OnOk result (IsSome (value_at name.now self.new.cells)) }
        ensures same { occupied self.new.cells ≡ occupied self.old.cells }
        ensures kept { (x : Name) → IsSome (value_at x self.old.cells) → IsSome (value_at x self.new.cells) }
        ensures cell { OnOk result (HasCell self.old.cells self.new.cells name.now (cell_or_fresh (value_at name.now self.old.cells))) }
        ensures list { OnOk result (self.new.cells ≡ insert_entry name_cmp self.old.cells name.now fresh) }
        ensures err { OnErr result (self.new.cells ≡ self.old.cells) }
        ensures tree { OnOk result ((es : Placed) (base : ℕ) (newest : Name → ℕ) → IsTree es base newest self.old.levels self.old.cells → IsTree es base newest self.new.levels self.new.cells) }
        ensures levels { self.new.levels ≡ self.old.levels }
    {
        let _before = self.cells.len();
        make_new(&mut self.cells, alloc, name)?;
        let _after = self.cells.len();
        Ok(())
    }

    /// Gives the name's cell a change.
    pub fn put_write(&mut self, name: &SortKey, write: Box<Write>)
        requires { IsSome (value_at name.now self.old.cells) }
        ensures cells { (x : Name) → value_at x (occupied self.new.cells) ≡ (if is_eq (name_cmp name.now x) then with_change write.value (value_at x (occupied self.old.cells)) else value_at x (occupied self.old.cells)) }
        ensures written { (x : Name) → value_at x self.new.cells ≡ (if is_eq (name_cmp name.now x) then option_map (with_write (Some write)) (value_at name.now self.old.cells) else value_at x self.old.cells) }
        ensures list { (c : Kept) → value_at name.now self.old.cells ≡ Some c → self.new.cells ≡ set_value (is_at (name_cmp name.now)) self.old.cells (with_write (Some write) c) }
        ensures kept { (x : Name) → IsSome (value_at x self.old.cells) → IsSome (value_at x self.new.cells) }
        ensures rising { IsRising (occupied self.new.cells) }
        ensures levels { self.new.levels ≡ self.old.levels }
        ensures exact { (due : Items NodeAt) → AreExact due self.old.levels self.old.cells → AreExact due self.new.levels self.new.cells }
        ensures tree { (es : Placed) (base : ℕ) (newest : Name → ℕ) → IsTree es base newest self.old.levels self.old.cells → IsTree es base newest self.new.levels self.new.cells }
    {
        let _len = self.cells.len();
        self.cells.set_write(name, Some(write));
    }

    /// Commits the name's change, by the Commit at `at`, and marks its BIN: the log has a committed change that the BIN's last image
    /// lacks. Where the BIN has that image's content then, it has no mark. Where the name has no change nothing changes. It takes no memory.
    pub fn commit_write(&mut self, name: &SortKey, at: Lsn)
        ensures cells { (x : Name) → value_at x (occupied self.new.cells) ≡ (if is_eq (name_cmp name.now x) then after_commit (value_at x (occupied self.old.cells)) else value_at x (occupied self.old.cells)) }
        ensures rising { IsRising (occupied self.new.cells) }
        ensures waits { AreAlike self.old.levels self.new.levels }
        ensures nodes { AreSameNodes self.old.levels self.new.levels }
        ensures committed { (last : Option ℕ) × ((x : Name) → value_at x self.new.cells ≡ (if is_eq (name_cmp name.now x) then option_map (committed at last) (value_at name.now self.old.cells) else value_at x self.old.cells)) }
        ensures marked { IsCommittedOver (written_lsn (value_at name.now self.old.cells)) self.new.cells self.old.levels self.new.levels name.now }
        ensures exact { (due : Items NodeAt) → AreExact due self.old.levels self.old.cells → AreExact due self.new.levels self.new.cells }
        ensures tree { (es : Placed) (base : ℕ) (newest : Name → ℕ) → IfSome (written_lsn (value_at name.now self.old.cells)) (λ from. from ≤ newest name.now) → IsCommitAt es at → IsTree es base newest self.old.levels self.old.cells → IsTree es base newest self.new.levels self.new.cells }
    {
        let _before = self.cells.len();
        let _height = self.levels.height();
        let (_low, node) = self.levels.over(0, name);
        let last = node.last;
        let may = may_settle(node);
        let done = match self.cells.commit_change(name, at, &last) {
            Some(done) => done,
            None => return,
        };
        self.levels.mark(0, name, done.from);
        self.settle_if(name, may, done.is_shown);
        let _after = self.cells.len();
    }

    #[tactic(auto, using(crate::proofs::DirtyLaws::same_is, crate::proofs::DirtyLaws::is_same))]
    // Whether what was logged at `at` is committed of the name already.
    fn has_logged(&self, name: &SortKey, value: &Option<Octets>, at: Lsn) -> bool
        ensures yes { result ≡ true → IsLoggedAlready self.now.cells name.now at value.now }
        ensures no { IsLoggedAlready self.now.cells name.now at value.now → result ≡ true }
        ensures there { result ≡ true → IsSome (value_at name.now self.now.cells) }
    {
        match self.cells.get(name) {
            Some(cell) => is_same_version(cell.version, version_logged(value, at)),
            None => false,
        }
    }

    // The LSN of the Commit that gave the name what is committed of it.
    fn touched(&self, name: &SortKey) -> Lsn
        ensures { result ≡ (cell_or_fresh (value_at name.now self.now.cells)).touched }
    {
        match self.cells.get(name) {
            Some(cell) => cell.touched,
            None => Lsn::from_u64(0),
        }
    }

    // Sets what is committed of the name where it is committed already. No node is marked: what its image lacks, it lacked before.
    fn redo_again(&mut self, name: &SortKey, value: Option<Octets>, at: Lsn)
        requires there { IsSome (value_at name.now self.old.cells) }
        requires already { IsLoggedAlready self.old.cells name.now at value }
        ensures cells { (x : Name) → value_at x (occupied self.new.cells) ≡ (if is_eq (name_cmp name.now x) then with_value value (value_at x (occupied self.old.cells)) else value_at x (occupied self.old.cells)) }
        ensures logged { HasLogged self.old.cells self.new.cells name.now value at }
        ensures rising { IsRising self.new.cells }
        ensures levels { self.new.levels ≡ self.old.levels }
        ensures exact { (due : Items NodeAt) → AreExact due self.old.levels self.old.cells → AreExact due self.new.levels self.new.cells }
        ensures tree { (es : Placed) (base : ℕ) (newest : Name → ℕ) → IsTree es base newest self.old.levels self.old.cells → IsTree es base newest self.new.levels self.new.cells }
    {
        let _height = self.levels.height();
        let _before = self.cells.len();
        let commit = self.touched(name);
        set_logged(&mut self.cells, name, value, at, commit, &None);
    }

    /// Sets what is committed of the name: the record that was logged at `at`, or none. Its BIN is marked: the
    /// log has the change from `first` on, and the BIN's last image lacks it. Running out of memory changes nothing.
    pub fn redo_first(
        &mut self,
        alloc: Global,
        name: &SortKey,
        value: Option<Octets>,
        first: Lsn,
        at: Lsn,
    ) -> Result<(), AllocError>
        ensures cells { OnOk result ((x : Name) → value_at x (occupied self.new.cells) ≡ (if is_eq (name_cmp name.now x) then with_value value (value_at x (occupied self.old.cells)) else value_at x (occupied self.old.cells))) }
        ensures logged { OnOk result (HasLogged self.old.cells self.new.cells name.now value at) }
        ensures was_rising { IsRising self.old.cells }
        ensures rising { IsRising self.new.cells }
        ensures err { OnErr result (self.new.cells ≡ self.old.cells) }
        ensures waits { AreAlike self.old.levels self.new.levels }
        ensures nodes { AreSameNodes self.old.levels self.new.levels }
        ensures exact { (due : Items NodeAt) → AreExact due self.old.levels self.old.cells → OnOk result (AreExact due self.new.levels self.new.cells) }
        ensures tree { (es : Placed) (base : ℕ) (newest : Name → ℕ) → (first ≤ newest name.now) ⊎ (first < base) → IsRedoneAt es base at → IsTree es base newest self.old.levels self.old.cells → IsTree es base newest self.new.levels self.new.cells }
    {
        let _height = self.levels.height();
        let _before = self.cells.len();
        let (_low, node) = self.levels.over(0, name);
        let last = node.last;
        let may = may_settle(node);
        let commit = behind(&last, at);
        let is_shown = make_logged(&mut self.cells, alloc, name, value, at, commit, &last)?;
        self.levels.mark(0, name, first);
        self.settle_if(name, may, is_shown);
        Ok(())
    }

    /// Sets what is committed of the name: the record that was logged at `at`, or none. Its BIN is marked, unless this is committed
    /// already: the log has the change from `first` on, and the BIN's last image lacks it. Running out of memory changes nothing.
    pub fn redo(
        &mut self,
        alloc: Global,
        name: &SortKey,
        value: Option<Octets>,
        first: Lsn,
        at: Lsn,
    ) -> Result<(), AllocError>
        ensures cells { OnOk result ((x : Name) → value_at x (occupied self.new.cells) ≡ (if is_eq (name_cmp name.now x) then with_value value (value_at x (occupied self.old.cells)) else value_at x (occupied self.old.cells))) }
        ensures logged { OnOk result (HasLogged self.old.cells self.new.cells name.now value at) }
        ensures was_rising { IsRising self.old.cells }
        ensures rising { IsRising self.new.cells }
        ensures err { OnErr result (self.new.cells ≡ self.old.cells) }
        ensures waits { AreAlike self.old.levels self.new.levels }
        ensures nodes { AreSameNodes self.old.levels self.new.levels }
        ensures exact { (due : Items NodeAt) → AreExact due self.old.levels self.old.cells → OnOk result (AreExact due self.new.levels self.new.cells) }
        ensures tree { (es : Placed) (base : ℕ) (newest : Name → ℕ) → (first ≤ newest name.now) ⊎ (first < base) → IsRedoneAt es base at → IsTree es base newest self.old.levels self.old.cells → IsTree es base newest self.new.levels self.new.cells }
        ensures already { IsLoggedAlready self.old.cells name.now at value → OnOk result (self.new.levels ≡ self.old.levels) }
    {
        let _height = self.levels.height();
        let _before = self.cells.len();
        if self.has_logged(name, &value, at) {
            self.redo_again(name, value, at);
            return Ok(());
        }
        self.redo_first(alloc, name, value, first, at)
    }

    /// Gives the change of the name up: a cell of which nothing is committed goes. It takes no memory.
    pub fn abort(&mut self, name: &SortKey)
        ensures seen { (x : Name) → value_at x (occupied self.new.cells) ≡ (if is_eq (name_cmp name.now x) then after_abort (value_at x (occupied self.old.cells)) else value_at x (occupied self.old.cells)) }
        ensures cells { (x : Name) → value_at x self.new.cells ≡ (if is_eq (name_cmp name.now x) then given_up (value_at name.now self.old.cells) else value_at x self.old.cells) }
        ensures tree { (es : Placed) (base : ℕ) (newest : Name → ℕ) → IsTree es base newest self.old.levels self.old.cells → IsTree es base newest self.new.levels self.new.cells }
        ensures exact { (es : Placed) (base : ℕ) (newest : Name → ℕ) → IsTree es base newest self.old.levels self.old.cells → (due : Items NodeAt) → AreExact due self.old.levels self.old.cells → AreExact due self.new.levels self.new.cells }
        ensures levels { self.new.levels ≡ self.old.levels }
        ensures rising { IsRising (occupied self.new.cells) }
    {
        let _before = self.cells.len();
        give_up(&mut self.cells, name);
        let _after = self.cells.len();
    }
}
