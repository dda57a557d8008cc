// The trees of all databases, by their numbers.
ghost use Rattle.std.specs.Prelude.{◌≡◌, ◌≤◌, ◌<◌, ◌⊎◌, ◌+◌, ◌*◌, ◌^◌, ℕ, List as Items, true, false, [], Option, None, Some, IsSome, IfOk, IfErr, OnOk, OnErr, if◌then◌else◌, ◌==◌};
ghost use Rattle.std.specs.Ordering.{is_eq, nat_cmp};
ghost use Rattle.je_order.specs.Order.{name_cmp};
ghost use Rattle.std.specs.BTreeMap.{get};
ghost use Rattle.je_order.specs.declared.name.Name.{Name};
ghost use Rattle.record_map.specs.Cells.{value_at, IsRising};
ghost use Rattle.record_tree.specs.Logged.{IsEndOf};
ghost use Rattle.record_tree.specs.Occupied.{AreSame, after_commit, after_abort};
ghost use Rattle.record_tree.specs.declared.tree_err.TreeErr.{TreeErr as Reason};
ghost use Rattle.db_tree.specs.Seen.{occupied, with_change, with_value};
ghost use Rattle.db_tree.specs.Dirty.{AreExact, IsRedoneAt};
ghost use Rattle.db_tree.specs.NodeSteps.{AreSameNodes};
ghost use Rattle.db_tree.specs.Shapes.{shape_in, AreAlike};
ghost use Rattle.db_tree.specs.declared.node_at.NodeAt.{NodeAt};
ghost use Rattle.db_tree.specs.Splits.{count_waiting};
ghost use Rattle.db_tree.specs.Stored.{AreQuiet, HasLogged, IsLoggedAlready};
ghost use Rattle.db_tree.specs.Splits.{passes_top};
ghost use Rattle.db_tree.specs.declared.tree.DbTree.{DbTree as Kept};
ghost use Rattle.tree_images.specs.RedoSteps.{IsSplitFor, HasRedone};
ghost use Rattle.tree_images.specs.TreeSteps.{HasWritten, HasCommitted, HasGivenUp, HasSlot, IsNewTree, KeepsExact};
ghost use Rattle.in_tree.specs.Forest.{Forest, Replaces, cells_at, cells_seen, is_there, HasChange, HasSameTrees, IsSameForest, IsStepIn, MayStepIn, KeepsCells, HasOne};
ghost use Rattle.tree_nodes.specs.Levels.{AreParts};
ghost use Rattle.db_tree.specs.Images.{Placed as Entries};
ghost use Rattle.db_tree.specs.Trees.{IsTree};
ghost use Rattle.in_tree.specs.Loaded.{AreAllParts, nodes_of};
ghost use Rattle.record_tree.specs.LoadedNodes.{AreNodesStill};
ghost use Rattle.in_tree.specs.Placing.{IsPlacedIn, IsFittedIn};
ghost use Rattle.in_tree.specs.Shapes.{shapes_of};
ghost use Rattle.in_tree.specs.Stored.{read_of, slots_held, stored_of, IsQuiet, IsSlotFor};
ghost use Rattle.in_tree.specs.Waits.{waits_in};
ghost use Rattle.record_tree.specs.LoadedSlots.{HasMoreSlots, AreSlotsStill, IsReadStill};
ghost use Rattle.record_tree.specs.Stored.{stored_at, HasStored, AreStoredStill};

use db_tree::{DbTree, SlotMade, SlotRoom};
use je_lsn::{FileNo, Lsn};
use je_order::Octets;
use record_map::{Cell, SortKey, Write};
use record_tree::TreeErr;
use std::alloc::{AllocError, Global};
use std::collections::BTreeMap;

// The LSN before all entries.
fn beginning() -> Lsn
    ensures { result ≡ 0 }
{
    Lsn::new(FileNo(0), 0)
}

// Makes a slot for the name in a tree, as `place` does.
pub(crate) fn place_in(
    tree: &mut DbTree,
    alloc: Global,
    db: u32,
    fanout: u32,
    name: &SortKey,
    first: u64,
) -> Result<SlotRoom, TreeErr>
    ensures slot { IfOk result (λ room. HasSlot fanout first db name.now room tree.old tree.new) }
    ensures high { IfErr result (λ e. e ≡ Reason.IdsEnded → passes_top fanout name.now (shape_in tree.old) ≡ true) }
    ensures errors { IfErr result (λ e. (e ≡ Reason.IdsEnded) ⊎ (e ≡ Reason.Memory)) }
    ensures err { OnErr result (tree.new ≡ tree.old) }
{
    let _before = tree.levels.height();
    let room = match tree.place(alloc, db, fanout, name, first, beginning()) {
        Ok(room) => room,
        Err(error) => return Err(error),
    };
    let _levels = tree.levels.height();
    let _cells = tree.cells.len();
    Ok(room)
}

// Makes a slot for the name where it has none, in its half of a BIN that is split for it. The nodes that this makes have the
// numbers from `first` on.
pub(crate) fn place(
    trees: &mut BTreeMap<u32, DbTree>,
    alloc: Global,
    db: u32,
    fanout: u32,
    name: &SortKey,
    first: u64,
) -> Result<SlotRoom, TreeErr>
    requires { is_there trees.old db ≡ true }
    ensures placed { IfOk result (λ room. IsPlacedIn fanout db name.now room trees.old trees.new) }
    ensures fitted { IfOk result (λ room. IsFittedIn fanout first db name.now room trees.old trees.new) }
    ensures high { IsEndOf Reason.IdsEnded result (passes_top fanout name.now (shapes_of trees.old db) ≡ true) }
    ensures errors { IfErr result (λ e. (e ≡ Reason.IdsEnded) ⊎ (e ≡ Reason.Memory)) }
    ensures err { OnErr result (IsSameForest trees.old trees.new) }
{
    match trees.get_mut(&db) {
        Some(tree) => place_in(tree, alloc, db, fanout, name, first),
        None => unreachable!(),
    }
}

// Takes the name's slot back, and what was split for it.
pub(crate) fn take_back(trees: &mut BTreeMap<u32, DbTree>, db: u32, name: &SortKey, room: &SlotRoom)
    ensures { (fanout : ℕ) (before : Forest) → IsPlacedIn fanout db name.now room.now before trees.old → IsSameForest before trees.new }
{
    if let Some(tree) = trees.get_mut(&db) {
        tree.take_back(name, room);
    }
}

// Gives the name's cell a change.
pub(crate) fn set_write(
    trees: &mut BTreeMap<u32, DbTree>,
    db: u32,
    name: &SortKey,
    write: Box<Write>,
)
    requires { HasOne trees.old db name.now }
    ensures step { IsStepIn db (HasWritten name.now write) trees.old trees.new }
    ensures cells { HasChange (cells_seen trees.old) (cells_seen trees.new) db name.now (with_change write.value) }
    ensures kept { KeepsCells trees.old trees.new }
    ensures trees { HasSameTrees trees.old trees.new }
    ensures rising { (d : ℕ) → IsRising (cells_seen trees.old d) → IsRising (cells_seen trees.new d) }
    ensures waits { waits_in trees.new ≡ waits_in trees.old }
{
    match trees.get_mut(&db) {
        Some(tree) => tree.put_write(name, write),
        None => drop(write),
    }
}

// Commits the name's change, by the Commit at `at`.
pub(crate) fn commit(trees: &mut BTreeMap<u32, DbTree>, db: u32, name: &SortKey, at: Lsn)
    ensures step { MayStepIn db (HasCommitted name.now at) trees.old trees.new }
    ensures cells { HasChange (cells_seen trees.old) (cells_seen trees.new) db name.now after_commit }
    ensures trees { HasSameTrees trees.old trees.new }
    ensures rising { (d : ℕ) → IsRising (cells_seen trees.old d) → IsRising (cells_seen trees.new d) }
    ensures waits { waits_in trees.new ≡ waits_in trees.old }
{
    if let Some(tree) = trees.get_mut(&db) {
        let _len = tree.cells.len();
        tree.commit_write(name, at);
    }
}

// Gives the name's change up.
pub(crate) fn abort(trees: &mut BTreeMap<u32, DbTree>, db: u32, name: &SortKey)
    ensures step { MayStepIn db (HasGivenUp name.now) trees.old trees.new }
    ensures cells { HasChange (cells_seen trees.old) (cells_seen trees.new) db name.now after_abort }
    ensures trees { HasSameTrees trees.old trees.new }
    ensures rising { (d : ℕ) → IsRising (cells_seen trees.old d) → IsRising (cells_seen trees.new d) }
    ensures waits { waits_in trees.new ≡ waits_in trees.old }
{
    if let Some(tree) = trees.get_mut(&db) {
        tree.abort(name);
    }
}

// Puts an empty tree in, for a database that has none.
pub(crate) fn make(
    trees: &mut BTreeMap<u32, DbTree>,
    alloc: Global,
    db: u32,
    number: u64,
) -> Result<(), AllocError>
    requires { (cells_at trees.old db) ≡ [] }
    ensures same { AreSame (cells_seen trees.old) (cells_seen trees.new) }
    ensures trees { OnOk result ((d : ℕ) → is_there trees.new d ≡ (if d == db then true else is_there trees.old d)) }
    ensures kept { KeepsCells trees.old trees.new }
    ensures none { (d : ℕ) → cells_at trees.old d ≡ [] → cells_at trees.new d ≡ [] }
    ensures others { (d : ℕ) → d == db ≡ false → get nat_cmp trees.new d ≡ get nat_cmp trees.old d }
    ensures tree { OnOk result ((tree : Kept) × IsNewTree number tree × (get nat_cmp trees.new db ≡ Some tree)) }
    ensures parts { AreAllParts trees.old → AreAllParts trees.new }
    ensures err { OnErr result (IsSameForest trees.old trees.new) }
    ensures waits { waits_in trees.new ≤ waits_in trees.old }
    ensures stored { AreStoredStill (stored_of trees.old) (stored_of trees.new) }
    ensures slots { AreSlotsStill (slots_held trees.old) (slots_held trees.new) }
    ensures read { IsReadStill (read_of trees.old) (read_of trees.new) }
    ensures quiet { IsQuiet trees.old → IsQuiet trees.new }
{
    let tree = DbTree::new(alloc, number)?;
    let _height = tree.levels.height();
    drop(trees.insert(db, tree)?);
    Ok(())
}

// Sets what is committed of the name: the record that was logged at `at`, or none. Of a name whose slot is new nothing is committed yet, so
// that is not asked.
fn redo_slot(
    tree: &mut DbTree,
    alloc: Global,
    is_new: bool,
    name: &SortKey,
    value: Option<Octets>,
    first: Lsn,
    at: Lsn,
) -> Result<(), AllocError>
    ensures cells { OnOk result ((x : Name) → value_at x (occupied tree.new.cells) ≡ (if is_eq (name_cmp name.now x) then with_value value (value_at x (occupied tree.old.cells)) else value_at x (occupied tree.old.cells))) }
    ensures logged { OnOk result (HasLogged tree.old.cells tree.new.cells name.now value at) }
    ensures was_rising { IsRising tree.old.cells }
    ensures rising { IsRising tree.new.cells }
    ensures err { OnErr result (tree.new.cells ≡ tree.old.cells) }
    ensures waits { AreAlike tree.old.levels tree.new.levels }
    ensures nodes { AreSameNodes tree.old.levels tree.new.levels }
    ensures exact { (due : Items NodeAt) → AreExact due tree.old.levels tree.old.cells → OnOk result (AreExact due tree.new.levels tree.new.cells) }
    ensures tree { (es : Entries) (base : ℕ) (newest : Name → ℕ) → (first ≤ newest name.now) ⊎ (first < base) → IsRedoneAt es base at → IsTree es base newest tree.old.levels tree.old.cells → IsTree es base newest tree.new.levels tree.new.cells }
    ensures already { is_new ≡ false → IsLoggedAlready tree.old.cells name.now at value → OnOk result (tree.new.levels ≡ tree.old.levels) }
{
    if is_new {
        return tree.redo_first(alloc, name, value, first, at);
    }
    tree.redo(alloc, name, value, first, at)
}

// Makes a slot for the name, where nodes are split for it with the numbers from `number` on if there is one, and sets what is
// committed of the name. It gives how many nodes were made.
fn redo_in(
    tree: &mut DbTree,
    alloc: Global,
    fanout: u32,
    number: Option<u64>,
    name: &SortKey,
    value: Option<Octets>,
    first: Lsn,
    at: Lsn,
) -> Result<usize, AllocError>
    ensures cells { OnOk result ((x : Name) → value_at x (occupied tree.new.cells) ≡ (if is_eq (name_cmp name.now x) then with_value value (value_at x (occupied tree.old.cells)) else value_at x (occupied tree.old.cells))) }
    ensures logged { OnOk result (HasLogged tree.old.cells tree.new.cells name.now value at) }
    ensures was_rising { IsRising tree.old.cells }
    ensures rising { IsRising tree.new.cells }
    ensures quiet { AreQuiet tree.old.cells → AreQuiet tree.new.cells }
    ensures same { OnErr result (occupied tree.new.cells ≡ occupied tree.old.cells) }
    ensures step { IfOk result (λ made. HasRedone fanout number name.now value first at made tree.old tree.new) }
    ensures already { IsLoggedAlready tree.old.cells name.now at value → OnOk result (tree.new.levels ≡ tree.old.levels) }
    ensures parts { AreParts tree.new.levels }
    ensures few { IfOk result (λ made. made ≤ 64) }
    ensures waits { IfOk result (λ made. count_waiting (shape_in tree.new) ≤ count_waiting (shape_in tree.old) + 2 * made) }
    ensures most { count_waiting (shape_in tree.new) ≤ count_waiting (shape_in tree.old) + 128 }
{
    let _before = tree.cells.len();
    let _height = tree.levels.height();
    let slot = match split_for(tree, alloc, fanout, number, name, first) {
        Ok(slot) => slot,
        Err(failed) => {
            drop(value);
            return Err(failed);
        }
    };
    let done = redo_slot(tree, alloc, slot.is_new, name, value, first, at);
    let _levels = tree.levels.height();
    done?;
    Ok(slot.nodes)
}

// Makes a slot for the name where it has none. Nodes are split for it with the numbers from `number` on, and wait to be logged; none
// is split where there is no number, or the root would pass the last level.
fn split_for(
    tree: &mut DbTree,
    alloc: Global,
    fanout: u32,
    number: Option<u64>,
    name: &SortKey,
    mark: Lsn,
) -> Result<SlotMade, AllocError>
    ensures new { IfOk result (λ made. made.is_new ≡ true → value_at name.now tree.old.cells ≡ None) }
    ensures same { occupied tree.new.cells ≡ occupied tree.old.cells }
    ensures slot { IsSlotFor name.now tree.old.cells tree.new.cells }
    ensures idle { IsSome (value_at name.now tree.old.cells) → OnOk result (tree.new ≡ tree.old) }
    ensures split { IfOk result (λ made. IsSplitFor fanout number name.now made.nodes tree.old tree.new.levels) }
    ensures keeps { (es : Entries) (base : ℕ) (newest : Name → ℕ) → mark < base → IsTree es base newest tree.old.levels tree.old.cells → IsTree es base newest tree.new.levels tree.new.cells }
    ensures rising { IsRising tree.old.cells → IsRising tree.new.cells }
    ensures exact { OnOk result (KeepsExact tree.old tree.new) }
    ensures few { IfOk result (λ made. made.nodes ≤ 64) }
    ensures waits { IfOk result (λ made. count_waiting (shape_in tree.new) ≤ count_waiting (shape_in tree.old) + 2 * made.nodes) }
    ensures err { OnErr result (tree.new ≡ tree.old) }
{
    let _height = tree.levels.height();
    let Some(first) = number else {
        return Ok(SlotMade::none());
    };
    match tree.place_unlogged(alloc, fanout, name, first, mark) {
        Ok(made) => Ok(made),
        Err(TreeErr::IdsEnded) => Ok(SlotMade::none()),
        Err(_) => Err(AllocError),
    }
}

// Sets what is committed of the name: the record that was logged at `at`, or none, in a BIN that is split for it with the numbers from
// `number` on, if there is one. A redo finds the change again from `first` on. It gives how many nodes were made.
pub(crate) fn redo(
    trees: &mut BTreeMap<u32, DbTree>,
    alloc: Global,
    db: u32,
    fanout: u32,
    number: Option<u64>,
    name: &SortKey,
    value: Option<Octets>,
    first: Lsn,
    at: Lsn,
) -> Result<usize, AllocError>
    requires { is_there trees.old db ≡ true }
    ensures cells { OnOk result (HasChange (cells_seen trees.old) (cells_seen trees.new) db name.now (with_value value)) }
    ensures stored { OnOk result (HasStored (stored_of trees.old) (stored_of trees.new) db name.now (stored_at at value)) }
    ensures slots { OnOk result (HasMoreSlots (slots_held trees.old) (slots_held trees.new) db (λ x. is_eq (name_cmp name.now x))) }
    ensures quiet { IsQuiet trees.old → IsQuiet trees.new }
    ensures same { OnErr result (AreSame (cells_seen trees.old) (cells_seen trees.new)) }
    ensures step { IfOk result (λ made. IsStepIn db (HasRedone fanout number name.now value first at made) trees.old trees.new) }
    ensures already { IsLoggedAlready (cells_at trees.old db) name.now at value → OnOk result (AreNodesStill (nodes_of trees.old) (nodes_of trees.new)) }
    ensures parts { AreAllParts trees.old → AreAllParts trees.new }
    ensures trees { HasSameTrees trees.old trees.new }
    ensures few { IfOk result (λ made. made ≤ 64) }
    ensures waits { IfOk result (λ made. waits_in trees.new ≤ waits_in trees.old + 2 * made) }
    ensures most { waits_in trees.new ≤ waits_in trees.old + 128 }
{
    match trees.get_mut(&db) {
        Some(tree) => redo_in(tree, alloc, fanout, number, name, value, first, at),
        None => unreachable!(),
    }
}

// Puts a tree in the place of the database's. It takes no memory.
pub(crate) fn replace(trees: &mut BTreeMap<u32, DbTree>, db: u32, next: DbTree)
    requires { is_there trees.old db ≡ true }
    ensures { Replaces trees.old trees.new db (Some next) }
{
    match trees.get_mut(&db) {
        Some(tree) => *tree = next,
        None => unreachable!(),
    }
}

// Takes the tree of a database out.
pub(crate) fn drop_db(trees: &mut BTreeMap<u32, DbTree>, db: u32)
    ensures cells { (d : ℕ) → cells_seen trees.new d ≡ (if d == db then [] else cells_seen trees.old d) }
    ensures trees { (d : ℕ) → is_there trees.new d ≡ (if d == db then false else is_there trees.old d) }
    ensures gone { (d : ℕ) → get nat_cmp trees.new d ≡ (if d == db then None else get nat_cmp trees.old d) }
    ensures parts { AreAllParts trees.old → AreAllParts trees.new }
    ensures waits { waits_in trees.new ≤ waits_in trees.old }
    ensures stored { (d : ℕ) → stored_of trees.new d ≡ (if d == db then [] else stored_of trees.old d) }
    ensures slots { (d : ℕ) (x : Name) → slots_held trees.new d x ≡ (if d == db then false else slots_held trees.old d x) }
    ensures quiet { IsQuiet trees.old → IsQuiet trees.new }
{
    drop(trees.remove(&db));
}
