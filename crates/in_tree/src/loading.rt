// Records and nodes that a log has are put into trees.
ghost use Rattle.std.specs.Prelude.{◌≡◌, ◌≤◌, ◌+◌, ◌-◌, true, ℕ, take, option_copied, IfOk, OnOk, Some};
ghost use Rattle.std.specs.Ordering.{is_eq};
ghost use Rattle.je_order.specs.Order.{name_cmp};
ghost use Rattle.je_order.specs.declared.name.Name.{Name as Named};
ghost use Rattle.record_map.specs.Cells.{IsRising};
ghost use Rattle.record_tree.specs.LoadedNodes.{node_read, HasPutNode, AreNodesStill};
ghost use Rattle.record_tree.specs.LoadedSlots.{shows_deletion_inside, HasGone, HasMoreSlots, HasPutSlot, AreSlotsStill, IsReadStill};
ghost use Rattle.record_tree.specs.Stored.{stored_at, HasStored, AreStoredStill};
ghost use Rattle.tree_nodes.specs.Levels.{AreParts};
ghost use Rattle.db_tree.specs.Loading.{GetsDeletions, IsLoaded};
ghost use Rattle.db_tree.specs.Shapes.{count_in};
ghost use Rattle.db_tree.specs.Splits.{one_if};
ghost use Rattle.in_tree.specs.Forest.{is_there, IsStepIn};
ghost use Rattle.in_tree.specs.Loaded.{AreAllParts, nodes_of};
ghost use Rattle.in_tree.specs.LoadedNodes.{IsEnsured, HasLoadedIn};
ghost use Rattle.in_tree.specs.Stored.{read_of, slots_held, stored_of, IsQuiet};
ghost use Rattle.in_tree.specs.Waits.{waits_in};

use crate::forest;
use db_tree::{DbTree, NewWaits};
use je_lsn::Lsn;
use je_order::Name;
use node_core::Node as Image;
use record_map::SortKey;
use std::alloc::{AllocError, Global};
use std::collections::BTreeMap;

// Whether the database has a tree.
pub(crate) fn has_tree(trees: &BTreeMap<u32, DbTree>, db: u32) -> bool
    ensures { result ≡ is_there trees.now db }
{
    trees.contains_key(&db)
}

// Puts a record that was logged at `at`, in place of the one of that name.
pub(crate) fn load(
    trees: &mut BTreeMap<u32, DbTree>,
    alloc: Global,
    db: u32,
    name: SortKey,
    at: Lsn,
    value: &[u8],
) -> Result<(), AllocError>
    requires { is_there trees.old db ≡ true }
    ensures stored { OnOk result (HasStored (stored_of trees.old) (stored_of trees.new) db name (stored_at at (Some value.now))) }
    ensures slots { OnOk result (HasMoreSlots (slots_held trees.old) (slots_held trees.new) db (λ x. is_eq (name_cmp name x))) }
    ensures read { OnOk result (HasPutSlot (read_of trees.old) (read_of trees.new) db name at) }
    ensures quiet { IsQuiet trees.old → IsQuiet trees.new }
    ensures waits { waits_in trees.new ≡ waits_in trees.old }
    ensures nodes { AreNodesStill (nodes_of trees.old) (nodes_of trees.new) }
    ensures parts { AreAllParts trees.old → AreAllParts trees.new }
{
    match trees.get_mut(&db) {
        Some(tree) => tree.load(alloc, name, at, value),
        None => unreachable!(),
    }
}

// Makes a tree for the database, if it has none, whose root has the number.
fn ensure_tree(
    trees: &mut BTreeMap<u32, DbTree>,
    alloc: Global,
    db: u32,
    number: u64,
) -> Result<(), AllocError>
    ensures there { OnOk result (is_there trees.new db ≡ true) }
    ensures made { OnOk result (IsEnsured db number trees.old trees.new) }
    ensures parts { AreAllParts trees.old → AreAllParts trees.new }
    ensures stored { AreStoredStill (stored_of trees.old) (stored_of trees.new) }
    ensures slots { AreSlotsStill (slots_held trees.old) (slots_held trees.new) }
    ensures read { IsReadStill (read_of trees.old) (read_of trees.new) }
    ensures quiet { IsQuiet trees.old → IsQuiet trees.new }
    ensures waits { waits_in trees.new ≤ waits_in trees.old }
{
    if has_tree(trees, db) {
        return Ok(());
    }
    forest::make(trees, alloc, db, number)
}

// Puts a node of a tree. It gives how many nodes wait more at most, and whether one that waited gave its place to this one.
fn put_in(
    tree: &mut DbTree,
    alloc: Global,
    image: &Image,
    low: &Name,
    high: Option<&Name>,
    at: Lsn,
    keeps: bool,
) -> Result<NewWaits, AllocError>
    ensures loaded { OnOk result (IsLoaded tree.old.levels tree.new.levels (image.now.level - 1) low.now (node_read image.now.number at keeps)) }
    ensures parts { AreParts tree.new.levels }
    ensures slots { OnOk result (GetsDeletions (shows_deletion_inside low.now (option_copied high.entry) image.now.slots) at tree.old.cells tree.new.cells) }
    ensures some { (count : ℕ) × GetsDeletions (shows_deletion_inside low.now (option_copied high.entry) (take count image.now.slots)) at tree.old.cells tree.new.cells }
    ensures was_rising { IsRising tree.old.cells }
    ensures rising { IsRising tree.new.cells }
    ensures few { IfOk result (λ waits. count_in tree.new + one_if waits.replaced ≤ count_in tree.old + waits.more) }
    ensures made { IfOk result (λ waits. waits.more ≤ 513) }
    ensures most { count_in tree.new ≤ count_in tree.old + 513 }
{
    let made = tree.load_node(alloc, image, low, high, at, keeps);
    let _height = tree.levels.height();
    made
}

// Puts a node of a database that has a tree. It gives how many nodes wait more at most, and whether one that waited gave its
// place to this one.
fn put_image(
    trees: &mut BTreeMap<u32, DbTree>,
    alloc: Global,
    db: u32,
    image: &Image,
    low: &Name,
    high: Option<&Name>,
    at: Lsn,
    keeps: bool,
) -> Result<NewWaits, AllocError>
    requires { is_there trees.old db ≡ true }
    ensures loaded { OnOk result (IsStepIn db (HasLoadedIn (image.now.level - 1) low.now (node_read image.now.number at keeps)) trees.old trees.new) }
    ensures parts { AreAllParts trees.old → AreAllParts trees.new }
    ensures stored { AreStoredStill (stored_of trees.old) (stored_of trees.new) }
    ensures slots { OnOk result (HasMoreSlots (slots_held trees.old) (slots_held trees.new) db (shows_deletion_inside low.now (option_copied high.entry) image.now.slots)) }
    ensures read { OnOk result (HasGone (read_of trees.old) (read_of trees.new) db (shows_deletion_inside low.now (option_copied high.entry) image.now.slots) at) }
    ensures quiet { IsQuiet trees.old → IsQuiet trees.new }
    ensures few { IfOk result (λ waits. waits.more ≤ 513) }
    ensures waits { IfOk result (λ waits. waits_in trees.new + one_if waits.replaced ≤ waits_in trees.old + waits.more) }
    ensures most { waits_in trees.new ≤ waits_in trees.old + 513 }
{
    match trees.get_mut(&db) {
        Some(tree) => put_in(tree, alloc, image, low, high, at, keeps),
        None => unreachable!(),
    }
}

// Puts a node as its image at `at` shows it, with the slots within its bounds that this has of records that were deleted. Its names lie from
// `low` on, and below `high` where it has an upper bound. It gives how many nodes wait more at most, those that are still to come for it, and the node where that image is not to be kept as its last one; and
// whether one that waited gave its place to this one.
pub(crate) fn load_node(
    trees: &mut BTreeMap<u32, DbTree>,
    alloc: Global,
    image: &Image,
    low: &Name,
    high: Option<&Name>,
    at: Lsn,
    keeps: bool,
) -> Result<NewWaits, AllocError>
    ensures nodes { OnOk result (HasPutNode (nodes_of trees.old) (nodes_of trees.new) image.now.db (image.now.level - 1) low.now (node_read image.now.number at keeps)) }
    ensures parts { AreAllParts trees.old → AreAllParts trees.new }
    ensures stored { AreStoredStill (stored_of trees.old) (stored_of trees.new) }
    ensures slots { OnOk result (HasMoreSlots (slots_held trees.old) (slots_held trees.new) image.now.db (shows_deletion_inside low.now (option_copied high.entry) image.now.slots)) }
    ensures read { OnOk result (HasGone (read_of trees.old) (read_of trees.new) image.now.db (shows_deletion_inside low.now (option_copied high.entry) image.now.slots) at) }
    ensures quiet { IsQuiet trees.old → IsQuiet trees.new }
    ensures few { IfOk result (λ waits. waits.more ≤ 513) }
    ensures waits { IfOk result (λ waits. waits_in trees.new + one_if waits.replaced ≤ waits_in trees.old + waits.more) }
    ensures most { waits_in trees.new ≤ waits_in trees.old + 513 }
{
    ensure_tree(trees, alloc, image.db, image.number)?;
    put_image(trees, alloc, image.db, image, low, high, at, keeps)
}
