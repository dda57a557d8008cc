// What is taken before changes are logged, and given back where memory runs out.
ghost use Rattle.std.specs.Prelude.{◌≡◌, ◌≤◌, ◌+◌, ◌||◌, ◌⊎◌, ℕ, true, false, [], None, length, map, min, take, IfSome, IfOk, IfErr, OnOk, OnErr, if◌then◌else◌};
ghost use Rattle.std.specs.List.{AllByRecursion};
ghost use Rattle.std.specs.Ordering.{nat_cmp};
ghost use Rattle.std.specs.BTreeMap.{get};
ghost use Rattle.record_tree.specs.Logged.{is_made, makes_db, IsEndOf};
ghost use Rattle.record_tree.specs.Occupied.{AreSame};
ghost use Rattle.record_tree.specs.declared.tree_err.TreeErr.{TreeErr as Reason};
ghost use Rattle.db_tree.specs.Splits.{passes_top};
ghost use Rattle.in_tree.specs.Forest.{Forest, cells_at, cells_seen, is_there, IsSameForest, KeepsCells, write_for};
ghost use Rattle.in_tree.specs.Limits.{one_made, are_too_high};
ghost use Rattle.db_tree.specs.declared.tree.DbTree.{DbTree as Kept};
ghost use Rattle.tree_images.specs.TreeSteps.{IsNewTree};
ghost use Rattle.in_tree.specs.Placing.{ArePlaced, AreFitted, AreMadeBy, IsPlacedNext, numbers_of};
ghost use Rattle.in_tree.specs.Shapes.{shapes_of};
ghost use Rattle.in_tree.specs.Waits.{waits_in};

use crate::{Placed, forest};
use db_tree::{DbTree, SlotRoom};
use je_lsn::{FileNo, Lsn};
use je_order::{Octets, TxnId};
use record_map::{Data, Write};
use record_tree::{TreeChange, TreeErr};
use std::alloc::{AllocError, Global};
use std::collections::BTreeMap;

// A copy of the data, if there is any.
fn data_of(alloc: Global, value: &Option<Octets>) -> Result<Option<Data>, AllocError>
    ensures { IfOk result (λ copy. copy ≡ value.now) }
{
    match value {
        Some(octets) => Ok(Some(Data::from_slice(alloc, octets.as_slice())?)),
        None => Ok(None),
    }
}

// The change as its cell keeps it, before it is logged.
pub(crate) fn write_for(
    alloc: Global,
    txn: TxnId,
    change: &TreeChange,
) -> Result<Box<Write>, AllocError>
    ensures { IfOk result (λ write. write.value ≡ write_for txn change.now) }
{
    let write = Write {
        txn,
        at: Lsn::new(FileNo(0), 0),
        value: data_of(alloc, &change.value)?,
    };
    Ok(Box::new(alloc, write)?)
}

// The changes as their cells keep them, before they are logged.
pub(crate) fn writes_for(
    alloc: Global,
    txn: TxnId,
    changes: &[TreeChange],
) -> Result<Vec<Box<Write>>, AllocError>
    ensures { IfOk result (λ writes. map (λ b. b.value) writes.items ≡ map (write_for txn) changes.now) }
{
    let mut writes = Vec::new(alloc);
    for change in changes {
        writes.push(write_for(alloc, txn, change)?)?;
    }
    Ok(writes)
}

// The node number that is allocated last for a change: behind those of its slot comes that of the root of the database that it makes.
pub(crate) fn last_behind(last: u64, made: u64, change: &TreeChange) -> u64
    ensures { result ≡ min (last + (made + one_made change.now.makes)) 0xffffffffffffffff }
{
    let roots = match change.makes {
        Some(_) => 1,
        None => 0,
    };
    last.saturating_add(made).saturating_add(roots)
}

// Places a change behind others. Where it fails nothing changed.
fn place_next(
    trees: &mut BTreeMap<u32, DbTree>,
    alloc: Global,
    fanout: u32,
    change: &TreeChange,
    placed: &mut Placed,
) -> Result<(), TreeErr>
    requires { is_there trees.old change.now.db ≡ true }
    ensures ok { OnOk result (IsPlacedNext fanout change.now trees.old trees.new placed.old placed.new) }
    ensures high { IsEndOf Reason.IdsEnded result (passes_top fanout change.now.name (shapes_of trees.old change.now.db) ≡ true) }
    ensures errors { IfErr result (λ e. (e ≡ Reason.IdsEnded) ⊎ (e ≡ Reason.Memory)) }
    ensures err { OnErr result (IsSameForest trees.old trees.new) }
    ensures rooms { OnErr result (placed.new.rooms.items ≡ placed.old.rooms.items) }
{
    let first = placed.last.saturating_add(1);
    let room = match forest::place(trees, alloc, change.db, fanout, &change.name, first) {
        Ok(room) => room,
        Err(error) => return Err(error),
    };
    let last = last_behind(placed.last, room.made(), change);
    match placed.rooms.push(room) {
        Ok(()) => {
            placed.last = last;
            Ok(())
        }
        Err(failed) => {
            forest::take_back(trees, change.db, &change.name, &failed.value);
            drop(failed);
            Err(TreeErr::Memory)
        }
    }
}

// Takes the slots of changes back, the last one first.
pub(crate) fn take_back_all(
    trees: &mut BTreeMap<u32, DbTree>,
    changes: &[TreeChange],
    rooms: &[SlotRoom],
)
    requires { length rooms.now ≤ length changes.now }
    ensures { (fanout : ℕ) (before : Forest) → ArePlaced fanout (take (length rooms.now) changes.now) rooms.now before trees.old → IsSameForest before trees.new }
{
    let count = rooms.len();
    for i in 0..count {
        let k = count - (i + 1);
        let change = &changes[k];
        forest::take_back(trees, change.db, &change.name, &rooms[k]);
    }
}

// Makes the slots of changes, in order; the node numbers go on behind `last`. Where it fails nothing changed.
pub(crate) fn place_all(
    trees: &mut BTreeMap<u32, DbTree>,
    alloc: Global,
    fanout: u32,
    changes: &[TreeChange],
    last: u64,
) -> Result<Placed, TreeErr>
    requires { AllByRecursion (λ c. is_there trees.old c.db ≡ true) changes.now }
    ensures placed { IfOk result (λ placed. ArePlaced fanout changes.now placed.rooms.items trees.old trees.new) }
    ensures fitted { IfOk result (λ placed. AreFitted fanout last changes.now placed.rooms.items trees.old trees.new) }
    ensures same { AreSame (cells_seen trees.old) (cells_seen trees.new) }
    ensures last { IfOk result (λ placed. placed.last ≡ min (last + numbers_of changes.now placed.rooms.items) 0xffffffffffffffff) }
    ensures high { IsEndOf Reason.IdsEnded result (are_too_high fanout (shapes_of trees.old) changes.now ≡ true) }
    ensures errors { IfErr result (λ e. (e ≡ Reason.IdsEnded) ⊎ (e ≡ Reason.Memory)) }
    ensures err { OnErr result (IsSameForest trees.old trees.new) }
{
    let mut placed = Placed {
        rooms: Vec::new(alloc),
        last,
    };
    for change in changes {
        match place_next(trees, alloc, fanout, change, &mut placed) {
            Ok(()) => {}
            Err(error) => {
                take_back_all(trees, changes, placed.rooms.as_slice());
                drop(placed);
                return Err(error);
            }
        }
    }
    Ok(placed)
}

// Makes the tree of the database that the change makes, if it makes one. Its root has the number.
fn make_one(
    trees: &mut BTreeMap<u32, DbTree>,
    alloc: Global,
    change: &TreeChange,
    number: u64,
) -> Result<(), AllocError>
    requires { IfSome change.now.makes (λ d. cells_at trees.old d ≡ []) }
    ensures same { AreSame (cells_seen trees.old) (cells_seen trees.new) }
    ensures made { OnOk result ((d : ℕ) → is_there trees.new d ≡ (makes_db d change.now.makes || is_there trees.old d)) }
    ensures tree { OnOk result (IfSome change.now.makes (λ d. (tree : Kept) × IsNewTree number tree × (get nat_cmp trees.new d ≡ Some tree))) }
    ensures stay { (d : ℕ) → makes_db d change.now.makes ≡ false → get nat_cmp trees.new d ≡ get nat_cmp trees.old d }
    ensures kept { KeepsCells trees.old trees.new }
    ensures none { (d : ℕ) → cells_at trees.old d ≡ [] → cells_at trees.new d ≡ [] }
    ensures waits { waits_in trees.new ≤ waits_in trees.old }
{
    match change.makes {
        Some(db) => forest::make(trees, alloc, db, number),
        None => Ok(()),
    }
}

// Makes the trees of the databases that the changes make, with the node numbers behind those of the changes' slots.
pub(crate) fn make_all(
    trees: &mut BTreeMap<u32, DbTree>,
    alloc: Global,
    changes: &[TreeChange],
    rooms: &[SlotRoom],
    last: u64,
) -> Result<(), AllocError>
    requires none { AllByRecursion (λ c. IfSome c.makes (λ d. cells_at trees.old d ≡ [])) changes.now }
    requires paired { length rooms.now ≡ length changes.now }
    ensures same { AreSame (cells_seen trees.old) (cells_seen trees.new) }
    ensures made { OnOk result ((d : ℕ) → is_there trees.new d ≡ (is_made d changes.now || is_there trees.old d)) }
    ensures trees { OnOk result (AreMadeBy last changes.now rooms.now trees.old trees.new) }
    ensures stay { (d : ℕ) → is_made d changes.now ≡ false → get nat_cmp trees.new d ≡ get nat_cmp trees.old d }
    ensures kept { KeepsCells trees.old trees.new }
    ensures waits { waits_in trees.new ≤ waits_in trees.old }
{
    let mut last = last;
    for i in 0..changes.len() {
        let change = &changes[i];
        last = last_behind(last, rooms[i].made(), change);
        make_one(trees, alloc, change, last)?;
    }
    Ok(())
}

// Takes the tree of the database out that the change makes, if it makes one.
fn drop_one(trees: &mut BTreeMap<u32, DbTree>, change: &TreeChange)
    ensures { (d : ℕ) → get nat_cmp trees.new d ≡ (if makes_db d change.now.makes then None else get nat_cmp trees.old d) }
{
    match change.makes {
        Some(db) => forest::drop_db(trees, db),
        None => {}
    }
}

// Takes the trees of the databases out that the changes make.
pub(crate) fn drop_made(trees: &mut BTreeMap<u32, DbTree>, changes: &[TreeChange])
    ensures { (d : ℕ) → get nat_cmp trees.new d ≡ (if is_made d changes.now then None else get nat_cmp trees.old d) }
{
    for change in changes {
        drop_one(trees, change);
    }
}
