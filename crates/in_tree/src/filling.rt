// A new database's tree is made and filled before it is one of the trees: each image and each change gets the LSN at which it is going to
// be logged, and nothing is logged yet.
ghost use Rattle.std.specs.Prelude.{◌≡◌, ◌⊎◌, [], ℕ, true, IsSome, IfOk, IfErr, OnOk};
ghost use Rattle.std.specs.List.{AllByRecursion};
ghost use Rattle.log_buffer.specs.declared.log_pos.LogPos.{LogPos};
ghost use Rattle.log_buffer.specs.NextPlaces.{IsBehind};
ghost use Rattle.log_entry.specs.Body.{IsEntry};
ghost use Rattle.record_map.specs.Cells.{value_at};
ghost use Rattle.record_tree.specs.Logged.{entry_for, IsEndOf};
ghost use Rattle.record_tree.specs.declared.tree_err.TreeErr.{TreeErr as Reason};
ghost use Rattle.db_tree.specs.NodeImages.{IsLoggable};
ghost use Rattle.db_tree.specs.Shapes.{made_by, new_shape, shape_in};
ghost use Rattle.db_tree.specs.Splits.{passes_top};
ghost use Rattle.in_tree.specs.Filled.{AreImagesTaken, IsChangeTaken, IsFilled, IsImageTaken, IsRowFilled};
ghost use Rattle.in_tree.specs.Filling.{is_filled_too_high};

use crate::filled::Filled;
use crate::forest;
use crate::preparing::write_for;
use crate::writing::change_size;
use db_tree::{DbTree, NodeImage, SlotRoom};
use je_order::TxnId;
use log_buffer::NextPlace;
use log_entry::{Entry, EntryRef, ref_size};
use record_tree::{TreeChange, TreeErr};
use std::alloc::{AllocError, Global};

// Takes the next place for an image, and notes it at its node.
fn take_image(tree: &mut DbTree, place: &mut NextPlace, image: NodeImage) -> Entry
    requires { IsLoggable image.entry }
    ensures { IsImageTaken image tree.old tree.new place.old place.new result }
{
    let image = tree.finish_image(image);
    let at = place.take(ref_size(&EntryRef::Whole(&image.entry)));
    tree.note_image(image.level, &image.low, at);
    let _height = tree.levels.height();
    image.entry
}

// The same for images in order.
fn take_images(
    tree: &mut DbTree,
    place: &mut NextPlace,
    alloc: Global,
    images: Vec<NodeImage>,
) -> Result<Vec<Entry>, AllocError>
    requires { AllByRecursion (λ i. IsLoggable i.entry) images.items }
    ensures { IfOk result (λ entries. AreImagesTaken images.items tree.old tree.new place.old place.new entries.items) }
{
    let mut entries = Vec::new(alloc);
    for image in images {
        let entry = take_image(tree, place, image);
        entries.push(entry)?;
    }
    Ok(entries)
}

// Takes the next place for a change, and sets it in its cell.
fn take_change(
    tree: &mut DbTree,
    place: &mut NextPlace,
    alloc: Global,
    txn: TxnId,
    row: &TreeChange,
) -> Result<(), AllocError>
    requires entry { IsEntry (entry_for txn row.now.db row.now.name row.now.value) }
    requires there { IsSome (value_at row.now.name tree.old.cells) }
    ensures { OnOk result (IsChangeTaken txn row.now tree.old tree.new place.old place.new) }
{
    let mut write = write_for(alloc, txn, row)?;
    write.at = place.take(change_size(txn, row));
    tree.put_write(&row.name, write);
    Ok(())
}

// Makes a slot for the name of a change, and sets the change in its cell.
fn fill_row(
    filled: &mut Filled,
    place: &mut NextPlace,
    alloc: Global,
    fanout: u32,
    txn: TxnId,
    row: &TreeChange,
) -> Result<(), TreeErr>
    requires { IsEntry (entry_for txn row.now.db row.now.name row.now.value) }
    ensures ok { OnOk result (IsRowFilled fanout txn row.now filled.old filled.new place.old place.new) }
    ensures high { IsEndOf Reason.IdsEnded result (passes_top fanout row.now.name (shape_in filled.old.tree) ≡ true) }
    ensures errors { IfErr result (λ e. (e ≡ Reason.IdsEnded) ⊎ (e ≡ Reason.Memory)) }
{
    let first = filled.last.saturating_add(1);
    let tree = &mut filled.tree;
    let room = match forest::place_in(tree, alloc, row.db, fanout, &row.name, first) {
        Ok(room) => room,
        Err(error) => return Err(error),
    };
    filled.last = filled.last.saturating_add(room.made());
    let Ok(images) = take_images(&mut filled.tree, place, alloc, room.images) else {
        return Err(TreeErr::Memory);
    };
    match filled.images.push(images) {
        Ok(()) => {}
        Err(failed) => {
            drop(failed);
            return Err(TreeErr::Memory);
        }
    }
    match take_change(&mut filled.tree, place, alloc, txn, row) {
        Ok(()) => Ok(()),
        Err(_) => Err(TreeErr::Memory),
    }
}

// Makes the tree of a new database, whose root has the number, and fills it with changes, in order, in a log whose next entry has
// this place. The numbers of nodes that are split go on behind the root's.
pub(crate) fn fill(
    alloc: Global,
    fanout: u32,
    txn: TxnId,
    rows: &[TreeChange],
    number: u64,
    place: NextPlace,
) -> Result<Filled, TreeErr>
    requires { AllByRecursion (λ c. IsEntry (entry_for txn c.db c.name c.value)) rows.now }
    ensures filled { IfOk result (λ filled. (file_max : ℕ) (end : LogPos) → IsBehind file_max end [] place → IsFilled fanout file_max end txn number rows.now filled) }
    ensures high { IsEndOf Reason.IdsEnded result (is_filled_too_high fanout new_shape rows.now ≡ true) }
    ensures errors { IfErr result (λ e. (e ≡ Reason.IdsEnded) ⊎ (e ≡ Reason.Memory)) }
{
    let Ok(tree) = DbTree::new(alloc, number) else {
        return Err(TreeErr::Memory);
    };
    let _height = tree.levels.height();
    let mut filled = Filled {
        tree,
        last: number,
        images: Vec::new(alloc),
    };
    let mut place = place;
    for row in rows {
        match fill_row(&mut filled, &mut place, alloc, fanout, txn, row) {
            Ok(()) => {}
            Err(error) => {
                drop(filled);
                return Err(error);
            }
        }
    }
    Ok(filled)
}

// What a slot takes that is not made.
pub(crate) fn no_room(alloc: Global) -> SlotRoom
    ensures images { result.images.items ≡ [] }
    ensures made { made_by result ≡ 0 }
{
    SlotRoom {
        splits: Vec::new(alloc),
        is_raised: false,
        is_new: false,
        images: Vec::new(alloc),
    }
}
