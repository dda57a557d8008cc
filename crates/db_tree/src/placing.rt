// A name gets a slot.
ghost use Rattle.std.specs.Prelude.{◌≡◌, ◌≤◌, ◌<◌, ◌⊎◌, ℕ, [], true, is_some, false, None, IfOk, IfErr, OnOk, OnErr, List as Items};
ghost use Rattle.je_order.specs.declared.name.Name.{Name};
ghost use Rattle.record_map.specs.Cells.{value_at};
ghost use Rattle.record_map.specs.declared.cell.Cell.{Cell as Kept};
ghost use Rattle.record_tree.specs.declared.tree_err.TreeErr.{TreeErr as Reason};
ghost use Rattle.db_tree.specs.Images.{Placed};
ghost use Rattle.db_tree.specs.NodeImages.{AreNodeImages};
ghost use Rattle.db_tree.specs.Numbers.{AreNewNumbered};
ghost use Rattle.db_tree.specs.Placing.{AreTaken, IsFilled, IsPlacedBy};
ghost use Rattle.db_tree.specs.Shapes.{shape_in, IsCellMade, IsPlaced, IsUndoable};
ghost use Rattle.db_tree.specs.Splits.{nodes_logged, splits_of, passes_top};
ghost use Rattle.db_tree.specs.Trees.{IsTree};

use crate::imaging::LAST_LEVEL;
use crate::{DbTree, NodeAt, NodeImage, NodeSplit, SlotRoom};
use je_lsn::Lsn;
use record_map::SortKey;
use record_tree::TreeErr;
use std::alloc::{AllocError, Global};

// What the slot of a name takes that has a cell.
fn no_room(alloc: Global) -> SlotRoom
    ensures splits { result.splits.items ≡ [] }
    ensures raised { result.is_raised ≡ false }
    ensures new { result.is_new ≡ false }
    ensures images { result.images.items ≡ [] }
{
    SlotRoom {
        splits: Vec::new(alloc),
        is_raised: false,
        is_new: false,
        images: Vec::new(alloc),
    }
}

impl DbTree {
    // Makes the images of nodes, which wait no more then. Running out of memory changes nothing.
    fn take_images(
        &mut self,
        alloc: Global,
        db: u32,
        nodes: Vec<NodeAt>,
    ) -> Result<Vec<NodeImage>, AllocError>
        ensures taken { IfOk result (λ images. AreTaken db nodes.items images.items self.old self.new) }
        ensures cells { self.new.cells ≡ self.old.cells }
        ensures err { OnErr result (self.new.levels ≡ self.old.levels) }
        ensures tree { (es : Placed) (base : ℕ) (newest : Name → ℕ) → IsTree es base newest self.old.levels self.old.cells → IsTree es base newest self.new.levels self.new.cells }
    {
        let images = self.images_of(alloc, db, nodes)?;
        self.clear_all(images.as_slice());
        Ok(images)
    }

    // Makes a cell for a name that has none, and the images of nodes, which wait no more then. Running out of memory changes nothing.
    fn fill_slot(
        &mut self,
        alloc: Global,
        db: u32,
        name: &SortKey,
        nodes: Vec<NodeAt>,
    ) -> Result<Vec<NodeImage>, AllocError>
        requires { value_at name.now self.old.cells ≡ None }
        ensures filled { IfOk result (λ images. IsFilled db name.now nodes.items images.items self.old self.new) }
        ensures err { OnErr result (self.new.levels ≡ self.old.levels) }
        ensures err_cells { OnErr result (self.new.cells ≡ self.old.cells) }
        ensures tree { OnOk result ((es : Placed) (base : ℕ) (newest : Name → ℕ) → IsTree es base newest self.old.levels self.old.cells → IsTree es base newest self.new.levels self.new.cells) }
    {
        let _before = self.cells.len();
        self.put_new(alloc, name)?;
        match self.take_images(alloc, db, nodes) {
            Ok(images) => Ok(images),
            Err(failed) => {
                self.cells.remove(name);
                Err(failed)
            }
        }
    }

    // Makes a slot for a name that has no cell, which splits these nodes. Running out of memory takes back what was split.
    fn place_new(
        &mut self,
        alloc: Global,
        db: u32,
        name: &SortKey,
        splits: Vec<NodeSplit>,
        first: u64,
        mark: Lsn,
    ) -> Result<SlotRoom, AllocError>
        requires { value_at name.now self.old.cells ≡ None }
        ensures placed { IfOk result (λ room. IsPlacedBy db splits.items name.now room self.old self.new) }
        ensures numbers { IfOk result (λ room. AreNewNumbered first room.splits.items room.is_raised self.new.levels) }
        ensures splits { IfOk result (λ room. room.splits.items ≡ splits.items) }
        ensures err { OnErr result (self.new.levels ≡ self.old.levels) }
        ensures err_cells { OnErr result (self.new.cells ≡ self.old.cells) }
        ensures tree { OnOk result ((es : Placed) (base : ℕ) (newest : Name → ℕ) → ((x : Name) → (mark ≤ newest x) ⊎ (mark < base)) → IsTree es base newest self.old.levels self.old.cells → IsTree es base newest self.new.levels self.new.cells) }
    {
        let _before = self.cells.len();
        let is_raised = splits.len() == self.levels.height();
        let nodes = self.nodes_for(alloc, splits.as_slice(), is_raised)?;
        self.grow(alloc, splits.as_slice(), first, mark)?;
        match self.fill_slot(alloc, db, name, nodes) {
            Ok(images) => Ok(SlotRoom {
                splits,
                is_raised,
                is_new: true,
                images,
            }),
            Err(failed) => {
                self.shrink(splits.as_slice(), is_raised);
                Err(failed)
            }
        }
    }

    /// Whether the name has a cell.
    pub fn has_cell(&self, name: &SortKey) -> bool
        ensures { result ≡ is_some (value_at name.now self.now.cells) }
    {
        match self.cells.get(name) {
            Some(_) => true,
            None => false,
        }
    }

    /// Makes a slot for the name where it has none, in its half of a BIN that is split for it. The nodes that this makes have the
    /// numbers from `first` on; a new root is marked from `mark` until it is logged. The images are to be logged before the name's
    /// record, in their order, each as `finish_image` gives it, and with `note_image` behind it. IdsEnded where an image would pass the last
    /// level; an error takes back what was split.
    pub fn place(
        &mut self,
        alloc: Global,
        db: u32,
        fanout: u32,
        name: &SortKey,
        first: u64,
        mark: Lsn,
    ) -> Result<SlotRoom, TreeErr>
        ensures placed { IfOk result (λ room. IsPlaced fanout name.now room self.old self.new) }
        ensures images { IfOk result (λ room. AreNodeImages db self.new.levels self.new.cells (nodes_logged fanout name.now (shape_in self.old)) room.images.items) }
        ensures numbers { IfOk result (λ room. AreNewNumbered first room.splits.items room.is_raised self.new.levels) }
        ensures splits { IfOk result (λ room. room.is_new ≡ true → room.splits.items ≡ splits_of fanout name.now (shape_in self.old)) }
        ensures idle { IfOk result (λ room. room.is_new ≡ false → self.new ≡ self.old) }
        ensures high { IfErr result (λ e. e ≡ Reason.IdsEnded → passes_top fanout name.now (shape_in self.old) ≡ true) }
        ensures errors { IfErr result (λ e. (e ≡ Reason.IdsEnded) ⊎ (e ≡ Reason.Memory)) }
        ensures err { OnErr result (self.new.levels ≡ self.old.levels) }
        ensures err_cells { OnErr result (self.new.cells ≡ self.old.cells) }
        ensures tree { OnOk result ((es : Placed) (base : ℕ) (newest : Name → ℕ) → ((x : Name) → (mark ≤ newest x) ⊎ (mark < base)) → IsTree es base newest self.old.levels self.old.cells → IsTree es base newest self.new.levels self.new.cells) }
    {
        let height = self.levels.height();
        if self.has_cell(name) {
            return Ok(no_room(alloc));
        }
        let Ok(splits) = self.splits_for(alloc, fanout, name) else {
            return Err(TreeErr::Memory);
        };
        if splits.len() + (splits.len() == height) as usize > LAST_LEVEL {
            return Err(TreeErr::IdsEnded);
        }
        match self.place_new(alloc, db, name, splits, first, mark) {
            Ok(room) => Ok(room),
            Err(_) => Err(TreeErr::Memory),
        }
    }

    // Takes the name's cell out, if it was made.
    fn take_cell(&mut self, name: &SortKey, is_new: bool)
        ensures cells { (before : Items (Name × Kept)) → IsCellMade is_new name.now before self.old.cells → self.new.cells ≡ before }
        ensures levels { self.new.levels ≡ self.old.levels }
    {
        if is_new {
            self.cells.remove(name);
        }
    }

    /// Takes back what `place` did for the name, if nothing was done since then. It takes no memory.
    pub fn take_back(&mut self, name: &SortKey, room: &SlotRoom)
        ensures levels { (before : DbTree) → IsUndoable name.now room.now before self.old → self.new.levels ≡ before.levels }
        ensures cells { (before : DbTree) → IsUndoable name.now room.now before self.old → self.new.cells ≡ before.cells }
    {
        self.take_cell(name, room.is_new);
        self.restore_all(room.images.as_slice());
        self.shrink(room.splits.as_slice(), room.is_raised);
    }
}
