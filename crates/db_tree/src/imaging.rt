// The images of nodes.
ghost use Rattle.std.specs.Prelude.{◌≡◌, ◌<◌, true, IsSome, map, length, IfOk};
ghost use Rattle.record_map.specs.Cells.{value_at, IsRising};
ghost use Rattle.tree_nodes.specs.Levels.{row_of, AreParts};
ghost use Rattle.tree_nodes.specs.Lows.{lows_of};
ghost use Rattle.db_tree.specs.Waiting.{waits_at};
ghost use Rattle.db_tree.specs.NodeImages.{kept_child, entry_of, children_of, node_of, IsNodeImage, AreNodeImages, IsLoggable, AreBelowLogged, AreLoggable};
ghost use Rattle.std.specs.List.{AllByRecursion, list_any};

use crate::image_slot::is_image;
use crate::tree::record_slots;
use crate::{DbTree, NodeAt, NodeImage};
use je_lsn::{FileNo, Lsn};
use je_order::List;
use log_entry::{ChildSlot, Entry};
use node_core::{Slot, Version};
use record_map::SortKey;
use std::alloc::{AllocError, Global};

/// The greatest level of a root, with the BINs at 1.
pub(crate) const LAST_LEVEL: usize = 64;

// The slot of a child in its IN's image, of which the LSN may be to come.
fn child_of(slot: Slot) -> ChildSlot
    ensures { result ≡ kept_child slot }
{
    let Slot { name, version } = slot;
    let child = match version {
        Version::There(child) => child,
        Version::Deleted | Version::Unset => Lsn::new(FileNo(0), 0),
    };
    ChildSlot { name, child }
}

// The slots of children in their IN's image.
fn kept_children(alloc: Global, slots: List<Slot>) -> Result<List<ChildSlot>, AllocError>
    ensures { IfOk result (λ children. children ≡ map kept_child slots) }
{
    let mut children = Vec::new(alloc);
    for slot in slots.into_vec() {
        children.push(child_of(slot))?;
    }
    Ok(List::from_vec(children))
}

// The lows of children.
pub(crate) fn lows_in(alloc: Global, slots: List<Slot>) -> Result<Vec<SortKey>, AllocError>
    ensures { IfOk result (λ lows. lows.items ≡ map (λ slot. slot.name) slots) }
{
    let mut lows = Vec::new(alloc);
    for slot in slots.into_vec() {
        let Slot { name, version: _ } = slot;
        lows.push(SortKey::new(alloc, name)?)?;
    }
    Ok(lows)
}

impl DbTree {
    // The lows of the children of the node of a level with the low.
    fn children_of(
        &self,
        alloc: Global,
        level: usize,
        low: &SortKey,
    ) -> Result<Vec<SortKey>, AllocError>
        requires { level < length self.now.levels }
        ensures { IfOk result (λ children. children.items ≡ children_of level low.now self.now.levels) }
    {
        if level == 0 {
            return Ok(Vec::new(alloc));
        }
        let high = self.levels.upper_bound(level, low);
        let slots = self.levels.slots(alloc, level - 1, low, high)?;
        lows_in(alloc, slots)
    }

    // The image of the node of a level with the low, whatever an entry may have.
    fn entry_of(
        &self,
        alloc: Global,
        db: u32,
        number: u64,
        level: usize,
        low: &SortKey,
    ) -> Result<Entry, AllocError>
        requires there { level < length self.now.levels }
        requires level { level < 64 }
        ensures { IfOk result (λ entry. entry ≡ entry_of db number level low.now self.now.levels self.now.cells) }
    {
        let high = self.levels.upper_bound(level, low);
        if level == 0 {
            let slots = record_slots(alloc, self.cells.between(low, high))?;
            return Ok(Entry::Bin {
                db,
                node: number,
                slots,
            });
        }
        let slots = self.levels.slots(alloc, level - 1, low, high)?;
        Ok(Entry::In {
            db,
            node: number,
            level: level as u8 + 1,
            slots: kept_children(alloc, slots)?,
        })
    }

    // The image of a node, which a log may have.
    fn image_of(&self, alloc: Global, db: u32, place: NodeAt) -> Result<NodeImage, AllocError>
        ensures node { IfOk result (λ image. node_of image ≡ place) }
        ensures image { IfOk result (IsNodeImage db self.now.levels self.now.cells) }
        ensures loggable { IfOk result (λ image. IsLoggable image.entry) }
        ensures waited { IfOk result (λ image. image.waited ≡ waits_at self.now.levels image.level image.low) }
        ensures there { IfOk result (λ image. IsSome (value_at image.low (row_of self.now.levels image.level)) × (image.level < length self.now.levels)) }
    {
        let NodeAt { level, low } = place;
        if level >= self.levels.height() || level >= LAST_LEVEL {
            return Err(AllocError);
        }
        let node = match self.levels.at(level, &low) {
            Some(node) => node.copy(),
            None => return Err(AllocError),
        };
        let children = self.children_of(alloc, level, &low)?;
        let entry = self.entry_of(alloc, db, node.number, level, &low)?;
        if !is_image(&entry) {
            return Err(AllocError);
        }
        Ok(NodeImage {
            level,
            low,
            entry,
            waited: node.forced,
            children,
        })
    }

    // Whether one of some nodes of a level waits to be logged.
    fn any_waits(&self, level: usize, lows: &[SortKey]) -> bool
        requires { level < length self.now.levels }
        ensures { result ≡ list_any (waits_at self.now.levels level) lows.now }
    {
        for low in lows {
            if self.waits(level, low) {
                return true;
            }
        }
        false
    }

    // Whether none of the children of an image of a node waits to be logged; a BIN has none.
    fn has_logged_children(&self, image: &NodeImage) -> bool
        requires { image.now.level < length self.now.levels }
        ensures { result ≡ true → AreBelowLogged self.now.levels image.now.level image.now.children.items }
    {
        if image.level == 0 {
            return true;
        }
        !self.any_waits(image.level - 1, image.children.as_slice())
    }

    /// The image of a node by itself, whose children do not wait to be logged. Running out of memory, a child that waits, or a node of
    /// more slots than an image may have are one error.
    pub fn image_alone(
        &self,
        alloc: Global,
        db: u32,
        place: NodeAt,
    ) -> Result<NodeImage, AllocError>
        ensures node { IfOk result (λ image. node_of image ≡ place) }
        ensures there { IfOk result (λ image. IsSome (value_at image.low (row_of self.now.levels image.level))) }
        ensures image { IfOk result (IsNodeImage db self.now.levels self.now.cells) }
        ensures loggable { IfOk result (λ image. IsLoggable image.entry) }
        ensures below { IfOk result (λ image. AreBelowLogged self.now.levels image.level image.children.items) }
        ensures parts { AreParts self.now.levels }
        ensures rising { IsRising self.now.cells }
    {
        let _height = self.levels.height();
        let _len = self.cells.len();
        let image = self.image_of(alloc, db, place)?;
        if self.has_logged_children(&image) {
            return Ok(image);
        }
        drop(image);
        Err(AllocError)
    }

    // The images of nodes, in their order.
    pub(crate) fn images_of(
        &self,
        alloc: Global,
        db: u32,
        nodes: Vec<NodeAt>,
    ) -> Result<Vec<NodeImage>, AllocError>
        ensures images { IfOk result (λ images. AreNodeImages db self.now.levels self.now.cells nodes.items images.items) }
        ensures loggable { IfOk result (λ images. AreLoggable images.items) }
        ensures waited { IfOk result (λ images. AllByRecursion (λ image. image.waited ≡ waits_at self.now.levels image.level image.low) images.items) }
    {
        let mut images = Vec::new(alloc);
        for node in nodes {
            images.push(self.image_of(alloc, db, node)?)?;
        }
        Ok(images)
    }
}
