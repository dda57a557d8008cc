// What a name's slot takes.
ghost use Rattle.std.specs.Prelude.{◌≡◌};
ghost use Rattle.db_tree.specs.Shapes.{made_by};

use crate::{NodeImage, NodeSplit};

/// What a name's slot takes: the nodes that were split for it in memory, and the images that are to be logged. Nothing where the name
/// had a cell; no split and no image where its BIN has room.
#[derive(Drop)]
pub struct SlotRoom {
    /// The nodes that were split, the BIN first.
    pub splits: Vec<NodeSplit>,
    /// Whether a root was put above the top.
    pub is_raised: bool,
    /// Whether the name got a cell.
    pub is_new: bool,
    /// The images, in the order in which they are logged: nodes that waited and have to be logged before, the halves level by level from
    /// the BINs on, each left one before the right one, and a new root.
    pub images: Vec<NodeImage>,
}

impl SlotRoom {
    /// How many nodes were made: one for each split, and a root.
    pub fn made(&self) -> u64
        ensures { result ≡ made_by self.now }
    {
        self.splits.len() as u64 + self.is_raised as u64
    }
}
