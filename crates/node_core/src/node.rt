// A node of a tree.
ghost use Rattle.std.specs.Prelude.{◌≡◌, ◌&&◌, not, [], Some, None, List, IsSome, IsOk, IfOk, OnOk, OnErr, MatchOption};
ghost use Rattle.node_core.specs.declared.slot.Marked.{Marked as MarkedSlot};
ghost use Rattle.node_core.specs.Sorted.{IsPlace, IsAt, HasRoom, at as slot_at};
ghost use Rattle.node_core.specs.Changes.{is_committed, has_committed, committed};
ghost use Rattle.node_core.specs.Nodes.{with_slot, with_changed_cleared, IsFullImage};

use crate::{Marked, Slot, Slots};
use je_lsn::Lsn;
use je_order::Name;
use std::alloc::{AllocError, Global};

/// A node of a database's tree: a BIN, which is level 1 and whose slots name records, or an IN, whose
/// slots name the nodes one level below. It begins empty and gains slots, as a full image shows them and then,
/// of a BIN, a delta that shows what was set since.
#[derive(Debug, Drop)]
pub struct Node {
    /// The number of the tree's database.
    pub db: u32,
    /// The node's own number. No other node of the tree has it.
    pub number: u64,
    /// 1 for a BIN, and for an IN one more than its children's.
    pub level: u8,
    /// The LSN of the node's last full image, as long as a delta to it can show what the node has: not
    /// before the node was first logged in full, and not after a committed slot was lost.
    pub full: Option<Lsn>,
    /// The slots. Each has a mark, set where the slot changed since the node was logged in full.
    pub slots: Slots,
}

impl Node {
    /// A node without slots, which was never logged. It takes no memory.
    pub fn new(alloc: Global, db: u32, number: u64, level: u8) -> Node
        ensures { result ≡ record { db = db; number = number; level = level; full = None; slots = [] } }
    {
        Node {
            db,
            number,
            level,
            full: None,
            slots: Slots::new(alloc),
        }
    }

    /// The place of the slot with the name, and None exactly where no slot has it.
    pub fn find(&self, at: &Name) -> Option<usize>
        ensures { MatchOption result (slot_at at.now self.now.slots ≡ None) (IsAt at.now self.now.slots) }
    {
        self.slots.find(at)
    }

    // Whether a slot of the name is one that an image shows.
    fn has_committed(&self, at: &Name) -> bool
        ensures { result ≡ has_committed at.now self.now.slots }
    {
        match self.find(at) {
            Some(index) => self.slots.as_slice()[index].slot.version.is_committed(),
            None => false,
        }
    }

    // Whether the slot takes away one that an image shows.
    fn hides(&self, slot: &Slot) -> bool
        ensures { result ≡ (not (is_committed slot.now.version) && has_committed slot.now.name self.now.slots) }
    {
        !slot.version.is_committed() && self.has_committed(&slot.name)
    }

    /// Puts the slot over the one of its name, or at its place between the others. A slot with a version
    /// that an image shows counts as changed since the last full image. Slots are moved, and no name is
    /// copied. Running out of memory changes nothing, and does not come where the name has a slot.
    pub fn put_slot(&mut self, slot: Slot) -> Result<(), AllocError>
        requires { HasRoom slot.name self.old.slots }
        ensures ok { OnOk result (self.new ≡ with_slot slot self.old) }
        ensures err { OnErr result (self.new ≡ self.old) }
        ensures there { IsSome (slot_at slot.name self.old.slots) → IsOk result }
        // A delta to the last full image still shows what the node has.
        ensures image { OnOk result ((image : List MarkedSlot) → IsFullImage image self.old → IsFullImage image self.new) }
    {
        let hides = self.hides(&slot);
        let changed = slot.version.is_committed();
        self.slots.put(Marked { slot, changed })?;
        if hides {
            self.full = None;
        }
        Ok(())
    }

    /// Says at which LSN the node's full image now is, if a delta may be logged to it. No slot counts as
    /// changed since.
    pub fn clear_changed(&mut self, full: Option<Lsn>)
        ensures value { self.new ≡ with_changed_cleared full self.old }
        ensures image { IsFullImage (committed self.new.slots) self.new }
    {
        self.full = full;
        self.slots.unmark();
    }
}
