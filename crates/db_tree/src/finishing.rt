// Images get the LSNs of their nodes' children.
ghost use Rattle.std.specs.Prelude.{◌≡◌, ◌<◌, ◌^◌};
ghost use Rattle.std.specs.List.{AllByRecursion};
ghost use Rattle.log_entry.specs.Encoding.{size_of};
ghost use Rattle.log_entry.specs.Items.{IsChildSlot};
ghost use Rattle.db_tree.specs.NodeImages.{last_at, finished_slots, finished_entry, finished, IsLoggable};

use crate::{DbTree, NodeImage};
use je_lsn::{FileNo, Lsn};
use je_order::List;
use log_entry::{ChildSlot, Entry};
use record_map::SortKey;

// The LSN, which is a number of eight bytes.
fn bounded(at: Lsn) -> Lsn
    ensures same { result ≡ at }
    ensures bound { result < 2 ^ 64 }
{
    let _number = at.as_u64();
    at
}

impl DbTree {
    // The LSN of the last image of the node of a level with the low.
    fn last_at(&self, level: usize, low: &SortKey) -> Lsn
        ensures { result ≡ last_at self.now.levels level low.now }
    {
        let none = Lsn::new(FileNo(0), 0);
        if level >= self.levels.height() {
            return none;
        }
        match self.levels.at(level, low) {
            Some(node) => match node.last {
                Some(at) => at,
                None => none,
            },
            None => none,
        }
    }

    // Sets the LSNs of children, which are nodes of a level.
    fn finish_slots(&self, slots: &mut [ChildSlot], level: usize, children: &[SortKey])
        ensures slots { slots.new ≡ finished_slots self.now.levels level children.now slots.old }
        ensures each { AllByRecursion IsChildSlot slots.old → AllByRecursion IsChildSlot slots.new }
    {
        for i in 0..slots.len() {
            if i >= children.len() {
                return;
            }
            let at = bounded(self.last_at(level, &children[i]));
            slots[i].child = at;
        }
    }

    // Slots of children, which are nodes of a level, with their LSNs.
    fn finish_list(
        &self,
        slots: List<ChildSlot>,
        level: usize,
        children: &[SortKey],
    ) -> List<ChildSlot>
        ensures slots { result ≡ finished_slots self.now.levels level children.now slots }
        ensures each { AllByRecursion IsChildSlot slots → AllByRecursion IsChildSlot result }
    {
        let mut items = slots.into_vec();
        self.finish_slots(items.as_mut_slice(), level, children);
        List::from_vec(items)
    }

    // The entry of a node of a level, in which its children have their LSNs.
    fn finish_entry(&self, level: usize, entry: Entry, children: &[SortKey]) -> Entry
        ensures entry { result ≡ finished_entry self.now.levels level children.now entry }
        ensures loggable { IsLoggable entry → IsLoggable result }
    {
        if level == 0 {
            return entry;
        }
        match entry {
            Entry::In {
                db,
                node,
                level: of_level,
                slots,
            } => Entry::In {
                db,
                node,
                level: of_level,
                slots: self.finish_list(slots, level - 1, children),
            },
            other => other,
        }
    }

    /// The image as it is logged: each child in it has the LSN of its last image. It is as long as it was, and takes no memory.
    pub fn finish_image(&self, image: NodeImage) -> NodeImage
        ensures image { result ≡ finished self.now.levels image }
        ensures size { size_of result.entry ≡ size_of image.entry }
        ensures loggable { IsLoggable image.entry → IsLoggable result.entry }
        ensures level { result.level ≡ image.level }
        ensures low { result.low ≡ image.low }
    {
        let NodeImage {
            level,
            low,
            entry,
            waited,
            children,
        } = image;
        NodeImage {
            level,
            low,
            entry: self.finish_entry(level, entry, children.as_slice()),
            waited,
            children,
        }
    }
}
