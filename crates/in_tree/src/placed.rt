// Changes whose names have their slots.
use db_tree::SlotRoom;

/// Changes whose names have their slots in memory, before anything is logged.
#[derive(Drop)]
pub(crate) struct Placed {
    /// What the slot of each change takes.
    pub(crate) rooms: Vec<SlotRoom>,
    /// The node number that was allocated last, or the greatest number of 64 bits where it is above that.
    pub(crate) last: u64,
}
