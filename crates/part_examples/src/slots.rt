// Slots of nodes that the examples make.
use je_order::{Name, Octets, SLOT_LIMIT};
use node_core::{Node, Slot, Version};
use std::alloc::{AllocError, Global};

/// The name of this one byte.
pub fn name(alloc: Global, key: u8) -> Result<Name, AllocError> {
    Ok(Name {
        key: Octets::from_slice(alloc, &[key])?,
        dup: Octets::new(alloc),
    })
}

/// Puts a version of the record with this key into the node, where that has room.
pub fn put(alloc: Global, node: &mut Node, key: u8, version: Version) -> Result<bool, AllocError> {
    if node.slots.len() >= SLOT_LIMIT {
        return Ok(false);
    }
    let name = name(alloc, key)?;
    node.put_slot(Slot { name, version })?;
    Ok(true)
}
