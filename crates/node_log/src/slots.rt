// Slots of nodes and slots of entries.
ghost use Rattle.std.specs.Prelude.{◌≡◌, map, IfOk};
ghost use Rattle.node_log.specs.Slots.{shown_version, slot_of_record, slot_of_child};

use je_lsn::Lsn;
use je_order::{List, copy_of};
use log_entry::{ChildSlot, RecordSlot};
use node_core::{Slot, Version};
use std::alloc::{AllocError, Global};

// The version that a record's slot shows.
fn version_of(lsn: Option<Lsn>) -> Version
    ensures { result ≡ shown_version lsn }
{
    match lsn {
        Some(lsn) => Version::There(lsn),
        None => Version::Deleted,
    }
}

// Copies of the records as a node's slots.
pub(crate) fn slots_of_records(
    alloc: Global,
    records: &[RecordSlot],
) -> Result<List<Slot>, AllocError>
    ensures { IfOk result (λ out. out ≡ map slot_of_record records.now) }
{
    let mut out = Vec::new(alloc);
    for slot in records {
        out.push(Slot {
            name: copy_of(&slot.name)?,
            version: version_of(slot.lsn),
        })?;
    }
    Ok(List::from_vec(out))
}

// Copies of the children as a node's slots.
pub(crate) fn slots_of_children(
    alloc: Global,
    children: &[ChildSlot],
) -> Result<List<Slot>, AllocError>
    ensures { IfOk result (λ out. out ≡ map slot_of_child children.now) }
{
    let mut out = Vec::new(alloc);
    for slot in children {
        out.push(Slot {
            name: copy_of(&slot.name)?,
            version: Version::There(slot.child),
        })?;
    }
    Ok(List::from_vec(out))
}
