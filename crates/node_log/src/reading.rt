// Nodes from entries.
ghost use Rattle.std.specs.Prelude.{◌≡◌, ◌≤◌, None, true, false, length, map, nat_le, IfOk, OnOk, IfSome};
ghost use Rattle.log_entry.specs.Body.{IsEntry};
ghost use Rattle.node_core.specs.Sorted.{HasRoom, Rises, at as slot_at, put_all};
ghost use Rattle.node_core.specs.Changes.{set_now};
ghost use Rattle.node_log.specs.Slots.{slot_of_record, fresh};
ghost use Rattle.node_log.specs.Images.{node_of, with_delta, with_entry, node_with};

use crate::slots::{slots_of_children, slots_of_records};
use je_lsn::Lsn;
use je_order::{List, Name, SLOT_LIMIT};
use log_entry::{Entry, RecordSlot};
use node_core::{Node, Slot};
use std::alloc::{AllocError, Global};

// A node with these slots, none of them changed since its full image.
fn filled(
    alloc: Global,
    db: u32,
    number: u64,
    level: u8,
    slots: List<Slot>,
) -> Result<Node, AllocError>
    requires rises { Rises (map set_now slots) }
    requires few { length slots ≤ 128 }
    ensures { IfOk result (λ node. node ≡ record { db = db; number = number; level = level; full = None; slots = map fresh slots }) }
{
    let mut node = Node::new(alloc, db, number, level);
    for slot in slots.into_vec() {
        node.put_slot(slot)?;
    }
    node.clear_changed(None);
    Ok(node)
}

// Whether a slot of the name can be put in.
fn has_room(node: &Node, name: &Name) -> bool
    ensures room { result ≡ true → HasRoom name.now node.now.slots }
    ensures full { result ≡ false → (slot_at name.now node.now.slots ≡ None) × (128 ≤ length node.now.slots) }
{
    if node.slots.len() < SLOT_LIMIT {
        return true;
    }
    match node.find(name) {
        Some(_) => true,
        None => false,
    }
}

// Puts the slots in, and says whether the node has room for them.
fn put_slots(node: &mut Node, slots: List<Slot>) -> Result<bool, AllocError>
    ensures room { IfOk result (λ room. room ≡ nat_le (length (put_all (map set_now slots) node.old.slots)) 128) }
    ensures slots { IfOk result (λ room. room ≡ true → node.new.slots ≡ put_all (map set_now slots) node.old.slots) }
    ensures db { OnOk result (node.new.db ≡ node.old.db) }
    ensures number { OnOk result (node.new.number ≡ node.old.number) }
    ensures level { OnOk result (node.new.level ≡ node.old.level) }
{
    for slot in slots.into_vec() {
        if !has_room(node, &slot.name) {
            return Ok(false);
        }
        node.put_slot(slot)?;
    }
    Ok(node.slots.len() <= SLOT_LIMIT)
}

// The node with what a delta to the full image there shows; None where it has no room for that.
fn with_records(
    alloc: Global,
    mut node: Node,
    full: Lsn,
    records: &[RecordSlot],
) -> Result<Option<Node>, AllocError>
    ensures { IfOk result (λ found. found ≡ with_delta node full records.now) }
{
    let slots = slots_of_records(alloc, records)?;
    if !put_slots(&mut node, slots)? {
        return Ok(None);
    }
    node.full = Some(full);
    Ok(Some(node))
}

// The BIN with what this entry shows, if that is a delta of the same database and node.
fn with_change(alloc: Global, node: Node, delta: &Entry) -> Result<Option<Node>, AllocError>
    ensures { IfOk result (λ found. found ≡ with_entry node delta.now) }
{
    match delta {
        Entry::BinDelta {
            db,
            node: number,
            full,
            slots,
        } => {
            if *db != node.db || *number != node.number {
                return Ok(None);
            }
            with_records(alloc, node, *full, slots.as_slice())
        }
        _ => Ok(None),
    }
}

// The node that an entry shows whole.
fn whole(alloc: Global, entry: &Entry) -> Result<Option<Node>, AllocError>
    requires { IsEntry entry.now }
    ensures { IfOk result (λ found. found ≡ node_of entry.now) }
{
    match entry {
        Entry::In {
            db,
            node,
            level,
            slots,
        } => {
            let slots = slots_of_children(alloc, slots.as_slice())?;
            Ok(Some(filled(alloc, *db, *node, *level, slots)?))
        }
        Entry::Bin { db, node, slots } => {
            let slots = slots_of_records(alloc, slots.as_slice())?;
            Ok(Some(filled(alloc, *db, *node, 1, slots)?))
        }
        _ => Ok(None),
    }
}

/// The node that an entry shows, whole or together with a delta. None exactly where the first is no IN
/// and no BIN, where the second is no delta of that BIN's database and node, or where both together have
/// more than 128 slots. The node's `full` is the delta's; without a delta the caller knows where the
/// entry stands. Names are copied. The only error is out of memory.
pub fn from_entries(
    alloc: Global,
    full: &Entry,
    delta: Option<&Entry>,
) -> Result<Option<Node>, AllocError>
    requires { IsEntry full.now }
    ensures alone { delta.entry ≡ None → IfOk result (λ found. found ≡ node_of full.now) }
    ensures both { IfSome delta.entry (λ d. IfOk result (λ found. found ≡ node_with full.now d.now)) }
{
    let Some(delta) = delta else {
        return whole(alloc, full);
    };
    if !matches!(full, Entry::Bin { .. }) {
        return Ok(None);
    }
    match whole(alloc, full)? {
        Some(node) => with_change(alloc, node, delta),
        None => Ok(None),
    }
}
