// The images of nodes, read.
use crate::nodes;
use crate::nodes::Held::{self, Deleted, There};
use crate::slots::name;
use je_lsn::{FileNo, Lsn};
use je_order::List;
use log_entry::{Decoded, Entry, RecordSlot, decode};
use node_core::{Marked, Node, Slot};
use node_log::{from_entries, images_are_entries, nodes_are_read_back};
use std::alloc::{AllocError, Global};

fn lsn(offset: u32) -> Lsn {
    Lsn::new(FileNo(0), offset)
}

// Records by key, and where each was put; none where it was deleted.
fn records(alloc: Global, rows: &[(u8, Option<Lsn>)]) -> Result<List<RecordSlot>, AllocError> {
    let mut slots = List::new(alloc);
    for (key, lsn) in rows {
        let name = name(alloc, *key)?;
        slots.push(RecordSlot { name, lsn: *lsn })?;
    }
    Ok(slots)
}

fn delta(alloc: Global, node: u64) -> Result<Entry, AllocError> {
    Ok(Entry::BinDelta {
        db: 3,
        node,
        full: lsn(90),
        slots: records(alloc, &[(b'a', None), (b'd', Some(lsn(120)))])?,
    })
}

// The bytes of that BIN's entry: the records a and c, of which c is deleted.
const IMAGE: &[u8] = b"\
\x1a\x9f\x01\x20\
\x08\
\x00\
\x00\x00\x00\x00\
\x00\x00\x00\x2a\
\x00\x00\x00\x03\
\x00\x00\x00\x00\x00\x00\x00\x07\
\x00\x02\
\x00\x01\
a\
\x00\x00\
\x00\
\x00\x00\x00\x00\x00\x00\x00\x1a\
\x00\x01\
c\
\x00\x00\
\x01\
\x00\x00\x00\x00\x00\x00\x00\x00";

// The node that the image shows, alone or with a delta.
fn read(alloc: Global, delta: Option<&Entry>) -> Result<Option<Node>, AllocError> {
    match decode(alloc, IMAGE)? {
        Decoded::Whole { entry, .. } => {
            let node = from_entries(alloc, &entry, delta);
            drop(entry);
            node
        }
        Decoded::Torn(_) => Ok(None),
    }
}

// The node that the image shows with the delta of this node.
fn read_with(alloc: Global, number: u64) -> Result<Option<Node>, AllocError> {
    let delta = delta(alloc, number)?;
    let node = read(alloc, Some(&delta));
    drop(delta);
    node
}

fn is_slot(marked: &Marked, key: u8, held: Held, changed: bool) -> bool {
    let Slot { name, version } = &marked.slot;
    let same = name.key.as_slice() == [key].as_slice() && name.dup.is_empty();
    same && *version == nodes::version(held) && marked.changed == changed
}

// Whether the node's slots are these: the key, what is held, and whether it counts as changed.
fn has_slots(node: &Node, rows: &[(u8, Held, bool)]) -> bool {
    let mut same = node.slots.len() == rows.len();
    for (marked, (key, held, changed)) in node.slots.as_slice().iter().zip(rows) {
        same = same && is_slot(marked, *key, *held, *changed);
    }
    same
}

// Whether a node was read with these slots, of which a delta may be to the image there.
fn is_node(
    read: Result<Option<Node>, AllocError>,
    full: Option<Lsn>,
    rows: &[(u8, Held, bool)],
) -> bool {
    let Ok(Some(node)) = read else {
        return false;
    };
    let same = (node.db, node.number, node.level) == (3, 7, 1) && node.full == full;
    let same = same && has_slots(&node, rows);
    drop(node);
    same
}

fn reads_none(alloc: Global) -> Result<bool, AllocError> {
    match read_with(alloc, 8)? {
        Some(node) => {
            drop(node);
            Ok(false)
        }
        None => Ok(true),
    }
}

static READ: [(u8, Held, bool); 2] = [(b'a', There(26), false), (b'c', Deleted, false)];

static READ_WITH: [(u8, Held, bool); 3] = [
    (b'a', Deleted, true),
    (b'c', Deleted, false),
    (b'd', There(120), true),
];

#[test]
fn reads_images(rt: HostRuntime) {
    assert!(rt; is_node(read(rt.alloc(), None), None, &READ));
    assert!(rt; is_node(read_with(rt.alloc(), 7), Some(lsn(90)), &READ_WITH));
    // the delta of another node
    assert!(rt; reads_none(rt.alloc()) == Ok(true));
    images_are_entries();
    nodes_are_read_back();
}
