// The slots of a node: in order, and whether a delta can show what is put in.
use crate::rows::first_wrong;
use crate::slots::{name, put};
use Held::{Deleted, There, Unset};
use Step::{ClearChanged, Finds, HasImage, HasKeys, HasNoImage, Holds, Put};
use je_lsn::{FileNo, Lsn};
use node_core::{Node, Version, slots_are_their_names};
use std::alloc::{AllocError, Global};

/// What a slot holds of its record. The LSN is an offset of file 0, here and below.
#[derive(Clone, Copy)]
pub enum Held {
    There(u32),
    Unset,
    Deleted,
}

/// What is done to a node or asked of it. A record goes by its key.
#[derive(Clone, Copy)]
pub enum Step {
    Put(u8, Held),
    ClearChanged(u32),
    HasKeys(&'static [u8]),
    /// The record's place, and how many are below it.
    Finds(u8, Option<usize>, usize),
    /// What the slot at this place holds.
    Holds(usize, Held),
    /// A delta can be to the image there.
    HasImage(u32),
    HasNoImage,
}

fn at(offset: u32) -> Lsn {
    Lsn::new(FileNo(0), offset)
}

pub fn version(held: Held) -> Version {
    match held {
        There(offset) => Version::There(at(offset)),
        Unset => Version::Unset,
        Deleted => Version::Deleted,
    }
}

// Whether the keys of the node's slots are these bytes, in order.
fn has_keys(node: &Node, keys: &[u8]) -> bool {
    let mut same = node.slots.len() == keys.len() && node.slots.is_empty() == keys.is_empty();
    for (marked, key) in node.slots.as_slice().iter().zip(keys) {
        same = same && marked.slot.name.key.as_slice() == [*key].as_slice();
    }
    same
}

// Whether the record has this place, and so many are below it.
fn finds(
    alloc: Global,
    node: &Node,
    key: u8,
    place: Option<usize>,
    rank: usize,
) -> Result<bool, AllocError> {
    let name = name(alloc, key)?;
    let found = (node.find(&name), node.slots.rank(&name));
    drop(name);
    Ok(found == (place, rank))
}

fn holds(node: &Node, at: usize, held: Held) -> bool {
    match node.slots.as_slice().get(at) {
        Some(marked) => marked.slot.version == version(held),
        None => false,
    }
}

// Whether the step comes as it says.
fn comes(alloc: Global, node: &mut Node, step: Step) -> Result<bool, AllocError> {
    match step {
        Put(key, held) => put(alloc, node, key, version(held)),
        ClearChanged(offset) => {
            node.clear_changed(Some(at(offset)));
            Ok(true)
        }
        HasKeys(keys) => Ok(has_keys(node, keys)),
        Finds(key, place, rank) => finds(alloc, node, key, place, rank),
        Holds(place, held) => Ok(holds(node, place, held)),
        HasImage(offset) => Ok(node.full == Some(at(offset))),
        HasNoImage => Ok(node.full.is_none()),
    }
}

/// The first step that does not come as it says.
pub fn wrong_step(
    alloc: Global,
    node: &mut Node,
    steps: &[Step],
) -> Result<Option<usize>, AllocError> {
    first_wrong(steps, |step| comes(alloc, node, *step))
}

// The third slot is put once more.
static ORDERED: [Step; 12] = [
    HasKeys(b""),
    Finds(b'c', None, 0),
    Put(b'c', There(40)),
    Put(b'a', There(26)),
    Put(b'e', There(62)),
    Put(b'b', There(84)),
    Put(b'd', There(98)),
    Put(b'c', There(120)),
    HasKeys(b"abcde"),
    Finds(b'c', Some(2), 2),
    Finds(b'd', Some(3), 3),
    Holds(2, There(120)),
];

// Three records are logged in full at offset 200, and then changed.
static CHANGED: [Step; 10] = [
    Put(b'a', There(26)),
    Put(b'b', There(62)),
    Put(b'd', There(98)),
    ClearChanged(200),
    Put(b'c', Unset),
    Put(b'd', There(240)),
    Put(b'a', Deleted),
    HasImage(200),
    // no delta can show that a committed slot is unset
    Put(b'b', Unset),
    HasNoImage,
];

// The first step that does not come so on a new node.
fn wrong_of_new(alloc: Global, steps: &[Step]) -> Result<Option<usize>, AllocError> {
    let mut node = Node::new(alloc, 1, 2, 1);
    let wrong = wrong_step(alloc, &mut node, steps);
    drop(node);
    wrong
}

#[test]
fn keeps_slots_in_order(rt: HostRuntime) {
    assert_eq!(rt; wrong_of_new(rt.alloc(), &ORDERED), Ok(None));
    slots_are_their_names();
}

#[test]
fn tells_whether_a_delta_can_show_it(rt: HostRuntime) {
    assert_eq!(rt; wrong_of_new(rt.alloc(), &CHANGED), Ok(None));
}
