// Reading the tree below an image: a node, and then what its slots name, from the left.
ghost use Rattle.std.specs.Prelude.{◌≡◌, ◌<◌, ◌-◌, ℕ, IsSome, IfOk, OnOk, map, option_copied};
ghost use Rattle.std.specs.List.{AllByRecursion, flat_map};
ghost use Rattle.je_order.specs.declared.name.Name.{Name as Named};
ghost use Rattle.log_entry.specs.Body.{IsEntry};
ghost use Rattle.log_trees.specs.Placed.{AreInOrder};
ghost use Rattle.log_trees.specs.Images.{slot_shown};
ghost use Rattle.log_trees.specs.Sound.{children};
ghost use Rattle.log_trees.specs.Walk.{Walk, each, read_here as node_here, read_child, read_node as node_at};
ghost use Rattle.log_meaning.specs.ReadNodes.{IsNodeLoaded, IsLoadedBelow};
ghost use Rattle.recovery_je.specs.Putting.{HasPut, as_loaded, children_put, below_put};
ghost use Rattle.recovery_je.specs.Walking.{IsWalking, GoesOn, HasMet, read_below as below_node, waiting as child_waiting, child_ends_at as ends_at_name};

use crate::images::nowhere;
use crate::log_read::LogRead;
use crate::read_err::ReadErr;
use crate::walking::{Walking, is_below, meet, read_here, read_slots};
use je_lsn::{FileNo, Lsn};
use je_order::Name;
use node_core::{Marked, Node, Version};
use record_tree::Loads;
use std::alloc::Global;

// Reads the node that the image at an LSN shows, and puts it. Its names lie within these bounds.
fn take_node<T: Loads>(
    walking: &mut Walking<T>,
    alloc: Global,
    files: &[FileNo],
    entries: &LogRead,
    d: u32,
    level: u8,
    low: &Name,
    high: Option<&Name>,
    at: Lsn,
) -> Result<Node, ReadErr>
    requires order { AreInOrder entries.now }
    requires entries { AllByRecursion (λ p. IsEntry p.1) entries.now }
    ensures walk { (walk : Walk) → IsWalking (T.stored walking.old.trees) walking.old.seen.keys walking.old.node walking.old.db walk → HasMet (node_here (map (λ f. f.0) files.now) entries.now d level at walk.seen) walk (IsWalking (T.stored walking.new.trees) walking.new.seen.keys walking.new.node walking.new.db) result }
    ensures nodes { IfOk result (λ node. HasPut (as_loaded T.nodes T.read) (λ keeps most. IsNodeLoaded entries.now keeps most d (level - 1) low.now (option_copied high.entry) at node) walking.old walking.new) }
{
    let node = read_here(alloc, files, entries, d, level, at, &walking.seen)?;
    meet(walking, alloc, &node, low, high, at)?;
    Ok(node)
}

/// Reads the tree below an image that stands `above` levels above its BINs, and whose names lie within
/// these bounds: the node, and then what its slots name, from the left. Images have at most 64 levels, so
/// the calls within calls are that few. After an error nothing is known of what was put last.
#[cycle(descending)]
pub(crate) fn read_node<T: Loads>(
    walking: &mut Walking<T>,
    alloc: Global,
    files: &[FileNo],
    entries: &LogRead,
    d: u32,
    above: u8,
    low: &Name,
    high: Option<&Name>,
    at: Lsn,
) -> Result<(), ReadErr>
    requires level { above < 255 }
    requires order { AreInOrder entries.now }
    requires entries { AllByRecursion (λ p. IsEntry p.1) entries.now }
    ensures walk { (walk : Walk) → IsWalking (T.stored walking.old.trees) walking.old.seen.keys walking.old.node walking.old.db walk → GoesOn (node_at (map (λ f. f.0) files.now) entries.now d above low.now (option_copied high.entry) at walk) (IsWalking (T.stored walking.new.trees) walking.new.seen.keys walking.new.node walking.new.db) result }
    ensures nodes { OnOk result (HasPut (as_loaded T.nodes T.read) (λ keeps most. IsLoadedBelow entries.now keeps most d above low.now (option_copied high.entry) at) walking.old walking.new) }
{
    let node = take_node(walking, alloc, files, entries, d, above + 1, low, high, at)?;
    let done = read_below(
        walking,
        alloc,
        files,
        entries,
        d,
        above,
        low,
        high,
        at,
        node.slots.as_slice(),
    );
    drop(node);
    done
}

// Reads what the slots of a node name that stands `above` levels above the BINs.
#[cycle(descending)]
fn read_below<T: Loads>(
    walking: &mut Walking<T>,
    alloc: Global,
    files: &[FileNo],
    entries: &LogRead,
    d: u32,
    above: u8,
    low: &Name,
    high: Option<&Name>,
    at: Lsn,
    slots: &[Marked],
) -> Result<(), ReadErr>
    requires level { above < 255 }
    requires order { AreInOrder entries.now }
    requires entries { AllByRecursion (λ p. IsEntry p.1) entries.now }
    ensures walk { (walk : Walk) → IsWalking (T.stored walking.old.trees) walking.old.seen.keys walking.old.node walking.old.db walk → GoesOn (below_node (map (λ f. f.0) files.now) entries.now d above low.now (option_copied high.entry) at slots.now walk) (IsWalking (T.stored walking.new.trees) walking.new.seen.keys walking.new.node walking.new.db) result }
    ensures nodes { (k : ℕ) (x : Named) → IsSome (T.nodes walking.old.trees d k x) → OnOk result (HasPut (as_loaded T.nodes T.read) (below_put entries.now d above low.now (option_copied high.entry) slots.now) walking.old walking.new) }
{
    if above == 0 {
        return read_slots(walking, alloc, files, entries, d, low, high, at, slots);
    }
    read_children(
        walking,
        alloc,
        files,
        entries,
        d,
        above - 1,
        low,
        high,
        at,
        slots,
    )
}

/// Whether the names of the child that waits end at the next slot's name, since this is above the lower bound.
pub(crate) fn child_ends_at(pending: Option<&Lsn>, low: &Name, name: &Name) -> bool
    ensures { result ≡ ends_at_name (option_copied pending.entry) low.now name.now }
{
    match pending {
        Some(_) => low.cmp(name).is_lt(),
        None => false,
    }
}

// Reads the trees of an IN's children within bounds, `above` levels above the BINs. A child waits until the
// name behind it is known, which is its upper bound. One that has no name within the bounds is read past.
#[cycle(descending)]
fn read_children<'a, T: Loads>(
    walking: &mut Walking<T>,
    alloc: Global,
    files: &[FileNo],
    entries: &LogRead,
    d: u32,
    above: u8,
    low: &'a Name,
    high: Option<&Name>,
    at: Lsn,
    slots: &'a [Marked],
) -> Result<(), ReadErr>
    requires level { above < 255 }
    requires order { AreInOrder entries.now }
    requires entries { AllByRecursion (λ p. IsEntry p.1) entries.now }
    ensures walk { (walk : Walk) → IsWalking (T.stored walking.old.trees) walking.old.seen.keys walking.old.node walking.old.db walk → GoesOn (each (read_child (map (λ f. f.0) files.now) (node_at (map (λ f. f.0) files.now) entries.now d above) at) (children low.now (option_copied high.entry) (flat_map slot_shown slots.now)) walk) (IsWalking (T.stored walking.new.trees) walking.new.seen.keys walking.new.node walking.new.db) result }
    ensures nodes { OnOk result (HasPut (as_loaded T.nodes T.read) (children_put entries.now d above (children low.now (option_copied high.entry) (flat_map slot_shown slots.now))) walking.old walking.new) }
{
    let mut low = low;
    let mut pending = None;
    for marked in slots {
        let Version::There(child) = &marked.slot.version else {
            continue;
        };
        let name = &marked.slot.name;
        if !child_ends_at(pending, low, name) {
            pending = Some(child);
            continue;
        }
        if !is_below(name, high) {
            return read_pending(
                walking, alloc, files, entries, d, above, low, high, at, pending,
            );
        }
        read_pending(
            walking,
            alloc,
            files,
            entries,
            d,
            above,
            low,
            Some(name),
            at,
            pending,
        )?;
        low = name;
        pending = Some(child);
    }
    read_pending(
        walking, alloc, files, entries, d, above, low, high, at, pending,
    )
}

// Reads the tree of the child that waits, if one does.
#[cycle(descending)]
fn read_pending<T: Loads>(
    walking: &mut Walking<T>,
    alloc: Global,
    files: &[FileNo],
    entries: &LogRead,
    d: u32,
    above: u8,
    low: &Name,
    high: Option<&Name>,
    at: Lsn,
    pending: Option<&Lsn>,
) -> Result<(), ReadErr>
    requires level { above < 255 }
    requires order { AreInOrder entries.now }
    requires entries { AllByRecursion (λ p. IsEntry p.1) entries.now }
    ensures walk { (walk : Walk) → IsWalking (T.stored walking.old.trees) walking.old.seen.keys walking.old.node walking.old.db walk → GoesOn (each (read_child (map (λ f. f.0) files.now) (node_at (map (λ f. f.0) files.now) entries.now d above) at) (child_waiting low.now (option_copied high.entry) (option_copied pending.entry)) walk) (IsWalking (T.stored walking.new.trees) walking.new.seen.keys walking.new.node walking.new.db) result }
    ensures nodes { OnOk result (HasPut (as_loaded T.nodes T.read) (children_put entries.now d above (child_waiting low.now (option_copied high.entry) (option_copied pending.entry))) walking.old walking.new) }
{
    let Some(child) = pending else {
        return Ok(());
    };
    if child.as_u64() >= at.as_u64() {
        return Err(ReadErr::Found(nowhere(files, *child)));
    }
    read_node(walking, alloc, files, entries, d, above, low, high, *child)
}
