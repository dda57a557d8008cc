// The images that trees reach.
ghost use Rattle.std.specs.Prelude.{◌≡◌, ◌<◌, ◌+◌, [], ◌∷◌, Some, IfOk, OnOk, MatchOption, option_copied};
ghost use Rattle.std.specs.List.{AllByRecursion, flat_map};
ghost use Rattle.log_entry.specs.Body.{IsEntry};
ghost use Rattle.log_trees.specs.Placed.{AreInOrder, entry_at as entry_at_lsn};
ghost use Rattle.log_trees.specs.Images.{node_in, node_at as node_at_lsn, level_at as level_at_lsn, slot_shown, slots_of_level};
ghost use Rattle.std.specs.Option.{option_and_then};
ghost use Rattle.node_log.specs.Images.{node_with};
ghost use Rattle.log_trees.specs.Bounds.{children, least_name};
ghost use Rattle.file_use.specs.Images.{full_image, bin_images, images_below, images_by_level, images_of_root};
ghost use Rattle.file_use.specs.Live.{images_in_use as images_used};
ghost use Rattle.recovery_je.specs.Walking.{waiting as child_waiting};
ghost use Rattle.recovery_je.specs.Using.{HasAdded, images_of_children, AreInUse};

use crate::descending::child_ends_at;
use crate::log_read::LogRead;
use crate::lookup::entry_at;
use crate::roots::least_of_all;
use crate::walking::is_below;
use je_lsn::Lsn;
use je_order::Name;
use log_entry::{Entry, Root};
use node_core::{Marked, Node, Version};
use node_log::from_entries;
use record_tree::Loads;
use std::alloc::{AllocError, Global};
use std::collections::BTreeSet;

// The node that a delta and the entry at its full image's LSN show, if they show one.
fn node_on(
    alloc: Global,
    entries: &LogRead,
    full: Lsn,
    delta: &Entry,
) -> Result<Option<Node>, AllocError>
    requires order { AreInOrder entries.now }
    requires entries { AllByRecursion (λ p. IsEntry p.1) entries.now }
    ensures { IfOk result (λ found. found ≡ option_and_then (λ base. node_with base delta.now) (entry_at_lsn entries.now full)) }
{
    let Some(base) = entry_at(alloc, entries, full)? else {
        return Ok(None);
    };
    let node = from_entries(alloc, &base, Some(delta));
    drop(base);
    node
}

// The node that an entry at an LSN shows, if it shows one.
fn node_of(
    alloc: Global,
    entries: &LogRead,
    at: Lsn,
    entry: &Entry,
) -> Result<Option<Node>, AllocError>
    requires order { AreInOrder entries.now }
    requires entries { AllByRecursion (λ p. IsEntry p.1) entries.now }
    requires entry { IsEntry entry.now }
    ensures { IfOk result (λ found. found ≡ node_in entries.now at entry.now) }
{
    let Entry::BinDelta { full, .. } = entry else {
        return from_entries(alloc, entry, None);
    };
    if full.as_u64() < at.as_u64() {
        return node_on(alloc, entries, *full, entry);
    }
    Ok(None)
}

// The node that the image at an LSN shows, if there is one.
fn node_at(alloc: Global, entries: &LogRead, at: Lsn) -> Result<Option<Node>, AllocError>
    requires order { AreInOrder entries.now }
    requires entries { AllByRecursion (λ p. IsEntry p.1) entries.now }
    ensures { IfOk result (λ found. found ≡ node_at_lsn entries.now at) }
{
    let Some(entry) = entry_at(alloc, entries, at)? else {
        return Ok(None);
    };
    let node = node_of(alloc, entries, at, &entry);
    drop(entry);
    node
}

// The level of the node that the image at an LSN shows, 0 where there is none.
fn level_at(alloc: Global, entries: &LogRead, at: Lsn) -> Result<u8, AllocError>
    requires order { AreInOrder entries.now }
    requires entries { AllByRecursion (λ p. IsEntry p.1) entries.now }
    ensures { IfOk result (λ level. level ≡ level_at_lsn entries.now at) }
{
    let Some(node) = node_at(alloc, entries, at)? else {
        return Ok(0);
    };
    let level = node.level;
    drop(node);
    Ok(level)
}

// Puts an image to the others.
fn add_image(images: &mut BTreeSet<u64>, at: Lsn) -> Result<(), AllocError>
    ensures { OnOk result (HasAdded (at ∷ []) images.old.keys images.new.keys) }
{
    images.insert(at.as_u64())?;
    Ok(())
}

// The LSN of the full image, if an entry is a delta.
fn full_of(entry: &Entry) -> Option<Lsn>
    ensures { MatchOption result ([] ≡ full_image (Some entry.now)) (λ full. full ∷ [] ≡ full_image (Some entry.now)) }
{
    match entry {
        Entry::BinDelta { full, .. } => Some(*full),
        _ => None,
    }
}

// Puts the full image of the delta at an LSN to the others, if one stands there.
fn add_full(
    images: &mut BTreeSet<u64>,
    alloc: Global,
    entries: &LogRead,
    at: Lsn,
) -> Result<(), AllocError>
    requires order { AreInOrder entries.now }
    ensures { OnOk result (HasAdded (full_image (entry_at_lsn entries.now at)) images.old.keys images.new.keys) }
{
    let Some(entry) = entry_at(alloc, entries, at)? else {
        return Ok(());
    };
    let full = full_of(&entry);
    drop(entry);
    match full {
        Some(full) => add_image(images, full),
        None => Ok(()),
    }
}

// Puts the image of a BIN to the others, and of a delta its full image too.
fn add_bin(
    images: &mut BTreeSet<u64>,
    alloc: Global,
    entries: &LogRead,
    at: Lsn,
) -> Result<(), AllocError>
    requires order { AreInOrder entries.now }
    ensures { OnOk result (HasAdded (bin_images entries.now at) images.old.keys images.new.keys) }
{
    add_image(images, at)?;
    add_full(images, alloc, entries, at)
}

// Puts the images of a tree to the others, whose root's image stands `above` levels above its BINs, and whose names lie within
// these bounds. Images have at most 64 levels, so the calls within calls are that few.
#[cycle(reaching)]
fn add_below(
    images: &mut BTreeSet<u64>,
    alloc: Global,
    entries: &LogRead,
    above: u8,
    low: &Name,
    high: Option<&Name>,
    at: Lsn,
) -> Result<(), AllocError>
    requires level { above < 255 }
    requires order { AreInOrder entries.now }
    requires entries { AllByRecursion (λ p. IsEntry p.1) entries.now }
    ensures { OnOk result (HasAdded (images_below entries.now above low.now (option_copied high.entry) at) images.old.keys images.new.keys) }
{
    if above == 0 {
        return add_bin(images, alloc, entries, at);
    }
    add_image(images, at)?;
    let Some(node) = node_at(alloc, entries, at)? else {
        return Ok(());
    };
    let done = add_node(images, alloc, entries, above - 1, low, high, at, &node);
    drop(node);
    done
}

// Puts the images below an IN to the others, whose children stand `above` levels above the BINs.
#[cycle(reaching)]
fn add_node(
    images: &mut BTreeSet<u64>,
    alloc: Global,
    entries: &LogRead,
    above: u8,
    low: &Name,
    high: Option<&Name>,
    at: Lsn,
    node: &Node,
) -> Result<(), AllocError>
    requires level { above < 254 }
    requires order { AreInOrder entries.now }
    requires entries { AllByRecursion (λ p. IsEntry p.1) entries.now }
    ensures { OnOk result (HasAdded (images_of_children entries.now above at (children low.now (option_copied high.entry) (slots_of_level (above + 2) (Some node.now)))) images.old.keys images.new.keys) }
{
    if node.level != above + 2 {
        return Ok(());
    }
    add_children(
        images,
        alloc,
        entries,
        above,
        low,
        high,
        at,
        node.slots.as_slice(),
    )
}

// Puts the images of the trees of an IN's children within bounds to the others, `above` levels above the BINs. A child waits
// until the name behind it is known, which is its upper bound.
#[cycle(reaching)]
fn add_children<'a>(
    images: &mut BTreeSet<u64>,
    alloc: Global,
    entries: &LogRead,
    above: u8,
    low: &'a Name,
    high: Option<&Name>,
    at: Lsn,
    slots: &'a [Marked],
) -> Result<(), AllocError>
    requires level { above < 255 }
    requires order { AreInOrder entries.now }
    requires entries { AllByRecursion (λ p. IsEntry p.1) entries.now }
    ensures { OnOk result (HasAdded (images_of_children entries.now above at (children low.now (option_copied high.entry) (flat_map slot_shown slots.now))) images.old.keys images.new.keys) }
{
    let mut low = low;
    let mut pending = None;
    for marked in slots {
        let Version::There(child) = &marked.slot.version else {
            continue;
        };
        let name = &marked.slot.name;
        if !child_ends_at(pending, low, name) {
            pending = Some(child);
            continue;
        }
        if !is_below(name, high) {
            return add_pending(images, alloc, entries, above, low, high, at, pending);
        }
        add_pending(images, alloc, entries, above, low, Some(name), at, pending)?;
        low = name;
        pending = Some(child);
    }
    add_pending(images, alloc, entries, above, low, high, at, pending)
}

// Puts the images of the tree of the child that waits to the others, if one does.
#[cycle(reaching)]
fn add_pending(
    images: &mut BTreeSet<u64>,
    alloc: Global,
    entries: &LogRead,
    above: u8,
    low: &Name,
    high: Option<&Name>,
    at: Lsn,
    pending: Option<&Lsn>,
) -> Result<(), AllocError>
    requires level { above < 255 }
    requires order { AreInOrder entries.now }
    requires entries { AllByRecursion (λ p. IsEntry p.1) entries.now }
    ensures { OnOk result (HasAdded (images_of_children entries.now above at (child_waiting low.now (option_copied high.entry) (option_copied pending.entry))) images.old.keys images.new.keys) }
{
    let Some(child) = pending else {
        return Ok(());
    };
    if child.as_u64() >= at.as_u64() {
        return Ok(());
    }
    add_below(images, alloc, entries, above, low, high, *child)
}

// Puts the images of the tree to the others whose root's image stands at an LSN, and shows a node of this level.
fn add_level(
    images: &mut BTreeSet<u64>,
    alloc: Global,
    entries: &LogRead,
    level: u8,
    least: &Name,
    at: Lsn,
) -> Result<(), AllocError>
    requires least { least.now ≡ least_name }
    requires order { AreInOrder entries.now }
    requires entries { AllByRecursion (λ p. IsEntry p.1) entries.now }
    ensures { OnOk result (HasAdded (images_by_level entries.now level at) images.old.keys images.new.keys) }
{
    if level == 0 {
        return Ok(());
    }
    add_below(images, alloc, entries, level - 1, least, None, at)
}

// Puts the images of a root's tree to the others.
fn add_root(
    images: &mut BTreeSet<u64>,
    alloc: Global,
    entries: &LogRead,
    least: &Name,
    root: &Root,
) -> Result<(), AllocError>
    requires least { least.now ≡ least_name }
    requires order { AreInOrder entries.now }
    requires entries { AllByRecursion (λ p. IsEntry p.1) entries.now }
    ensures { OnOk result (HasAdded (images_of_root entries.now root.now) images.old.keys images.new.keys) }
{
    let level = level_at(alloc, entries, root.image)?;
    add_level(images, alloc, entries, level, least, root.image)
}

// Puts the images of a root's tree to the others, if its database has a tree.
fn add_made<T: Loads>(
    images: &mut BTreeSet<u64>,
    alloc: Global,
    entries: &LogRead,
    trees: &T,
    least: &Name,
    root: &Root,
) -> Result<(), AllocError>
    requires least { least.now ≡ least_name }
    requires order { AreInOrder entries.now }
    requires entries { AllByRecursion (λ p. IsEntry p.1) entries.now }
    ensures { OnOk result (HasAdded (images_used (T.has_tree trees.now) entries.now (root.now ∷ [])) images.old.keys images.new.keys) }
{
    if !trees.is_made(root.db) {
        return Ok(());
    }
    add_root(images, alloc, entries, least, root)
}

/// The LSNs of the images that the trees of these roots reach whose databases have trees in memory, those of full images
/// included. It takes the time of these trees, and a number's room for each image.
pub(crate) fn images_in_use<T: Loads>(
    alloc: Global,
    entries: &LogRead,
    trees: &T,
    roots: &[Root],
) -> Result<BTreeSet<u64>, AllocError>
    requires order { AreInOrder entries.now }
    requires entries { AllByRecursion (λ p. IsEntry p.1) entries.now }
    ensures { IfOk result (λ images. AreInUse (T.has_tree trees.now) entries.now roots.now images.keys) }
{
    let least = least_of_all(alloc);
    let mut images = BTreeSet::new(alloc);
    for root in roots {
        add_made(&mut images, alloc, entries, trees, &least, root)?;
    }
    drop(least);
    Ok(images)
}
