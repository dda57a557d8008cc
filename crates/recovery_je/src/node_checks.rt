// Checking the tree below an image: a node, and then what its slots name, from the left. A node that is wrong is left out with all below it.
ghost use Rattle.std.specs.Prelude.{◌≡◌, ◌<◌, OnOk, map, option_copied};
ghost use Rattle.std.specs.List.{AllByRecursion, flat_map};
ghost use Rattle.log_entry.specs.Body.{IsEntry};
ghost use Rattle.log_trees.specs.Placed.{AreInOrder};
ghost use Rattle.log_trees.specs.Images.{slot_shown};
ghost use Rattle.log_trees.specs.Bounds.{children};
ghost use Rattle.log_trees.specs.Walk.{met};
ghost use Rattle.check_laws.specs.Noting.{each_on};
ghost use Rattle.check_laws.specs.Trees.{check_child, check_node as node_checked, with_walk};
ghost use Rattle.recovery_je.specs.TreeChecks.{ChecksBy, check_below as below_checked};
ghost use Rattle.recovery_je.specs.Walking.{waiting as child_waiting};

use crate::descending::child_ends_at;
use crate::images::nowhere;
use crate::log_read::LogRead;
use crate::slot_checks::check_slots;
use crate::tree_check::{TreeCheck, note, note_failure};
use crate::walking::{is_below, meet, read_here};
use je_lsn::{FileNo, Lsn};
use je_order::Name;
use node_core::{Marked, Node, Version};
use record_tree::{LoadErr, Loads};
use std::alloc::Global;

/// Checks the tree below an image that stands `above` levels above its BINs, and whose names lie within these bounds: the node, and
/// then what its slots name, from the left. Images have at most 64 levels, so the calls within calls are that few.
#[cycle(descent)]
pub(crate) fn check_node<T: Loads>(
    check: &mut TreeCheck<T>,
    alloc: Global,
    files: &[FileNo],
    entries: &LogRead,
    d: u32,
    above: u8,
    low: &Name,
    high: Option<&Name>,
    at: Lsn,
) -> Result<(), LoadErr>
    requires level { above < 255 }
    requires order { AreInOrder entries.now }
    requires entries { AllByRecursion (λ p. IsEntry p.1) entries.now }
    ensures checks { OnOk result (ChecksBy T.stored (node_checked (map (λ f. f.0) files.now) entries.now d above low.now (option_copied high.entry) at) check.old check.new) }
{
    match read_here(alloc, files, entries, d, above + 1, at, &check.walking.seen) {
        Ok(node) => {
            let done = check_met(check, alloc, files, entries, d, above, low, high, at, &node);
            drop(node);
            done
        }
        Err(failure) => {
            note_failure(check, failure)?;
            Ok(())
        }
    }
}

// Puts a node that stands `above` levels above the BINs, and checks what its slots name.
#[cycle(descent)]
fn check_met<T: Loads>(
    check: &mut TreeCheck<T>,
    alloc: Global,
    files: &[FileNo],
    entries: &LogRead,
    d: u32,
    above: u8,
    low: &Name,
    high: Option<&Name>,
    at: Lsn,
    node: &Node,
) -> Result<(), LoadErr>
    requires level { above < 255 }
    requires order { AreInOrder entries.now }
    requires entries { AllByRecursion (λ p. IsEntry p.1) entries.now }
    ensures checks { OnOk result (ChecksBy T.stored (λ s. below_checked (map (λ f. f.0) files.now) entries.now d above low.now (option_copied high.entry) at node.now.slots (with_walk (met node.now) s)) check.old check.new) }
{
    meet(&mut check.walking, alloc, node, low, high, at)?;
    check_below(
        check,
        alloc,
        files,
        entries,
        d,
        above,
        low,
        high,
        at,
        node.slots.as_slice(),
    )
}

// Checks what the slots of a node name that stands `above` levels above the BINs.
#[cycle(descent)]
fn check_below<T: Loads>(
    check: &mut TreeCheck<T>,
    alloc: Global,
    files: &[FileNo],
    entries: &LogRead,
    d: u32,
    above: u8,
    low: &Name,
    high: Option<&Name>,
    at: Lsn,
    slots: &[Marked],
) -> Result<(), LoadErr>
    requires level { above < 255 }
    requires order { AreInOrder entries.now }
    requires entries { AllByRecursion (λ p. IsEntry p.1) entries.now }
    ensures checks { OnOk result (ChecksBy T.stored (below_checked (map (λ f. f.0) files.now) entries.now d above low.now (option_copied high.entry) at slots.now) check.old check.new) }
{
    if above == 0 {
        return check_slots(check, alloc, files, entries, d, low, high, at, slots);
    }
    check_children(
        check,
        alloc,
        files,
        entries,
        d,
        above - 1,
        low,
        high,
        at,
        slots,
    )
}

// Checks the trees of an IN's children within bounds, `above` levels above the BINs. A child waits until the name behind it is known, which
// is its upper bound. One that has no name within the bounds is read past.
#[cycle(descent)]
fn check_children<'a, T: Loads>(
    check: &mut TreeCheck<T>,
    alloc: Global,
    files: &[FileNo],
    entries: &LogRead,
    d: u32,
    above: u8,
    low: &'a Name,
    high: Option<&Name>,
    at: Lsn,
    slots: &'a [Marked],
) -> Result<(), LoadErr>
    requires level { above < 255 }
    requires order { AreInOrder entries.now }
    requires entries { AllByRecursion (λ p. IsEntry p.1) entries.now }
    ensures checks { OnOk result (ChecksBy T.stored (each_on (check_child (map (λ f. f.0) files.now) (node_checked (map (λ f. f.0) files.now) entries.now d above) at) (children low.now (option_copied high.entry) (flat_map slot_shown slots.now))) check.old check.new) }
{
    let mut low = low;
    let mut pending = None;
    for marked in slots {
        let Version::There(child) = &marked.slot.version else {
            continue;
        };
        let name = &marked.slot.name;
        if !child_ends_at(pending, low, name) {
            pending = Some(child);
            continue;
        }
        if !is_below(name, high) {
            return check_pending(
                check, alloc, files, entries, d, above, low, high, at, pending,
            );
        }
        check_pending(
            check,
            alloc,
            files,
            entries,
            d,
            above,
            low,
            Some(name),
            at,
            pending,
        )?;
        low = name;
        pending = Some(child);
    }
    check_pending(
        check, alloc, files, entries, d, above, low, high, at, pending,
    )
}

// Checks the tree of the child that waits, if one does.
#[cycle(descent)]
fn check_pending<T: Loads>(
    check: &mut TreeCheck<T>,
    alloc: Global,
    files: &[FileNo],
    entries: &LogRead,
    d: u32,
    above: u8,
    low: &Name,
    high: Option<&Name>,
    at: Lsn,
    pending: Option<&Lsn>,
) -> Result<(), LoadErr>
    requires level { above < 255 }
    requires order { AreInOrder entries.now }
    requires entries { AllByRecursion (λ p. IsEntry p.1) entries.now }
    ensures checks { OnOk result (ChecksBy T.stored (each_on (check_child (map (λ f. f.0) files.now) (node_checked (map (λ f. f.0) files.now) entries.now d above) at) (child_waiting low.now (option_copied high.entry) (option_copied pending.entry))) check.old check.new) }
{
    let Some(child) = pending else {
        return Ok(());
    };
    if child.as_u64() >= at.as_u64() {
        note(check, nowhere(files, *child))?;
        return Ok(());
    }
    check_node(check, alloc, files, entries, d, above, low, high, *child)
}
