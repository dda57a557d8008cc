// Checking the records that the slots of BINs name.
ghost use Rattle.std.specs.Prelude.{◌≡◌, OnOk, map, option_copied};
ghost use Rattle.std.specs.List.{flat_map};
ghost use Rattle.log_trees.specs.Placed.{AreInOrder};
ghost use Rattle.log_trees.specs.Images.{named, slot_shown};
ghost use Rattle.log_trees.specs.Bounds.{slots_inside};
ghost use Rattle.log_trees.specs.Trees.{data_in};
ghost use Rattle.log_trees.specs.Walk.{record_in};
ghost use Rattle.node_log.specs.Slots.{lsn_in};
ghost use Rattle.check_laws.specs.Noting.{each_on};
ghost use Rattle.check_laws.specs.Trees.{check_record as record_checked};
ghost use Rattle.recovery_je.specs.TreeChecks.{ChecksBy, record_noted};

use crate::images::nowhere;
use crate::log_read::LogRead;
use crate::lookup::entry_at;
use crate::tree_check::{TreeCheck, note};
use crate::walking::{data_of, is_within, put_record};
use je_lsn::{FileNo, Lsn};
use je_order::Name;
use log_entry::Entry;
use log_replay::Corruption;
use node_core::{Marked, Slot, Version};
use record_tree::{LoadErr, Loads};
use std::alloc::Global;

// Puts the record that an entry at an LSN gives, or notes that it gives none.
fn check_given<T: Loads>(
    check: &mut TreeCheck<T>,
    alloc: Global,
    d: u32,
    name: &Name,
    lsn: Lsn,
    entry: &Entry,
) -> Result<(), LoadErr>
    ensures { OnOk result (ChecksBy T.stored (λ s. record_noted (record_in d (name.now, lsn) s.walk (data_in d name.now entry.now)) s) check.old check.new) }
{
    match data_of(d, name, entry) {
        Some(value) => {
            put_record(&mut check.walking, alloc, d, name, lsn, value)?;
            Ok(())
        }
        None => {
            note(check, Corruption::Tree(lsn))?;
            Ok(())
        }
    }
}

// Reads the record that a slot of the image at an LSN names, or notes what is wrong with it.
fn check_record<T: Loads>(
    check: &mut TreeCheck<T>,
    alloc: Global,
    files: &[FileNo],
    entries: &LogRead,
    d: u32,
    at: Lsn,
    name: &Name,
    lsn: Lsn,
) -> Result<(), LoadErr>
    requires order { AreInOrder entries.now }
    ensures checks { OnOk result (ChecksBy T.stored (record_checked (map (λ f. f.0) files.now) entries.now d at (name.now, lsn)) check.old check.new) }
{
    if lsn.as_u64() >= at.as_u64() {
        note(check, nowhere(files, lsn))?;
        return Ok(());
    }
    match entry_at(alloc, entries, lsn)? {
        Some(entry) => {
            let done = check_given(check, alloc, d, name, lsn, &entry);
            drop(entry);
            done
        }
        None => {
            note(check, nowhere(files, lsn))?;
            Ok(())
        }
    }
}

// Checks the record that a slot of the image at an LSN names, if it names one.
fn check_slot<T: Loads>(
    check: &mut TreeCheck<T>,
    alloc: Global,
    files: &[FileNo],
    entries: &LogRead,
    d: u32,
    at: Lsn,
    slot: &Slot,
) -> Result<(), LoadErr>
    requires order { AreInOrder entries.now }
    ensures checks { OnOk result (ChecksBy T.stored (each_on (record_checked (map (λ f. f.0) files.now) entries.now d at) (named slot.now.name (lsn_in slot.now.version))) check.old check.new) }
{
    match slot.version {
        Version::There(lsn) => {
            check_record(check, alloc, files, entries, d, at, &slot.name, lsn)
        }
        Version::Deleted | Version::Unset => Ok(()),
    }
}

// Checks the record that a slot of the image at an LSN names, if its name lies within the bounds.
fn check_within<T: Loads>(
    check: &mut TreeCheck<T>,
    alloc: Global,
    files: &[FileNo],
    entries: &LogRead,
    d: u32,
    low: &Name,
    high: Option<&Name>,
    at: Lsn,
    slot: &Slot,
) -> Result<(), LoadErr>
    requires order { AreInOrder entries.now }
    ensures checks { OnOk result (ChecksBy T.stored (each_on (record_checked (map (λ f. f.0) files.now) entries.now d at) (slots_inside low.now (option_copied high.entry) (named slot.now.name (lsn_in slot.now.version)))) check.old check.new) }
{
    if !is_within(low, high, &slot.name) {
        return Ok(());
    }
    check_slot(check, alloc, files, entries, d, at, slot)
}

/// Checks the records that the slots of the image at an LSN name within bounds.
pub(crate) fn check_slots<T: Loads>(
    check: &mut TreeCheck<T>,
    alloc: Global,
    files: &[FileNo],
    entries: &LogRead,
    d: u32,
    low: &Name,
    high: Option<&Name>,
    at: Lsn,
    slots: &[Marked],
) -> Result<(), LoadErr>
    requires order { AreInOrder entries.now }
    ensures checks { OnOk result (ChecksBy T.stored (each_on (record_checked (map (λ f. f.0) files.now) entries.now d at) (slots_inside low.now (option_copied high.entry) (flat_map slot_shown slots.now))) check.old check.new) }
{
    for marked in slots {
        check_within(check, alloc, files, entries, d, low, high, at, &marked.slot)?;
    }
    Ok(())
}
