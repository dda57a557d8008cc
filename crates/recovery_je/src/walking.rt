// Reading trees.
ghost use Rattle.std.specs.Prelude.{◌≡◌, ◌≤◌, ◌-◌, ℕ, List as Items, Some, IsSome, OnOk, map, option_map, option_copied};
ghost use Rattle.std.specs.List.{AllByRecursion, flat_map};
ghost use Rattle.je_order.specs.declared.name.Name.{Name as Named};
ghost use Rattle.log_entry.specs.Body.{IsEntry};
ghost use Rattle.node_log.specs.Slots.{lsn_in};
ghost use Rattle.log_trees.specs.Images.{named, slot_shown};
ghost use Rattle.log_trees.specs.Bounds.{is_below as is_name_below, is_within as is_name_within, slots_inside};
ghost use Rattle.log_trees.specs.Placed.{AreInOrder};
ghost use Rattle.log_trees.specs.Trees.{data_in};
ghost use Rattle.log_trees.specs.Walk.{Walk, each, met, with_record, record_by, read_record as record_at, read_here as node_here, may_stand as node_may_stand};
ghost use Rattle.record_tree.specs.LoadedNodes.{AllNodes, node_read, HasPutNode};
ghost use Rattle.record_tree.specs.LoadedSlots.{shows_deletion_inside, HasGone};
ghost use Rattle.recovery_je.specs.Putting.{HasPut, as_loaded, none_put};
ghost use Rattle.recovery_je.specs.Walking.{Answers, IsWalking, GoesOn};

use crate::images::{nowhere, read_image};
use crate::log_read::LogRead;
use crate::lookup::entry_at;
use crate::read_err::ReadErr;
use crate::redoing::number_in;
use je_lsn::{FileNo, Lsn};
use je_order::{Name, Octets};
use log_entry::Entry;
use log_replay::Corruption;
use node_core::{Marked, Node, Slot, Version};
use record_tree::{LoadErr, Loads};
use std::alloc::Global;
use std::collections::BTreeSet;

/// A reading of trees under way: the trees, whether the images that are read are kept as their nodes' last ones, the
/// numbers of the nodes that were read, and the greatest numbers of a node and of a database in a catalog record.
#[derive(Drop)]
pub(crate) struct Walking<T> {
    pub(crate) trees: T,
    pub(crate) keeps: bool,
    pub(crate) seen: BTreeSet<u64>,
    pub(crate) node: u64,
    pub(crate) db: u32,
}

/// Puts a node that was read, whose names lie within these bounds.
pub(crate) fn meet<T: Loads>(
    walking: &mut Walking<T>,
    alloc: Global,
    node: &Node,
    low: &Name,
    high: Option<&Name>,
    at: Lsn,
) -> Result<(), LoadErr>
    ensures walk { (walk : Walk) → IsWalking (T.stored walking.old.trees) walking.old.seen.keys walking.old.node walking.old.db walk → OnOk result (IsWalking (T.stored walking.new.trees) walking.new.seen.keys walking.new.node walking.new.db (met node.now walk)) }
    ensures nodes { OnOk result (HasPut (as_loaded T.nodes T.read) (λ keeps most old new. (node.now.number ≤ most) × HasPutNode old.nodes new.nodes node.now.db (node.now.level - 1) low.now (node_read node.now.number at keeps) × HasGone old.slots new.slots node.now.db (shows_deletion_inside low.now (option_copied high.entry) node.now.slots) at) walking.old walking.new) }
{
    walking
        .trees
        .load_node(alloc, node, low, high, at, walking.keeps)?;
    if walking.seen.insert(node.number).is_err() {
        return Err(LoadErr::Memory);
    }
    walking.node = walking.node.max(node.number);
    Ok(())
}

/// Puts a record that was read.
pub(crate) fn put_record<T: Loads>(
    walking: &mut Walking<T>,
    alloc: Global,
    d: u32,
    name: &Name,
    lsn: Lsn,
    value: &Octets,
) -> Result<(), LoadErr>
    ensures walk { (walk : Walk) → IsWalking (T.stored walking.old.trees) walking.old.seen.keys walking.old.node walking.old.db walk → OnOk result (IsWalking (T.stored walking.new.trees) walking.new.seen.keys walking.new.node walking.new.db (with_record d (name.now, lsn) value.now walk)) }
    ensures nodes { (k : ℕ) (x : Named) → IsSome (T.nodes walking.old.trees d k x) → OnOk result (HasPut (as_loaded T.nodes T.read) none_put walking.old walking.new) }
{
    walking.trees.load(alloc, d, name, lsn, value.as_slice())?;
    walking.db = walking.db.max(number_in(d, value));
    Ok(())
}

/// The data that an entry gives a record.
pub(crate) fn data_of<'a>(d: u32, name: &Name, entry: &'a Entry) -> Option<&'a Octets>
    ensures { option_map (λ value. value.now) result ≡ data_in d name.now entry.now }
{
    match entry {
        Entry::Put {
            db,
            name: at,
            value,
            ..
        }
        | Entry::Migrated {
            db,
            name: at,
            value,
        } => {
            if *db == d && at.cmp(name).is_eq() {
                Some(value)
            } else {
                None
            }
        }
        _ => None,
    }
}

// Puts the record that an entry at an LSN gives, if it gives one.
fn put_given<T: Loads>(
    walking: &mut Walking<T>,
    alloc: Global,
    d: u32,
    name: &Name,
    lsn: Lsn,
    entry: &Entry,
) -> Result<(), ReadErr>
    ensures walk { (files : Items ℕ) (walk : Walk) → IsWalking (T.stored walking.old.trees) walking.old.seen.keys walking.old.node walking.old.db walk → GoesOn (record_by files d (name.now, lsn) walk (Some entry.now)) (IsWalking (T.stored walking.new.trees) walking.new.seen.keys walking.new.node walking.new.db) result }
    ensures nodes { (k : ℕ) (x : Named) → IsSome (T.nodes walking.old.trees d k x) → OnOk result (HasPut (as_loaded T.nodes T.read) none_put walking.old walking.new) }
{
    let Some(value) = data_of(d, name, entry) else {
        return Err(ReadErr::Found(Corruption::Tree(lsn)));
    };
    put_record(walking, alloc, d, name, lsn, value)?;
    Ok(())
}

// Reads the record that a slot of the image at an LSN names.
fn read_record<T: Loads>(
    walking: &mut Walking<T>,
    alloc: Global,
    files: &[FileNo],
    entries: &LogRead,
    d: u32,
    at: Lsn,
    name: &Name,
    lsn: Lsn,
) -> Result<(), ReadErr>
    requires order { AreInOrder entries.now }
    ensures walk { (walk : Walk) → IsWalking (T.stored walking.old.trees) walking.old.seen.keys walking.old.node walking.old.db walk → GoesOn (record_at (map (λ f. f.0) files.now) entries.now d at (name.now, lsn) walk) (IsWalking (T.stored walking.new.trees) walking.new.seen.keys walking.new.node walking.new.db) result }
    ensures nodes { (k : ℕ) (x : Named) → IsSome (T.nodes walking.old.trees d k x) → OnOk result (HasPut (as_loaded T.nodes T.read) none_put walking.old walking.new) }
{
    if lsn.as_u64() >= at.as_u64() {
        return Err(ReadErr::Found(nowhere(files, lsn)));
    }
    match entry_at(alloc, entries, lsn)? {
        Some(entry) => {
            let put = put_given(walking, alloc, d, name, lsn, &entry);
            drop(entry);
            put
        }
        None => Err(ReadErr::Found(nowhere(files, lsn))),
    }
}

// Reads the record that a slot of the image at an LSN names, if it names one.
fn read_slot<T: Loads>(
    walking: &mut Walking<T>,
    alloc: Global,
    files: &[FileNo],
    entries: &LogRead,
    d: u32,
    at: Lsn,
    slot: &Slot,
) -> Result<(), ReadErr>
    requires order { AreInOrder entries.now }
    ensures walk { (walk : Walk) → IsWalking (T.stored walking.old.trees) walking.old.seen.keys walking.old.node walking.old.db walk → GoesOn (each (record_at (map (λ f. f.0) files.now) entries.now d at) (named slot.now.name (lsn_in slot.now.version)) walk) (IsWalking (T.stored walking.new.trees) walking.new.seen.keys walking.new.node walking.new.db) result }
    ensures nodes { (k : ℕ) (x : Named) → IsSome (T.nodes walking.old.trees d k x) → OnOk result (HasPut (as_loaded T.nodes T.read) none_put walking.old walking.new) }
{
    match slot.version {
        Version::There(lsn) => {
            read_record(walking, alloc, files, entries, d, at, &slot.name, lsn)
        }
        Version::Deleted | Version::Unset => Ok(()),
    }
}

/// Whether a name is below a bound, if there is one.
pub(crate) fn is_below(name: &Name, high: Option<&Name>) -> bool
    ensures { result ≡ is_name_below name.now (option_copied high.entry) }
{
    match high {
        Some(high) => name.cmp(high).is_lt(),
        None => true,
    }
}

/// Whether a name lies within bounds, the lower one included.
pub(crate) fn is_within(low: &Name, high: Option<&Name>, name: &Name) -> bool
    ensures { result ≡ is_name_within low.now (option_copied high.entry) name.now }
{
    if name.cmp(low).is_lt() {
        return false;
    }
    is_below(name, high)
}

// Reads the record that a slot of the image at an LSN names, if its name lies within the bounds.
fn read_within<T: Loads>(
    walking: &mut Walking<T>,
    alloc: Global,
    files: &[FileNo],
    entries: &LogRead,
    d: u32,
    low: &Name,
    high: Option<&Name>,
    at: Lsn,
    slot: &Slot,
) -> Result<(), ReadErr>
    requires order { AreInOrder entries.now }
    ensures walk { (walk : Walk) → IsWalking (T.stored walking.old.trees) walking.old.seen.keys walking.old.node walking.old.db walk → GoesOn (each (record_at (map (λ f. f.0) files.now) entries.now d at) (slots_inside low.now (option_copied high.entry) (named slot.now.name (lsn_in slot.now.version))) walk) (IsWalking (T.stored walking.new.trees) walking.new.seen.keys walking.new.node walking.new.db) result }
    ensures nodes { (k : ℕ) (x : Named) → IsSome (T.nodes walking.old.trees d k x) → OnOk result (HasPut (as_loaded T.nodes T.read) none_put walking.old walking.new) }
{
    if !is_within(low, high, &slot.name) {
        return Ok(());
    }
    read_slot(walking, alloc, files, entries, d, at, slot)
}

/// Reads the records that the slots of the image at an LSN name within bounds.
pub(crate) fn read_slots<T: Loads>(
    walking: &mut Walking<T>,
    alloc: Global,
    files: &[FileNo],
    entries: &LogRead,
    d: u32,
    low: &Name,
    high: Option<&Name>,
    at: Lsn,
    slots: &[Marked],
) -> Result<(), ReadErr>
    requires order { AreInOrder entries.now }
    ensures walk { (walk : Walk) → IsWalking (T.stored walking.old.trees) walking.old.seen.keys walking.old.node walking.old.db walk → GoesOn (each (record_at (map (λ f. f.0) files.now) entries.now d at) (slots_inside low.now (option_copied high.entry) (flat_map slot_shown slots.now)) walk) (IsWalking (T.stored walking.new.trees) walking.new.seen.keys walking.new.node walking.new.db) result }
    ensures nodes { (k : ℕ) (x : Named) → IsSome (T.nodes walking.old.trees d k x) → OnOk result (HasPut (as_loaded T.nodes T.read) none_put walking.old walking.new) }
{
    for marked in slots {
        read_within(
            walking,
            alloc,
            files,
            entries,
            d,
            low,
            high,
            at,
            &marked.slot,
        )?;
    }
    Ok(())
}

// Whether a node may stand at a level, behind nodes of these numbers.
fn may_stand(node: &Node, level: u8, seen: &BTreeSet<u64>) -> bool
    ensures { result ≡ node_may_stand level seen.now.keys node.now }
{
    node.level == level && !seen.contains(&node.number)
}

/// The node that the image at an LSN shows, if it may stand there, behind nodes of these numbers.
pub(crate) fn read_here(
    alloc: Global,
    files: &[FileNo],
    entries: &LogRead,
    d: u32,
    level: u8,
    at: Lsn,
    seen: &BTreeSet<u64>,
) -> Result<Node, ReadErr>
    requires order { AreInOrder entries.now }
    requires entries { AllByRecursion (λ p. IsEntry p.1) entries.now }
    ensures { Answers (node_here (map (λ f. f.0) files.now) entries.now d level at seen.now.keys) result }
{
    let node = read_image(alloc, files, entries, d, at)?;
    if may_stand(&node, level, seen) {
        return Ok(node);
    }
    drop(node);
    Err(ReadErr::Found(Corruption::Tree(at)))
}
