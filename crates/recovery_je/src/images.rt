// The nodes that images show.
ghost use Rattle.std.specs.Prelude.{◌≡◌, ◌==◌, Some, map, if◌then◌else◌};
ghost use Rattle.std.specs.List.{AllByRecursion, list_any};
ghost use Rattle.log_entry.specs.Body.{IsEntry};
ghost use Rattle.node_log.specs.Images.{node_of};
ghost use Rattle.log_trees.specs.Placed.{AreInOrder, entry_at as entry_at_lsn};
ghost use Rattle.log_trees.specs.Walk.{nowhere as nowhere_in, node_read, is_bin_of as is_bin, delta_with as delta_by_base, delta_on, image_in as image_of, read_image as image_at};
ghost use Rattle.recovery_je.specs.Walking.{Answers};

use crate::log_read::LogRead;
use crate::lookup::entry_at;
use crate::read_err::ReadErr;
use je_lsn::{FileNo, Lsn};
use log_entry::Entry;
use log_replay::Corruption;
use node_core::Node;
use node_log::from_entries;
use std::alloc::Global;

// Whether a file is among these.
fn is_listed(files: &[FileNo], file: FileNo) -> bool
    ensures { result ≡ list_any (λ f. f == file.0) (map (λ f. f.0) files.now) }
{
    for f in files {
        if f.0 == file.0 {
            return true;
        }
    }
    false
}

/// What is wrong with an LSN that names nothing lower.
pub(crate) fn nowhere(files: &[FileNo], at: Lsn) -> Corruption
    ensures { result ≡ nowhere_in (map (λ f. f.0) files.now) at }
{
    if is_listed(files, at.file()) {
        Corruption::Tree(at)
    } else {
        Corruption::Missing(at)
    }
}

// The node, if it is of the database.
fn of_database(node: Node, d: u32, at: Lsn) -> Result<Node, ReadErr>
    ensures { Answers (node_read d at (Some node)) result }
{
    if node.db == d {
        return Ok(node);
    }
    drop(node);
    Err(ReadErr::Found(Corruption::Tree(at)))
}

// The node of the database that an entry at an LSN shows whole.
fn whole_node(alloc: Global, d: u32, at: Lsn, entry: &Entry) -> Result<Node, ReadErr>
    requires { IsEntry entry.now }
    ensures { Answers (node_read d at (node_of entry.now)) result }
{
    match from_entries(alloc, entry, None)? {
        Some(node) => of_database(node, d, at),
        None => Err(ReadErr::Found(Corruption::Tree(at))),
    }
}

// Whether an entry is the full image of this BIN.
fn is_bin_of(db: u32, number: u64, entry: &Entry) -> bool
    ensures { result ≡ is_bin db number entry.now }
{
    match entry {
        Entry::Bin { db: d, node, .. } => *d == db && *node == number,
        _ => false,
    }
}

// Where it is wrong that a delta at an LSN and its full image show no node.
fn wrong_delta(at: Lsn, db: u32, number: u64, full: Lsn, base: &Entry) -> Lsn
    ensures { result ≡ (if is_bin db number base.now then at else full) }
{
    if is_bin_of(db, number, base) {
        at
    } else {
        full
    }
}

// The node that a delta at an LSN and its full image show.
fn delta_with(
    alloc: Global,
    at: Lsn,
    db: u32,
    number: u64,
    full: Lsn,
    base: &Entry,
    delta: &Entry,
) -> Result<Node, ReadErr>
    requires { IsEntry base.now }
    ensures { Answers (delta_by_base at db number full delta.now base.now) result }
{
    match from_entries(alloc, base, Some(delta))? {
        Some(node) => Ok(node),
        None => {
            let wrong = wrong_delta(at, db, number, full, base);
            Err(ReadErr::Found(Corruption::Tree(wrong)))
        }
    }
}

// The node that a delta at an LSN shows, whose full image stands at another.
fn read_delta(
    alloc: Global,
    files: &[FileNo],
    entries: &LogRead,
    at: Lsn,
    db: u32,
    number: u64,
    full: Lsn,
    delta: &Entry,
) -> Result<Node, ReadErr>
    requires order { AreInOrder entries.now }
    requires entries { AllByRecursion (λ p. IsEntry p.1) entries.now }
    ensures { Answers (delta_on (map (λ f. f.0) files.now) at db number full delta.now (entry_at_lsn entries.now full)) result }
{
    match entry_at(alloc, entries, full)? {
        Some(base) => {
            let node = delta_with(alloc, at, db, number, full, &base, delta);
            drop(base);
            node
        }
        None => Err(ReadErr::Found(nowhere(files, full))),
    }
}

// The node of the database that an entry at an LSN shows.
fn image_in(
    alloc: Global,
    files: &[FileNo],
    entries: &LogRead,
    d: u32,
    at: Lsn,
    entry: &Entry,
) -> Result<Node, ReadErr>
    requires order { AreInOrder entries.now }
    requires entries { AllByRecursion (λ p. IsEntry p.1) entries.now }
    requires entry { IsEntry entry.now }
    ensures { Answers (image_of (map (λ f. f.0) files.now) entries.now d at entry.now) result }
{
    let Entry::BinDelta { db, node, full, .. } = entry else {
        return whole_node(alloc, d, at, entry);
    };
    if *db != d {
        return Err(ReadErr::Found(Corruption::Tree(at)));
    }
    if full.as_u64() < at.as_u64() {
        return read_delta(alloc, files, entries, at, *db, *node, *full, entry);
    }
    Err(ReadErr::Found(nowhere(files, *full)))
}

/// The node of the database that the image at an LSN shows, or what is wrong with it.
pub(crate) fn read_image(
    alloc: Global,
    files: &[FileNo],
    entries: &LogRead,
    d: u32,
    at: Lsn,
) -> Result<Node, ReadErr>
    requires order { AreInOrder entries.now }
    requires entries { AllByRecursion (λ p. IsEntry p.1) entries.now }
    ensures { Answers (image_at (map (λ f. f.0) files.now) entries.now d at) result }
{
    match entry_at(alloc, entries, at)? {
        Some(entry) => {
            let node = image_in(alloc, files, entries, d, at, &entry);
            drop(entry);
            node
        }
        None => Err(ReadErr::Found(nowhere(files, at))),
    }
}
