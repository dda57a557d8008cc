// Which entries of files are live.
ghost use Rattle.std.specs.Prelude.{◌≡◌, ◌∷◌, [], ℕ, List as Items, sum_by, IfOk};
ghost use Rattle.std.specs.List.{AllByRecursion};
ghost use Rattle.log_entry.specs.declared.entry.Entry.{Entry as Stored};
ghost use Rattle.log_entry.specs.Body.{IsEntry};
ghost use Rattle.log_trees.specs.Placed.{Placed};
ghost use Rattle.log_replay.specs.Reading.{lsn_at};
ghost use Rattle.file_use.specs.Live.{is_one_of, is_live_entry, live_size as live_size_by, live_in};
ghost use Rattle.recovery_je.specs.LogRead.{AreStanding, HasEntryAt};
ghost use Rattle.recovery_je.specs.Using.{is_stored_from, uses_by};

use crate::decoding::decode_found;
use crate::file_entries::FileEntries;
use crate::file_len::FileLen;
use crate::log_read::LogRead;
use file_use::FileUse;
use je_lsn::{FileNo, Lsn};
use je_order::{List, Name};
use log_entry::{Entry, size};
use record_map::SortKey;
use record_tree::Loads;
use std::alloc::{AllocError, Global};
use std::collections::BTreeSet;

// Whether the record of a name was written at an LSN.
fn is_at<T: Loads>(trees: &T, db: u32, name: &SortKey, at: Lsn) -> bool
    ensures { result ≡ is_stored_from (T.stored trees.now) db name.now at }
{
    match trees.get(db, name) {
        Some((found, _)) => found.as_u64() == at.as_u64(),
        None => false,
    }
}

// Whether the record of a name was written at an LSN.
fn is_record<T: Loads>(
    trees: &T,
    alloc: Global,
    db: u32,
    name: Name,
    at: Lsn,
) -> Result<bool, AllocError>
    ensures { IfOk result (λ is. is ≡ is_stored_from (T.stored trees.now) db name at) }
{
    let name = SortKey::new(alloc, name)?;
    let is = is_at(trees, db, &name, at);
    drop(name);
    Ok(is)
}

// Whether the entry at an LSN is live, by the records of trees and the images that these reach.
fn is_live<T: Loads>(
    alloc: Global,
    trees: &T,
    images: &BTreeSet<u64>,
    at: Lsn,
    entry: Entry,
) -> Result<bool, AllocError>
    ensures { IfOk result (λ live. live ≡ is_live_entry (is_stored_from (T.stored trees.now)) (is_one_of images.now.keys) at entry) }
{
    match entry {
        Entry::Put {
            db,
            name,
            value,
            ..
        } => {
            drop(value);
            is_record(trees, alloc, db, name, at)
        }
        Entry::Migrated { db, name, value } => {
            drop(value);
            is_record(trees, alloc, db, name, at)
        }
        Entry::In { slots, .. } => {
            drop(slots);
            Ok(images.contains(&at.as_u64()))
        }
        Entry::Bin { slots, .. } => {
            drop(slots);
            Ok(images.contains(&at.as_u64()))
        }
        Entry::BinDelta { slots, .. } => {
            drop(slots);
            Ok(images.contains(&at.as_u64()))
        }
        other => {
            drop(other);
            Ok(false)
        }
    }
}

// The bytes of the entry at an LSN, if it is live.
fn live_size<T: Loads>(
    alloc: Global,
    trees: &T,
    images: &BTreeSet<u64>,
    at: Lsn,
    entry: Entry,
) -> Result<u32, AllocError>
    requires { IsEntry entry }
    ensures { IfOk result (λ bytes. bytes ≡ live_size_by (is_stored_from (T.stored trees.now)) (is_one_of images.now.keys) (at, entry)) }
{
    let len = size(&entry);
    if is_live(alloc, trees, images, at, entry)? {
        return Ok(len);
    }
    Ok(0)
}

// The bytes of the entry at an offset of a file's bytes, if it is live.
fn live_size_at<T: Loads>(
    alloc: Global,
    trees: &T,
    images: &BTreeSet<u64>,
    number: FileNo,
    bytes: &[u8],
    at: u32,
) -> Result<u32, AllocError>
    requires { (e : Stored) × HasEntryAt bytes.now at e × IsEntry e }
    ensures { (e : Stored) → HasEntryAt bytes.now at e → IfOk result (λ size. size ≡ live_size_by (is_stored_from (T.stored trees.now)) (is_one_of images.now.keys) (lsn_at number.0 at, e)) }
{
    let entry = decode_found(alloc, bytes, at)?;
    live_size(alloc, trees, images, Lsn::new(number, at), entry)
}

// The bytes of the live entries that stand at these offsets of a file's bytes. More than a u64 holds are too many for memory.
fn live_at_offsets<T: Loads>(
    alloc: Global,
    trees: &T,
    images: &BTreeSet<u64>,
    number: FileNo,
    bytes: &[u8],
    offsets: &[u32],
) -> Result<u64, AllocError>
    requires { (es : Items Placed) × AreStanding number.0 bytes.now offsets.now es × AllByRecursion (λ p. IsEntry p.1) es }
    ensures { (es : Items Placed) → AreStanding number.0 bytes.now offsets.now es → AllByRecursion (λ p. IsEntry p.1) es → IfOk result (λ live. live ≡ sum_by (live_size_by (is_stored_from (T.stored trees.now)) (is_one_of images.now.keys)) es) }
{
    let mut live = 0u64;
    for at in offsets {
        let more = live_size_at(alloc, trees, images, number, bytes, *at)?;
        let Some(sum) = live.checked_add(u64::from(more)) else {
            return Err(AllocError);
        };
        live = sum;
    }
    Ok(live)
}

// The bytes of a file's live entries.
fn live_of_file<T: Loads>(
    alloc: Global,
    trees: &T,
    images: &BTreeSet<u64>,
    file: &FileEntries,
) -> Result<u64, AllocError>
    requires { AllByRecursion (λ p. IsEntry p.1) file.now.1 }
    ensures { IfOk result (λ live. live ≡ sum_by (live_size_by (is_stored_from (T.stored trees.now)) (is_one_of images.now.keys)) file.now.1) }
{
    live_at_offsets(
        alloc,
        trees,
        images,
        file.number,
        &file.bytes,
        file.offsets.as_slice(),
    )
}

// The bytes of the live entries in the file of this number, 0 where there is none.
fn live_in_file<T: Loads>(
    alloc: Global,
    trees: &T,
    images: &BTreeSet<u64>,
    entries: &LogRead,
    number: FileNo,
) -> Result<u64, AllocError>
    requires { AllByRecursion (λ p. IsEntry p.1) entries.now }
    ensures { IfOk result (λ live. live ≡ live_in (is_stored_from (T.stored trees.now)) (is_one_of images.now.keys) entries.now number.0) }
{
    match entries.file(number) {
        Some(file) => live_of_file(alloc, trees, images, file),
        None => Ok(0),
    }
}

/// How many bytes of files are live that have so many bytes, by the records of trees and the images that these reach. Each
/// entry is decoded once, and takes the logarithm of the number of records and images.
pub(crate) fn count_live<T: Loads>(
    alloc: Global,
    trees: &T,
    images: &BTreeSet<u64>,
    entries: &LogRead,
    lens: &[FileLen],
) -> Result<List<FileUse>, AllocError>
    requires { AllByRecursion (λ p. IsEntry p.1) entries.now }
    ensures { IfOk result (λ uses. uses ≡ uses_by (is_stored_from (T.stored trees.now)) (is_one_of images.now.keys) entries.now lens.now) }
{
    let mut uses = List::new(alloc);
    for file in lens {
        let live = live_in_file(alloc, trees, images, entries, file.number)?;
        uses.push(FileUse {
            file: file.number,
            total: file.len,
            live,
        })?;
    }
    Ok(uses)
}
