// Reading the entries of a log again.
ghost use Rattle.std.specs.Prelude.{◌≡◌, ◌<◌, ◌+◌, ◌*◌, ◌^◌, ℕ, List as Items, [], ◌∷◌, Some, true, OnOk};
ghost use Rattle.std.specs.List.{AllByRecursion};
ghost use Rattle.log_entry.specs.declared.entry.Entry.{Entry as Stored};
ghost use Rattle.recovery_je.specs.LogRead.{AreStanding, HasEntryAt, entries_of_files};
ghost use Rattle.log_meaning.specs.Redo.{Redo, redo_entry, redo_all, from};
ghost use Rattle.record_tree.specs.Stored.{AreStoredStill};
ghost use Rattle.log_trees.specs.Placed.{Placed};
ghost use Rattle.recovery_je.specs.Putting.{IsLogged, IsIn, FitsRedo, first_lsn};
ghost use Rattle.recovery_je.specs.Redoing.{HasMade, IsRedoAt, named_by};

use crate::decoding::decode_found;
use crate::file_entries::FileEntries;
use crate::giving_back::give_back;
use crate::log_read::LogRead;
use crate::waiting::Waiting;
use crate::waiting_change::WaitingChange;
use db_catalog::CATALOG;
use je_lsn::{FileNo, Lsn};
use je_order::{List, Octets};
use log_entry::Entry;
use log_replay::number_of;
use record_tree::{LoadErr, Loads};
use std::alloc::Global;
use std::mem::replace;

/// A redo under way: the trees, and the changes that wait for their transactions' commits. After an error
/// nothing is known of the trees.
#[derive(Drop)]
pub(crate) struct Redoing<T> {
    pub(crate) trees: T,
    pub(crate) waiting: Waiting,
}

/// The number in a record of a database, if that is the catalog; 0 where there is none.
pub(crate) fn number_in(db: u32, value: &Octets) -> u32
    ensures { result ≡ named_by db (Some value.now) }
{
    if db == CATALOG {
        number_of(value.as_slice())
    } else {
        0
    }
}

// The number in a catalog record that is put, 0 where there is none.
fn named_db(db: u32, value: &Option<Octets>) -> u32
    ensures { result ≡ named_by db value.now }
{
    match value {
        Some(value) => number_in(db, value),
        None => 0,
    }
}

/// Makes a tree for the database, if it has none.
pub(crate) fn ensure_tree<T: Loads>(trees: &mut T, alloc: Global, db: u32) -> Result<(), LoadErr>
    ensures stored { OnOk result (AreStoredStill (T.stored trees.old) (T.stored trees.new)) }
    ensures fits { (es : Items Placed) (base : ℕ) → T.fits trees.old es base → OnOk result (T.fits trees.new es base) }
    ensures here { OnOk result (T.has_tree trees.new db ≡ true) }
    ensures others { OnOk result ((d : ℕ) → T.has_tree trees.old d ≡ true → T.has_tree trees.new d ≡ true) }
{
    if trees.is_made(db) {
        return Ok(());
    }
    trees.make(alloc, db)
}

// Makes a committed change. A database without a tree gets one first, and so does one that the
// catalog names from now on.
fn make_change<T: Loads>(
    trees: &mut T,
    alloc: Global,
    first: Lsn,
    change: WaitingChange,
) -> Result<(), LoadErr>
    ensures made { OnOk result (HasMade (change ∷ []) (T.stored trees.old) (T.stored trees.new)) }
    ensures fits { (es : Items Placed) (base : ℕ) → base < 2 ^ 64 → first < base → IsLogged es base change → T.fits trees.old es base → OnOk result (T.fits trees.new es base) }
{
    let WaitingChange {
        db,
        name,
        at,
        value,
    } = change;
    let named = named_db(db, &value);
    ensure_tree(trees, alloc, db)?;
    trees.redo(alloc, db, name, first, at, value)?;
    if named == 0 {
        return Ok(());
    }
    ensure_tree(trees, alloc, named)
}

// The LSN of the first change, 0 where there is none.
fn first_of(changes: &[WaitingChange]) -> Lsn
    ensures { result ≡ first_lsn changes.now }
{
    match changes {
        [first, ..] => first.at,
        [] => Lsn::from_u64(0),
    }
}

// Makes the changes of a transaction, in order. Each one's room is free again soon after it is made.
fn make_changes<T: Loads>(
    trees: &mut T,
    alloc: Global,
    changes: List<WaitingChange>,
) -> Result<(), LoadErr>
    ensures made { OnOk result (HasMade changes (T.stored trees.old) (T.stored trees.new)) }
    ensures fits { (es : Items Placed) (base : ℕ) → base < 2 ^ 64 → AllByRecursion (IsLogged es base) changes → T.fits trees.old es base → OnOk result (T.fits trees.new es base) }
{
    let first = first_of(changes.as_slice());
    let mut left = changes.into_vec();
    left.reverse();
    while let Some(change) = left.pop() {
        give_back(&mut left);
        make_change(trees, alloc, first, change)?;
    }
    Ok(())
}

// Takes what an entry says: a change waits, a commit makes the changes that waited for it, and a migrated
// record is put.
fn take_entry<T: Loads>(
    trees: &mut T,
    waiting: &mut Waiting,
    alloc: Global,
    at: Lsn,
    entry: Entry,
) -> Result<(), LoadErr>
    ensures redo { (redo : Redo) → IsRedoAt (T.stored trees.old) waiting.old redo → OnOk result (IsRedoAt (T.stored trees.new) waiting.new (redo_entry at entry redo)) }
    ensures fits { (es : Items Placed) (base : ℕ) → base < 2 ^ 64 → IsIn es base (at, entry) → FitsRedo T.fits es base trees.old waiting.old → OnOk result (FitsRedo T.fits es base trees.new waiting.new) }
{
    match entry {
        Entry::Put {
            txn,
            db,
            name,
            value,
        } => {
            let put = WaitingChange {
                db,
                name,
                at,
                value: Some(value),
            };
            waiting.push(alloc, txn.0, put)?;
            Ok(())
        }
        Entry::Delete { txn, db, name } => {
            let delete = WaitingChange {
                db,
                name,
                at,
                value: None,
            };
            waiting.push(alloc, txn.0, delete)?;
            Ok(())
        }
        Entry::Migrated { db, name, value } => {
            let put = WaitingChange {
                db,
                name,
                at,
                value: Some(value),
            };
            make_change(trees, alloc, at, put)
        }
        Entry::Commit { txn } => {
            let changes = waiting.take(alloc, txn.0);
            make_changes(trees, alloc, changes)
        }
        other => {
            drop(other);
            Ok(())
        }
    }
}

// Takes the entry at an offset of a file's bytes, if it stands at the redo LSN or behind it.
fn take_at<T: Loads>(
    going: &mut Redoing<T>,
    alloc: Global,
    redo: Lsn,
    number: FileNo,
    bytes: &[u8],
    at: u32,
) -> Result<(), LoadErr>
    requires { (e : Stored) × HasEntryAt bytes.now at e }
    ensures redo { (e : Stored) (r : Redo) → HasEntryAt bytes.now at e → IsRedoAt (T.stored going.old.trees) going.old.waiting r → OnOk result (IsRedoAt (T.stored going.new.trees) going.new.waiting (redo_all (from redo ((number.0 * 2 ^ 32 + at, e) ∷ [])) r)) }
    ensures fits { (e : Stored) (es : Items Placed) (base : ℕ) → HasEntryAt bytes.now at e → base < 2 ^ 64 → IsIn es base (number.0 * 2 ^ 32 + at, e) → FitsRedo T.fits es base going.old.trees going.old.waiting → OnOk result (FitsRedo T.fits es base going.new.trees going.new.waiting) }
{
    let lsn = Lsn::new(number, at);
    if lsn.as_u64() < redo.as_u64() {
        return Ok(());
    }
    let entry = decode_found(alloc, bytes, at)?;
    take_entry(&mut going.trees, &mut going.waiting, alloc, lsn, entry)
}

// Takes the entries at these offsets that stand at the redo LSN or behind it, in order.
fn take_each<T: Loads>(
    going: &mut Redoing<T>,
    alloc: Global,
    redo: Lsn,
    number: FileNo,
    bytes: &[u8],
    offsets: &[u32],
) -> Result<(), LoadErr>
    requires { (all : Items Placed) × AreStanding number.0 bytes.now offsets.now all }
    ensures redo { (all : Items Placed) (r : Redo) → AreStanding number.0 bytes.now offsets.now all → IsRedoAt (T.stored going.old.trees) going.old.waiting r → OnOk result (IsRedoAt (T.stored going.new.trees) going.new.waiting (redo_all (from redo all) r)) }
    ensures fits { (all es : Items Placed) (base : ℕ) → AreStanding number.0 bytes.now offsets.now all → base < 2 ^ 64 → AllByRecursion (IsIn es base) all → FitsRedo T.fits es base going.old.trees going.old.waiting → OnOk result (FitsRedo T.fits es base going.new.trees going.new.waiting) }
{
    for at in offsets {
        take_at(going, alloc, redo, number, bytes, *at)?;
    }
    Ok(())
}

// Takes the entries of a file that stand at the redo LSN or behind it, in order.
fn take_file<T: Loads>(
    going: &mut Redoing<T>,
    alloc: Global,
    redo: Lsn,
    file: &FileEntries,
) -> Result<(), LoadErr>
    ensures redo { (r : Redo) → IsRedoAt (T.stored going.old.trees) going.old.waiting r → OnOk result (IsRedoAt (T.stored going.new.trees) going.new.waiting (redo_all (from redo file.now.1) r)) }
    ensures fits { (es : Items Placed) (base : ℕ) → base < 2 ^ 64 → AllByRecursion (IsIn es base) file.now.1 → FitsRedo T.fits es base going.old.trees going.old.waiting → OnOk result (FitsRedo T.fits es base going.new.trees going.new.waiting) }
{
    take_each(
        going,
        alloc,
        redo,
        file.number,
        &file.bytes,
        file.offsets.as_slice(),
    )
}

// Takes the entries of files that stand at the redo LSN or behind it, in order. Each file's bytes go once its entries were taken.
fn take_files<T: Loads>(
    going: &mut Redoing<T>,
    alloc: Global,
    redo: Lsn,
    files: Vec<FileEntries>,
) -> Result<(), LoadErr>
    ensures redo { (r : Redo) → IsRedoAt (T.stored going.old.trees) going.old.waiting r → OnOk result (IsRedoAt (T.stored going.new.trees) going.new.waiting (redo_all (from redo (entries_of_files files.items)) r)) }
    ensures fits { (es : Items Placed) (base : ℕ) → base < 2 ^ 64 → AllByRecursion (IsIn es base) (entries_of_files files.items) → FitsRedo T.fits es base going.old.trees going.old.waiting → OnOk result (FitsRedo T.fits es base going.new.trees going.new.waiting) }
{
    let mut left = files;
    left.reverse();
    while let Some(file) = left.pop() {
        take_file(going, alloc, redo, &file)?;
        drop(file);
    }
    Ok(())
}

// Takes the entries of files that stand at the redo LSN or behind it, in order.
fn take_lent<T: Loads>(
    going: &mut Redoing<T>,
    alloc: Global,
    redo: Lsn,
    files: &[FileEntries],
) -> Result<(), LoadErr>
    ensures redo { (r : Redo) → IsRedoAt (T.stored going.old.trees) going.old.waiting r → OnOk result (IsRedoAt (T.stored going.new.trees) going.new.waiting (redo_all (from redo (entries_of_files files.now)) r)) }
    ensures fits { (es : Items Placed) (base : ℕ) → base < 2 ^ 64 → AllByRecursion (IsIn es base) (entries_of_files files.now) → FitsRedo T.fits es base going.old.trees going.old.waiting → OnOk result (FitsRedo T.fits es base going.new.trees going.new.waiting) }
{
    for file in files {
        take_file(going, alloc, redo, file)?;
    }
    Ok(())
}

/// Takes the entries that stand at the redo LSN or behind it, in order. If they are not kept, each file's bytes go once its
/// entries were taken.
pub(crate) fn take_all<T: Loads>(
    going: &mut Redoing<T>,
    alloc: Global,
    redo: Lsn,
    entries: &mut LogRead,
    keeps: bool,
) -> Result<(), LoadErr>
    ensures redo { (r : Redo) → IsRedoAt (T.stored going.old.trees) going.old.waiting r → OnOk result (IsRedoAt (T.stored going.new.trees) going.new.waiting (redo_all (from redo entries.old) r)) }
    ensures fits { (es : Items Placed) (base : ℕ) → base < 2 ^ 64 → AllByRecursion (IsIn es base) entries.old → FitsRedo T.fits es base going.old.trees going.old.waiting → OnOk result (FitsRedo T.fits es base going.new.trees going.new.waiting) }
    ensures kept { keeps ≡ true → entries.new ≡ entries.old }
{
    if keeps {
        return take_lent(going, alloc, redo, entries.files.as_slice());
    }
    let LogRead { numbers, files, .. } = replace(entries, LogRead::none(alloc));
    drop(numbers);
    take_files(going, alloc, redo, files)
}
