// The greatest numbers in the entries of a log.
ghost use Rattle.std.specs.Prelude.{◌≡◌, ◌==◌, ◌+◌, ◌*◌, ◌^◌, List as Items, if◌then◌else◌, IfOk};
ghost use Rattle.log_entry.specs.declared.entry.Entry.{Entry as Stored};
ghost use Rattle.log_replay.specs.Rows.{catalog_number};
ghost use Rattle.log_replay.specs.Replay.{txn_in};
ghost use Rattle.log_meaning.specs.Meaning.{node_number as node_in, db_number as db_in};
ghost use Rattle.log_trees.specs.Placed.{Placed};
ghost use Rattle.recovery_je.specs.LogRead.{AreStanding, HasEntryAt, entries_of_files};
ghost use Rattle.recovery_je.specs.Numbers.{with_entry, with_placed, none_numbered, numbers_over};

use crate::decoding::decode_found;
use crate::file_entries::FileEntries;
use crate::log_read::LogRead;
use db_catalog::CATALOG;
use je_lsn::{FileNo, Lsn};
use je_order::Octets;
use log_entry::Entry;
use log_replay::number_of;
use std::alloc::{AllocError, Global};

/// The greatest transaction, node and database numbers, 0 where there is none.
#[derive(Clone, Copy)]
pub(crate) struct Numbers {
    pub(crate) txn: u64,
    pub(crate) node: u64,
    pub(crate) db: u32,
}

// The transaction number in an entry, 0 where there is none.
fn txn_number(entry: &Entry) -> u64
    ensures { result ≡ txn_in entry.now }
{
    match entry {
        Entry::Put { txn, .. } | Entry::Delete { txn, .. } | Entry::Commit { txn } => txn.0,
        _ => 0,
    }
}

// The number of the node that an entry is the image of, 0 where it is none.
fn node_number(entry: &Entry) -> u64
    ensures { result ≡ node_in entry.now }
{
    match entry {
        Entry::In { node, .. } | Entry::Bin { node, .. } | Entry::BinDelta { node, .. } => *node,
        _ => 0,
    }
}

// The database of a record, or the one that a record of the catalog names.
fn record_db(db: u32, value: &Octets) -> u32
    ensures { result ≡ (if db == 0 then catalog_number value.now else db) }
{
    if db == CATALOG {
        number_of(value.as_slice())
    } else {
        db
    }
}

// The greatest database number in an entry, 0 where there is none.
fn db_number(entry: &Entry) -> u32
    ensures { result ≡ db_in entry.now }
{
    match entry {
        Entry::Put { db, value, .. } | Entry::Migrated { db, value, .. } => record_db(*db, value),
        Entry::Delete { db, .. }
        | Entry::In { db, .. }
        | Entry::Bin { db, .. }
        | Entry::BinDelta { db, .. } => *db,
        _ => 0,
    }
}

impl Numbers {
    /// None yet.
    pub(crate) fn none() -> Numbers
        ensures { result ≡ none_numbered }
    {
        Numbers {
            txn: 0,
            node: 0,
            db: 0,
        }
    }

    /// With those of an entry.
    pub(crate) fn with(self, entry: &Entry) -> Numbers
        ensures { result ≡ with_entry entry.now self }
    {
        Numbers {
            txn: self.txn.max(txn_number(entry)),
            node: self.node.max(node_number(entry)),
            db: self.db.max(db_number(entry)),
        }
    }

    // With those of the entry at an offset of a file's bytes, if it stands at the redo LSN or behind it.
    fn with_at(
        self,
        alloc: Global,
        redo: Lsn,
        number: FileNo,
        bytes: &[u8],
        at: u32,
    ) -> Result<Numbers, AllocError>
        requires { (e : Stored) × HasEntryAt bytes.now at e }
        ensures { (e : Stored) → HasEntryAt bytes.now at e → IfOk result (λ n. n ≡ with_placed redo (number.0 * 2 ^ 32 + at, e) self) }
    {
        if Lsn::new(number, at).as_u64() < redo.as_u64() {
            return Ok(self);
        }
        let entry = decode_found(alloc, bytes, at)?;
        let numbers = self.with(&entry);
        drop(entry);
        Ok(numbers)
    }

    // With those of the entries at these offsets that stand at the redo LSN or behind it.
    fn with_each(
        self,
        alloc: Global,
        redo: Lsn,
        number: FileNo,
        bytes: &[u8],
        offsets: &[u32],
    ) -> Result<Numbers, AllocError>
        requires { (es : Items Placed) × AreStanding number.0 bytes.now offsets.now es }
        ensures { (es : Items Placed) → AreStanding number.0 bytes.now offsets.now es → IfOk result (λ n. n ≡ numbers_over redo es self) }
    {
        let mut numbers = self;
        for at in offsets {
            numbers = numbers.with_at(alloc, redo, number, bytes, *at)?;
        }
        Ok(numbers)
    }

    // With those of the entries of a file that stand at the redo LSN or behind it.
    fn with_file(self, alloc: Global, redo: Lsn, file: &FileEntries) -> Result<Numbers, AllocError>
        ensures { IfOk result (λ n. n ≡ numbers_over redo file.now.1 self) }
    {
        self.with_each(
            alloc,
            redo,
            file.number,
            &file.bytes,
            file.offsets.as_slice(),
        )
    }

    // Those of the entries of files that stand at the redo LSN or behind it.
    fn of_files(alloc: Global, redo: Lsn, files: &[FileEntries]) -> Result<Numbers, AllocError>
        ensures { IfOk result (λ n. n ≡ numbers_over redo (entries_of_files files.now) none_numbered) }
    {
        let mut numbers = Numbers::none();
        for file in files {
            numbers = numbers.with_file(alloc, redo, file)?;
        }
        Ok(numbers)
    }

    /// Those of the entries that stand at the redo LSN or behind it, where these are those of all. Entries are decoded for it only
    /// where there is a redo LSN.
    pub(crate) fn behind(
        self,
        alloc: Global,
        redo: Lsn,
        entries: &LogRead,
    ) -> Result<Numbers, AllocError>
        requires { self ≡ numbers_over 0 entries.now none_numbered }
        ensures { IfOk result (λ n. n ≡ numbers_over redo entries.now none_numbered) }
    {
        if redo.as_u64() == 0 {
            return Ok(self);
        }
        Numbers::of_files(alloc, redo, entries.files.as_slice())
    }
}
