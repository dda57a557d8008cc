// Bodies as they are written. Where memory runs out, part of a field may stand at the end; it does not
// where the vector has room.
ghost use Rattle.std.specs.Prelude.{◌≡◌, ◌+◌, ◌<◌, ◌≤◌, ◌^◌, ◌++◌, length, vec_capacity};
ghost use Rattle.std.specs.List.{AllByRecursion};
ghost use Rattle.log_entry.specs.Fields.{IsName};
ghost use Rattle.log_entry.specs.Items.{IsChildSlot, IsRecordSlot, IsRoot, IsFileUsage};
ghost use Rattle.log_entry.specs.Body.{IsEntry, kind_of, body_of, body_size_of};
ghost use Rattle.std.specs.Int.{w32, w64, to_be_bytes};
ghost use Rattle.log_entry.specs.declared.entry.Entry.TheVariants.{FileHeader, Put, Delete, Migrated, In, Bin, BinDelta, CkptEnd, FileSummary};
ghost use Rattle.log_entry.specs.Writing.{Puts};

use crate::body_reader::MAGIC;
use crate::fields::{put_name, put_optional};
use crate::items::{items_size, put_counted, put_items};
use crate::{ChildSlot, Entry, FileUsage, RecordSlot, Root};
use je_bytes::{put_u32, put_u64};
use je_lsn::Lsn;
use je_order::{Name, TxnId};
use std::alloc::AllocError;

// The number of the entry's kind.
pub(crate) fn kind(entry: &Entry) -> u8
    ensures { result ≡ kind_of entry.now }
{
    match entry {
        Entry::FileHeader { .. } => 1,
        Entry::Put { .. } => 2,
        Entry::Delete { .. } => 3,
        Entry::Migrated { .. } => 4,
        Entry::Commit { .. } => 5,
        Entry::In { .. } => 7,
        Entry::Bin { .. } => 8,
        Entry::BinDelta { .. } => 9,
        Entry::CkptStart { .. } => 10,
        Entry::CkptEnd { .. } => 11,
        Entry::FileSummary { .. } => 12,
    }
}

// How many bytes the body has.
pub(crate) fn body_size(entry: &Entry) -> u32
    requires { IsEntry entry.now }
    ensures value { result ≡ body_size_of entry.now }
    ensures bound { result ≤ 20000004 }
{
    match entry {
        Entry::FileHeader { .. } => 12,
        Entry::Put { name, value, .. } => (16
            + name.key.len()
            + name.dup.len()
            + value.len()) as u32,
        Entry::Delete { name, .. } => (16 + name.key.len() + name.dup.len()) as u32,
        Entry::Migrated { name, value, .. } => (8
            + name.key.len()
            + name.dup.len()
            + value.len()) as u32,
        Entry::Commit { .. } => 8,
        Entry::In { slots, .. } => 15 + items_size(slots.as_slice()),
        Entry::Bin { slots, .. } => 14 + items_size(slots.as_slice()),
        Entry::BinDelta { slots, .. } => 22 + items_size(slots.as_slice()),
        Entry::CkptStart { .. } => 8,
        Entry::CkptEnd { roots, .. } => 54 + items_size(roots.as_slice()),
        Entry::FileSummary { files } => 4 + items_size(files.as_slice()),
    }
}

pub(crate) fn put_txn(out: &mut Vec<u8>, txn: TxnId, db: u32) -> Result<(), AllocError>
    ensures { Puts (to_be_bytes w64 txn.0 ++ to_be_bytes w32 db) result out.old.items out.new.items (vec_capacity out.old) (vec_capacity out.new) }
{
    put_u64(out, txn.0)?;
    put_u32(out, db)
}

fn put_file_header(out: &mut Vec<u8>, version: u32, file: u32) -> Result<(), AllocError>
    ensures { Puts (body_of (FileHeader version file)) result out.old.items out.new.items (vec_capacity out.old) (vec_capacity out.new) }
{
    put_u32(out, MAGIC)?;
    put_u32(out, version)?;
    put_u32(out, file)
}

fn put_put(
    out: &mut Vec<u8>,
    txn: TxnId,
    db: u32,
    name: &Name,
    value: &[u8],
) -> Result<(), AllocError>
    requires { IsName name.now }
    ensures { Puts (body_of (Put txn db name.now value.now)) result out.old.items out.new.items (vec_capacity out.old) (vec_capacity out.new) }
{
    put_txn(out, txn, db)?;
    put_name(out, name)?;
    out.extend_from_slice(value)
}

fn put_delete(out: &mut Vec<u8>, txn: TxnId, db: u32, name: &Name) -> Result<(), AllocError>
    requires { IsName name.now }
    ensures { Puts (body_of (Delete txn db name.now)) result out.old.items out.new.items (vec_capacity out.old) (vec_capacity out.new) }
{
    put_txn(out, txn, db)?;
    put_name(out, name)
}

fn put_migrated(out: &mut Vec<u8>, db: u32, name: &Name, value: &[u8]) -> Result<(), AllocError>
    requires { IsName name.now }
    ensures { Puts (body_of (Migrated db name.now value.now)) result out.old.items out.new.items (vec_capacity out.old) (vec_capacity out.new) }
{
    put_u32(out, db)?;
    put_name(out, name)?;
    out.extend_from_slice(value)
}

fn put_node(out: &mut Vec<u8>, db: u32, node: u64) -> Result<(), AllocError>
    ensures { Puts (to_be_bytes w32 db ++ to_be_bytes w64 node) result out.old.items out.new.items (vec_capacity out.old) (vec_capacity out.new) }
{
    put_u32(out, db)?;
    put_u64(out, node)
}

fn put_internal(
    out: &mut Vec<u8>,
    db: u32,
    node: u64,
    level: u8,
    slots: &[ChildSlot],
) -> Result<(), AllocError>
    requires each { AllByRecursion IsChildSlot slots.now }
    requires few { length slots.now < 2 ^ 16 }
    ensures { Puts (body_of (In db node level slots.now)) result out.old.items out.new.items (vec_capacity out.old) (vec_capacity out.new) }
{
    put_node(out, db, node)?;
    out.push(level)?;
    put_counted(out, slots)
}

fn put_bin(out: &mut Vec<u8>, db: u32, node: u64, slots: &[RecordSlot]) -> Result<(), AllocError>
    requires each { AllByRecursion IsRecordSlot slots.now }
    requires few { length slots.now < 2 ^ 16 }
    ensures { Puts (body_of (Bin db node slots.now)) result out.old.items out.new.items (vec_capacity out.old) (vec_capacity out.new) }
{
    put_node(out, db, node)?;
    put_counted(out, slots)
}

fn put_delta(
    out: &mut Vec<u8>,
    db: u32,
    node: u64,
    full: Lsn,
    slots: &[RecordSlot],
) -> Result<(), AllocError>
    requires each { AllByRecursion IsRecordSlot slots.now }
    requires few { length slots.now < 2 ^ 16 }
    ensures { Puts (body_of (BinDelta db node full slots.now)) result out.old.items out.new.items (vec_capacity out.old) (vec_capacity out.new) }
{
    put_node(out, db, node)?;
    put_u64(out, full.as_u64())?;
    put_counted(out, slots)
}

fn put_checkpoint(out: &mut Vec<u8>, number: u64, start: Lsn, redo: Lsn) -> Result<(), AllocError>
    ensures { Puts (to_be_bytes w64 number ++ (to_be_bytes w64 start ++ to_be_bytes w64 redo)) result out.old.items out.new.items (vec_capacity out.old) (vec_capacity out.new) }
{
    put_u64(out, number)?;
    put_u64(out, start.as_u64())?;
    put_u64(out, redo.as_u64())
}

fn put_last(
    out: &mut Vec<u8>,
    last_txn: TxnId,
    last_node: u64,
    last_db: u32,
) -> Result<(), AllocError>
    ensures { Puts (to_be_bytes w64 last_txn.0 ++ (to_be_bytes w64 last_node ++ to_be_bytes w32 last_db)) result out.old.items out.new.items (vec_capacity out.old) (vec_capacity out.new) }
{
    put_u64(out, last_txn.0)?;
    put_u64(out, last_node)?;
    put_u32(out, last_db)
}

fn put_ckpt_end(
    out: &mut Vec<u8>,
    number: u64,
    start: Lsn,
    redo: Lsn,
    last_txn: TxnId,
    last_node: u64,
    last_db: u32,
    summary: Option<Lsn>,
    roots: &[Root],
) -> Result<(), AllocError>
    requires each { AllByRecursion IsRoot roots.now }
    requires few { length roots.now < 2 ^ 16 }
    ensures { Puts (body_of (CkptEnd number start redo last_txn last_node last_db summary roots.now)) result out.old.items out.new.items (vec_capacity out.old) (vec_capacity out.new) }
{
    put_checkpoint(out, number, start, redo)?;
    put_last(out, last_txn, last_node, last_db)?;
    put_optional(out, summary)?;
    put_counted(out, roots)
}

fn put_file_summary(out: &mut Vec<u8>, files: &[FileUsage]) -> Result<(), AllocError>
    requires each { AllByRecursion IsFileUsage files.now }
    requires few { length files.now < 2 ^ 32 }
    ensures { Puts (body_of (FileSummary files.now)) result out.old.items out.new.items (vec_capacity out.old) (vec_capacity out.new) }
{
    put_u32(out, files.len() as u32)?;
    put_items(out, files)
}

// Puts the entry's body at the end.
pub(crate) fn put_body(out: &mut Vec<u8>, entry: &Entry) -> Result<(), AllocError>
    requires { IsEntry entry.now }
    ensures { Puts (body_of entry.now) result out.old.items out.new.items (vec_capacity out.old) (vec_capacity out.new) }
{
    match entry {
        Entry::FileHeader { version, file } => put_file_header(out, *version, *file),
        Entry::Put {
            txn,
            db,
            name,
            value,
        } => put_put(out, *txn, *db, name, value.as_slice()),
        Entry::Delete { txn, db, name } => put_delete(out, *txn, *db, name),
        Entry::Migrated { db, name, value } => put_migrated(out, *db, name, value.as_slice()),
        Entry::Commit { txn } => put_u64(out, txn.0),
        Entry::In {
            db,
            node,
            level,
            slots,
        } => put_internal(out, *db, *node, *level, slots.as_slice()),
        Entry::Bin { db, node, slots } => put_bin(out, *db, *node, slots.as_slice()),
        Entry::BinDelta {
            db,
            node,
            full,
            slots,
        } => put_delta(out, *db, *node, *full, slots.as_slice()),
        Entry::CkptStart { number } => put_u64(out, *number),
        Entry::CkptEnd {
            number,
            start,
            redo,
            last_txn,
            last_node,
            last_db,
            summary,
            roots,
        } => put_ckpt_end(
            out,
            *number,
            *start,
            *redo,
            *last_txn,
            *last_node,
            *last_db,
            *summary,
            roots.as_slice(),
        ),
        Entry::FileSummary { files } => put_file_summary(out, files.as_slice()),
    }
}
