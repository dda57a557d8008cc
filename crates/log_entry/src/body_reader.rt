// Bodies as they are read.
ghost use Rattle.std.specs.Prelude.{◌≡◌, IfOk, Some, None};
ghost use Rattle.log_entry.specs.Body.{file_header_in, record_in, put_in, delete_in, migrated_in, commit_in, internal_in, bin_in, delta_in, ckpt_start_in, ckpt_end_in, file_summary_in, entry_in};

use crate::Entry;
use crate::fields::{name_of, read_optional, read_strings};
use crate::items::{read_counted, read_rising};
use je_bytes::Reader;
use je_lsn::Lsn;
use je_order::{Name, Octets, SLOT_LIMIT, TxnId, VALUE_LIMIT};
use std::alloc::{AllocError, Global};

/// The most roots that a checkpoint's end has.
const MOST_ROOTS: u32 = 65_535;

/// The most files that a summary has.
const MOST_FILES: u32 = 1_000_000;

/// The number that begins a file's header.
pub(crate) const MAGIC: u32 = 0x4a45_4c47;

#[tactic(auto, unfolding(crate::specs::Body::file_header_in))]
fn read_file_header(bytes: &[u8]) -> Option<Entry>
    ensures { result ≡ file_header_in bytes.now }
{
    let mut reader = Reader::new(bytes);
    let magic = reader.u32().ok()?;
    let version = reader.u32().ok()?;
    let file = reader.u32().ok()?;
    if magic != MAGIC || !reader.rest().is_empty() {
        return None;
    }
    Some(Entry::FileHeader { version, file })
}

// A record's name, and its value, which takes the rest.
#[tactic(auto, unfolding(crate::specs::Body::record_in))]
fn read_record(alloc: Global, reader: &mut Reader<'_>) -> Result<Option<(Name, Octets)>, AllocError>
    ensures { IfOk result (λ found. found ≡ record_in reader.old) }
{
    let Some((key, dup)) = read_strings(reader) else {
        return Ok(None);
    };
    let value = reader.rest();
    if value.len() > VALUE_LIMIT {
        return Ok(None);
    }
    Ok(Some((name_of(alloc, key, dup)?, Octets::from_slice(alloc, value)?)))
}

#[tactic(auto, unfolding(crate::specs::Body::put_in))]
fn read_put(alloc: Global, bytes: &[u8]) -> Result<Option<Entry>, AllocError>
    ensures { IfOk result (λ found. found ≡ put_in bytes.now) }
{
    let mut reader = Reader::new(bytes);
    let Ok(txn) = reader.u64() else {
        return Ok(None);
    };
    let Ok(db) = reader.u32() else {
        return Ok(None);
    };
    let Some((name, value)) = read_record(alloc, &mut reader)? else {
        return Ok(None);
    };
    Ok(Some(Entry::Put {
        txn: TxnId(txn),
        db,
        name,
        value,
    }))
}

#[tactic(auto, unfolding(crate::specs::Body::delete_in))]
fn read_delete(alloc: Global, bytes: &[u8]) -> Result<Option<Entry>, AllocError>
    ensures { IfOk result (λ found. found ≡ delete_in bytes.now) }
{
    let mut reader = Reader::new(bytes);
    let Ok(txn) = reader.u64() else {
        return Ok(None);
    };
    let Ok(db) = reader.u32() else {
        return Ok(None);
    };
    let Some((key, dup)) = read_strings(&mut reader) else {
        return Ok(None);
    };
    if !reader.rest().is_empty() {
        return Ok(None);
    }
    Ok(Some(Entry::Delete {
        txn: TxnId(txn),
        db,
        name: name_of(alloc, key, dup)?,
    }))
}

#[tactic(auto, unfolding(crate::specs::Body::commit_in))]
fn read_commit(bytes: &[u8]) -> Option<Entry>
    ensures { result ≡ commit_in bytes.now }
{
    let mut reader = Reader::new(bytes);
    let txn = reader.u64().ok()?;
    if !reader.rest().is_empty() {
        return None;
    }
    Some(Entry::Commit { txn: TxnId(txn) })
}

#[tactic(auto, unfolding(crate::specs::Body::migrated_in))]
fn read_migrated(alloc: Global, bytes: &[u8]) -> Result<Option<Entry>, AllocError>
    ensures { IfOk result (λ found. found ≡ migrated_in bytes.now) }
{
    let mut reader = Reader::new(bytes);
    let Ok(db) = reader.u32() else {
        return Ok(None);
    };
    let Some((name, value)) = read_record(alloc, &mut reader)? else {
        return Ok(None);
    };
    Ok(Some(Entry::Migrated { db, name, value }))
}

#[tactic(auto, unfolding(crate::specs::Body::internal_in))]
fn read_internal(alloc: Global, bytes: &[u8]) -> Result<Option<Entry>, AllocError>
    ensures { IfOk result (λ found. found ≡ internal_in bytes.now) }
{
    let mut reader = Reader::new(bytes);
    let Ok(db) = reader.u32() else {
        return Ok(None);
    };
    let Ok(node) = reader.u64() else {
        return Ok(None);
    };
    let Ok(level) = reader.u8() else {
        return Ok(None);
    };
    if level < 2 || level > 64 {
        return Ok(None);
    }
    let Some(slots) = read_counted(alloc, &mut reader, SLOT_LIMIT as u32)? else {
        return Ok(None);
    };
    if slots.is_empty() {
        return Ok(None);
    }
    Ok(Some(Entry::In {
        db,
        node,
        level,
        slots,
    }))
}

#[tactic(auto, unfolding(crate::specs::Body::bin_in))]
fn read_bin(alloc: Global, bytes: &[u8]) -> Result<Option<Entry>, AllocError>
    ensures { IfOk result (λ found. found ≡ bin_in bytes.now) }
{
    let mut reader = Reader::new(bytes);
    let Ok(db) = reader.u32() else {
        return Ok(None);
    };
    let Ok(node) = reader.u64() else {
        return Ok(None);
    };
    let Some(slots) = read_counted(alloc, &mut reader, SLOT_LIMIT as u32)? else {
        return Ok(None);
    };
    Ok(Some(Entry::Bin { db, node, slots }))
}

#[tactic(auto, unfolding(crate::specs::Body::delta_in))]
fn read_delta(alloc: Global, bytes: &[u8]) -> Result<Option<Entry>, AllocError>
    ensures { IfOk result (λ found. found ≡ delta_in bytes.now) }
{
    let mut reader = Reader::new(bytes);
    let Ok(db) = reader.u32() else {
        return Ok(None);
    };
    let Ok(node) = reader.u64() else {
        return Ok(None);
    };
    let Ok(full) = reader.u64() else {
        return Ok(None);
    };
    let Some(slots) = read_counted(alloc, &mut reader, SLOT_LIMIT as u32)? else {
        return Ok(None);
    };
    Ok(Some(Entry::BinDelta {
        db,
        node,
        full: Lsn::from_u64(full),
        slots,
    }))
}

#[tactic(auto, unfolding(crate::specs::Body::ckpt_start_in))]
fn read_ckpt_start(bytes: &[u8]) -> Option<Entry>
    ensures { result ≡ ckpt_start_in bytes.now }
{
    let mut reader = Reader::new(bytes);
    let number = reader.u64().ok()?;
    if !reader.rest().is_empty() {
        return None;
    }
    Some(Entry::CkptStart { number })
}

#[tactic(auto, unfolding(crate::specs::Body::ckpt_end_in))]
fn read_ckpt_end(alloc: Global, bytes: &[u8]) -> Result<Option<Entry>, AllocError>
    ensures { IfOk result (λ found. found ≡ ckpt_end_in bytes.now) }
{
    let mut reader = Reader::new(bytes);
    let Ok(number) = reader.u64() else {
        return Ok(None);
    };
    let Ok(start) = reader.u64() else {
        return Ok(None);
    };
    let Ok(redo) = reader.u64() else {
        return Ok(None);
    };
    let Ok(last_txn) = reader.u64() else {
        return Ok(None);
    };
    let Ok(last_node) = reader.u64() else {
        return Ok(None);
    };
    let Ok(last_db) = reader.u32() else {
        return Ok(None);
    };
    let Some(summary) = read_optional(&mut reader) else {
        return Ok(None);
    };
    let Some(roots) = read_counted(alloc, &mut reader, MOST_ROOTS)? else {
        return Ok(None);
    };
    Ok(Some(Entry::CkptEnd {
        number,
        start: Lsn::from_u64(start),
        redo: Lsn::from_u64(redo),
        last_txn: TxnId(last_txn),
        last_node,
        last_db,
        summary,
        roots,
    }))
}

#[tactic(auto, unfolding(crate::specs::Body::file_summary_in, crate::specs::Items::counted_in))]
fn read_file_summary(alloc: Global, bytes: &[u8]) -> Result<Option<Entry>, AllocError>
    ensures { IfOk result (λ found. found ≡ file_summary_in bytes.now) }
{
    let mut reader = Reader::new(bytes);
    let Ok(count) = reader.u32() else {
        return Ok(None);
    };
    let Some(files) = read_rising(alloc, &mut reader, MOST_FILES, count)? else {
        return Ok(None);
    };
    Ok(Some(Entry::FileSummary { files }))
}

// The entry of a kind whose body is these bytes, all of them.
#[tactic(auto, unfolding(crate::specs::Body::entry_in))]
pub(crate) fn read_body(alloc: Global, kind: u8, bytes: &[u8]) -> Result<Option<Entry>, AllocError>
    ensures { IfOk result (λ found. found ≡ entry_in kind bytes.now) }
{
    match kind {
        1 => Ok(read_file_header(bytes)),
        2 => read_put(alloc, bytes),
        3 => read_delete(alloc, bytes),
        4 => read_migrated(alloc, bytes),
        5 => Ok(read_commit(bytes)),
        7 => read_internal(alloc, bytes),
        8 => read_bin(alloc, bytes),
        9 => read_delta(alloc, bytes),
        10 => Ok(read_ckpt_start(bytes)),
        11 => read_ckpt_end(alloc, bytes),
        12 => read_file_summary(alloc, bytes),
        _ => Ok(None),
    }
}
