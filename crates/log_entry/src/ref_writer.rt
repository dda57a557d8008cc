// Bodies of entries that are handed over by their parts.
ghost use Rattle.std.specs.Prelude.{◌≡◌, ◌+◌, ◌≤◌, ◌++◌, length, vec_capacity};
ghost use Rattle.log_entry.specs.Body.{IsEntry, kind_of, body_of, body_size_of};
ghost use Rattle.log_entry.specs.Fields.{IsName};
ghost use Rattle.log_entry.specs.Parts.{entry_by};
ghost use Rattle.log_entry.specs.Writing.{Puts};
ghost use Rattle.log_entry.specs.declared.entry.Entry.TheVariants.{Put, Delete};

use crate::EntryRef;
use crate::body_writer::{body_size, kind, put_body, put_txn};
use crate::fields::put_strings;
use je_order::TxnId;
use std::alloc::AllocError;

// The number of the entry's kind.
pub(crate) fn ref_kind(entry: &EntryRef<'_>) -> u8
    ensures { result ≡ kind_of (entry_by entry.now) }
{
    match *entry {
        EntryRef::Whole(entry) => kind(entry),
        EntryRef::Put { .. } => 2,
        EntryRef::Delete { .. } => 3,
    }
}

// How many bytes the body has.
pub(crate) fn ref_body_size(entry: &EntryRef<'_>) -> u32
    requires { IsEntry (entry_by entry.now) }
    ensures value { result ≡ body_size_of (entry_by entry.now) }
    ensures bound { result ≤ 20000004 }
{
    match *entry {
        EntryRef::Whole(entry) => body_size(entry),
        EntryRef::Put {
            key,
            dup,
            value,
            ..
        } => (16 + key.len() + dup.len() + value.len()) as u32,
        EntryRef::Delete { key, dup, .. } => (16 + key.len() + dup.len()) as u32,
    }
}

fn put_record(
    out: &mut Vec<u8>,
    txn: TxnId,
    db: u32,
    key: &[u8],
    dup: &[u8],
    value: &[u8],
) -> Result<(), AllocError>
    requires { IsName (record { key = key.now; dup = dup.now }) }
    ensures { Puts (body_of (Put txn db (record { key = key.now; dup = dup.now }) value.now)) result out.old.items out.new.items (vec_capacity out.old) (vec_capacity out.new) }
{
    put_txn(out, txn, db)?;
    put_strings(out, key, dup)?;
    out.extend_from_slice(value)
}

fn put_deletion(
    out: &mut Vec<u8>,
    txn: TxnId,
    db: u32,
    key: &[u8],
    dup: &[u8],
) -> Result<(), AllocError>
    requires { IsName (record { key = key.now; dup = dup.now }) }
    ensures { Puts (body_of (Delete txn db (record { key = key.now; dup = dup.now }))) result out.old.items out.new.items (vec_capacity out.old) (vec_capacity out.new) }
{
    put_txn(out, txn, db)?;
    put_strings(out, key, dup)
}

// Puts the entry's body at the end.
pub(crate) fn put_ref_body(out: &mut Vec<u8>, entry: &EntryRef<'_>) -> Result<(), AllocError>
    requires { IsEntry (entry_by entry.now) }
    ensures { Puts (body_of (entry_by entry.now)) result out.old.items out.new.items (vec_capacity out.old) (vec_capacity out.new) }
{
    match *entry {
        EntryRef::Whole(entry) => put_body(out, entry),
        EntryRef::Put {
            txn,
            db,
            key,
            dup,
            value,
        } => put_record(out, txn, db, key, dup, value),
        EntryRef::Delete { txn, db, key, dup } => put_deletion(out, txn, db, key, dup),
    }
}
