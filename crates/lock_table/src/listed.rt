// Which records a transaction has locks or waits on. A list may have others too, and a record twice.
ghost use Rattle.std.specs.Prelude.{◌≡◌, ◌<◌, ◌&&◌, ◌∷◌, ◌⊎◌, [], length, slice_index_or, true, false, if◌then◌else◌, IfOk, OnOk, OnErr};
ghost use Rattle.std.specs.Option.{IfSome};
ghost use Rattle.je_order.specs.declared.txn_id.TxnId.{TxnId};
ghost use Rattle.lock_table.specs.declared.record_id.RecordId.{RecordId};
ghost use Rattle.je_order.specs.Transactions.{is_same_txn};
ghost use Rattle.lock_table.specs.Locks.{has_lock};
ghost use Rattle.lock_table.specs.Records.{is_record};
ghost use Rattle.lock_table.specs.Table.{lists_record, is_listed};

use crate::{Lock, RecordId, lists};
use je_order::{TxnId, copy_of};
use std::alloc::{AllocError, Global};
use std::collections::BTreeMap;

// A list of one record.
fn list_of(alloc: Global, key: RecordId) -> Result<Vec<RecordId>, AllocError>
    ensures { IfOk result (λ list. list.items ≡ key ∷ []) }
{
    let mut list = Vec::new(alloc);
    list.push(key)?;
    Ok(list)
}

// Puts a record behind the others of its database. Running out of memory changes nothing.
fn push_in(
    dbs: &mut BTreeMap<u32, Vec<RecordId>>,
    alloc: Global,
    key: RecordId,
) -> Result<(), AllocError>
    ensures ok { OnOk result ((r : RecordId) → lists_record dbs.new.entries r ≡ (if is_record key r then true else lists_record dbs.old.entries r)) }
    ensures err { OnErr result ((r : RecordId) → lists_record dbs.new.entries r ≡ lists_record dbs.old.entries r) }
{
    let db = key.db;
    if let Some(list) = dbs.get_mut(&db) {
        list.push(key)?;
        return Ok(());
    }
    let list = list_of(alloc, key)?;
    dbs.insert(db, list)?;
    Ok(())
}

// The records of a transaction that has one.
fn dbs_of(alloc: Global, key: RecordId) -> Result<BTreeMap<u32, Vec<RecordId>>, AllocError>
    ensures { IfOk result (λ dbs. (r : RecordId) → lists_record dbs.entries r ≡ is_record key r) }
{
    let mut dbs = BTreeMap::new(alloc);
    push_in(&mut dbs, alloc, key)?;
    Ok(dbs)
}

// Lists a record at a transaction. Running out of memory changes nothing.
pub(crate) fn list_at(
    lists: &mut BTreeMap<TxnId, BTreeMap<u32, Vec<RecordId>>>,
    alloc: Global,
    txn: TxnId,
    at: &RecordId,
) -> Result<(), AllocError>
    ensures ok { OnOk result ((t : TxnId) (r : RecordId) → is_listed lists.new.entries t r ≡ (if is_same_txn txn t && is_record at.now r then true else is_listed lists.old.entries t r)) }
    ensures err { OnErr result ((t : TxnId) (r : RecordId) → is_listed lists.new.entries t r ≡ is_listed lists.old.entries t r) }
{
    let key = copy_of(at)?;
    if let Some(dbs) = lists.get_mut(&txn) {
        push_in(dbs, alloc, key)?;
        return Ok(());
    }
    let dbs = dbs_of(alloc, key)?;
    lists.insert(txn, dbs)?;
    Ok(())
}

// Lists a record at a transaction that is no owner there yet: where it is one, the record is listed.
pub(crate) fn list_new(
    lists: &mut BTreeMap<TxnId, BTreeMap<u32, Vec<RecordId>>>,
    alloc: Global,
    txn: TxnId,
    at: &RecordId,
    owners: &[Lock],
) -> Result<(), AllocError>
    ensures kept { (t : TxnId) (r : RecordId) → is_listed lists.new.entries t r ≡ false → is_listed lists.old.entries t r ≡ false }
    ensures listed { OnOk result (is_listed lists.new.entries txn at.now ≡ false → has_lock txn owners.now ≡ true) }
{
    if lists::is_in(owners, txn) {
        return Ok(());
    }
    list_at(lists, alloc, txn, at)?;
    Ok(())
}

// Whether two names are of one record.
fn is_same(at: &RecordId, other: &RecordId) -> bool
    ensures { result ≡ is_record at.now other.now }
{
    at.cmp(other).is_eq()
}

// Where a record stands among the last eight of a list: a lock that is given back was taken lately.
fn last_place(list: &[RecordId], at: &RecordId) -> Option<usize>
    ensures within { IfSome result (λ i. i < length list.now) }
    ensures there { IfSome result (λ i. is_record at.now (slice_index_or list.now i at.now) ≡ true) }
{
    for back in 0..8 {
        if back >= list.len() {
            return None;
        }
        let i = list.len() - 1 - back;
        if is_same(at, &list[i]) {
            return Some(i);
        }
    }
    None
}

// Whether a record stands among the last of its database.
fn has_lately(dbs: &BTreeMap<u32, Vec<RecordId>>, at: &RecordId) -> bool
    ensures { result ≡ true → lists_record dbs.now.entries at.now ≡ true }
{
    let Some(list) = dbs.get(&at.db) else {
        return false;
    };
    last_place(list.as_slice(), at).is_some()
}

// Whether a record was listed lately at a transaction.
fn is_listed_lately(
    lists: &BTreeMap<TxnId, BTreeMap<u32, Vec<RecordId>>>,
    txn: TxnId,
    at: &RecordId,
) -> bool
    ensures { result ≡ true → is_listed lists.now.entries txn at.now ≡ true }
{
    match lists.get(&txn) {
        Some(dbs) => has_lately(dbs, at),
        None => false,
    }
}

// The same for a record that is to be waited for: who asks in vain again and again lists it once.
pub(crate) fn list_wait(
    lists: &mut BTreeMap<TxnId, BTreeMap<u32, Vec<RecordId>>>,
    alloc: Global,
    txn: TxnId,
    at: &RecordId,
    owners: &[Lock],
) -> Result<(), AllocError>
    ensures kept { (t : TxnId) (r : RecordId) → is_listed lists.new.entries t r ≡ false → is_listed lists.old.entries t r ≡ false }
    ensures listed { OnOk result (is_listed lists.new.entries txn at.now ≡ false → has_lock txn owners.now ≡ true) }
{
    if is_listed_lately(lists, txn, at) {
        return Ok(());
    }
    list_new(lists, alloc, txn, at, owners)?;
    Ok(())
}

// Takes a record out, if it stands among the last of its database. It takes no memory.
fn unlist_in(dbs: &mut BTreeMap<u32, Vec<RecordId>>, at: &RecordId)
    ensures { (r : RecordId) → lists_record dbs.new.entries r ≡ false → (lists_record dbs.old.entries r ≡ false) ⊎ (is_record at.now r ≡ true) }
{
    let Some(list) = dbs.get_mut(&at.db) else {
        return;
    };
    if let Some(i) = last_place(list.as_slice(), at) {
        let _ = list.swap_remove(i);
    }
}

// Takes a record out of a transaction's, if it was listed lately. It takes no memory.
pub(crate) fn unlist_at(
    lists: &mut BTreeMap<TxnId, BTreeMap<u32, Vec<RecordId>>>,
    txn: TxnId,
    at: &RecordId,
)
    ensures { (t : TxnId) (r : RecordId) → is_listed lists.new.entries t r ≡ false → (is_listed lists.old.entries t r ≡ false) ⊎ ((is_same_txn txn t && is_record at.now r) ≡ true) }
{
    if let Some(dbs) = lists.get_mut(&txn) {
        unlist_in(dbs, at);
    }
}
