// The owners and the waits in one database.
ghost use Rattle.std.specs.Prelude.{◌≡◌, ◌==◌, ◌≤◌, true, false, Some, map};
ghost use Rattle.std.specs.Option.{IfSome, IfNone};
ghost use Rattle.je_order.specs.declared.txn_id.TxnId.{TxnId};
ghost use Rattle.lock_table.specs.declared.record_id.RecordId.{RecordId};
ghost use Rattle.std.specs.List.{flat_map, filter, list_any};
ghost use Rattle.lock_table.specs.Locks.{has_lock, least};
ghost use Rattle.lock_table.specs.Records.{is_record, queue_at};
ghost use Rattle.lock_table.specs.Table.{at_txn, lists_record, is_listed, OwnsIn, IsOut, is_used, AreUsed};

use crate::queue::Queue;
use crate::queues::owners_at;
use crate::{RecordId, lists};
use je_order::TxnId;
use std::collections::{BTreeMap, BTreeSet, HashMap};

// Whether a transaction owns a lock on this record, and it is of the database.
fn owns_at(queues: &HashMap<RecordId, Queue>, at: &RecordId, txn: TxnId, db: u32) -> bool
    ensures owns { result ≡ true → OwnsIn db txn queues.now.entries }
    ensures none { result ≡ false → at.now.db ≡ db → has_lock txn (queue_at at.now queues.now.entries).0 ≡ false }
{
    if at.db != db {
        return false;
    }
    lists::is_in(owners_at(queues, at), txn)
}

// Whether a transaction owns a lock on one of these records that is of the database.
fn owns_one(queues: &HashMap<RecordId, Queue>, list: &[RecordId], txn: TxnId, db: u32) -> bool
    ensures owns { result ≡ true → OwnsIn db txn queues.now.entries }
    ensures none { result ≡ false → (r : RecordId) → r.db ≡ db → list_any (is_record r) list.now ≡ true → has_lock txn (queue_at r queues.now.entries).0 ≡ false }
{
    for at in list {
        if owns_at(queues, at, txn, db) {
            return true;
        }
    }
    false
}

// Whether a transaction owns a lock on one of its records in the database.
fn owns_in(
    queues: &HashMap<RecordId, Queue>,
    dbs: &BTreeMap<u32, Vec<RecordId>>,
    txn: TxnId,
    db: u32,
) -> bool
    ensures owns { result ≡ true → OwnsIn db txn queues.now.entries }
    ensures none { result ≡ false → (r : RecordId) → r.db ≡ db → lists_record dbs.now.entries r ≡ true → has_lock txn (queue_at r queues.now.entries).0 ≡ false }
{
    match dbs.get(&db) {
        Some(list) => owns_one(queues, list.as_slice(), txn, db),
        None => false,
    }
}

// The first transaction that owns a lock in the database.
fn first_in(
    queues: &HashMap<RecordId, Queue>,
    lists: &BTreeMap<TxnId, BTreeMap<u32, Vec<RecordId>>>,
    db: u32,
) -> Option<TxnId>
    requires { (t : TxnId) (r : RecordId) → is_listed lists.now.entries t r ≡ false → IsOut t (queue_at r queues.now.entries) }
    ensures owns { IfSome result (λ t. OwnsIn db t queues.now.entries) }
    ensures first { IfSome result (λ t. (u : TxnId) → OwnsIn db u queues.now.entries → t.0 ≤ u.0) }
    ensures none { IfNone result ((u : TxnId) → OwnsIn db u queues.now.entries → ⊥) }
{
    for (txn, dbs) in lists.iter() {
        if owns_in(queues, dbs, *txn, db) {
            return Some(*txn);
        }
    }
    None
}

// The least owner of the records of a database.
pub(crate) fn least_in(
    queues: &HashMap<RecordId, Queue>,
    lists: &BTreeMap<TxnId, BTreeMap<u32, Vec<RecordId>>>,
    dbs: &BTreeSet<u32>,
    db: u32,
) -> Option<TxnId>
    requires used { AreUsed (is_used dbs.now) (λ r. queue_at r queues.now.entries) }
    requires listed { (t : TxnId) (r : RecordId) → is_listed lists.now.entries t r ≡ false → IsOut t (queue_at r queues.now.entries) }
    ensures least { result ≡ least (map (λ o. o.txn) (flat_map (λ e. e.1.0) (filter (λ e. e.0.db == db) queues.now.entries))) }
    ensures owns { IfSome result (λ t. OwnsIn db t queues.now.entries) }
{
    let _ = queues.iter();
    if !dbs.contains(&db) {
        return None;
    }
    first_in(queues, lists, db)
}

// The first transaction that was told to wait on a record of the database.
pub(crate) fn told_in(pending: &BTreeMap<TxnId, RecordId>, db: u32) -> Option<TxnId>
    ensures told { IfSome result (λ t. (r : RecordId) × (at_txn t pending.now.entries ≡ Some r) × (r.db ≡ db)) }
    ensures none { IfNone result ((t : TxnId) (r : RecordId) → at_txn t pending.now.entries ≡ Some r → r.db ≡ db → ⊥) }
{
    for (txn, at) in pending.iter() {
        if at.db == db {
            return Some(*txn);
        }
    }
    None
}
