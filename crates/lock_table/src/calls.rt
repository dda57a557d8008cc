// The calls' work, over the three maps that a lock table keeps.
ghost use Rattle.std.specs.Prelude.{◌≡◌, ◌&&◌, not, true, false, None, Some, ◌⊎◌, if◌then◌else◌, IfOk, OnOk, OnErr};
ghost use Rattle.std.specs.List.{list_any};
ghost use Rattle.std.specs.Map.{lookup};
ghost use Rattle.std.specs.Option.{is_some, option_map_or};
ghost use Rattle.je_order.specs.declared.txn_id.TxnId.{TxnId};
ghost use Rattle.lock_mode.specs.declared.lock_type.LockType.{LockType};
ghost use Rattle.lock_table.specs.declared.record_id.RecordId.{RecordId};
ghost use Rattle.lock_table.specs.Locks.{has_lock, held_by, blocker, is_blocked, after_ask, after_cancel, after_read, after_release, after_give_back, WasHeld, IsSettled};
ghost use Rattle.je_order.specs.Transactions.{is_same_txn};
ghost use Rattle.lock_table.specs.Records.{is_record, queue_at};
ghost use Rattle.lock_table.specs.Table.{at_txn, owner_in, SaysHeld, is_in_one, is_listed, IsOut, IsSameTable, IsTable};

use crate::listed::{list_at, list_new, list_wait, unlist_at};
use crate::queue::Queue;
use crate::queues::{
    cancel_at, first_queue, give_back_at, owners_at, read_back_at, release_at, waits_at,
};
use crate::{Asked, Lock, RecordId, lists};
use je_order::{TxnId, copy_of};
use lock_mode::LockType;
use std::alloc::{AllocError, Global};
use std::collections::{BTreeMap, HashMap};

// A request: it waits exactly where it conflicts with another owner. Running out of memory changes
// nothing.
pub(crate) fn ask_in(
    queues: &mut HashMap<RecordId, Queue>,
    lists: &mut BTreeMap<TxnId, BTreeMap<u32, Vec<RecordId>>>,
    pending: &mut BTreeMap<TxnId, RecordId>,
    alloc: Global,
    at: &RecordId,
    lock: Lock,
) -> Result<Asked, AllocError>
    requires table { IsTable queues.old.entries lists.old.entries pending.old.entries }
    requires free { (r : RecordId) → has_lock lock.txn (queue_at r queues.old.entries).1 ≡ false }
    ensures table { IsTable queues.new.entries lists.new.entries pending.new.entries }
    ensures answer { IfOk result (λ asked. owner_in asked ≡ blocker lock (queue_at at.now queues.old.entries).0) }
    ensures was { IfOk result (λ asked. SaysHeld asked (held_by lock.txn (queue_at at.now queues.old.entries).0)) }
    ensures queues { OnOk result ((r : RecordId) → queue_at r queues.new.entries ≡ (if is_record at.now r then after_ask lock (queue_at r queues.old.entries) else queue_at r queues.old.entries)) }
    ensures pending { IfOk result (λ asked. (t : TxnId) → at_txn t pending.new.entries ≡ (if is_same_txn lock.txn t then option_map_or (λ _. Some at.now) (owner_in asked) None else at_txn t pending.old.entries)) }
    ensures err { OnErr result (IsSameTable (record { records = queues.old.entries; pending = pending.old.entries }) (record { records = queues.new.entries; pending = pending.new.entries })) }
{
    if let Some(queue) = queues.get_mut(at) {
        let asked = ask_there(queue, lists, pending, alloc, at, lock)?;
        return Ok(asked);
    }
    ask_first(queues, lists, alloc, at, lock)?;
    let _ = pending.remove(&lock.txn);
    Ok(Asked::Granted { was: None })
}

// A request for a record that has owners or waits. Running out of memory changes neither.
fn ask_there(
    queue: &mut Queue,
    lists: &mut BTreeMap<TxnId, BTreeMap<u32, Vec<RecordId>>>,
    pending: &mut BTreeMap<TxnId, RecordId>,
    alloc: Global,
    at: &RecordId,
    lock: Lock,
) -> Result<Asked, AllocError>
    requires free { has_lock lock.txn queue.old.1 ≡ false }
    ensures answer { IfOk result (λ asked. owner_in asked ≡ blocker lock queue.old.0) }
    ensures was { IfOk result (λ asked. SaysHeld asked (held_by lock.txn queue.old.0)) }
    ensures queue { OnOk result (queue.new ≡ after_ask lock queue.old) }
    ensures pending { IfOk result (λ asked. (t : TxnId) → at_txn t pending.new.entries ≡ (if is_same_txn lock.txn t then option_map_or (λ _. Some at.now) (owner_in asked) None else at_txn t pending.old.entries)) }
    ensures kept { (t : TxnId) (r : RecordId) → is_listed lists.new.entries t r ≡ false → is_listed lists.old.entries t r ≡ false }
    ensures listed { is_listed lists.new.entries lock.txn at.now ≡ false → IsOut lock.txn queue.old → IsOut lock.txn queue.new }
    ensures err { OnErr result (queue.new ≡ queue.old) }
    ensures err_pending { OnErr result ((t : TxnId) → at_txn t pending.new.entries ≡ at_txn t pending.old.entries) }
{
    let Some(owner) = lists::blocker_in(queue.owners(), lock) else {
        let was = lists::held_in(queue.owners(), lock.txn);
        grant_there(queue, lists, alloc, at, lock)?;
        let _ = pending.remove(&lock.txn);
        return Ok(Asked::Granted { was });
    };
    wait_there(queue, lists, pending, alloc, at, lock)?;
    Ok(Asked::Blocked { owner })
}

// A request that conflicts with no other owner. A type that is never held is not listed.
fn grant_there(
    queue: &mut Queue,
    lists: &mut BTreeMap<TxnId, BTreeMap<u32, Vec<RecordId>>>,
    alloc: Global,
    at: &RecordId,
    lock: Lock,
) -> Result<(), AllocError>
    requires clear { is_blocked queue.old.0 lock ≡ false }
    ensures queue { OnOk result (queue.new ≡ after_ask lock queue.old) }
    ensures kept { (t : TxnId) (r : RecordId) → is_listed lists.new.entries t r ≡ false → is_listed lists.old.entries t r ≡ false }
    ensures listed { is_listed lists.new.entries lock.txn at.now ≡ false → IsOut lock.txn queue.old → IsOut lock.txn queue.new }
    ensures err { OnErr result (queue.new ≡ queue.old) }
{
    if matches!(lock.mode, LockType::RangeInsert) {
        return Ok(());
    }
    list_new(lists, alloc, lock.txn, at, queue.owners())?;
    queue.ask(alloc, lock)?;
    Ok(())
}

// A request that conflicts with another owner.
fn wait_there(
    queue: &mut Queue,
    lists: &mut BTreeMap<TxnId, BTreeMap<u32, Vec<RecordId>>>,
    pending: &mut BTreeMap<TxnId, RecordId>,
    alloc: Global,
    at: &RecordId,
    lock: Lock,
) -> Result<(), AllocError>
    requires free { has_lock lock.txn queue.old.1 ≡ false }
    requires blocked { is_blocked queue.old.0 lock ≡ true }
    ensures queue { OnOk result (queue.new ≡ after_ask lock queue.old) }
    ensures pending { OnOk result ((t : TxnId) → at_txn t pending.new.entries ≡ (if is_same_txn lock.txn t then Some at.now else at_txn t pending.old.entries)) }
    ensures kept { (t : TxnId) (r : RecordId) → is_listed lists.new.entries t r ≡ false → is_listed lists.old.entries t r ≡ false }
    ensures listed { is_listed lists.new.entries lock.txn at.now ≡ false → IsOut lock.txn queue.old → IsOut lock.txn queue.new }
    ensures err { OnErr result (queue.new ≡ queue.old) }
    ensures err_pending { OnErr result ((t : TxnId) → at_txn t pending.new.entries ≡ at_txn t pending.old.entries) }
{
    list_wait(lists, alloc, lock.txn, at, queue.owners())?;
    queue.ask(alloc, lock)?;
    match note_wait(pending, lock.txn, at) {
        Ok(()) => Ok(()),
        Err(failed) => {
            queue.cancel(lock.txn);
            Err(failed)
        }
    }
}

// A request for a record that has neither owner nor wait: it is granted.
fn ask_first(
    queues: &mut HashMap<RecordId, Queue>,
    lists: &mut BTreeMap<TxnId, BTreeMap<u32, Vec<RecordId>>>,
    alloc: Global,
    at: &RecordId,
    lock: Lock,
) -> Result<(), AllocError>
    requires none { None ≡ lookup (is_record at.now) queues.old.entries }
    ensures queues { OnOk result ((r : RecordId) → queue_at r queues.new.entries ≡ (if is_record at.now r then after_ask lock (queue_at r queues.old.entries) else queue_at r queues.old.entries)) }
    ensures kept { (t : TxnId) (r : RecordId) → is_listed lists.new.entries t r ≡ false → is_listed lists.old.entries t r ≡ false }
    ensures listed { is_listed lists.new.entries lock.txn at.now ≡ false → IsOut lock.txn (queue_at at.now queues.old.entries) → IsOut lock.txn (queue_at at.now queues.new.entries) }
    ensures err { OnErr result ((r : RecordId) → queue_at r queues.new.entries ≡ queue_at r queues.old.entries) }
{
    let queue = first_queue(alloc, lock)?;
    if queue.is_empty() {
        return Ok(());
    }
    list_at(lists, alloc, lock.txn, at)?;
    let key = copy_of(at)?;
    queues.insert(key, queue)?;
    Ok(())
}

// Notes that a transaction waits on a record. Running out of memory changes nothing.
fn note_wait(
    pending: &mut BTreeMap<TxnId, RecordId>,
    txn: TxnId,
    at: &RecordId,
) -> Result<(), AllocError>
    ensures ok { OnOk result ((t : TxnId) → at_txn t pending.new.entries ≡ (if is_same_txn txn t then Some at.now else at_txn t pending.old.entries)) }
    ensures err { OnErr result ((t : TxnId) → at_txn t pending.new.entries ≡ at_txn t pending.old.entries) }
{
    let key = copy_of(at)?;
    let _ = pending.insert(txn, key)?;
    Ok(())
}

// The transaction's wait is taken back, if it has one. It takes no memory.
pub(crate) fn cancel_in(
    queues: &mut HashMap<RecordId, Queue>,
    pending: &mut BTreeMap<TxnId, RecordId>,
    txn: TxnId,
)
    requires { (r : RecordId) → has_lock txn (queue_at r queues.old.entries).1 ≡ true → at_txn txn pending.old.entries ≡ Some r }
    ensures queues { (r : RecordId) → queue_at r queues.new.entries ≡ after_cancel txn (queue_at r queues.old.entries) }
    ensures pending { (t : TxnId) → at_txn t pending.new.entries ≡ (if is_same_txn txn t && option_map_or (λ r. has_lock txn (queue_at r queues.old.entries).1) (at_txn txn pending.old.entries) false then None else at_txn t pending.old.entries) }
{
    let Some(at) = pending.get(&txn) else {
        return;
    };
    if !lists::is_in(waits_at(queues, at), txn) {
        return;
    }
    cancel_at(queues, at, txn);
    let _ = pending.remove(&txn);
}

// Notes again where a transaction was told to wait before it was told to wait elsewhere. It takes no memory.
fn note_again(pending: &mut BTreeMap<TxnId, RecordId>, txn: TxnId, place: Option<RecordId>)
    requires { is_some (at_txn txn pending.old.entries) ≡ true }
    ensures { (t : TxnId) → at_txn t pending.new.entries ≡ (if is_same_txn txn t then place else at_txn t pending.old.entries) }
{
    let Some(before) = place else {
        let _ = pending.remove(&txn);
        return;
    };
    match pending.get_mut(&txn) {
        Some(at) => *at = before,
        None => unreachable!(),
    }
}

// The transaction's wait is taken back, and where it was told to wait before it is noted again. It takes no
// memory.
pub(crate) fn undo_wait_in(
    queues: &mut HashMap<RecordId, Queue>,
    pending: &mut BTreeMap<TxnId, RecordId>,
    txn: TxnId,
    place: Option<RecordId>,
)
    requires told { (r : RecordId) → has_lock txn (queue_at r queues.old.entries).1 ≡ true → at_txn txn pending.old.entries ≡ Some r }
    requires there { is_some (at_txn txn pending.old.entries) ≡ true }
    ensures queues { (r : RecordId) → queue_at r queues.new.entries ≡ after_cancel txn (queue_at r queues.old.entries) }
    ensures pending { (t : TxnId) → at_txn t pending.new.entries ≡ (if is_same_txn txn t then place else at_txn t pending.old.entries) }
{
    match pending.get(&txn) {
        Some(at) => cancel_at(queues, at, txn),
        None => unreachable!(),
    }
    note_again(pending, txn, place);
}

// Forgets where the transaction was told to wait, if it waits no more. It takes no memory.
pub(crate) fn forget_in(
    queues: &HashMap<RecordId, Queue>,
    pending: &mut BTreeMap<TxnId, RecordId>,
    txn: TxnId,
)
    ensures { (t : TxnId) → at_txn t pending.new.entries ≡ (if is_same_txn txn t && option_map_or (λ r. not (has_lock txn (queue_at r queues.now.entries).1)) (at_txn txn pending.old.entries) false then None else at_txn t pending.old.entries) }
{
    let Some(at) = pending.get(&txn) else {
        return;
    };
    if lists::is_in(waits_at(queues, at), txn) {
        return;
    }
    let _ = pending.remove(&txn);
}

// The locks of a transaction that are no more than READ go. It takes no memory.
pub(crate) fn read_back_in(
    queues: &mut HashMap<RecordId, Queue>,
    lists: &BTreeMap<TxnId, BTreeMap<u32, Vec<RecordId>>>,
    txn: TxnId,
)
    requires settled { (r : RecordId) → IsSettled (queue_at r queues.old.entries) }
    requires listed { (r : RecordId) → is_listed lists.now.entries txn r ≡ false → IsOut txn (queue_at r queues.old.entries) }
    ensures { (r : RecordId) → queue_at r queues.new.entries ≡ after_read txn (queue_at r queues.old.entries) }
{
    let Some(dbs) = lists.get(&txn) else {
        return;
    };
    read_back_all(queues, dbs, txn);
}

// The transaction's locks on the records of these databases go, where they are no more than READ.
fn read_back_all(
    queues: &mut HashMap<RecordId, Queue>,
    dbs: &BTreeMap<u32, Vec<RecordId>>,
    txn: TxnId,
)
    requires { (r : RecordId) → IsSettled (queue_at r queues.old.entries) }
    ensures { (r : RecordId) → queue_at r queues.new.entries ≡ (if is_in_one dbs.now.entries r then after_read txn (queue_at r queues.old.entries) else queue_at r queues.old.entries) }
{
    for (_, list) in dbs.iter() {
        read_back_each(queues, list.as_slice(), txn);
    }
}

// The transaction's locks on these records go, where they are no more than READ.
fn read_back_each(queues: &mut HashMap<RecordId, Queue>, list: &[RecordId], txn: TxnId)
    requires { (r : RecordId) → IsSettled (queue_at r queues.old.entries) }
    ensures { (r : RecordId) → queue_at r queues.new.entries ≡ (if list_any (is_record r) list.now then after_read txn (queue_at r queues.old.entries) else queue_at r queues.old.entries) }
{
    for at in list {
        read_back_at(queues, at, txn);
    }
}

// All locks and the wait of a transaction go. It takes no memory.
pub(crate) fn release_in(
    queues: &mut HashMap<RecordId, Queue>,
    lists: &mut BTreeMap<TxnId, BTreeMap<u32, Vec<RecordId>>>,
    txn: TxnId,
)
    requires settled { (r : RecordId) → IsSettled (queue_at r queues.old.entries) }
    requires listed { (r : RecordId) → is_listed lists.old.entries txn r ≡ false → IsOut txn (queue_at r queues.old.entries) }
    ensures queues { (r : RecordId) → queue_at r queues.new.entries ≡ after_release txn (queue_at r queues.old.entries) }
    ensures lists { (t : TxnId) (r : RecordId) → is_same_txn txn t ≡ false → is_listed lists.new.entries t r ≡ is_listed lists.old.entries t r }
{
    let Some(dbs) = lists.remove(&txn) else {
        return;
    };
    release_all(queues, &dbs, txn);
}

// The transaction's locks and waits on the records of these databases go.
fn release_all(
    queues: &mut HashMap<RecordId, Queue>,
    dbs: &BTreeMap<u32, Vec<RecordId>>,
    txn: TxnId,
)
    requires { (r : RecordId) → IsSettled (queue_at r queues.old.entries) }
    ensures { (r : RecordId) → queue_at r queues.new.entries ≡ (if is_in_one dbs.now.entries r then after_release txn (queue_at r queues.old.entries) else queue_at r queues.old.entries) }
{
    for (_, list) in dbs.iter() {
        release_each(queues, list.as_slice(), txn);
    }
}

// The transaction's locks and waits on these records go.
fn release_each(queues: &mut HashMap<RecordId, Queue>, list: &[RecordId], txn: TxnId)
    requires { (r : RecordId) → IsSettled (queue_at r queues.old.entries) }
    ensures { (r : RecordId) → queue_at r queues.new.entries ≡ (if list_any (is_record r) list.now then after_release txn (queue_at r queues.old.entries) else queue_at r queues.old.entries) }
{
    for at in list {
        release_at(queues, at, txn);
    }
}

// The transaction's lock on a record is what it was before. It takes no memory.
pub(crate) fn give_back_in(
    queues: &mut HashMap<RecordId, Queue>,
    lists: &mut BTreeMap<TxnId, BTreeMap<u32, Vec<RecordId>>>,
    txn: TxnId,
    at: &RecordId,
    was: Option<LockType>,
)
    ensures queues { (r : RecordId) → queue_at r queues.new.entries ≡ (if is_record at.now r then after_give_back txn was (queue_at r queues.old.entries) else queue_at r queues.old.entries) }
    ensures lists { (t : TxnId) (r : RecordId) → is_listed lists.new.entries t r ≡ false → (is_listed lists.old.entries t r ≡ false) ⊎ IsOut t (queue_at r queues.new.entries) }
{
    give_back_at(queues, at, txn, was);
    if lists::is_in(owners_at(queues, at), txn) {
        return;
    }
    if lists::is_in(waits_at(queues, at), txn) {
        return;
    }
    unlist_at(lists, txn, at);
}
