// The records that are locked, each with its owners and waits.
ghost use Rattle.std.specs.Prelude.{◌≡◌, List, [], true, false, Some, if◌then◌else◌, IfOk, OnOk, OnErr};
ghost use Rattle.je_order.specs.declared.txn_id.TxnId.{TxnId};
ghost use Rattle.lock_mode.specs.declared.lock_type.LockType.TheVariants.{Read};
ghost use Rattle.lock_table.specs.declared.lock.Lock.{Lock};
ghost use Rattle.lock_table.specs.declared.record_id.RecordId.{RecordId};
ghost use Rattle.lock_table.specs.Locks.{after_ask, after_cancel, after_read, read_given_back, after_release, after_give_back};
ghost use Rattle.lock_table.specs.Records.{is_record, queue_at};

use crate::queue::Queue;
use crate::{Lock, RecordId, lists};
use je_order::TxnId;
use lock_mode::LockType;
use std::alloc::{AllocError, Global};
use std::collections::HashMap;

// The owners of a record.
pub(crate) fn owners_at<'a>(queues: &'a HashMap<RecordId, Queue>, at: &RecordId) -> &'a [Lock]
    ensures { result.now ≡ (queue_at at.now queues.now.entries).0 }
{
    match queues.get(at) {
        Some(queue) => queue.owners(),
        None => &[],
    }
}

// The waits on a record.
pub(crate) fn waits_at<'a>(queues: &'a HashMap<RecordId, Queue>, at: &RecordId) -> &'a [Lock]
    ensures { result.now ≡ (queue_at at.now queues.now.entries).1 }
{
    match queues.get(at) {
        Some(queue) => queue.waits(),
        None => &[],
    }
}

// The owners and the waits of a record on which one lock was asked for.
pub(crate) fn first_queue(alloc: Global, lock: Lock) -> Result<Queue, AllocError>
    ensures { IfOk result (λ queue. queue ≡ after_ask lock ([], [])) }
{
    let mut queue = Queue::new();
    queue.ask(alloc, lock)?;
    Ok(queue)
}

// A transaction's wait on a record is taken back. It takes no memory.
pub(crate) fn cancel_at(queues: &mut HashMap<RecordId, Queue>, at: &RecordId, txn: TxnId)
    ensures { (r : RecordId) → queue_at r queues.new.entries ≡ (if is_record at.now r then after_cancel txn (queue_at r queues.old.entries) else queue_at r queues.old.entries) }
{
    let Some(queue) = queues.get_mut(at) else {
        return;
    };
    queue.cancel(txn);
    if !queue.is_empty() {
        return;
    }
    let _ = queues.remove(at);
}

// A transaction's lock and wait on a record go, and others are granted. It takes no memory.
pub(crate) fn release_at(queues: &mut HashMap<RecordId, Queue>, at: &RecordId, txn: TxnId)
    ensures { (r : RecordId) → queue_at r queues.new.entries ≡ (if is_record at.now r then after_release txn (queue_at r queues.old.entries) else queue_at r queues.old.entries) }
{
    let Some(queue) = queues.get_mut(at) else {
        return;
    };
    queue.release(txn);
    if !queue.is_empty() {
        return;
    }
    let _ = queues.remove(at);
}

// A transaction's lock on a record is what it was before, and others are granted. It takes no memory.
pub(crate) fn give_back_at(
    queues: &mut HashMap<RecordId, Queue>,
    at: &RecordId,
    txn: TxnId,
    was: Option<LockType>,
)
    ensures { (r : RecordId) → queue_at r queues.new.entries ≡ (if is_record at.now r then after_give_back txn was (queue_at r queues.old.entries) else queue_at r queues.old.entries) }
{
    let Some(queue) = queues.get_mut(at) else {
        return;
    };
    queue.give_back(txn, was);
    if !queue.is_empty() {
        return;
    }
    let _ = queues.remove(at);
}

// Whether a transaction holds a lock and no more than READ.
fn is_read_alone(held: Option<LockType>) -> bool
    ensures read { result ≡ true → held ≡ Some Read }
    ensures more { result ≡ false → (t : TxnId) (q : List Lock × List Lock) → read_given_back t held q ≡ q }
{
    matches!(held, Some(LockType::Read))
}

// A transaction's lock on a record goes, if it is no more than READ. It takes no memory.
pub(crate) fn read_back_at(queues: &mut HashMap<RecordId, Queue>, at: &RecordId, txn: TxnId)
    ensures { (r : RecordId) → queue_at r queues.new.entries ≡ (if is_record at.now r then after_read txn (queue_at r queues.old.entries) else queue_at r queues.old.entries) }
{
    let held = lists::held_in(owners_at(queues, at), txn);
    if is_read_alone(held) {
        give_back_at(queues, at, txn, None);
    }
}
