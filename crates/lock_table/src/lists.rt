// The work on one record's owners and waits, over plain lists.
ghost use Rattle.std.specs.Prelude.{◌≡◌, ◌+◌, ◌<◌, ◌≤◌, Some, IfOk, map, vec_len, vec_capacity};
ghost use Rattle.std.specs.List.{filter, find};
ghost use Rattle.lock_table.specs.Locks.{has_lock, without_txn, held_by, is_blocked, blocker, lesser, with_lock, with_type, upgraded_by, set_by, granted, is_write, writer_in, is_of, is_blocking, waited_for, after_release};

use crate::Lock;
use je_order::TxnId;
use lock_mode::{LockType, conflicts, upgrade};
use std::alloc::{AllocError, Global};

// The type that the transaction holds.
pub(crate) fn held_in(owners: &[Lock], txn: TxnId) -> Option<LockType>
    ensures { result ≡ held_by txn owners.now }
{
    for owner in owners {
        if txn == owner.txn {
            return Some(owner.mode);
        }
    }
    None
}

// Whether the transaction has a lock in the list.
pub(crate) fn is_in(locks: &[Lock], txn: TxnId) -> bool
    ensures { result ≡ has_lock txn locks.now }
{
    locks.iter().any(|lock| txn == lock.txn)
}

// Whether the request conflicts with this owner.
fn is_stopping(owner: Lock, lock: Lock) -> bool
    ensures { result ≡ is_blocking lock owner }
{
    lock.txn != owner.txn && conflicts(owner.mode, lock.mode)
}

// Whether the request conflicts with an owner.
pub(crate) fn is_stopped(owners: &[Lock], lock: Lock) -> bool
    ensures { result ≡ is_blocked owners.now lock }
{
    owners.iter().any(|owner| is_stopping(*owner, lock))
}

// The lesser of two transactions, where there are two.
pub(crate) fn lesser_of(a: Option<TxnId>, b: TxnId) -> Option<TxnId>
    ensures { result ≡ lesser a (Some b) }
{
    match a {
        Some(a) if a.0 <= b.0 => Some(a),
        _ => Some(b),
    }
}

// The least owner that the request conflicts with.
pub(crate) fn blocker_in(owners: &[Lock], lock: Lock) -> Option<TxnId>
    ensures { result ≡ blocker lock owners.now }
{
    let mut found = None;
    for owner in owners {
        if is_stopping(*owner, lock) {
            found = lesser_of(found, owner.txn);
        }
    }
    found
}

// Whether the type is for writing.
fn is_for_writing(mode: LockType) -> bool
    ensures { result ≡ is_write mode }
{
    matches!(mode, LockType::Write | LockType::RangeWrite)
}

// The owner that has a lock for writing.
pub(crate) fn writer_of(owners: &[Lock]) -> Option<TxnId>
    ensures { result ≡ writer_in owners.now }
{
    for owner in owners {
        if is_for_writing(owner.mode) {
            return Some(owner.txn);
        }
    }
    None
}

// The transaction's wait.
pub(crate) fn wait_of(waits: &[Lock], txn: TxnId) -> Option<Lock>
    ensures { result ≡ find (is_of txn) waits.now }
{
    for wait in waits {
        if txn == wait.txn {
            return Some(*wait);
        }
    }
    None
}

// The owners that the request conflicts with, in their order.
fn stoppers(alloc: Global, owners: &[Lock], lock: Lock) -> Result<Vec<TxnId>, AllocError>
    ensures { IfOk result (λ found. found.items ≡ map (λ o. o.txn) (filter (is_blocking lock) owners.now)) }
{
    let mut found = Vec::new(alloc);
    for owner in owners {
        if is_stopping(*owner, lock) {
            found.push(owner.txn)?;
        }
    }
    Ok(found)
}

// Those that the transaction waits for on one record.
pub(crate) fn waited_in(
    alloc: Global,
    owners: &[Lock],
    waits: &[Lock],
    txn: TxnId,
) -> Result<Vec<TxnId>, AllocError>
    ensures { IfOk result (λ found. found.items ≡ waited_for txn (owners.now, waits.now)) }
{
    let Some(wait) = wait_of(waits, txn) else {
        return Ok(Vec::new(alloc));
    };
    stoppers(alloc, owners, wait)
}

// Takes the transaction's locks out of the list. It takes no memory.
pub(crate) fn remove_from(locks: &mut Vec<Lock>, txn: TxnId)
    ensures items { locks.new.items ≡ without_txn txn locks.old.items }
    ensures capacity { vec_capacity locks.new ≡ vec_capacity locks.old }
    ensures len { vec_len locks.new ≤ vec_len locks.old }
{
    locks.retain(|lock| txn != lock.txn);
}

// An owner's lock, upgraded if it is that of the request's transaction.
pub(crate) fn upgraded_lock(owner: Lock, lock: Lock) -> Lock
    ensures { result ≡ upgraded_by lock owner }
{
    if lock.txn != owner.txn {
        return owner;
    }
    Lock {
        txn: owner.txn,
        mode: upgrade(owner.mode, lock.mode),
    }
}

// Upgrades the lock of the request's transaction. It takes no memory.
fn upgrade_in(owners: &mut [Lock], lock: Lock)
    ensures { owners.new ≡ map (upgraded_by lock) owners.old }
{
    for at in 0..owners.len() {
        owners[at] = upgraded_lock(owners[at], lock);
    }
}

// Makes the request's transaction an owner. There is room for one more, so it takes no memory.
pub(crate) fn take_in(owners: &mut Vec<Lock>, lock: Lock)
    requires { vec_len owners.old < vec_capacity owners.old }
    ensures items { owners.new.items ≡ with_lock lock owners.old.items }
    ensures capacity { vec_capacity owners.old ≤ vec_capacity owners.new }
    ensures len { vec_len owners.new ≤ vec_len owners.old + 1 }
{
    if matches!(lock.mode, LockType::RangeInsert) {
        return;
    }
    if is_in(owners.as_slice(), lock.txn) {
        upgrade_in(owners.as_mut_slice(), lock);
        return;
    }
    owners.push(lock).unwrap();
}

// An owner's lock, set to the type if it is the transaction's.
pub(crate) fn set_lock(owner: Lock, txn: TxnId, mode: LockType) -> Lock
    ensures { result ≡ set_by txn mode owner }
{
    if txn != owner.txn {
        return owner;
    }
    Lock {
        txn: owner.txn,
        mode,
    }
}

// Sets the transaction's lock to the type. It takes no memory.
fn set_in(owners: &mut [Lock], txn: TxnId, mode: LockType)
    ensures { owners.new ≡ with_type txn (Some mode) owners.old }
{
    for at in 0..owners.len() {
        owners[at] = set_lock(owners[at], txn, mode);
    }
}

// The transaction's lock is this type again, or none. It takes no memory.
pub(crate) fn restore_in(owners: &mut Vec<Lock>, txn: TxnId, was: Option<LockType>)
    ensures items { owners.new.items ≡ with_type txn was owners.old.items }
    ensures capacity { vec_capacity owners.new ≡ vec_capacity owners.old }
    ensures len { vec_len owners.new ≤ vec_len owners.old }
{
    match was {
        None => remove_from(owners, txn),
        Some(mode) => set_in(owners.as_mut_slice(), txn, mode),
    }
}

// Grants each wait in its order where it conflicts with no other owner. There is room for an owner a
// wait, so it takes no memory.
pub(crate) fn grant_in(owners: &mut Vec<Lock>, waits: &mut Vec<Lock>)
    requires { vec_len owners.old + vec_len waits.old ≤ vec_capacity owners.old }
    ensures items { (owners.new.items, waits.new.items) ≡ granted owners.old.items waits.old.items }
    ensures room { vec_len owners.new + vec_len waits.new ≤ vec_capacity owners.new }
{
    let mut kept = 0;
    for at in 0..waits.len() {
        let wait = waits[at];
        if is_stopped(owners.as_slice(), wait) {
            waits[kept] = wait;
            kept += 1;
        } else {
            take_in(owners, wait);
        }
    }
    waits.truncate(kept);
}

// Takes the transaction's locks and waits out, and grants others. There is room for an owner a wait, so
// it takes no memory.
pub(crate) fn release_from(owners: &mut Vec<Lock>, waits: &mut Vec<Lock>, txn: TxnId)
    requires { vec_len owners.old + vec_len waits.old ≤ vec_capacity owners.old }
    ensures items { (owners.new.items, waits.new.items) ≡ after_release txn (owners.old.items, waits.old.items) }
    ensures room { vec_len owners.new + vec_len waits.new ≤ vec_capacity owners.new }
{
    remove_from(owners, txn);
    remove_from(waits, txn);
    grant_in(owners, waits);
}
