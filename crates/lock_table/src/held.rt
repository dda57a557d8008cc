// How one record's owners and waits are held in memory.
ghost use Rattle.std.specs.Prelude.{◌≡◌, ◌∷◌, [], IfOk};
ghost use Rattle.lock_table.specs.Held.{locks_held, HasGrantRoom};
ghost use Rattle.lock_table.specs.Locks.{with_lock, with_type};

use crate::Lock;
use crate::lists::{set_lock, upgraded_lock};
use je_order::TxnId;
use lock_mode::LockType;
use std::alloc::{AllocError, Global};

// One record's owners and waits.
#[derive(Drop)]
pub(crate) enum Held {
    // No owner and no wait.
    Empty,
    // One owner and no wait.
    One(Lock),
    // The owners, with room for each wait among them, and the waits in order of arrival.
    Many(Vec<Lock>, Vec<Lock>),
}

// One owner and another.
fn pair(alloc: Global, owner: Lock, other: Lock) -> Result<Held, AllocError>
    ensures held { IfOk result (λ held. locks_held held ≡ (owner ∷ other ∷ [], [])) }
    ensures room { IfOk result HasGrantRoom }
{
    let mut owners = Vec::with_capacity(alloc, 2)?;
    owners.push(owner)?;
    owners.push(other)?;
    Ok(Held::Many(owners, Vec::new(alloc)))
}

// One owner and a wait behind it.
pub(crate) fn behind(alloc: Global, owner: Lock, wait: Lock) -> Result<Held, AllocError>
    ensures held { IfOk result (λ held. locks_held held ≡ (owner ∷ [], wait ∷ [])) }
    ensures room { IfOk result HasGrantRoom }
{
    let mut owners = Vec::with_capacity(alloc, 2)?;
    owners.push(owner)?;
    let mut waits = Vec::new(alloc);
    waits.push(wait)?;
    Ok(Held::Many(owners, waits))
}

// A lock that is granted where there was no owner. A type that is never held changes nothing.
pub(crate) fn first(lock: Lock) -> Held
    ensures held { locks_held result ≡ (with_lock lock [], []) }
    ensures room { HasGrantRoom result }
{
    if matches!(lock.mode, LockType::RangeInsert) {
        return Held::Empty;
    }
    Held::One(lock)
}

// A lock that is granted beside one owner.
pub(crate) fn beside(alloc: Global, owner: Lock, lock: Lock) -> Result<Held, AllocError>
    ensures held { IfOk result (λ held. locks_held held ≡ (with_lock lock (owner ∷ []), [])) }
    ensures room { IfOk result HasGrantRoom }
{
    if matches!(lock.mode, LockType::RangeInsert) {
        return Ok(Held::One(owner));
    }
    if lock.txn == owner.txn {
        return Ok(Held::One(upgraded_lock(owner, lock)));
    }
    pair(alloc, owner, lock)
}

// One owner's lock, as it was before.
pub(crate) fn restored(owner: Lock, txn: TxnId, was: Option<LockType>) -> Held
    ensures held { locks_held result ≡ (with_type txn was (owner ∷ []), []) }
    ensures room { HasGrantRoom result }
{
    if let Some(mode) = was {
        return Held::One(set_lock(owner, txn, mode));
    }
    if txn == owner.txn {
        return Held::Empty;
    }
    Held::One(owner)
}
