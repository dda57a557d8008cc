// The owners and the waits of one record.
ghost use Rattle.std.specs.Prelude.{◌≡◌, ◌==◌, ◌&&◌, ◌++◌, ◌∷◌, ◌+◌, ◌≤◌, [], length, true, vec_len, vec_capacity, OnOk, OnErr};
ghost use Rattle.lock_table.specs.Locks.{has_lock, without_txn, held_by, is_blocked, blocker, with_lock, after_ask, after_cancel, after_release, after_give_back};

use crate::held::{Held, behind, beside, first, restored};
use crate::{Lock, lists};
use je_order::TxnId;
use lock_mode::LockType;
use std::alloc::{AllocError, Global};
use std::marker::Model;
use std::slice;

// One record's owners and, in order of arrival, its waits, seen as the two lists. There is room for
// each wait among the owners, so that a grant takes no memory. One owner alone lies in it.
#[derive(Drop)]
pub(crate) struct Queue {
    held: Held,
}

impl Model for Queue {
    ghost use Rattle.std.specs.Prelude.{List};
    ghost use Rattle.lock_table.specs.declared.lock.Lock.{Lock};
    ghost use Rattle.lock_table.specs.Held.{locks_held, HasGrantRoom};

    ghost Value = { List Lock × List Lock };

    ghost view = { λ a. locks_held a.held };

    ghost invariant = { λ a. HasGrantRoom a.held };
}

// The lock is granted, among many.
fn take_among(owners: &mut Vec<Lock>, waits: &Vec<Lock>, lock: Lock) -> Result<(), AllocError>
    requires { vec_len owners.old + vec_len waits.now ≤ vec_capacity owners.old }
    ensures ok { OnOk result (owners.new.items ≡ with_lock lock owners.old.items) }
    ensures err { OnErr result (owners.new.items ≡ owners.old.items) }
    ensures room { vec_len owners.new + vec_len waits.now ≤ vec_capacity owners.new }
{
    let waiting = waits.len();
    if waiting == usize::MAX {
        return Err(AllocError);
    }
    owners.reserve(waiting + 1)?;
    lists::take_in(owners, lock);
    Ok(())
}

// The lock is asked for among many, behind those that were asked for before.
fn wait_among(owners: &mut Vec<Lock>, waits: &mut Vec<Lock>, lock: Lock) -> Result<(), AllocError>
    requires { vec_len owners.old + vec_len waits.old ≤ vec_capacity owners.old }
    ensures owners { owners.new.items ≡ owners.old.items }
    ensures ok { OnOk result (waits.new.items ≡ waits.old.items ++ lock ∷ []) }
    ensures err { OnErr result (waits.new.items ≡ waits.old.items) }
    ensures room { vec_len owners.new + vec_len waits.new ≤ vec_capacity owners.new }
{
    let waiting = waits.len();
    if waiting == usize::MAX {
        return Err(AllocError);
    }
    owners.reserve(waiting + 1)?;
    waits.push(lock)?;
    Ok(())
}

impl Queue {
    // No owner and no wait. It takes no memory.
    pub(crate) fn new() -> Queue
        ensures { result ≡ ([], []) }
    {
        Queue { held: Held::Empty }
    }

    pub(crate) fn owners(&self) -> &[Lock]
        ensures { result.now ≡ self.now.0 }
    {
        match &self.held {
            Held::Empty => &[],
            Held::One(owner) => slice::from_ref(owner),
            Held::Many(owners, _) => owners.as_slice(),
        }
    }

    pub(crate) fn waits(&self) -> &[Lock]
        ensures { result.now ≡ self.now.1 }
    {
        match &self.held {
            Held::Empty => &[],
            Held::One(_) => &[],
            Held::Many(_, waits) => waits.as_slice(),
        }
    }

    pub(crate) fn is_empty(&self) -> bool
        ensures { result ≡ ((length self.now.0 == 0) && (length self.now.1 == 0)) }
    {
        match &self.held {
            Held::Empty => true,
            Held::One(_) => false,
            Held::Many(owners, waits) => {
                owners.as_slice().is_empty() && waits.as_slice().is_empty()
            }
        }
    }

    // The lock is granted.
    fn take(&mut self, alloc: Global, lock: Lock) -> Result<(), AllocError>
        ensures ok { OnOk result (self.new ≡ (with_lock lock self.old.0, self.old.1)) }
        ensures err { OnErr result (self.new ≡ self.old) }
    {
        match &mut self.held {
            Held::Empty => {
                self.held = first(lock);
                Ok(())
            }
            Held::One(owner) => {
                self.held = beside(alloc, *owner, lock)?;
                Ok(())
            }
            Held::Many(owners, waits) => take_among(owners, waits, lock),
        }
    }

    // The lock is asked for, behind those that were asked for before.
    fn wait(&mut self, alloc: Global, lock: Lock) -> Result<(), AllocError>
        requires { is_blocked self.old.0 lock ≡ true }
        ensures ok { OnOk result (self.new ≡ (self.old.0, self.old.1 ++ lock ∷ [])) }
        ensures err { OnErr result (self.new ≡ self.old) }
    {
        match &mut self.held {
            Held::Empty => unreachable!(),
            Held::One(owner) => {
                self.held = behind(alloc, *owner, lock)?;
                Ok(())
            }
            Held::Many(owners, waits) => wait_among(owners, waits, lock),
        }
    }

    // The lock is asked for: it waits exactly where it conflicts with another owner.
    pub(crate) fn ask(&mut self, alloc: Global, lock: Lock) -> Result<(), AllocError>
        ensures ok { OnOk result (self.new ≡ after_ask lock self.old) }
        ensures err { OnErr result (self.new ≡ self.old) }
    {
        if lists::is_stopped(self.owners(), lock) {
            return self.wait(alloc, lock);
        }
        self.take(alloc, lock)
    }

    // The transaction's wait is taken back. It takes no memory.
    pub(crate) fn cancel(&mut self, txn: TxnId)
        ensures { self.new ≡ after_cancel txn self.old }
    {
        match &mut self.held {
            Held::Empty => {}
            Held::One(_) => {}
            Held::Many(_, waits) => lists::remove_from(waits, txn),
        }
    }

    // The transaction's lock and wait go, and others are granted. It takes no memory.
    pub(crate) fn release(&mut self, txn: TxnId)
        ensures { self.new ≡ after_release txn self.old }
    {
        match &mut self.held {
            Held::Empty => {}
            Held::One(owner) => self.held = restored(*owner, txn, None),
            Held::Many(owners, waits) => lists::release_from(owners, waits, txn),
        }
    }

    // The transaction's lock is what it was before, and others are granted. It takes no memory.
    pub(crate) fn give_back(&mut self, txn: TxnId, was: Option<LockType>)
        ensures { self.new ≡ after_give_back txn was self.old }
    {
        match &mut self.held {
            Held::Empty => {}
            Held::One(owner) => self.held = restored(*owner, txn, was),
            Held::Many(owners, waits) => {
                lists::restore_in(owners, txn, was);
                lists::grant_in(owners, waits);
            }
        }
    }
}
