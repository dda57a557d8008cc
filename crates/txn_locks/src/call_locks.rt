// The locks of an environment, as calls take them.
ghost use Rattle.std.specs.Prelude.{◌≡◌, [], None, true, false, reverse, IfOk, OnErr};
ghost use Rattle.je_order.specs.declared.txn_id.TxnId.{TxnId};
ghost use Rattle.lock_table.specs.declared.record_id.RecordId.{RecordId};
ghost use Rattle.lock_table.specs.Table.{locks_at, pending_at};
ghost use Rattle.lock_mgr.specs.Deadlock.{NoDeadlock};
ghost use Rattle.store_model.specs.declared.isolation.Isolation.TheVariants.{ReadCommitted};
ghost use Rattle.je_answers.specs.Standing.{LockState};
ghost use Rattle.txn_locks.specs.Taking.{state_of, are_reads, when_answered, IsLocked, IfAnswered};
ghost use Rattle.txn_locks.specs.Undoing.{AreGot, HasNoRead, AreReadsAmong};

use crate::reading::{give_back_all_reads, give_back_at, tested};
use crate::taking::take_each;
use crate::undoing::give_back_all;
use crate::{Got, Locked};
use je_order::TxnId;
use lock_mgr::LockMgr;
use std::alloc::{AllocError, Global};
use store_model::{Isolation, Need};

/// The locks of an environment, and what the call under way got of them. It is made once and lives as
/// long as the environment. A call is `take`n locks for; then it is answered, and `answered` gives back
/// what its level does not keep, or it is given up, and `give_up` gives back all that it got. Calls on
/// `locks` itself, as a release at a transaction's end, come between calls.
#[derive(Drop)]
pub struct CallLocks {
    pub locks: LockMgr,
    got: Vec<Got>,
}

impl CallLocks {
    /// No locks. It takes no memory.
    pub fn new(alloc: Global) -> CallLocks
        ensures locks { (r : RecordId) → locks_at r result.locks ≡ ([], []) }
        ensures pending { (t : TxnId) → pending_at t result.locks ≡ None }
        ensures free { NoDeadlock result.locks }
    {
        CallLocks {
            locks: LockMgr::new(alloc),
            got: Vec::new(alloc),
        }
    }

    /// Takes what a call of a transaction at this level needs, one need after another. At the first that
    /// has another owner in its way the call waits, or, without `wait`, is not available; what it got
    /// before stays. At read committed a call that needs READ locks alone takes none, where nothing is in
    /// its way. The transaction was told nothing before, or it was forgotten. The only error is out of
    /// memory, and nothing is changed by it.
    pub fn take(
        &mut self,
        alloc: Global,
        txn: TxnId,
        level: Isolation,
        needs: &[Need],
        wait: bool,
    ) -> Result<Locked, AllocError>
        requires { pending_at txn self.old.locks ≡ None }
        ensures locked { IfOk result (λ locked. IsLocked locked level txn needs.now wait (state_of self.old.locks) (state_of self.new.locks)) }
        ensures got { IfOk result (λ locked. IfAnswered locked (AreGot txn (reverse self.new.got.items) (state_of self.old.locks) (state_of self.new.locks))) }
        ensures reads { IfOk result (λ locked. IfAnswered locked (HasNoRead txn (state_of self.old.locks).at → AreReadsAmong txn self.new.got.items (state_of self.new.locks).at)) }
        ensures without { level ≡ ReadCommitted → are_reads needs.now ≡ true → IfOk result (λ locked. IfAnswered locked (state_of self.new.locks ≡ state_of self.old.locks)) }
        ensures err { OnErr result (state_of self.new.locks ≡ state_of self.old.locks) }
    {
        self.got.clear();
        match tested(&self.locks, txn, level, needs, wait)? {
            Some(locked) => Ok(locked),
            None => take_each(&mut self.locks, &mut self.got, alloc, txn, needs, wait),
        }
    }

    /// Gives back what the call got, the last first, where it is not answered after all: the locks are
    /// what they were before it. It takes no memory.
    pub fn give_up(&mut self, txn: TxnId)
        requires { (before : LockState) × AreGot txn (reverse self.old.got.items) before (state_of self.old.locks) }
        ensures { (before : LockState) → AreGot txn (reverse self.old.got.items) before (state_of self.old.locks) → state_of self.new.locks ≡ before }
    {
        give_back_all(&mut self.locks, &mut self.got, txn);
    }

    /// Gives back what the level does not keep of a call that was answered: at read committed the READ
    /// locks, so that it has none afterwards. `resumed` says whether the call had waited: then it may have
    /// some that it got before, and each lock of the transaction is looked at. It takes no memory.
    pub fn answered(&mut self, txn: TxnId, level: Isolation, resumed: bool)
        requires none { pending_at txn self.old.locks ≡ None }
        requires reads { level ≡ ReadCommitted → resumed ≡ false → AreReadsAmong txn self.old.got.items (state_of self.old.locks).at }
        ensures locks { state_of self.new.locks ≡ when_answered level txn (state_of self.old.locks) }
        ensures reads { level ≡ ReadCommitted → HasNoRead txn (state_of self.new.locks).at }
    {
        self.locks.have_no_cycle();
        give_back_at(&mut self.locks, self.got.as_slice(), txn, level, resumed);
    }

    /// Gives back what the level does not keep of a call that waited and is answered all the same, as a
    /// victim's is: at read committed each READ lock of its transaction. It takes no memory.
    pub fn answered_waiting(&mut self, txn: TxnId, level: Isolation)
        ensures { state_of self.new.locks ≡ when_answered level txn (state_of self.old.locks) }
    {
        give_back_all_reads(&mut self.locks, txn, level);
    }
}
