// Giving back what a call got.
ghost use Rattle.std.specs.Prelude.{◌≡◌, [], reverse, if◌then◌else◌};
ghost use Rattle.std.specs.Option.{is_some};
ghost use Rattle.lock_table.specs.declared.record_id.RecordId.{RecordId};
ghost use Rattle.lock_table.specs.Locks.{held_by, after_give_back, WasHeld};
ghost use Rattle.lock_table.specs.Records.{is_record};
ghost use Rattle.lock_table.specs.Table.{locks_at};
ghost use Rattle.je_answers.specs.Standing.{LockState};
ghost use Rattle.txn_locks.specs.Taking.{state_of};
ghost use Rattle.txn_locks.specs.Undoing.{IsOneGot, AreGot};

use crate::Got;
use je_order::TxnId;
use lock_mgr::LockMgr;

// Gives back one lock that was got, the last one. It takes no memory.
fn give_back_one(locks: &mut LockMgr, got: &Got, txn: TxnId)
    requires { (before : LockState) × IsOneGot txn got.now before (state_of locks.old) }
    ensures { (before : LockState) → IsOneGot txn got.now before (state_of locks.old) → state_of locks.new ≡ before }
{
    if locks.held(txn, &got.at).is_some() {
        locks.give_back(txn, &got.at, got.was);
    }
}

// Gives back what was got, the last first. It takes no memory.
pub(crate) fn give_back_all(locks: &mut LockMgr, got: &mut Vec<Got>, txn: TxnId)
    requires { (before : LockState) × AreGot txn (reverse got.old.items) before (state_of locks.old) }
    ensures locks { (before : LockState) → AreGot txn (reverse got.old.items) before (state_of locks.old) → state_of locks.new ≡ before }
    ensures got { got.new.items ≡ [] }
{
    while let Some(last) = got.pop() {
        give_back_one(locks, &last, txn);
    }
}
