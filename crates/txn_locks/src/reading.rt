// Reads at read committed: they lock nothing where nothing is in their way, and keep nothing.
ghost use Rattle.std.specs.Prelude.{◌≡◌, None, Some, true, false, List, Option, if◌then◌else◌, IfOk};
ghost use Rattle.std.specs.Option.{IfSome, IfNone};
ghost use Rattle.std.specs.List.{list_any};
ghost use Rattle.je_order.specs.declared.txn_id.TxnId.{TxnId};
ghost use Rattle.lock_mode.specs.declared.lock_type.LockType.TheVariants.{Read};
ghost use Rattle.lock_table.specs.declared.lock.Lock.{Lock};
ghost use Rattle.lock_table.specs.declared.record_id.RecordId.{RecordId};
ghost use Rattle.lock_table.specs.Locks.{read_given_back, after_read};
ghost use Rattle.lock_table.specs.Records.{is_record};
ghost use Rattle.lock_table.specs.Table.{locks_at, pending_at};
ghost use Rattle.lock_mgr.specs.Deadlock.{NoDeadlock};
ghost use Rattle.store_model.specs.declared.isolation.Isolation.TheVariants.{ReadCommitted};
ghost use Rattle.store_model.specs.declared.need.Need.{Need};
ghost use Rattle.je_answers.specs.Standing.{LockState};
ghost use Rattle.je_answers.specs.Locking.{first_blocked};
ghost use Rattle.txn_locks.specs.Undoing.{AreReadsAmong};
ghost use Rattle.txn_locks.specs.Taking.{state_of, is_read as is_read_type, are_reads as are_read_needs, when_answered, IsStoppedAt, HasToWait, IsLocked};

use crate::taking::place_of;
use crate::{Got, Locked};
use je_order::TxnId;
use lock_mgr::LockMgr;
use lock_mode::LockType;
use lock_table::RecordId;
use std::alloc::AllocError;
use store_model::{Isolation, Need};

// Whether the type is READ.
fn is_read(asked: LockType) -> bool
    ensures { result ≡ is_read_type asked }
{
    matches!(asked, LockType::Read)
}

// Whether a call needs READ locks alone.
pub(crate) fn are_reads(needs: &[Need]) -> bool
    ensures { result ≡ are_read_needs needs.now }
{
    needs.iter().all(|need| is_read(need.asked))
}

// The owner in the way of the first need that is stopped. It takes no lock.
pub(crate) fn owner_in_way(
    locks: &LockMgr,
    txn: TxnId,
    needs: &[Need],
) -> Result<Option<TxnId>, AllocError>
    ensures none { IfOk result (λ owner. IfNone owner (first_blocked txn needs.now (state_of locks.now).at ≡ None)) }
    ensures stopped { IfOk result (λ owner. IfSome owner (λ o. (n : Need) × IsStoppedAt txn needs.now (state_of locks.now) n o)) }
{
    for need in needs {
        let at = place_of(need)?;
        let owner = locks.blocker(txn, &at, need.asked);
        if owner.is_some() {
            return Ok(owner);
        }
    }
    Ok(None)
}

// Whether a level keeps the READ locks of a call that was answered.
pub(crate) fn keeps_reads(level: Isolation) -> bool
    ensures keeps { result ≡ true → (t : TxnId) (s : LockState) → when_answered level t s ≡ s }
    ensures read_committed { result ≡ false → level ≡ ReadCommitted }
    ensures other { result ≡ true → level ≡ ReadCommitted → ⊥ }
{
    !matches!(level, Isolation::ReadCommitted)
}

// A call at read committed that needs READ locks alone: it takes none, if it can be answered at once.
pub(crate) fn without_locks(
    locks: &LockMgr,
    txn: TxnId,
    needs: &[Need],
    wait: bool,
) -> Result<Option<Locked>, AllocError>
    requires reads { are_read_needs needs.now ≡ true }
    requires none { pending_at txn locks.now ≡ None }
    ensures waits { IfOk result (λ done. IfNone done (HasToWait txn needs.now wait (state_of locks.now))) }
    ensures locked { IfOk result (λ done. IfSome done (λ locked. IsLocked locked ReadCommitted txn needs.now wait (state_of locks.now) (state_of locks.now))) }
{
    locks.have_no_cycle();
    let Some(owner) = owner_in_way(locks, txn, needs)? else {
        return Ok(Some(Locked::Ready));
    };
    if wait {
        return Ok(None);
    }
    Ok(Some(Locked::NotAvailable { owner }))
}

// A call that can be answered without a lock, as its level keeps none of those that it needs.
pub(crate) fn tested(
    locks: &LockMgr,
    txn: TxnId,
    level: Isolation,
    needs: &[Need],
    wait: bool,
) -> Result<Option<Locked>, AllocError>
    requires none { pending_at txn locks.now ≡ None }
    ensures waits { level ≡ ReadCommitted → are_read_needs needs.now ≡ true → IfOk result (λ done. IfNone done (HasToWait txn needs.now wait (state_of locks.now))) }
    ensures locked { IfOk result (λ done. IfSome done (λ locked. IsLocked locked level txn needs.now wait (state_of locks.now) (state_of locks.now))) }
{
    if keeps_reads(level) {
        return Ok(None);
    }
    if !are_reads(needs) {
        return Ok(None);
    }
    without_locks(locks, txn, needs, wait)
}

// Whether a transaction holds a lock and no more than READ.
fn is_read_alone(held: Option<LockType>) -> bool
    ensures read { result ≡ true → held ≡ Some Read }
    ensures more { result ≡ false → (t : TxnId) (q : List Lock × List Lock) → read_given_back t held q ≡ q }
{
    matches!(held, Some(LockType::Read))
}

// Gives back the transaction's lock on a record, if it is no more than READ. It takes no memory.
fn give_back_read(locks: &mut LockMgr, at: &RecordId, txn: TxnId)
    ensures locks { (r : RecordId) → locks_at r locks.new ≡ (if is_record at.now r then after_read txn (locks_at r locks.old) else locks_at r locks.old) }
    ensures pending { (t : TxnId) → pending_at t locks.new ≡ pending_at t locks.old }
    ensures free { NoDeadlock locks.old }
{
    locks.have_no_cycle();
    let held = locks.held(txn, at);
    if is_read_alone(held) {
        locks.give_back(txn, at, None);
    }
}

// Gives back those of the transaction's locks that are no more than READ, on the records of these. It
// takes no memory.
pub(crate) fn give_back_each(locks: &mut LockMgr, got: &[Got], txn: TxnId)
    requires { pending_at txn locks.old ≡ None }
    ensures locks { (r : RecordId) → locks_at r locks.new ≡ (if list_any (λ g. is_record g.at r) got.now then after_read txn (locks_at r locks.old) else locks_at r locks.old) }
    ensures pending { (t : TxnId) → pending_at t locks.new ≡ pending_at t locks.old }
{
    for lock in got {
        give_back_read(locks, &lock.at, txn);
    }
}

// Gives back what the level does not keep of all that the transaction has. It takes no memory.
pub(crate) fn give_back_all_reads(locks: &mut LockMgr, txn: TxnId, level: Isolation)
    ensures { state_of locks.new ≡ when_answered level txn (state_of locks.old) }
{
    if keeps_reads(level) {
        return;
    }
    locks.give_back_reads(txn);
}

// Gives back what the level does not keep. It takes no memory.
pub(crate) fn give_back_at(
    locks: &mut LockMgr,
    got: &[Got],
    txn: TxnId,
    level: Isolation,
    resumed: bool,
)
    requires none { pending_at txn locks.old ≡ None }
    requires reads { level ≡ ReadCommitted → resumed ≡ false → AreReadsAmong txn got.now (state_of locks.old).at }
    ensures { state_of locks.new ≡ when_answered level txn (state_of locks.old) }
{
    if keeps_reads(level) {
        return;
    }
    if resumed {
        locks.give_back_reads(txn);
        return;
    }
    give_back_each(locks, got, txn);
}
