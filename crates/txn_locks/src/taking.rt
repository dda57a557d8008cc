// Taking what a call needs, one need after another.
ghost use Rattle.std.specs.Prelude.{◌≡◌, ◌<◌, ◌++◌, ◌∷◌, [], true, None, Some, reverse, vec_len, vec_capacity, IfOk, OnOk, OnErr};
ghost use Rattle.std.specs.Option.{IfNone, IfSome};
ghost use Rattle.std.specs.List.{slice_get};
ghost use Rattle.je_order.specs.declared.txn_id.TxnId.{TxnId};
ghost use Rattle.lock_mode.specs.declared.lock_type.LockType.TheVariants.{RangeInsert};
ghost use Rattle.lock_table.specs.Table.{pending_at};
ghost use Rattle.lock_mgr.specs.Deadlock.{NoDeadlock};
ghost use Rattle.store_model.specs.declared.isolation.Isolation.{Isolation};
ghost use Rattle.je_answers.specs.Standing.{LockState};
ghost use Rattle.je_answers.specs.Locking.{record_of, owner_before};
ghost use Rattle.txn_locks.specs.Taking.{state_of, with_got, was_in, stop_of, IsTurn, IsLocked, IfAnswered};
ghost use Rattle.txn_locks.specs.Undoing.{NotesGot, AreGot, HasNoRead, AreReadsAmong};

use crate::undoing::give_back_all;
use crate::{Got, Locked};
use je_order::{TxnId, copy_of};
use lock_mgr::{LockMgr, Requested};
use lock_mode::LockType;
use lock_table::RecordId;
use std::alloc::{AllocError, Global};
use store_model::Need;

// The record of a need.
pub(crate) fn place_of(need: &Need) -> Result<RecordId, AllocError>
    ensures { IfOk result (λ at. at ≡ record_of need.now) }
{
    let at = copy_of(&need.at)?;
    Ok(RecordId { db: need.db, at })
}

// What the answer to a request says of the call, if it is stopped.
fn stop_of(place: usize, requested: Requested) -> Option<Locked>
    ensures { result ≡ stop_of place requested }
{
    match requested {
        Requested::Granted { .. } => None,
        Requested::Waiting { owner } => Some(Locked::Waiting { at: place, owner }),
        Requested::NotAvailable { owner } => Some(Locked::NotAvailable { owner }),
        Requested::Victims { owner, victims } => Some(Locked::Victims {
            at: place,
            owner,
            victims,
        }),
    }
}

// What a transaction held before its request was granted.
fn was_of(requested: &Requested) -> Option<LockType>
    ensures { result ≡ was_in requested.now }
{
    match requested {
        Requested::Granted { was } => *was,
        _ => None,
    }
}

// Notes a lock that was got, if the call is not stopped. There is room for it, so it takes no memory.
fn note_got(got: &mut Vec<Got>, stop: &Option<Locked>, at: RecordId, was: Option<LockType>)
    requires { vec_len got.old < vec_capacity got.old }
    ensures got { IfNone stop.now (got.new.items ≡ got.old.items ++ record { at = at; was = was } ∷ []) }
    ensures kept { IfSome stop.now (λ locked. got.new.items ≡ got.old.items) }
{
    if stop.is_none() {
        got.push(Got { at, was }).unwrap();
    }
}

// Whether the type is RANGE_INSERT.
fn is_insert(asked: LockType) -> bool
    ensures { result ≡ true → asked ≡ RangeInsert }
{
    matches!(asked, LockType::RangeInsert)
}

// Whether a need asks for RANGE_INSERT, and no owner has a lock of a range type: nobody is in its way, and it
// would hold nothing.
fn is_free_insert(locks: &LockMgr, need: &Need) -> bool
    ensures { result ≡ true → (t : TxnId) → (owner_before t need.now (state_of locks.now).at ≡ None) × (state_of locks.now ≡ with_got t need.now (state_of locks.now)) }
{
    if !is_insert(need.asked) {
        return false;
    }
    !locks.has_ranges()
}

// Takes one need, at this place of the list. Running out of memory changes nothing.
fn take_one(
    locks: &mut LockMgr,
    got: &mut Vec<Got>,
    alloc: Global,
    txn: TxnId,
    need: &Need,
    place: usize,
    wait: bool,
) -> Result<Option<Locked>, AllocError>
    requires { pending_at txn locks.old ≡ None }
    ensures turn { IfOk result (λ stop. IsTurn stop txn need.now place wait (state_of locks.old) (state_of locks.new)) }
    ensures got { IfOk result (λ stop. IfNone stop (NotesGot txn need.now got.old.items got.new.items (state_of locks.old) (state_of locks.new))) }
    ensures kept { IfOk result (λ stop. IfSome stop (λ locked. got.new.items ≡ got.old.items)) }
    ensures err { OnErr result (state_of locks.new ≡ state_of locks.old) }
    ensures err_got { OnErr result (got.new.items ≡ got.old.items) }
{
    if is_free_insert(locks, need) {
        return Ok(None);
    }
    ask_one(locks, got, alloc, txn, need, place, wait)
}

// Asks for one need, at this place of the list. Running out of memory changes nothing.
fn ask_one(
    locks: &mut LockMgr,
    got: &mut Vec<Got>,
    alloc: Global,
    txn: TxnId,
    need: &Need,
    place: usize,
    wait: bool,
) -> Result<Option<Locked>, AllocError>
    requires { pending_at txn locks.old ≡ None }
    ensures turn { IfOk result (λ stop. IsTurn stop txn need.now place wait (state_of locks.old) (state_of locks.new)) }
    ensures got { IfOk result (λ stop. IfNone stop (NotesGot txn need.now got.old.items got.new.items (state_of locks.old) (state_of locks.new))) }
    ensures kept { IfOk result (λ stop. IfSome stop (λ locked. got.new.items ≡ got.old.items)) }
    ensures err { OnErr result (state_of locks.new ≡ state_of locks.old) }
    ensures err_got { OnErr result (got.new.items ≡ got.old.items) }
{
    let at = place_of(need)?;
    got.reserve(1)?;
    locks.have_no_cycle();
    let requested = locks.request(alloc, txn, &at, need.asked, wait)?;
    let was = was_of(&requested);
    let stop = stop_of(place, requested);
    note_got(got, &stop, at, was);
    Ok(stop)
}

// Takes what a call needs, one need after another, up to the first that is stopped. Running out of
// memory changes nothing.
pub(crate) fn take_each(
    locks: &mut LockMgr,
    got: &mut Vec<Got>,
    alloc: Global,
    txn: TxnId,
    needs: &[Need],
    wait: bool,
) -> Result<Locked, AllocError>
    requires none { pending_at txn locks.old ≡ None }
    requires empty { got.old.items ≡ [] }
    ensures locked { IfOk result (λ locked. (level : Isolation) → IsLocked locked level txn needs.now wait (state_of locks.old) (state_of locks.new)) }
    ensures got { IfOk result (λ locked. IfAnswered locked (AreGot txn (reverse got.new.items) (state_of locks.old) (state_of locks.new))) }
    ensures reads { IfOk result (λ locked. IfAnswered locked (HasNoRead txn (state_of locks.old).at → AreReadsAmong txn got.new.items (state_of locks.new).at)) }
    ensures err { OnErr result (state_of locks.new ≡ state_of locks.old) }
{
    for place in 0..needs.len() {
        let stop = match take_one(locks, got, alloc, txn, &needs[place], place, wait) {
            Ok(stop) => stop,
            Err(failed) => {
                give_back_all(locks, got, txn);
                return Err(failed);
            }
        };
        if let Some(locked) = stop {
            return Ok(locked);
        }
    }
    Ok(Locked::Ready)
}
