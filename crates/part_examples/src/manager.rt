// The lock manager: deadlocks and their victims, and what it tells of locks.
use crate::record_ids::record;
use crate::rows::first_wrong;
use Step::{Ask, GiveBack, Grants, HasHolder, NobodyWaits, Release, Tells};
use je_order::TxnId;
use lock_mgr::{LockMgr, Requested};
use lock_mode::LockType::{self, Read, Write};
use lock_table::RecordId;
use std::alloc::{AllocError, Global};

// What became of a request. Of one that closes cycles: its owner, how many victims there are, the first,
// and how long its cycle is.
#[derive(Clone, Copy, PartialEq, Eq)]
enum Came {
    Granted,
    Waiting,
    NotAvailable,
    Victims(u64, usize, u64, usize),
    WaitedAlready,
}

// What is done to a manager or asked of it. A record goes by its key.
#[derive(Clone, Copy)]
enum Step {
    // a request of a transaction, whether it may wait, and what becomes of it
    Ask(TxnId, u8, LockType, bool, Came),
    Release(TxnId),
    // the transaction's wait is taken back, and its lock to read
    GiveBack(TxnId, u8),
    Grants(TxnId, bool),
    NobodyWaits,
    // whether the record is locked, and who writes it
    Tells(u8, (bool, Option<TxnId>)),
    HasHolder(u32, Option<TxnId>),
}

fn kind_of(answer: &Requested) -> Came {
    match answer {
        Requested::Granted { .. } => Came::Granted,
        Requested::Waiting { .. } => Came::Waiting,
        Requested::NotAvailable { .. } => Came::NotAvailable,
        Requested::Victims { owner, victims } => match victims.as_slice() {
            [(victim, cycle), ..] => Came::Victims(owner.0, victims.len(), victim.0, cycle.len()),
            [] => Came::Victims(owner.0, 0, 0, 0),
        },
    }
}

fn requested_at(
    locks: &mut LockMgr,
    alloc: Global,
    txn: TxnId,
    at: &RecordId,
    mode: LockType,
    wait: bool,
) -> Result<Came, AllocError> {
    if locks.waits_now(txn) {
        return Ok(Came::WaitedAlready);
    }
    let answer = locks.request(alloc, txn, at, mode, wait)?;
    let came = kind_of(&answer);
    drop(answer);
    Ok(came)
}

// Whether that becomes of a request for the record of a key.
fn asks(
    locks: &mut LockMgr,
    alloc: Global,
    txn: TxnId,
    key: u8,
    mode: LockType,
    wait: bool,
    want: Came,
) -> Result<bool, AllocError> {
    let at = record(alloc, key)?;
    let came = requested_at(locks, alloc, txn, &at, mode, wait);
    drop(at);
    Ok(came? == want)
}

// Takes the transaction's wait back, and its lock to read.
fn gives_back(locks: &mut LockMgr, alloc: Global, txn: TxnId, key: u8) -> Result<bool, AllocError> {
    let at = record(alloc, key)?;
    locks.cancel(txn);
    if locks.held(txn, &at) == Some(Read) {
        locks.give_back(txn, &at, None);
    }
    drop(at);
    Ok(true)
}

fn nobody_waits(locks: &LockMgr, alloc: Global) -> Result<bool, AllocError> {
    let waits = locks.waits(alloc)?;
    let none = waits.is_empty();
    drop(waits);
    Ok(none)
}

// Whether the record of a key is locked, and who writes it, as wanted.
fn tells(
    locks: &LockMgr,
    alloc: Global,
    key: u8,
    want: (bool, Option<TxnId>),
) -> Result<bool, AllocError> {
    let at = record(alloc, key)?;
    let told = (locks.is_locked(&at), locks.is_write_locked(&at));
    drop(at);
    Ok(told == want)
}

// Whether the step comes as it says.
fn comes(locks: &mut LockMgr, alloc: Global, step: Step) -> Result<bool, AllocError> {
    match step {
        Ask(txn, key, mode, wait, want) => asks(locks, alloc, txn, key, mode, wait, want),
        Release(txn) => {
            locks.release_all(txn);
            Ok(true)
        }
        GiveBack(txn, key) => gives_back(locks, alloc, txn, key),
        Grants(txn, want) => Ok(locks.is_granted(txn) == want),
        NobodyWaits => nobody_waits(locks, alloc),
        Tells(key, want) => tells(locks, alloc, key, want),
        HasHolder(place, want) => Ok(locks.holder_in(place) == want),
    }
}

// The first step that does not come so in a new manager.
fn wrong_step(alloc: Global, steps: &[Step]) -> Result<Option<usize>, AllocError> {
    let mut locks = LockMgr::new(alloc);
    let wrong = first_wrong(steps, |step| comes(&mut locks, alloc, *step));
    drop(locks);
    wrong
}

// Transactions 2 and 3 each write a record and then ask for the other's: 3 is the victim, and 2 gets
// its lock once 3 has ended.
static CROSSED: [Step; 7] = [
    Ask(TxnId(2), b'a', Write, true, Came::Granted),
    Ask(TxnId(3), b'b', Write, true, Came::Granted),
    Ask(TxnId(2), b'b', Write, true, Came::Waiting),
    Ask(TxnId(3), b'a', Write, true, Came::Victims(2, 1, 3, 2)),
    Release(TxnId(3)),
    Grants(TxnId(2), true),
    Grants(TxnId(3), false),
];

// Two readers of one record that both ask to write it: the later one is the victim, and the other is
// granted once the victim's read lock is given back.
static UPGRADES: [Step; 7] = [
    Ask(TxnId(3), b'a', Read, true, Came::Granted),
    Ask(TxnId(4), b'a', Read, true, Came::Granted),
    Ask(TxnId(3), b'a', Write, true, Came::Waiting),
    Ask(TxnId(4), b'a', Write, true, Came::Victims(3, 1, 4, 2)),
    GiveBack(TxnId(4), b'a'),
    Grants(TxnId(3), true),
    NobodyWaits,
];

static WRITTEN: [Step; 5] = [
    Ask(TxnId(2), b'a', Write, true, Came::Granted),
    Ask(TxnId(4), b'a', Read, false, Came::NotAvailable),
    Ask(TxnId(2), b'a', Write, true, Came::Granted),
    Tells(b'a', (true, Some(TxnId(2)))),
    HasHolder(1, Some(TxnId(2))),
];

#[test]
fn deadlocks_have_victims(rt: HostRuntime) {
    assert_eq!(rt; wrong_step(rt.alloc(), &CROSSED), Ok(None));
    assert_eq!(rt; wrong_step(rt.alloc(), &UPGRADES), Ok(None));
}

#[test]
fn tells_of_the_locks(rt: HostRuntime) {
    assert_eq!(rt; wrong_step(rt.alloc(), &WRITTEN), Ok(None));
}
