// The lock table: phantoms wait, and upgrades are given back.
use crate::record_ids::record;
use crate::rows::first_wrong;
use Step::{Ask, Blocks, Cancel, GiveBack, Grants, HasHolder, Release, Tells, Waits};
use je_order::TxnId;
use lock_mode::LockType::{self, RangeInsert, RangeRead, Read, Write};
use lock_table::{Asked, LockTable};
use std::alloc::{AllocError, Global};

// What is done to a table or asked of it. A record goes by its key.
#[derive(Clone, Copy)]
enum Step {
    // what a transaction asks, and the owner that it then waits for
    Ask(TxnId, u8, LockType, Option<TxnId>),
    Release(TxnId),
    Cancel(TxnId),
    // a lock to write is made one to read
    GiveBack(TxnId, u8),
    Grants(TxnId, bool),
    // whether the record is locked, who writes it, and what the transaction holds
    Tells(u8, TxnId, (bool, Option<TxnId>, Option<LockType>)),
    // who waits, and for whom
    Waits(&'static [(TxnId, TxnId)]),
    // for whom the transaction waits
    Blocks(TxnId, &'static [TxnId]),
    HasHolder(u32, Option<TxnId>),
}

// Whether that is granted, or waits for this owner.
fn asks(
    table: &mut LockTable,
    alloc: Global,
    txn: TxnId,
    key: u8,
    mode: LockType,
    owner: Option<TxnId>,
) -> Result<bool, AllocError> {
    if table.waits_now(txn) {
        return Ok(false);
    }
    let at = record(alloc, key)?;
    let asked = table.ask(alloc, txn, &at, mode);
    drop(at);
    match asked? {
        Asked::Granted { .. } => Ok(owner.is_none()),
        Asked::Blocked { owner: found } => Ok(owner == Some(found)),
    }
}

fn gives_back(
    table: &mut LockTable,
    alloc: Global,
    txn: TxnId,
    key: u8,
) -> Result<bool, AllocError> {
    let at = record(alloc, key)?;
    if table.held(txn, &at) == Some(Write) {
        table.give_back(txn, &at, Some(Read));
    }
    drop(at);
    Ok(true)
}

// Whether the record is locked, who writes it, and what the transaction holds, as wanted.
fn tells(
    table: &LockTable,
    alloc: Global,
    key: u8,
    txn: TxnId,
    want: (bool, Option<TxnId>, Option<LockType>),
) -> Result<bool, AllocError> {
    let at = record(alloc, key)?;
    let told = (
        table.is_locked(&at),
        table.is_write_locked(&at),
        table.held(txn, &at),
    );
    drop(at);
    Ok(told == want)
}

fn waits(table: &LockTable, alloc: Global, want: &[(TxnId, TxnId)]) -> Result<bool, AllocError> {
    let waits = table.waits(alloc)?;
    let same = waits.as_slice() == want;
    drop(waits);
    Ok(same)
}

fn blocks(
    table: &LockTable,
    alloc: Global,
    waiter: TxnId,
    want: &[TxnId],
) -> Result<bool, AllocError> {
    let blockers = table.blockers(alloc, waiter)?;
    let same = blockers.as_slice() == want;
    drop(blockers);
    Ok(same)
}

// Whether the step comes as it says.
fn comes(table: &mut LockTable, alloc: Global, step: Step) -> Result<bool, AllocError> {
    match step {
        Ask(txn, key, mode, owner) => asks(table, alloc, txn, key, mode, owner),
        Release(txn) => {
            table.release_all(txn);
            Ok(true)
        }
        Cancel(txn) => {
            table.cancel(txn);
            Ok(true)
        }
        GiveBack(txn, key) => gives_back(table, alloc, txn, key),
        Grants(txn, want) => Ok(table.is_granted(txn) == want),
        Tells(key, txn, want) => tells(table, alloc, key, txn, want),
        Waits(want) => waits(table, alloc, want),
        Blocks(waiter, want) => blocks(table, alloc, waiter, want),
        HasHolder(place, want) => Ok(table.holder_in(place) == want),
    }
}

// The first step that does not come so on a new table.
fn wrong_step(alloc: Global, steps: &[Step]) -> Result<Option<usize>, AllocError> {
    let mut table = LockTable::new(alloc);
    let wrong = first_wrong(steps, |step| comes(&mut table, alloc, *step));
    drop(table);
    wrong
}

// Transaction 4 reads a and c as ranges; 5 writes the new record b, and waits at c until 4 ends.
static PHANTOM: [Step; 16] = [
    Ask(TxnId(4), b'a', RangeRead, None),
    Ask(TxnId(4), b'c', RangeRead, None),
    Ask(TxnId(5), b'b', Write, None),
    Ask(TxnId(5), b'c', RangeInsert, Some(TxnId(4))),
    Waits(&[(TxnId(5), TxnId(4))]),
    Blocks(TxnId(5), &[TxnId(4)]),
    Grants(TxnId(5), false),
    Tells(b'b', TxnId(5), (true, Some(TxnId(5)), Some(Write))),
    Tells(b'c', TxnId(5), (true, None, None)),
    HasHolder(1, Some(TxnId(4))),
    HasHolder(0, None),
    Release(TxnId(4)),
    Grants(TxnId(5), true),
    Tells(b'c', TxnId(5), (false, None, None)),
    Tells(b'b', TxnId(5), (true, Some(TxnId(5)), Some(Write))),
    HasHolder(1, Some(TxnId(5))),
];

// A lock that was upgraded is given back, and the reader that waited is granted. It has asked, given up
// and asked again.
static UPGRADE: [Step; 10] = [
    Ask(TxnId(1), b'a', Read, None),
    Ask(TxnId(1), b'a', Write, None),
    Ask(TxnId(2), b'a', Read, Some(TxnId(1))),
    Cancel(TxnId(2)),
    Grants(TxnId(2), false),
    Waits(&[]),
    Ask(TxnId(2), b'a', Read, Some(TxnId(1))),
    GiveBack(TxnId(1), b'a'),
    Tells(b'a', TxnId(1), (true, None, Some(Read))),
    Grants(TxnId(2), true),
];

#[test]
fn grants_what_is_free(rt: HostRuntime) {
    assert_eq!(rt; wrong_step(rt.alloc(), &PHANTOM), Ok(None));
    assert_eq!(rt; wrong_step(rt.alloc(), &UPGRADE), Ok(None));
}
