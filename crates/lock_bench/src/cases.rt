// The cases, each with the count that it prints.
use je_order::{Bound, Name, Octets, TxnId};
use lock_mgr::{LockMgr, Requested};
use lock_mode::LockType;
use lock_table::RecordId;
use std::alloc::{AllocError, Global};
use waits_for::{Edges, find_cycle};

// A record by its number.
fn record(alloc: Global, number: u64) -> Result<RecordId, AllocError> {
    let key = Octets::from_slice(alloc, &number.to_be_bytes())?;
    let name = Name {
        key,
        dup: Octets::new(alloc),
    };
    Ok(RecordId {
        db: 1,
        at: Bound::At(name),
    })
}

// Asks for a lock for writing: 1 if it is granted.
fn take(locks: &mut LockMgr, alloc: Global, txn: u64, number: u64) -> Result<u64, AllocError> {
    let at = record(alloc, number)?;
    if locks.waits_now(TxnId(txn)) {
        return Ok(0);
    }
    match locks.request(alloc, TxnId(txn), &at, LockType::Write, true)? {
        Requested::Granted { .. } => Ok(1),
        _ => Ok(0),
    }
}

/// Locks of one transaction, taken and released; how many were granted.
pub fn own(alloc: Global, number: u32) -> Result<u64, AllocError> {
    let mut locks = LockMgr::new(alloc);
    let mut count = 0u64;
    for i in 0..number {
        count = count.saturating_add(take(&mut locks, alloc, 1, u64::from(i))?);
    }
    locks.release_all(TxnId(1));
    Ok(count)
}

/// Transactions with 100 locks each, all taken and then all released; how many locks were granted.
pub fn many(alloc: Global, number: u32) -> Result<u64, AllocError> {
    let mut locks = LockMgr::new(alloc);
    let mut count = 0u64;
    for txn in 0..number {
        for i in 0..100u64 {
            let at = u64::from(txn) * 100 + i;
            count = count.saturating_add(take(&mut locks, alloc, u64::from(txn), at)?);
        }
    }
    for txn in 0..number {
        locks.release_all(TxnId(u64::from(txn)));
    }
    Ok(count)
}

/// A chain of waiters whose last waits for the first, and with `search` one search for the cycle; how
/// long the cycle is.
pub fn chain(alloc: Global, number: u32, search: bool) -> Result<u64, AllocError> {
    let mut edges = Edges::new(alloc);
    for i in 0..number {
        edges.insert(TxnId(u64::from(i)), TxnId(u64::from(i) + 1))?;
    }
    edges.insert(TxnId(u64::from(number)), TxnId(0))?;
    if !search {
        return Ok(0);
    }
    match find_cycle(alloc, &edges, TxnId(0))? {
        Some(cycle) => Ok(cycle.len() as u64),
        None => Ok(0),
    }
}
