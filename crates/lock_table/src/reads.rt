// Which transactions may have a lock of READ or wait for one.
ghost use Rattle.std.specs.Prelude.{◌≡◌, ◌||◌, true, false, Some, if◌then◌else◌, OnOk};
ghost use Rattle.std.specs.Option.{option_map, option_map_or, is_some};
ghost use Rattle.je_order.specs.declared.txn_id.TxnId.{TxnId};
ghost use Rattle.lock_mode.specs.declared.lock_type.LockType.{LockType};
ghost use Rattle.lock_table.specs.declared.lock.Lock.{Lock};
ghost use Rattle.je_order.specs.Transactions.{is_same_txn};
ghost use Rattle.lock_table.specs.Locks.{is_read_lock};
ghost use Rattle.lock_table.specs.Table.{at_txn, may_have, IsReadNoted};

use crate::Lock;
use je_order::TxnId;
use lock_mode::LockType;
use std::alloc::AllocError;
use std::collections::BTreeMap;

// Whether the type is READ.
fn is_plain(mode: LockType) -> bool
    ensures { result ≡ is_read_lock mode }
{
    matches!(mode, LockType::Read)
}

// Whether a transaction was READ's holder before.
fn was_plain(was: Option<LockType>) -> bool
    ensures { result ≡ option_map_or is_read_lock was false }
{
    match was {
        Some(mode) => is_plain(mode),
        None => false,
    }
}

// Whether the transaction may have a lock of READ.
pub(crate) fn may_read(reading: &BTreeMap<TxnId, bool>, txn: TxnId) -> bool
    ensures { result ≡ option_map_or (λ b. b) (at_txn txn reading.now.entries) false }
{
    match reading.get(&txn) {
        Some(may) => *may,
        None => false,
    }
}

// Notes that a transaction may have a lock of READ, if `read` says so, and whether anything is noted of
// it. It takes no memory.
fn note_there(reading: &mut BTreeMap<TxnId, bool>, txn: TxnId, read: bool) -> bool
    ensures there { result ≡ is_some (at_txn txn reading.old.entries) }
    ensures noted { (t : TxnId) → at_txn t reading.new.entries ≡ (if is_same_txn txn t then option_map (λ b. b || read) (at_txn t reading.old.entries) else at_txn t reading.old.entries) }
{
    let Some(may) = reading.get_mut(&txn) else {
        return false;
    };
    *may = *may || read;
    true
}

// Notes that a transaction asks for a lock. Nothing is taken back by it.
pub(crate) fn note_read(reading: &mut BTreeMap<TxnId, bool>, lock: Lock) -> Result<(), AllocError>
    ensures kept { (l : Lock) → IsReadNoted (λ t. at_txn t reading.old.entries) l → IsReadNoted (λ t. at_txn t reading.new.entries) l }
    ensures noted { OnOk result (IsReadNoted (λ t. at_txn t reading.new.entries) lock) }
{
    let read = is_plain(lock.mode);
    if note_there(reading, lock.txn, read) {
        return Ok(());
    }
    let _ = reading.insert(lock.txn, read)?;
    Ok(())
}

// Notes that a transaction's lock is what it was before. It takes no memory.
pub(crate) fn note_back(reading: &mut BTreeMap<TxnId, bool>, txn: TxnId, was: Option<LockType>)
    ensures kept { (l : Lock) → IsReadNoted (λ t. at_txn t reading.old.entries) l → IsReadNoted (λ t. at_txn t reading.new.entries) l }
    ensures back { (m h : LockType) → was ≡ Some m → may_have (at_txn txn reading.old.entries) h ≡ true → may_have (at_txn txn reading.new.entries) m ≡ true }
{
    let _ = note_there(reading, txn, was_plain(was));
}

// Notes that a transaction has no lock of READ. It takes no memory.
pub(crate) fn note_none(reading: &mut BTreeMap<TxnId, bool>, txn: TxnId)
    ensures { (t : TxnId) → at_txn t reading.new.entries ≡ (if is_same_txn txn t then option_map (λ _. false) (at_txn t reading.old.entries) else at_txn t reading.old.entries) }
{
    let Some(may) = reading.get_mut(&txn) else {
        return;
    };
    *may = false;
}
