// The lock table.
ghost use Rattle.std.specs.Prelude.{◌≡◌, ◌&&◌, ◌==◌, ◌++◌, [], map, not, length, true, false, None, Some, if◌then◌else◌, IfOk, OnOk, OnErr};
ghost use Rattle.std.specs.Option.{option_map_or, IsSome};
ghost use Rattle.std.specs.List.{flat_map};
ghost use Rattle.je_order.specs.declared.txn_id.TxnId.{TxnId};
ghost use Rattle.lock_mode.specs.declared.lock_type.LockType.{LockType};
ghost use Rattle.lock_table.specs.declared.record_id.RecordId.{RecordId};
ghost use Rattle.lock_table.specs.declared.lock.Lock.{Lock};
ghost use Rattle.std.specs.Option.{IfSome, IfNone};
ghost use Rattle.std.specs.List.{AllByRecursion};
ghost use Rattle.lock_table.specs.Locks.{is_range, after_read, held_by, blocker, after_ask, after_cancel, after_release, after_give_back, WasHeld, lock_of, writer_in, waited_for};
ghost use Rattle.je_order.specs.Transactions.{is_same_txn};
ghost use Rattle.lock_table.specs.Records.{is_record, queue_at};
ghost use Rattle.lock_table.specs.Table.{locks_at, pending_at, is_waiting, was_granted, owner_in, SaysHeld, waits_for, wait_pairs, holder_of, IsSameTable, IsToldIn, OwnsIn, IsLockTable};

use crate::calls::{
    ask_in, cancel_in, forget_in, give_back_in, read_back_in, release_in, undo_wait_in,
};
use crate::dbs::{forget_dbs, note_db};
use crate::holders::{least_in, told_in};
use crate::queue::Queue;
use crate::queues::{owners_at, waits_at};
use crate::ranges::note_range;
use crate::reads::{may_read, note_back, note_none, note_read};
use crate::{Asked, Lock, RecordId, lists};
use je_order::{List, TxnId, copy_of};
use lock_mode::LockType;
use std::alloc::{AllocError, Global};
use std::collections::{BTreeMap, BTreeSet, HashMap};
use std::marker::Model;

/// The locks of an environment: for each record its owners and, in order of arrival, its waits. It is
/// made once and lives as long as the environment; a record is in it only while it has an owner or a
/// wait. A transaction has one wait at most. The rules are this project's own.
#[derive(Drop)]
pub struct LockTable {
    queues: HashMap<RecordId, Queue>,
    // The databases where a lock was asked for since no record had an owner or a wait.
    dbs: BTreeSet<u32>,
    // Of each transaction, by database, the records where it has a lock or a wait, and maybe others: a list is
    // cheap to add to.
    lists: BTreeMap<TxnId, BTreeMap<u32, Vec<RecordId>>>,
    pending: BTreeMap<TxnId, RecordId>,
    // Those that asked for a lock of a range type since they began.
    ranging: BTreeSet<TxnId>,
    // Of each transaction that asked for a lock since it began, whether it may have one of READ or wait for
    // one.
    reading: BTreeMap<TxnId, bool>,
}

impl Model for LockTable {
    ghost use Rattle.lock_table.specs.declared.record_id.RecordId.{RecordId};
    ghost use Rattle.lock_table.specs.Records.{queue_at};
    ghost use Rattle.lock_table.specs.Table.{Locks, IsTable, at_txn, is_among, AreRangesOf, AreReadsNoted, is_used, AreUsed};

    ghost Value = { Locks };

    ghost view = { λ a. record { records = a.queues.entries; pending = a.pending.entries } };

    ghost invariant = { λ a. IsTable a.queues.entries a.lists.entries a.pending.entries × ((r : RecordId) → AreRangesOf (is_among a.ranging) (queue_at r a.queues.entries)) × ((r : RecordId) → AreReadsNoted (λ t. at_txn t a.reading.entries) (queue_at r a.queues.entries)) × AreUsed (is_used a.dbs) (λ r. queue_at r a.queues.entries) };
}

impl LockTable {
    /// No locks. It takes no memory.
    pub fn new(alloc: Global) -> LockTable
        ensures locks { (r : RecordId) → locks_at r result ≡ ([], []) }
        ensures pending { (t : TxnId) → pending_at t result ≡ None }
        ensures settled { IsLockTable result }
    {
        LockTable {
            queues: HashMap::new(alloc),
            dbs: BTreeSet::new(alloc),
            lists: BTreeMap::new(alloc),
            pending: BTreeMap::new(alloc),
            ranging: BTreeSet::new(alloc),
            reading: BTreeMap::new(alloc),
        }
    }

    /// Asks for a lock. It waits exactly where it conflicts with another owner, and the least of these
    /// is the answer's owner; the wait then stands until a grant or `cancel`. The only error is out of
    /// memory, and nothing is changed by it.
    pub fn ask(
        &mut self,
        alloc: Global,
        txn: TxnId,
        at: &RecordId,
        asked: LockType,
    ) -> Result<Asked, AllocError>
        requires { is_waiting txn self.old ≡ false }
        ensures answer { IfOk result (λ answer. owner_in answer ≡ blocker (lock_of txn asked) (locks_at at.now self.old).0) }
        ensures was { IfOk result (λ answer. SaysHeld answer (held_by txn (locks_at at.now self.old).0)) }
        ensures locks { OnOk result ((r : RecordId) → locks_at r self.new ≡ (if is_record at.now r then after_ask (lock_of txn asked) (locks_at r self.old) else locks_at r self.old)) }
        ensures pending { IfOk result (λ answer. (t : TxnId) → pending_at t self.new ≡ (if is_same_txn txn t then option_map_or (λ _. Some at.now) (owner_in answer) None else pending_at t self.old)) }
        ensures settled { IsLockTable self.new }
        ensures err { OnErr result (IsSameTable self.old self.new) }
    {
        let lock = Lock { txn, mode: asked };
        note_db(&mut self.dbs, at.db)?;
        note_range(&mut self.ranging, lock)?;
        note_read(&mut self.reading, lock)?;
        ask_in(
            &mut self.queues,
            &mut self.lists,
            &mut self.pending,
            alloc,
            at,
            lock,
        )
    }

    /// Takes back the transaction's wait, if it has one. It takes no memory.
    pub fn cancel(&mut self, txn: TxnId)
        ensures locks { (r : RecordId) → locks_at r self.new ≡ after_cancel txn (locks_at r self.old) }
        ensures pending { (t : TxnId) → pending_at t self.new ≡ (if is_same_txn txn t && is_waiting txn self.old then None else pending_at t self.old) }
        ensures settled { IsLockTable self.new }
    {
        cancel_in(&mut self.queues, &mut self.pending, txn);
    }

    /// Takes back the wait that the transaction asked for last, and notes again where it was told to wait before
    /// it. It takes no memory.
    pub fn undo_wait(&mut self, txn: TxnId, place: Option<RecordId>)
        requires { is_waiting txn self.old ≡ true }
        ensures locks { (r : RecordId) → locks_at r self.new ≡ after_cancel txn (locks_at r self.old) }
        ensures pending { (t : TxnId) → pending_at t self.new ≡ (if is_same_txn txn t then place else pending_at t self.old) }
        ensures settled { IsLockTable self.new }
    {
        undo_wait_in(&mut self.queues, &mut self.pending, txn, place);
    }

    /// Forgets where the transaction was told to wait, if that wait was granted. It takes no memory.
    pub fn forget(&mut self, txn: TxnId)
        ensures locks { (r : RecordId) → locks_at r self.new ≡ locks_at r self.old }
        ensures pending { (t : TxnId) → pending_at t self.new ≡ (if is_same_txn txn t && was_granted txn self.old then None else pending_at t self.old) }
        ensures settled { IsLockTable self.new }
    {
        forget_in(&self.queues, &mut self.pending, txn);
    }

    /// Makes the transaction's lock on a record what it was before, and grants the waits that it stood
    /// in the way of, as a release does. It takes no memory.
    pub fn give_back(&mut self, txn: TxnId, at: &RecordId, was: Option<LockType>)
        requires holds { IsSome (held_by txn (locks_at at.now self.old).0) }
        requires was { (held : LockType) → held_by txn (locks_at at.now self.old).0 ≡ Some held → WasHeld was held }
        ensures locks { (r : RecordId) → locks_at r self.new ≡ (if is_record at.now r then after_give_back txn was (locks_at r self.old) else locks_at r self.old) }
        ensures pending { (t : TxnId) → pending_at t self.new ≡ pending_at t self.old }
        ensures settled { IsLockTable self.new }
    {
        give_back_in(&mut self.queues, &mut self.lists, txn, at, was);
        note_back(&mut self.reading, txn, was);
    }

    /// Takes each lock of the transaction that is no more than READ, and grants the waits that it stood in
    /// the way of, as a release does. It looks at each of the transaction's records, but at none where the
    /// transaction has asked for no READ since it last gave them back. It takes no memory.
    pub fn give_back_reads(&mut self, txn: TxnId)
        ensures locks { (r : RecordId) → locks_at r self.new ≡ after_read txn (locks_at r self.old) }
        ensures pending { (t : TxnId) → pending_at t self.new ≡ pending_at t self.old }
        ensures settled { IsLockTable self.new }
    {
        if !may_read(&self.reading, txn) {
            return;
        }
        let waiting = self.waits_now(txn);
        read_back_in(&mut self.queues, &self.lists, txn);
        if waiting {
            return;
        }
        note_none(&mut self.reading, txn);
    }

    /// Takes all the transaction's locks and its wait, and grants each of these records' waits in order
    /// of arrival where it conflicts with no other owner. It takes no memory.
    pub fn release_all(&mut self, txn: TxnId)
        ensures locks { (r : RecordId) → locks_at r self.new ≡ after_release txn (locks_at r self.old) }
        ensures pending { (t : TxnId) → pending_at t self.new ≡ (if is_same_txn txn t then None else pending_at t self.old) }
        ensures settled { IsLockTable self.new }
    {
        release_in(&mut self.queues, &mut self.lists, txn);
        drop(self.pending.remove(&txn));
        let _ = self.ranging.remove(&txn);
        let _ = self.reading.remove(&txn);
        forget_dbs(&mut self.dbs, &self.queues);
    }

    /// Whether a wait of the transaction was granted, and it has neither asked nor ended since.
    pub fn is_granted(&self, txn: TxnId) -> bool
        ensures { result ≡ was_granted txn self.now }
    {
        let Some(at) = self.pending.get(&txn) else {
            return false;
        };
        !lists::is_in(waits_at(&self.queues, at), txn)
    }

    /// Whether the transaction has a wait that stands.
    pub fn waits_now(&self, txn: TxnId) -> bool
        ensures { result ≡ is_waiting txn self.now }
    {
        let Some(at) = self.pending.get(&txn) else {
            return false;
        };
        let waits = waits_at(&self.queues, at);
        lists::is_in(waits, txn)
    }

    /// The record on which the transaction was last told to wait. The only error is out of memory.
    pub fn pending_place(&self, txn: TxnId) -> Result<Option<RecordId>, AllocError>
        ensures { IfOk result (λ place. place ≡ pending_at txn self.now) }
    {
        match self.pending.get(&txn) {
            Some(at) => Ok(Some(copy_of(at)?)),
            None => Ok(None),
        }
    }

    /// The type that the transaction holds on a record.
    pub fn held(&self, txn: TxnId, at: &RecordId) -> Option<LockType>
        ensures { result ≡ held_by txn (locks_at at.now self.now).0 }
    {
        lists::held_in(owners_at(&self.queues, at), txn)
    }

    /// The owner that has a lock for writing on the record; there is one at most.
    pub fn is_write_locked(&self, at: &RecordId) -> Option<TxnId>
        ensures { result ≡ writer_in (locks_at at.now self.now).0 }
    {
        lists::writer_of(owners_at(&self.queues, at))
    }

    /// Whether the record has an owner.
    pub fn is_locked(&self, at: &RecordId) -> bool
        ensures { result ≡ not (length (locks_at at.now self.now).0 == 0) }
    {
        !owners_at(&self.queues, at).is_empty()
    }

    /// The least owner of the records of a database. It costs one look-up where no lock was asked for in the
    /// database since no record was locked, and else a look-up for each transaction that has locks, and one for
    /// each record of the database that such a transaction was granted, waits for or gave back, up to the first
    /// that it owns.
    pub fn holder_in(&self, db: u32) -> Option<TxnId>
        ensures least { result ≡ holder_of db self.now }
        ensures owns { IfSome result (λ t. OwnsIn db t self.now.records) }
    {
        least_in(&self.queues, &self.lists, &self.dbs, db)
    }

    /// A transaction that was last told to wait on a record of the database; the least one. It looks at
    /// every wait.
    pub fn waiter_in(&self, db: u32) -> Option<TxnId>
        ensures told { IfSome result (λ t. IsToldIn db t self.now) }
        ensures none { IfNone result ((t : TxnId) → IsToldIn db t self.now → ⊥) }
    {
        told_in(&self.pending, db)
    }

    /// The least owner with which a request would conflict. It asks for nothing, and takes no memory.
    pub fn blocker(&self, txn: TxnId, at: &RecordId, asked: LockType) -> Option<TxnId>
        ensures { result ≡ blocker (lock_of txn asked) (locks_at at.now self.now).0 }
    {
        lists::blocker_in(owners_at(&self.queues, at), Lock { txn, mode: asked })
    }

    /// Whether an owner may have a lock of a range type: one that asked for such a lock has not ended. It
    /// is false only where no owner has one, so that a RANGE_INSERT would conflict with none.
    pub fn has_ranges(&self) -> bool
        ensures { result ≡ false → (r : RecordId) → AllByRecursion (λ o. is_range o.mode ≡ false) (locks_at r self.now).0 }
    {
        !self.ranging.is_empty()
    }

    /// Those that the transaction waits for: the owners that its wait conflicts with. The only error
    /// is out of memory.
    pub fn blockers(&self, alloc: Global, txn: TxnId) -> Result<Vec<TxnId>, AllocError>
        ensures { IfOk result (λ found. found.items ≡ waits_for txn self.now) }
    {
        let Some(at) = self.pending.get(&txn) else {
            return Ok(Vec::new(alloc));
        };
        lists::waited_in(
            alloc,
            owners_at(&self.queues, at),
            waits_at(&self.queues, at),
            txn,
        )
    }

    /// Who waits for whom: each pair is a waiter and an owner that its wait conflicts with. It walks all
    /// waits. The only error is out of memory.
    pub fn waits(&self, alloc: Global) -> Result<List<(TxnId, TxnId)>, AllocError>
        ensures { IfOk result (λ pairs. pairs ≡ wait_pairs self.now) }
    {
        let pairs = pairs_in(alloc, &self.queues, &self.pending)?;
        Ok(List::from_vec(pairs))
    }
}

// Puts the pairs of one waiter at the end.
fn put_pairs(
    pairs: &mut Vec<(TxnId, TxnId)>,
    txn: TxnId,
    owners: &[TxnId],
) -> Result<(), AllocError>
    ensures { OnOk result (pairs.new.items ≡ pairs.old.items ++ map (λ u. (txn, u)) owners.now) }
{
    for owner in owners {
        pairs.push((txn, *owner))?;
    }
    Ok(())
}

// Who waits for whom, waiter by waiter.
fn pairs_in(
    alloc: Global,
    queues: &HashMap<RecordId, Queue>,
    pending: &BTreeMap<TxnId, RecordId>,
) -> Result<Vec<(TxnId, TxnId)>, AllocError>
    ensures { IfOk result (λ pairs. pairs.items ≡ flat_map (λ e. map (λ u. (e.0, u)) (waited_for e.0 (queue_at e.1 queues.now.entries))) pending.now.entries) }
{
    let mut pairs = Vec::new(alloc);
    for (txn, at) in pending {
        let owners = lists::waited_in(alloc, owners_at(queues, at), waits_at(queues, at), *txn)?;
        put_pairs(&mut pairs, *txn, owners.as_slice())?;
    }
    Ok(pairs)
}
