// The lock manager.
ghost use Rattle.std.specs.Prelude.{◌≡◌, ◌&&◌, ◌∷◌, ◌++◌, ◌<◌, ◌==◌, ◌↔◌, [], map, not, length, true, false, None, Some, if◌then◌else◌, IfOk, OnOk, OnErr};
ghost use Rattle.std.specs.Option.{IfSome, IfNone, IsSome, is_some, option_map_or};
ghost use Rattle.std.specs.List.{AllByRecursion};
ghost use Rattle.je_order.specs.declared.txn_id.TxnId.{TxnId};
ghost use Rattle.lock_mode.specs.declared.lock_type.LockType.{LockType};
ghost use Rattle.waits_for.specs.Cycles.{is_in, is_edge, closes_by};
ghost use Rattle.lock_table.specs.declared.record_id.RecordId.{RecordId};
ghost use Rattle.lock_table.specs.Locks.{lock_of, held_by, blocker, is_blocked, is_range, writer_in, after_ask, after_cancel, after_read, after_release, after_give_back, WasHeld};
ghost use Rattle.je_order.specs.Transactions.{is_same_txn};
ghost use Rattle.lock_table.specs.Records.{is_record};
ghost use Rattle.lock_table.specs.Table.{locks_at, pending_at, is_waiting, was_granted, wait_pairs, holder_of, IsToldIn, OwnsIn, IsLockTable, IsSameTable};
ghost use Rattle.lock_mgr.specs.Deadlock.{waits, waits_with, NoDeadlock, AreVictims, owner_of, SaysWas, victims_of as victims_in, taken_back, without_waits, HasSomeVictims};

use crate::Requested;
use crate::victims::{reach, victims_of};
use je_order::{List, TxnId};
use lock_mode::LockType;
use lock_table::{Asked, LockTable, RecordId};
use std::alloc::{AllocError, Global};
use std::marker::Model;

/// The locks of an environment, in which no transaction waits for itself by way of others. It is made
/// once and lives as long as the environment. A transaction has one wait at most.
#[derive(Drop)]
pub struct LockMgr {
    table: LockTable,
}

impl Model for LockMgr {
    ghost use Rattle.lock_table.specs.Table.{Locks};
    ghost use Rattle.lock_mgr.specs.Deadlock.{NoDeadlock};

    ghost Value = { Locks };

    ghost view = { λ a. a.table };

    ghost invariant = { λ a. NoDeadlock a.table };
}

impl LockMgr {
    /// No locks. It takes no memory.
    pub fn new(alloc: Global) -> LockMgr
        ensures locks { (r : RecordId) → locks_at r result ≡ ([], []) }
        ensures pending { (t : TxnId) → pending_at t result ≡ None }
        ensures free { NoDeadlock result }
    {
        LockMgr {
            table: LockTable::new(alloc),
        }
    }

    /// No transaction waits for itself by way of others, owners never conflict, and no wait could be
    /// granted: for those who reason above the manager. It does nothing.
    pub fn have_no_cycle(&self)
        ensures { NoDeadlock self.now }
    {
        let _ = &self.table;
    }

    /// Asks for a lock. Where it conflicts with another owner it waits, or, without `wait`, is not
    /// available. A wait that closes cycles costs the greatest transaction of each its wait, one after
    /// another; these are the victims. The only error is out of memory: then the owners, the waits and
    /// where each transaction was told to wait are what they were.
    pub fn request(
        &mut self,
        alloc: Global,
        txn: TxnId,
        at: &RecordId,
        asked: LockType,
        wait: bool,
    ) -> Result<Requested, AllocError>
        requires { is_waiting txn self.old ≡ false }
        ensures owner { IfOk result (λ answer. owner_of answer ≡ blocker (lock_of txn asked) (locks_at at.now self.old).0) }
        ensures was { IfOk result (λ answer. SaysWas answer (held_by txn (locks_at at.now self.old).0)) }
        ensures waits { IfOk result (λ answer. is_some (victims_in answer) ≡ (is_some (owner_of answer) && wait)) }
        ensures victims { IfOk result (λ answer. IfSome (victims_in answer) (AreVictims txn (waits_with (lock_of txn asked) at.now self.old))) }
        ensures locks { IfOk result (λ answer. (r : RecordId) → locks_at r self.new ≡ without_waits (taken_back txn answer) (if is_record at.now r then after_ask (lock_of txn asked) (locks_at r self.old) else locks_at r self.old)) }
        ensures pending { IfOk result (λ answer. (t : TxnId) → is_in t (taken_back txn answer) ≡ false → pending_at t self.new ≡ (if is_same_txn txn t then option_map_or (λ _. Some at.now) (owner_of answer) None else pending_at t self.old)) }
        ensures gone { IfOk result (λ answer. (t : TxnId) → is_in t (taken_back txn answer) ≡ true → pending_at t self.new ≡ None) }
        ensures told { IfOk result HasSomeVictims }
        ensures err { OnErr result (IsSameTable self.old self.new) }
        ensures free { NoDeadlock self.new }
    {
        request_in(&mut self.table, alloc, txn, at, asked, wait)
    }

    /// Takes back the transaction's wait, if it has one. It takes no memory.
    pub fn cancel(&mut self, txn: TxnId)
        ensures locks { (r : RecordId) → locks_at r self.new ≡ after_cancel txn (locks_at r self.old) }
        ensures pending { (t : TxnId) → pending_at t self.new ≡ (if is_same_txn txn t && is_waiting txn self.old then None else pending_at t self.old) }
        ensures free { NoDeadlock self.new }
    {
        self.table.cancel(txn);
    }

    /// Forgets where the transaction was told to wait, if that wait was granted: its call goes on. It takes
    /// no memory.
    pub fn forget(&mut self, txn: TxnId)
        ensures locks { (r : RecordId) → locks_at r self.new ≡ locks_at r self.old }
        ensures pending { (t : TxnId) → pending_at t self.new ≡ (if is_same_txn txn t && was_granted txn self.old then None else pending_at t self.old) }
        ensures free { NoDeadlock self.new }
    {
        self.table.forget(txn);
    }

    /// Makes the transaction's lock on a record what it was before, and grants the waits that it stood
    /// in the way of, as a release does. It takes no memory.
    pub fn give_back(&mut self, txn: TxnId, at: &RecordId, was: Option<LockType>)
        requires holds { IsSome (held_by txn (locks_at at.now self.old).0) }
        requires was { (held : LockType) → held_by txn (locks_at at.now self.old).0 ≡ Some held → WasHeld was held }
        ensures locks { (r : RecordId) → locks_at r self.new ≡ (if is_record at.now r then after_give_back txn was (locks_at r self.old) else locks_at r self.old) }
        ensures pending { (t : TxnId) → pending_at t self.new ≡ pending_at t self.old }
        ensures free { NoDeadlock self.new }
    {
        self.table.give_back(txn, at, was);
    }

    /// Takes each lock of the transaction that is no more than READ, and grants the waits that it stood in
    /// the way of, as a release does. It looks at each of the transaction's records, and takes no memory.
    pub fn give_back_reads(&mut self, txn: TxnId)
        ensures locks { (r : RecordId) → locks_at r self.new ≡ after_read txn (locks_at r self.old) }
        ensures pending { (t : TxnId) → pending_at t self.new ≡ pending_at t self.old }
        ensures free { NoDeadlock self.new }
    {
        self.table.give_back_reads(txn);
    }

    /// Takes all the transaction's locks and its wait, and grants each of these records' waits in order
    /// of arrival where it conflicts with no other owner. It takes no memory.
    pub fn release_all(&mut self, txn: TxnId)
        ensures locks { (r : RecordId) → locks_at r self.new ≡ after_release txn (locks_at r self.old) }
        ensures pending { (t : TxnId) → pending_at t self.new ≡ (if is_same_txn txn t then None else pending_at t self.old) }
        ensures free { NoDeadlock self.new }
    {
        self.table.release_all(txn);
    }

    /// The least owner with which a request would conflict. It asks for nothing, and takes no memory.
    pub fn blocker(&self, txn: TxnId, at: &RecordId, asked: LockType) -> Option<TxnId>
        ensures { result ≡ blocker (lock_of txn asked) (locks_at at.now self.now).0 }
    {
        self.table.blocker(txn, at, asked)
    }

    /// Whether an owner may have a lock of a range type: one that asked for such a lock has not ended. It
    /// is false only where no owner has one, so that a RANGE_INSERT would conflict with none.
    pub fn has_ranges(&self) -> bool
        ensures { result ≡ false → (r : RecordId) → AllByRecursion (λ o. is_range o.mode ≡ false) (locks_at r self.now).0 }
    {
        self.table.has_ranges()
    }

    /// Whether a wait of the transaction was granted, and it has neither asked nor ended since.
    pub fn is_granted(&self, txn: TxnId) -> bool
        ensures { result ≡ was_granted txn self.now }
    {
        self.table.is_granted(txn)
    }

    /// Whether the transaction has a wait that stands.
    pub fn waits_now(&self, txn: TxnId) -> bool
        ensures { result ≡ is_waiting txn self.now }
    {
        self.table.waits_now(txn)
    }

    /// The type that the transaction holds on a record.
    pub fn held(&self, txn: TxnId, at: &RecordId) -> Option<LockType>
        ensures { result ≡ held_by txn (locks_at at.now self.now).0 }
    {
        self.table.held(txn, at)
    }

    /// Who waits for whom. It walks all waits. The only error is out of memory.
    pub fn waits(&self, alloc: Global) -> Result<List<(TxnId, TxnId)>, AllocError>
        ensures { IfOk result (λ pairs. pairs ≡ wait_pairs self.now) }
    {
        self.table.waits(alloc)
    }

    /// The owner that has a lock for writing on the record; there is one at most.
    pub fn is_write_locked(&self, at: &RecordId) -> Option<TxnId>
        ensures { result ≡ writer_in (locks_at at.now self.now).0 }
    {
        self.table.is_write_locked(at)
    }

    /// Whether the record has an owner.
    pub fn is_locked(&self, at: &RecordId) -> bool
        ensures { result ≡ not (length (locks_at at.now self.now).0 == 0) }
    {
        self.table.is_locked(at)
    }

    /// The least owner of the records of a database. It costs one look-up where no lock was asked for in the
    /// database since no record was locked, and else a look-up for each transaction that has locks, and one for
    /// each record of the database that such a transaction was granted, waits for or gave back, up to the first
    /// that it owns.
    pub fn holder_in(&self, db: u32) -> Option<TxnId>
        ensures least { result ≡ holder_of db self.now }
        ensures owns { IfSome result (λ t. OwnsIn db t self.now.records) }
    {
        self.table.holder_in(db)
    }

    /// A transaction that was last told to wait on a record of the database, if there is one: its wait
    /// stands, or it was granted and its call has not gone on. It looks at every wait.
    pub fn waiter_in(&self, db: u32) -> Option<TxnId>
        ensures told { IfSome result (λ t. IsToldIn db t self.now) }
        ensures none { IfNone result ((t : TxnId) → IsToldIn db t self.now → ⊥) }
    {
        self.table.waiter_in(db)
    }
}

// A request: its lock is granted, or it waits and no cycle is left, or it is not to wait.
fn request_in(
    table: &mut LockTable,
    alloc: Global,
    txn: TxnId,
    at: &RecordId,
    asked: LockType,
    wait: bool,
) -> Result<Requested, AllocError>
    requires free { NoDeadlock table.old }
    requires none { is_waiting txn table.old ≡ false }
    ensures owner { IfOk result (λ answer. owner_of answer ≡ blocker (lock_of txn asked) (locks_at at.now table.old).0) }
    ensures was { IfOk result (λ answer. SaysWas answer (held_by txn (locks_at at.now table.old).0)) }
    ensures waits { IfOk result (λ answer. is_some (victims_in answer) ≡ (is_some (owner_of answer) && wait)) }
    ensures victims { IfOk result (λ answer. IfSome (victims_in answer) (AreVictims txn (waits_with (lock_of txn asked) at.now table.old))) }
    ensures locks { IfOk result (λ answer. (r : RecordId) → locks_at r table.new ≡ without_waits (taken_back txn answer) (if is_record at.now r then after_ask (lock_of txn asked) (locks_at r table.old) else locks_at r table.old)) }
    ensures pending { IfOk result (λ answer. (t : TxnId) → is_in t (taken_back txn answer) ≡ false → pending_at t table.new ≡ (if is_same_txn txn t then option_map_or (λ _. Some at.now) (owner_of answer) None else pending_at t table.old)) }
    ensures gone { IfOk result (λ answer. (t : TxnId) → is_in t (taken_back txn answer) ≡ true → pending_at t table.new ≡ None) }
    ensures told { IfOk result HasSomeVictims }
    ensures err { OnErr result (IsSameTable table.old table.new) }
    ensures free { NoDeadlock table.new }
{
    let place = table.pending_place(txn)?;
    match table.ask(alloc, txn, at, asked)? {
        Asked::Granted { was } => Ok(Requested::Granted { was }),
        Asked::Blocked { owner } => blocked_in(table, alloc, txn, owner, wait, place),
    }
}

// A request that was just made to wait: it stays so and no cycle is left, or it is not to wait. Where memory
// runs out, its wait is taken back, and the transaction was last told to wait at `place` again.
fn blocked_in(
    table: &mut LockTable,
    alloc: Global,
    txn: TxnId,
    owner: TxnId,
    wait: bool,
    place: Option<RecordId>,
) -> Result<Requested, AllocError>
    requires sound { IsLockTable table.old }
    requires waiting { is_waiting txn table.old ≡ true }
    requires through { (list : List TxnId) → closes_by (waits table.old) list ≡ true → is_in txn list ≡ true }
    ensures owner { IfOk result (λ answer. owner_of answer ≡ Some owner) }
    ensures waits { IfOk result (λ answer. is_some (victims_in answer) ≡ wait) }
    ensures victims { IfOk result (λ answer. IfSome (victims_in answer) (AreVictims txn (waits table.old))) }
    ensures locks { IfOk result (λ answer. (r : RecordId) → locks_at r table.new ≡ without_waits (taken_back txn answer) (locks_at r table.old)) }
    ensures pending { IfOk result (λ answer. (t : TxnId) → is_in t (taken_back txn answer) ≡ false → pending_at t table.new ≡ pending_at t table.old) }
    ensures gone { IfOk result (λ answer. (t : TxnId) → is_in t (taken_back txn answer) ≡ true → pending_at t table.new ≡ None) }
    ensures told { IfOk result HasSomeVictims }
    ensures err { OnErr result ((r : RecordId) → locks_at r table.new ≡ after_cancel txn (locks_at r table.old)) }
    ensures err_pending { OnErr result ((t : TxnId) → pending_at t table.new ≡ (if is_same_txn txn t then place else pending_at t table.old)) }
    ensures free { OnOk result (NoDeadlock table.new) }
    ensures sound { IsLockTable table.new }
{
    if !wait {
        table.cancel(txn);
        return Ok(Requested::NotAvailable { owner });
    }
    match victims_now(alloc, table, txn) {
        Ok(victims) => {
            cancel_each(table, victims.as_slice());
            Ok(answer_of(owner, victims))
        }
        Err(failed) => {
            table.undo_wait(txn, place);
            Err(failed)
        }
    }
}

// Takes back the victims' waits. It takes no memory.
fn cancel_each(table: &mut LockTable, victims: &[(TxnId, List<TxnId>)])
    requires { IsLockTable table.old }
    ensures locks { (r : RecordId) → locks_at r table.new ≡ without_waits (map (λ v. v.0) victims.now) (locks_at r table.old) }
    ensures sound { IsLockTable table.new }
    ensures pending { (t : TxnId) → is_in t (map (λ v. v.0) victims.now) ≡ false → pending_at t table.new ≡ pending_at t table.old }
    ensures gone { (t : TxnId) → is_in t (map (λ v. v.0) victims.now) ≡ true → is_waiting t table.old ≡ true → pending_at t table.new ≡ None }
    ensures kept { (t : TxnId) (r : RecordId) → pending_at t table.new ≡ Some r → pending_at t table.old ≡ Some r }
{
    for victim in victims {
        table.cancel(victim.0);
    }
}

// The victims of a wait that stands.
fn victims_now(
    alloc: Global,
    table: &LockTable,
    txn: TxnId,
) -> Result<List<(TxnId, List<TxnId>)>, AllocError>
    requires { (list : List TxnId) → closes_by (waits table.now) list ≡ true → is_in txn list ≡ true }
    ensures { IfOk result (AreVictims txn (waits table.now)) }
{
    let edges = reach(alloc, table, txn)?;
    victims_of(alloc, edges, txn)
}

// The answer of a request that waits.
fn answer_of(owner: TxnId, victims: List<(TxnId, List<TxnId>)>) -> Requested
    ensures owner { owner_of result ≡ Some owner }
    ensures victims { victims_in result ≡ Some victims }
    ensures taken { (t : TxnId) → taken_back t result ≡ map (λ v. v.0) victims }
    ensures told { HasSomeVictims result }
{
    if victims.is_empty() {
        return Requested::Waiting { owner };
    }
    Requested::Victims { owner, victims }
}
