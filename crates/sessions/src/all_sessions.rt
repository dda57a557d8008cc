// The sessions of an environment.
ghost use Rattle.std.specs.Prelude.{ℕ, ◌≡◌, ◌⊎◌, Bool, ◌++◌, ◌∷◌, [], ◌==◌, None, Some, not, filter, option_map, length, take, true, false, IfOk, OnOk, OnErr};
ghost use Rattle.std.specs.Option.{option_copied, is_some, IfSome, IfNone};
ghost use Rattle.je_order.specs.declared.txn_id.TxnId.{TxnId};
ghost use Rattle.store_model.specs.declared.record_change.RecordChange.{RecordChange};
ghost use Rattle.store_model.specs.declared.need.Need.{Need};
ghost use Rattle.je_answers.specs.declared.active.Active.{Active};
ghost use Rattle.je_answers.specs.declared.wait.Wait.{Wait as WaitingCall};
ghost use Rattle.je_answers.specs.Standing.{Standing, active_of, place_at, wait_of as wait_in};
ghost use Rattle.je_answers.specs.Alone.{Alone, alone};
ghost use Rattle.je_answers.specs.Views.{Target};
ghost use Rattle.je_answers.specs.Refusals.{early_refusal as refusal_of};
ghost use Rattle.je_answers.specs.Locking.{all_got, IsLeastUser, IsUnused, IsAwaited};
ghost use Rattle.je_answers.specs.Events.{resumed as resumed_in, IsReady};
ghost use Rattle.je_answers.specs.After.{ended, moved_to, with_locks};
ghost use Rattle.je_answers.specs.Journal.{first_ready};
ghost use Rattle.standing_laws.specs.Right.{AreSound, AreTables, MayWait};
ghost use Rattle.active_txns.specs.Own.{counted};
ghost use Rattle.open_cursors.specs.Under.{IsUnderIn};
ghost use Rattle.sessions.specs.AtStanding.{AreSessionsAt, with_active, with_own, with_places, without_call, owing as owing_in};
ghost use Rattle.sessions.specs.Taking.{MayAsk, HasTaken, HasStopped, IfReady, IfStopped, AreNeedsOf};

use crate::ending::end_one;
use crate::finding::{forget_for, leave_out, next_ready_in, taken_out, wait_at};
use crate::refusing::early_refusal_in;
use crate::taking::take_for;
use crate::using::{cursor_user_in, lesser_of};
use crate::{NamedDb, Taken};
use active_txns::{ActiveTxns, OwnCounts};
use je_answers::{Active, Wait};
use je_order::{List, Name, TxnId, Word};
use open_cursors::{OpenCursor, OpenCursors};
use std::alloc::{AllocError, Global};
use store_model::{Answer, Call, Durability, Fault, Isolation, Kind, Need};
use txn_locks::CallLocks;

/// The sessions of an environment. It is made once and lives as long as the environment. A session, from 1 to
/// 64, has one transaction at most, and one call that waits at most.
#[derive(Drop)]
pub struct Sessions {
    pub(crate) txns: ActiveTxns,
    pub(crate) locks: CallLocks,
    pub(crate) cursors: OpenCursors,
    pub(crate) waiting: Vec<Wait>,
}

impl Sessions {
    /// No session has a transaction. It takes no memory.
    pub fn new(alloc: Global) -> Sessions
        ensures stands { (p : Alone) → AreSessionsAt result (alone p) }
    {
        Sessions {
            txns: ActiveTxns::new(alloc),
            locks: CallLocks::new(alloc),
            cursors: OpenCursors::new(alloc),
            waiting: Vec::new(alloc),
        }
    }

    /// Whether no transaction is under way.
    pub fn is_empty(&self) -> bool
        ensures { (st : Standing) → AreSessionsAt self.now st → result ≡ (length st.actives == 0) }
    {
        self.txns.is_empty()
    }

    /// The transaction of a session.
    pub fn of_session(&self, session: u8) -> Option<&Active>
        ensures { (st : Standing) → AreSessionsAt self.now st → option_copied result ≡ active_of session st.actives }
    {
        self.txns.of_session(session)
    }

    /// How many changes a transaction has made so far, and how many of them set a name.
    pub fn own(&self, txn: TxnId) -> OwnCounts
        ensures { (st : Standing) → AreSessionsAt self.now st → result ≡ counted (st.own txn.0) }
    {
        self.txns.own(txn)
    }

    /// How many transactions have own changes.
    pub fn owing(&self) -> usize
        ensures { (st : Standing) → AreSessionsAt self.now st → result ≡ owing_in st }
    {
        self.txns.owing()
    }

    /// What refuses a call before anything is asked of a database: a fault, an earlier call that waits, a
    /// transaction that can only be aborted, a call that is only made inside a transaction or only outside.
    /// The only error is out of memory.
    pub fn early_refusal(
        &self,
        fault: Option<Fault>,
        session: u8,
        call: &Call,
    ) -> Result<Option<Answer>, AllocError>
        ensures { IfOk result (λ refusal. (st : Standing) → AreSessionsAt self.now st → fault ≡ st.fault → refusal ≡ refusal_of st session call.now) }
    {
        early_refusal_in(self, fault, session, call)
    }

    /// Begins a transaction of a session, which has none. The only error is out of memory, and nothing is
    /// changed by it.
    pub fn begin(
        &mut self,
        txn: TxnId,
        session: u8,
        level: Isolation,
        durability: Durability,
        waits: bool,
        is_auto: bool,
    ) -> Result<(), AllocError>
        ensures stands { OnOk result ((st : Standing) → AreSessionsAt self.old st → AreSessionsAt self.new (with_active (record { txn = txn; session = session; level = level; durability = durability; waits = waits; is_auto = is_auto; deadlock = None }) st)) }
        ensures err { OnErr result ((st : Standing) → AreSessionsAt self.old st → AreSessionsAt self.new st) }
    {
        self.txns
            .begin(txn, session, level, durability, waits, is_auto)
    }

    /// Takes back the last transaction that was begun, which has changed nothing and has no locks, as where
    /// memory ran out in its first call. It takes no memory.
    pub fn undo_begin(&mut self)
        ensures stands { (st : Standing) (a : Active) → AreSessionsAt self.old (with_active a st) → AreSessionsAt self.new st }
    {
        self.txns.undo_begin();
    }

    /// Ends a session's transaction: how much it changed is forgotten here, its cursors are closed, and its locks
    /// and waits go. It takes no memory.
    pub fn end(&mut self, session: u8, txn: TxnId)
        ensures stands { (st : Standing) (a : Active) → a.session ≡ session → a.txn ≡ txn → AreSessionsAt self.old st → AreSessionsAt self.new (ended a st) }
    {
        end_one(self, session, txn);
    }

    /// Takes the locks that a call of a session's transaction needs, one after another, up to the first that
    /// has another owner in its way. There the call waits, or is answered that the lock is not available, as
    /// the transaction was begun. `resumed` says whether the call had waited before. `db` and `kind` are of
    /// the call's database, and `others` are the primary that it is an index of, if it is one, and then the
    /// indexes of its records. The only error is out of memory, and nothing is changed by it.
    pub fn take(
        &mut self,
        alloc: Global,
        session: u8,
        line: u32,
        call: &Call,
        db: &Word,
        kind: Kind,
        others: &List<NamedDb>,
        needs: Vec<Need>,
        resumed: bool,
    ) -> Result<Taken, AllocError>
        requires may { MayAsk self.old session resumed }
        requires call { MayWait call.now }
        ensures ready { IfOk result (λ taken. IfReady taken ((st : Standing) (a : Active) → st.fault ≡ None → active_of session st.actives ≡ Some a → AreSessionsAt self.old st → HasTaken self.new resumed a needs.items st)) }
        ensures stopped { IfOk result (λ taken. IfStopped taken (λ answer victims. (st : Standing) (a : Active) (g : Target) → st.fault ≡ None → AreNeedsOf st session call.now db.now kind others.now needs.items a g → AreSessionsAt self.old st → HasStopped self.new st a line call.now g answer victims)) }
        ensures err { OnErr result ((st : Standing) → AreSessionsAt self.old st → AreSessionsAt self.new st) }
    {
        take_for(
            self, alloc, session, line, call, db, kind, others, needs, resumed,
        )
    }

    /// Gives back what the level does not keep, once a call that got its needs is answered. It takes no
    /// memory.
    pub fn answered(&mut self, txn: TxnId, level: Isolation, resumed: bool)
        requires { (a : Active) × (needs : List Need) × (st : Standing) × (a.txn ≡ txn) × (a.level ≡ level) × HasTaken self.old resumed a needs st }
        ensures stands { (a : Active) (needs : List Need) (st : Standing) → a.txn ≡ txn → a.level ≡ level → HasTaken self.old resumed a needs st → AreSessionsAt self.new (with_locks a (all_got a.txn needs st.locks.at) st) }
    {
        self.locks.answered(txn, level, resumed);
    }

    /// Gives back all that a call got, which is not answered after all. It takes no memory.
    pub fn give_up(&mut self, txn: TxnId)
        requires { (resumed : Bool) × (a : Active) × (needs : List Need) × (st : Standing) × (a.txn ≡ txn) × HasTaken self.old resumed a needs st }
        ensures stands { (resumed : Bool) (a : Active) (needs : List Need) (st : Standing) → a.txn ≡ txn → HasTaken self.old resumed a needs st → AreSessionsAt self.new st }
    {
        self.locks.give_up(txn);
    }

    /// Counts changes that are put at the end of a transaction's own. The only error is out of memory, or that a
    /// number ends; nothing is changed by it.
    pub fn push_own(&mut self, txn: TxnId, counts: OwnCounts) -> Result<(), AllocError>
        ensures taken { OnOk result ((resumed : Bool) (a : Active) (needs : List Need) (st : Standing) (more : List (ℕ × RecordChange)) → counts ≡ counted more → HasTaken self.old resumed a needs st → HasTaken self.new resumed a needs (with_own txn.0 more st)) }
        ensures err { OnErr result ((resumed : Bool) (a : Active) (needs : List Need) (st : Standing) → HasTaken self.old resumed a needs st → HasTaken self.new resumed a needs st) }
    {
        self.txns.push(txn, counts)
    }

    /// Sets a transaction's counts back to those before its last changes, as where the log did not take these.
    /// It takes no memory.
    pub fn set_back_own(&mut self, txn: TxnId, counts: OwnCounts)
        ensures taken { (resumed : Bool) (a : Active) (needs : List Need) (st : Standing) (more : List (ℕ × RecordChange)) → counts ≡ counted (st.own txn.0) → HasTaken self.old resumed a needs (with_own txn.0 more st) → HasTaken self.new resumed a needs st }
    {
        self.txns.set_back(txn, counts);
    }

    /// How many calls wait.
    pub fn waiting_count(&self) -> usize
        ensures { (st : Standing) → AreSessionsAt self.now st → result ≡ length st.waiting }
    {
        self.waiting.len()
    }

    /// The waiting call of a session.
    pub fn wait_of(&self, session: u8) -> Option<&Wait>
        ensures { (st : Standing) → AreSessionsAt self.now st → option_copied result ≡ wait_in session st.waiting }
    {
        wait_at(self.waiting.as_slice(), session)
    }

    /// Takes out a session's waiting call, which may go on: its wait is forgotten, and the call is to be made
    /// again. It takes no memory.
    pub fn forget(&mut self, session: u8) -> Option<Wait>
        ensures wait { (st : Standing) → AreSessionsAt self.old st → result ≡ wait_in session st.waiting }
        ensures stands { (st : Standing) (w : WaitingCall) → wait_in session st.waiting ≡ Some w → IsReady st.fault st w.txn → AreSessionsAt self.old st → AreSessionsAt self.new (resumed_in st w) }
    {
        let wait = taken_out(&mut self.waiting, session);
        forget_for(&mut self.locks.locks, &wait);
        wait
    }

    /// Takes out a session's waiting call, as where the session ends; its wait goes with its transaction. It
    /// takes no memory.
    pub fn withdraw(&mut self, session: u8)
        ensures stands { (st : Standing) → AreSessionsAt self.old st → AreSessionsAt self.new (without_call session st) }
    {
        leave_out(&mut self.waiting, session);
    }

    /// The session and the line of the first waiting call that may go on: its wait was granted, or the disk
    /// failed.
    pub fn next_ready(&self, has_fault: bool) -> Option<(u8, u32)>
        ensures { (st : Standing) → AreSessionsAt self.now st → has_fault ≡ is_some st.fault → result ≡ option_map (λ w. (w.session, w.line)) (first_ready st) }
    {
        next_ready_in(self, has_fault)
    }

    /// The least transaction that has a lock in a database or a cursor on it, or else one whose call was told to
    /// wait there and has not gone on.
    pub fn user_of(&self, db: u32) -> Option<TxnId>
        ensures none { (st : Standing) → st.fault ≡ None → AreSound st → AreSessionsAt self.now st → IfNone result (IsUnused st db) }
        ensures some { (st : Standing) → st.fault ≡ None → AreSound st → AreSessionsAt self.now st → IfSome result (λ t. IsLeastUser st db t ⊎ IsAwaited st db t) }
    {
        self.locks.locks.have_no_cycle();
        let user = lesser_of(self.locks.locks.holder_in(db), cursor_user_in(self, db));
        match user {
            Some(txn) => Some(txn),
            None => self.locks.locks.waiter_in(db),
        }
    }

    /// A session's cursor, if it is open.
    pub fn cursor(&self, session: u8, cursor: u8) -> Option<&OpenCursor>
        ensures place { (st : Standing) → AreSessionsAt self.now st → option_map (λ c. c.place) (option_copied result) ≡ place_at cursor (st.places session) }
        ensures its { IfSome result (λ c. c.now.session ≡ session) }
        ensures under { (st : Standing) → AreSessionsAt self.now st → IfSome result (λ c. IsUnderIn st.store st.numbers c.now.place.db c.now.name c.now.kind) }
    {
        self.cursors.cursor(session, cursor)
    }

    /// Opens a cursor, whose number its session has not open. The only error is out of memory, and nothing is
    /// changed by it.
    pub fn open_cursor(&mut self, opened: OpenCursor) -> Result<(), AllocError>
        ensures stands { OnOk result ((st : Standing) → AreSessionsAt self.old st → place_at opened.place.cursor (st.places opened.session) ≡ None → IsUnderIn st.store st.numbers opened.place.db opened.name opened.kind
            → AreSessionsAt self.new (with_places opened.session (st.places opened.session ++ opened.place ∷ []) st)) }
        ensures err { OnErr result ((st : Standing) → AreSessionsAt self.old st → AreSessionsAt self.new st) }
    {
        self.cursors.open(opened)
    }

    /// A copy of a session's cursor with the number `to`, if it is open. The only error is out of memory.
    pub fn copied_cursor(
        &self,
        session: u8,
        cursor: u8,
        to: u8,
    ) -> Result<Option<OpenCursor>, AllocError>
        ensures place { IfOk result (λ copy. (st : Standing) → AreSessionsAt self.now st → option_map (λ c. c.place) copy ≡ option_map (λ p. record { cursor = to; db = p.db; at = p.at }) (place_at cursor (st.places session))) }
        ensures its { IfOk result (λ copy. IfSome copy (λ c. c.session ≡ session)) }
        ensures under { IfOk result (λ copy. (st : Standing) → AreSessionsAt self.now st → IfSome copy (λ c. IsUnderIn st.store st.numbers c.place.db c.name c.kind)) }
    {
        self.cursors.copied(session, cursor, to)
    }

    /// Closes a session's cursor. It takes no memory.
    pub fn close_cursor(&mut self, session: u8, cursor: u8)
        ensures stands { (st : Standing) → AreSessionsAt self.old st → AreSessionsAt self.new (with_places session (filter (λ p. not (p.cursor == cursor)) (st.places session)) st) }
    {
        self.cursors.close(session, cursor);
    }

    /// Moves a session's cursor to a record, once a call that got its needs is answered so. It takes no memory.
    pub fn move_cursor(&mut self, session: u8, cursor: u8, at: Option<Name>)
        ensures stands { (st : Standing) → AreSessionsAt self.old st → AreSessionsAt self.new (with_places session (moved_to cursor at (st.places session)) st) }
    {
        self.cursors.move_to(session, cursor, at);
    }

    /// Owners never conflict, and whoever waits was told so: for those who reason above the sessions. It does
    /// nothing.
    pub fn have_tables(&self)
        ensures { (st : Standing) → st.fault ≡ None → AreSessionsAt self.now st → AreTables st.locks }
    {
        self.locks.locks.have_no_cycle();
    }
}
