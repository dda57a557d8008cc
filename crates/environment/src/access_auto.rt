// A call on records that is a transaction of its own, among others.
ghost use Rattle.std.specs.Prelude.{◌≡◌, ◌≤◌, ◌+◌, None, ℕ, List as Lists, OnErr, IfOk, true};
ghost use Rattle.store_model.specs.declared.call.Call.{Call as Asked};
ghost use Rattle.store_model.specs.declared.need.Need.{Need};
ghost use Rattle.store_model.specs.declared.store.TheConstants.{LAST_DATABASE};
ghost use Rattle.store_model.specs.Refusals.{next_txn};
ghost use Rattle.je_answers.specs.Standing.{Standing, active_of};
ghost use Rattle.je_answers.specs.Refusals.{early_refusal};
ghost use Rattle.je_answers.specs.Views.{Target, needs_in, with_numbers};
ghost use Rattle.je_answers.specs.Locking.{all_got};
ghost use Rattle.je_answers.specs.Events.{auto_active, begun};
ghost use Rattle.je_answers.specs.After.{ended, with_locks};
ghost use Rattle.sessions.specs.AtStanding.{AreSessionsAt, owing};
ghost use Rattle.sessions.specs.Taking.{HasTaken};
ghost use Rattle.engine.specs.Limits.{IsWithin};
ghost use Rattle.standing_laws.specs.Right.{AreSound, MayWait};
ghost use Rattle.environment.specs.Access.{IsFoundFor, IsOnDb, IsPlannedFor};
ghost use Rattle.environment.specs.Auto.{IsAutoAt, IsLoggedAuto, IsNamedAs, IsPlannedAuto, IsTakenAuto, changes_auto, outcome_auto, with_sessions};
ghost use Rattle.environment.specs.Calls.{HasCause, IsOnRecords};
ghost use Rattle.environment.specs.Changing.{MayMake};
ghost use Rattle.environment.specs.Steps.{ComesTo, MayCall, StandsAt};
ghost use Rattle.environment.specs.Whole.{CanGoOn, disk_of, reach_of};

use crate::auto_plan::log_of;
use crate::call_plan::CallPlan;
use crate::calling::told;
use crate::environment::Environment;
use crate::outcome::Outcome;
use db_catalog::FoundDb;
use je_disk::Disk;
use je_order::{List, TxnId, Word};
use record_tree::Records;
use sessions::{NamedDb, Sessions, Taken};
use std::alloc::{AllocError, Global};
use store_model::{Answer, Call, Durability, Isolation, Kind, Need, RecordChange};
use txn_core::{Planned, PlannedChanges};
use txn_views::TargetPlan;

impl<D: Disk> Environment<D> {
    // Makes a call on records of a session without a transaction: its own one begins with it, and ends unless it waits.
    pub(crate) fn access_auto(
        &mut self,
        alloc: Global,
        session: u8,
        line: u32,
        db: &Word,
        found: FoundDb,
        call: &Call,
    ) -> Result<Outcome, AllocError>
        requires here { (most : ℕ) × (st : Standing) × (g : Target) × StandsAt most D.meaning self.old st × AreSound st × (early_refusal st session call.now ≡ None) × IsFoundFor st session call.now db.now found None g × MayCall st session true × (active_of session st.actives ≡ None) }
        requires bounds { CanGoOn self.old }
        requires call { IsOnRecords db.now call.now }
        requires valid { self.old.engine.kept.fault ≡ None }
        ensures comes { (most : ℕ) (st : Standing) (g : Target) → StandsAt most D.meaning self.old st → AreSound st → early_refusal st session call.now ≡ None → MayCall st session true
            → IsFoundFor st session call.now db.now found None g → active_of session st.actives ≡ None → ComesTo D.meaning most self.old self.new st session line call.now result }
        ensures near { OnErr result (IsWithin (reach_of self.new) (reach_of self.old)) }
        ensures bounds { CanGoOn self.new }
        ensures cause { HasCause (D.meaning.faults (disk_of self.old)) (D.meaning.faults (disk_of self.new)) result }
    {
        if self.sessions.is_empty() {
            return self.access_alone(alloc, db, found, call);
        }
        let owed = self.owed_with_one()?;
        let CallPlan { target, others } = self.plan_auto(alloc, db, found, call)?;
        let TargetPlan {
            answer,
            changes,
            needs,
            place,
        } = target;
        drop(place);
        let planned = self.log_planned(alloc, answer, changes)?;
        self.run_auto(
            alloc, session, line, db, found.kind, call, planned, &others, needs, owed,
        )
    }

    // What the call comes to where it gets its locks, and the locks.
    fn plan_auto(
        &self,
        alloc: Global,
        db: &Word,
        found: FoundDb,
        call: &Call,
    ) -> Result<CallPlan, AllocError>
        requires here { (most session : ℕ) × (st : Standing) × (g : Target) × IsAutoAt most D.meaning self.now st session call.now g × IsOnDb st db.now found g }
        ensures plans { (most session : ℕ) (st : Standing) (g : Target) → IsAutoAt most D.meaning self.now st session call.now g → IsOnDb st db.now found g
            → IfOk result (IsPlannedFor (begun st session) (auto_active st session) call.now g) }
        ensures may { (most session : ℕ) (st : Standing) (g : Target) → IsAutoAt most D.meaning self.now st session call.now g → IsOnDb st db.now found g
            → MayMake st (changes_auto st session call.now g) }
    {
        let txn = TxnId(self.engine.kept.last_txn + 1);
        self.engine.trees.are_ordered();
        self.plan(alloc, txn, Isolation::RepeatableRead, db, found, call, None)
    }

    // What the call logs where it changes something, or else its answer.
    pub(crate) fn log_planned(
        &self,
        alloc: Global,
        answer: Answer,
        changes: Vec<(u32, RecordChange)>,
    ) -> Result<Planned, AllocError>
        ensures plans { (most session : ℕ) (st : Standing) (call : Asked) (g : Target) → IsAutoAt most D.meaning self.now st session call g → MayMake st (changes_auto st session call g)
            → answer ≡ (outcome_auto st session call g).answer → changes.items ≡ with_numbers (changes_auto st session call g) → IfOk result (IsPlannedAuto self.now.engine st session call g) }
    {
        if changes.is_empty() {
            drop(changes);
            return Ok(Planned::Answered(answer));
        }
        drop(answer);
        is_number(self.engine.kept.last_db);
        match log_of(&self.engine.trees, alloc, &self.engine.kept, changes) {
            Ok(planned) => Ok(Planned::Logs(planned)),
            Err(error) => Err(error),
        }
    }

    // How many Commits are owed with that of a call more.
    fn owed_with_one(&self) -> Result<u32, AllocError>
        ensures { IfOk result (λ owed. (st : Standing) → AreSessionsAt self.now.sessions st → owed ≡ owing st + 1) }
    {
        let owing = self.sessions.owing();
        if u32::MAX as usize <= owing {
            return Err(AllocError);
        }
        Ok(owing as u32 + 1)
    }

    // Begins the transaction, takes its locks, and goes on; or waits.
    fn run_auto(
        &mut self,
        alloc: Global,
        session: u8,
        line: u32,
        db: &Word,
        kind: Kind,
        call: &Call,
        planned: Planned,
        others: &List<NamedDb>,
        needs: Vec<Need>,
        owed: u32,
    ) -> Result<Outcome, AllocError>
        requires here { (most : ℕ) × (st : Standing) × (g : Target) × IsAutoAt most D.meaning self.old st session call.now g × IsPlannedAuto self.old.engine st session call.now g planned × (needs.items ≡ needs_in (begun st session) (auto_active st session) call.now g) × (owed ≡ owing st + 1) × IsNamedAs db.now kind others.now g }
        requires bounds { CanGoOn self.old }
        requires call { MayWait call.now }
        ensures comes { (most : ℕ) (st : Standing) (g : Target) → IsAutoAt most D.meaning self.old st session call.now g → IsNamedAs db.now kind others.now g → IsPlannedAuto self.old.engine st session call.now g planned
            → needs.items ≡ needs_in (begun st session) (auto_active st session) call.now g → owed ≡ owing st + 1 → ComesTo D.meaning most self.old self.new st session line call.now result }
        ensures bounds { CanGoOn self.new }
        ensures cause { HasCause (D.meaning.faults (disk_of self.old)) (D.meaning.faults (disk_of self.new)) result }
    {
        let last = self.engine.kept.last_txn;
        let txn = TxnId(last + 1);
        self.sessions.begin(
            txn,
            session,
            Isolation::RepeatableRead,
            Durability::Sync,
            true,
            true,
        )?;
        match self
            .sessions
            .take(alloc, session, line, call, db, kind, others, needs, true)
        {
            Ok(Taken::Ready) => self.go_auto(alloc, session, txn, planned, owed),
            Ok(Taken::Stopped { answer, victims }) => {
                drop(planned);
                self.engine.kept.last_txn = last + 1;
                Ok(Outcome { answer, victims })
            }
            Err(error) => {
                drop(planned);
                self.sessions.undo_begin();
                Err(error)
            }
        }
    }

    // Answers the call, which got its locks.
    fn go_auto(
        &mut self,
        alloc: Global,
        session: u8,
        txn: TxnId,
        planned: Planned,
        owed: u32,
    ) -> Result<Outcome, AllocError>
        requires here { (most : ℕ) × (s : Sessions) × (st : Standing) × (call : Asked) × (g : Target) × IsAutoAt most D.meaning (with_sessions s self.old) st session call g × IsPlannedAuto self.old.engine st session call g planned × IsTakenAuto self.old st session call g × (txn.0 ≡ next_txn st.last_txn) × (owed ≡ owing st + 1) }
        requires bounds { CanGoOn self.old }
        ensures comes { (most : ℕ) (s : Sessions) (st : Standing) (line : ℕ) (call : Asked) (g : Target) → IsAutoAt most D.meaning (with_sessions s self.old) st session call g → IsPlannedAuto self.old.engine st session call g planned
            → IsTakenAuto self.old st session call g → txn.0 ≡ next_txn st.last_txn → owed ≡ owing st + 1
            → ComesTo D.meaning most (with_sessions s self.old) self.new st session line call result }
        ensures bounds { CanGoOn self.new }
        ensures cause { HasCause (D.meaning.faults (disk_of self.old)) (D.meaning.faults (disk_of self.new)) result }
    {
        match planned {
            Planned::Answered(answer) => {
                close_auto(&mut self.sessions, session, txn);
                self.engine.kept.last_txn += 1;
                Ok(told(alloc, answer))
            }
            Planned::Logs(planned) => self.log_auto(alloc, session, txn, planned, owed),
            Planned::Fills(_) => unreachable!(),
        }
    }

    // Logs what the call changes, with its Commit.
    fn log_auto(
        &mut self,
        alloc: Global,
        session: u8,
        txn: TxnId,
        planned: PlannedChanges,
        owed: u32,
    ) -> Result<Outcome, AllocError>
        requires here { (most : ℕ) × (s : Sessions) × (st : Standing) × (call : Asked) × (g : Target) × IsAutoAt most D.meaning (with_sessions s self.old) st session call g × IsLoggedAuto self.old.engine st session call g planned × IsTakenAuto self.old st session call g × (txn.0 ≡ next_txn st.last_txn) × (owed ≡ owing st + 1) }
        requires bounds { CanGoOn self.old }
        ensures comes { (most : ℕ) (s : Sessions) (st : Standing) (line : ℕ) (call : Asked) (g : Target) → IsAutoAt most D.meaning (with_sessions s self.old) st session call g → IsLoggedAuto self.old.engine st session call g planned
            → IsTakenAuto self.old st session call g → txn.0 ≡ next_txn st.last_txn → owed ≡ owing st + 1
            → ComesTo D.meaning most (with_sessions s self.old) self.new st session line call result }
        ensures bounds { CanGoOn self.new }
        ensures cause { HasCause (D.meaning.faults (disk_of self.old)) (D.meaning.faults (disk_of self.new)) result }
    {
        is_number(self.engine.kept.last_db);
        self.engine.trees.are_ordered();
        match self.engine.log_among(alloc, planned, owed) {
            Ok(Answer::DiskFault) => {
                undo_auto(&mut self.sessions, txn);
                Ok(told(alloc, Answer::DiskFault))
            }
            Ok(answer) => {
                close_auto(&mut self.sessions, session, txn);
                Ok(told(alloc, answer))
            }
            Err(error) => {
                undo_auto(&mut self.sessions, txn);
                Err(error)
            }
        }
    }
}

// A database's number is no greater than the last one.
pub(crate) fn is_number(number: u32)
    ensures { number ≤ LAST_DATABASE }
{}

// Ends the transaction of a call that got its locks.
fn close_auto(sessions: &mut Sessions, session: u8, txn: TxnId)
    requires taken { (st : Standing) × (needs : Lists Need) × (txn ≡ (auto_active st session).txn) × HasTaken sessions.old true (auto_active st session) needs (begun st session) }
    ensures { (st : Standing) (needs : Lists Need) → txn ≡ (auto_active st session).txn → HasTaken sessions.old true (auto_active st session) needs (begun st session)
        → AreSessionsAt sessions.new (ended (auto_active st session) (with_locks (auto_active st session) (all_got (auto_active st session).txn needs st.locks.at) (begun st session))) }
{
    sessions.answered(txn, Isolation::RepeatableRead, true);
    sessions.end(session, txn);
}

// Takes it back, as if it had not begun.
fn undo_auto(sessions: &mut Sessions, txn: TxnId)
    requires taken { (session : ℕ) × (st : Standing) × (needs : Lists Need) × (txn ≡ (auto_active st session).txn) × HasTaken sessions.old true (auto_active st session) needs (begun st session) }
    ensures { (session : ℕ) (st : Standing) (needs : Lists Need) → txn ≡ (auto_active st session).txn → HasTaken sessions.old true (auto_active st session) needs (begun st session) → AreSessionsAt sessions.new st }
{
    sessions.give_up(txn);
    sessions.undo_begin();
}
