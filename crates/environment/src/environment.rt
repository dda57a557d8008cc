// An open environment.
ghost use Rattle.std.specs.Prelude.{◌≡◌, ◌≤◌, ◌++◌, ◌∷◌, [], ℕ, List, Option, None, Some, is_some, true, IfSome, IfOk, IsNone, OnErr, if◌then◌else◌, option_map, length};
ghost use Rattle.je_order.specs.Counts.{HasRisen};
ghost use Rattle.je_disk.specs.Moments.{History, now};
ghost use Rattle.store_model.specs.declared.answer.Answer.{Answer as Answered};
ghost use Rattle.store_model.specs.declared.event.Event.{Event};
ghost use Rattle.store_model.specs.declared.event.Event.TheVariants.{SyncEnd};
ghost use Rattle.je_answers.specs.Standing.{Standing, active_of};
ghost use Rattle.je_answers.specs.After.{after_event, after_events};
ghost use Rattle.je_answers.specs.Events.{IsAnswered};
ghost use Rattle.je_answers.specs.Journal.{attempt_of, durability_of as durability_in, first_ready};
ghost use Rattle.txn_core.specs.Totals.{totals_of};
ghost use Rattle.serial_replay.specs.Laws.{IsIndexedAt};
ghost use Rattle.engine.specs.Limits.{IsWithin, reach_after};
ghost use Rattle.engine.specs.Steps.{IsNumbered};
ghost use Rattle.environment.specs.Calls.{HasCause, MayResume, called};
ghost use Rattle.environment.specs.Limits.{owing_after, written_call};
ghost use Rattle.environment.specs.Steps.{Appends};
ghost use Rattle.environment.specs.Whole.{BeginsSafely, BeginsSync, CanGoOn, EndsSync, GoesOn, GoesOnSafely, HasLimit, IsAt, IsGuarded, disk_of, reach_of};

use crate::outcome::Outcome;
use crate::written::Written;
use engine::Engine;
use je_disk::{Disk, SyncJob};
use sessions::Sessions;
use std::alloc::{AllocError, Global};
use store_model::{Answer, Call, Durability, Fault, Totals};

/// An open environment, with the transactions of its sessions. It is made by `open`, answers calls by `step`, goes
/// on with calls that waited by `resume`, makes commits durable by `sync_begin` and `sync_end`, and ends by
/// `close`.
pub struct Environment<D> {
    // The log and the trees.
    pub(crate) engine: Engine<D>,
    // The transactions, their locks, and the calls that wait.
    pub(crate) sessions: Sessions,
    // What the transactions wrote.
    pub(crate) written: Written,
}

impl<D: Disk> Environment<D> {
    /// Answers a session's call, and logs what it changes. Running out of memory leaves the environment as it
    /// was.
    pub fn step(
        &mut self,
        alloc: Global,
        session: u8,
        line: u32,
        call: &Call,
    ) -> Result<Outcome, AllocError>
        requires here { (most : ℕ) × (st : Standing) × IsAt most D.meaning.observable (now (D.meaning.history (disk_of self.old))) self.old st }
        requires bounds { CanGoOn self.old }
        ensures goes_on { (most : ℕ) (st : Standing) → IsAt most D.meaning.observable (now (D.meaning.history (disk_of self.old))) self.old st
            → GoesOn most D.meaning.observable (now (D.meaning.history (disk_of self.new))) self.old self.new st (called session line call.now) st result }
        ensures exact { (most : ℕ) (st : Standing) → IsAt most D.meaning.observable (now (D.meaning.history (disk_of self.old))) self.old st
            → IfOk result (λ o. (limit : Option Answered) × HasLimit self.old (owing_after st session) (written_call st session call.now) limit × IsAnswered limit st (called session line call.now o)) }
        ensures numbered { (most : ℕ) (st : Standing) → IsAt most D.meaning.observable (now (D.meaning.history (disk_of self.old))) self.old st
            → IfOk result (λ o. IsNumbered o.answer (after_event st (called session line call.now o)).commits) }
        ensures grows { (most : ℕ) (st : Standing) → IsAt most D.meaning.observable (now (D.meaning.history (disk_of self.old))) self.old st
            → IsWithin (reach_of self.new) (reach_after (reach_of self.old) (written_call st session call.now)) }
        ensures bounds { CanGoOn self.new }
        ensures crash { D.meaning.observable ≡ true → (most : ℕ) (st : Standing) (start : History) (journal : List Event)
            → IsAt most D.meaning.observable (now (D.meaning.history (disk_of self.old))) self.old (after_events st journal)
            → IsGuarded most st start (D.meaning.history (disk_of self.old)) self.old journal
            → GoesOnSafely most st start (D.meaning.history (disk_of self.new)) self.new journal (called session line call.now) journal result }
        ensures appends { (most : ℕ) (st : Standing) → IsAt most D.meaning.observable (now (D.meaning.history (disk_of self.old))) self.old st
            → IfOk result (λ o. Appends D.meaning self.old self.new (written_call st session call.now) (attempt_of st (called session line call.now o)) o.answer) }
        ensures same_reach { OnErr result (IsWithin (reach_of self.new) (reach_of self.old)) }
        ensures cause { HasCause (D.meaning.faults (disk_of self.old)) (D.meaning.faults (disk_of self.new)) result }
    {
        self.answer(alloc, session, line, call)
    }

    /// The first call that waits and may go on: its session, and the line that gave it.
    pub fn next_ready(&self) -> Option<(u8, u32)>
        requires here { (most : ℕ) × (st : Standing) × IsAt most D.meaning.observable (now (D.meaning.history (disk_of self.now))) self.now st }
        ensures first { (most : ℕ) (st : Standing) → IsAt most D.meaning.observable (now (D.meaning.history (disk_of self.now))) self.now st
            → result ≡ option_map (λ w. (w.session, w.line)) (first_ready st) }
        ensures may { (most : ℕ) (st : Standing) → IsAt most D.meaning.observable (now (D.meaning.history (disk_of self.now))) self.now st
            → IfSome result (λ p. MayResume st p.0 p.1) }
    {
        self.sessions.next_ready(self.engine.kept.fault.is_some())
    }

    /// How many calls wait.
    pub fn waiting_count(&self) -> usize
        ensures { (most : ℕ) (st : Standing) → IsAt most D.meaning.observable (now (D.meaning.history (disk_of self.now))) self.now st → result ≡ length st.waiting }
    {
        self.sessions.waiting_count()
    }

    /// What the commits of a session wait for.
    pub fn durability_of(&self, session: u8) -> Durability
        ensures { (most : ℕ) (st : Standing) → IsAt most D.meaning.observable (now (D.meaning.history (disk_of self.now))) self.now st
            → result ≡ durability_in (active_of session st.actives) }
    {
        match self.sessions.of_session(session) {
            Some(active) => active.durability,
            None => Durability::Sync,
        }
    }

    /// Whether a session has a transaction.
    pub fn has_transaction(&self, session: u8) -> bool
        ensures { (most : ℕ) (st : Standing) → IsAt most D.meaning.observable (now (D.meaning.history (disk_of self.now))) self.now st
            → result ≡ is_some (active_of session st.actives) }
    {
        self.sessions.of_session(session).is_some()
    }

    /// Why the environment is invalid, if it is.
    pub fn fault(&self) -> Option<Fault>
        ensures { (most : ℕ) (st : Standing) → IsAt most D.meaning.observable (now (D.meaning.history (disk_of self.now))) self.now st → result ≡ st.fault }
    {
        self.engine.kept.fault
    }

    /// How many transactions were committed since the opening.
    pub fn commits(&self) -> u64
        ensures { (most : ℕ) (st : Standing) → IsAt most D.meaning.observable (now (D.meaning.history (disk_of self.now))) self.now st → result ≡ st.commits }
    {
        self.engine.kept.commits
    }

    /// The number of the sync job that is out, if one is.
    pub fn sync_out(&self) -> Option<u64>
        ensures { result ≡ D.meaning.sync_out (disk_of self.now) }
    {
        self.engine.trees.log.disk().sync_out()
    }

    /// Begins a sync of the commits so far: the log is written out, and the job is to be run. None where
    /// the disk failed. It takes no memory.
    pub fn sync_begin(&mut self) -> Option<D::Job>
        ensures begins { (most : ℕ) (st : Standing) → IsAt most D.meaning.observable (now (D.meaning.history (disk_of self.old))) self.old st → st.fault ≡ None
            → BeginsSync most D.meaning.observable (now (D.meaning.history (disk_of self.new))) self.new st (if is_some result then Answer.Done else Answer.DiskFault) }
        ensures crash { D.meaning.observable ≡ true → (most : ℕ) (st : Standing) (start : History) (journal : List Event)
            → (after_events st journal).fault ≡ None → IsGuarded most st start (D.meaning.history (disk_of self.old)) self.old journal
            → BeginsSafely most st start (D.meaning.history (disk_of self.new)) self.new journal (is_some result) }
        ensures within { IsWithin (reach_of self.new) (reach_of self.old) }
        ensures out { IfSome result (λ job. D.meaning.sync_out (disk_of self.new) ≡ Some (D.Job.job_number job)) }
        ensures bounds { CanGoOn self.old → CanGoOn self.new }
        ensures never_falls { D.meaning.faults (disk_of self.old) ≤ D.meaning.faults (disk_of self.new) }
        ensures cause { (most : ℕ) (st : Standing) → IsAt most D.meaning.observable (now (D.meaning.history (disk_of self.old))) self.old st → st.fault ≡ None → IsNone result → HasRisen (D.meaning.faults (disk_of self.old)) (D.meaning.faults (disk_of self.new)) }
    {
        match self.engine.trees.log.sync_begin() {
            Ok(job) => Some(job),
            Err(_) => {
                self.engine.kept.fault = Some(Fault::Disk);
                None
            }
        }
    }

    /// Ends the sync that is out: the commits before its beginning are durable, or the disk failed. It
    /// takes no memory. `begun` is what `commits` was as it began, whatever was committed since.
    pub fn sync_end(&mut self, done: <D::Job as SyncJob>::Done, begun: u64) -> Answer
        requires { D.meaning.sync_out (disk_of self.old) ≡ Some (D.Job.Done.done_number done) }
        ensures ends { (most : ℕ) (st : Standing) → IsAt most D.meaning.observable (now (D.meaning.history (disk_of self.old))) self.old st → st.fault ≡ None → st.begun ≡ Some begun
            → EndsSync most D.meaning.observable (now (D.meaning.history (disk_of self.new))) self.new st result }
        ensures crash { D.meaning.observable ≡ true → (most : ℕ) (st : Standing) (start : History) (journal : List Event)
            → IsAt most D.meaning.observable (now (D.meaning.history (disk_of self.old))) self.old (after_events st journal) → (after_events st journal).fault ≡ None → (after_events st journal).begun ≡ Some begun
            → IsGuarded most st start (D.meaning.history (disk_of self.old)) self.old journal
            → IsGuarded most st start (D.meaning.history (disk_of self.new)) self.new (journal ++ SyncEnd result ∷ []) }
        ensures within { IsWithin (reach_of self.new) (reach_of self.old) }
        ensures bounds { CanGoOn self.old → CanGoOn self.new }
        ensures never_falls { D.meaning.faults (disk_of self.old) ≤ D.meaning.faults (disk_of self.new) }
        ensures cause { (most : ℕ) (st : Standing) → IsAt most D.meaning.observable (now (D.meaning.history (disk_of self.old))) self.old st → st.fault ≡ None → result ≡ Answer.DiskFault → HasRisen (D.meaning.faults (disk_of self.old)) (D.meaning.faults (disk_of self.new)) }
    {
        match self.engine.trees.log.sync_end(done) {
            Ok(()) => Answer::Durable { commit: begun },
            Err(_) => {
                self.engine.kept.fault = Some(Fault::Disk);
                Answer::DiskFault
            }
        }
    }

    /// How many databases and records the committed store has.
    pub fn totals(&self) -> Totals
        ensures { (most : ℕ) (st : Standing) → IsAt most D.meaning.observable (now (D.meaning.history (disk_of self.now))) self.now st → result ≡ totals_of st.store }
    {
        self.engine.kept.totals
    }

    /// Each index of the committed store has the pairs of its primary's records, and until a fault so it has in
    /// what each transaction sees. This holds from the opening on, after each event.
    pub fn indexes_are_right(&self)
        ensures { (most : ℕ) (st : Standing) → IsAt most D.meaning.observable (now (D.meaning.history (disk_of self.now))) self.now st → IsIndexedAt st }
    {}
}
