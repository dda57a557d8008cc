// A waiting call goes on.
ghost use Rattle.std.specs.Prelude.{◌≡◌, ◌++◌, ◌∷◌, [], ℕ, List, Option, None, Some, true, Ok, IfOk, OnErr};
ghost use Rattle.je_disk.specs.Moments.{History, now};
ghost use Rattle.store_model.specs.declared.answer.Answer.{Answer as Answered};
ghost use Rattle.store_model.specs.declared.event.Event.{Event};
ghost use Rattle.store_model.specs.declared.event.Event.TheVariants.{End};
ghost use Rattle.je_answers.specs.Standing.{Standing, wait_of};
ghost use Rattle.je_answers.specs.After.{after_event, after_events};
ghost use Rattle.je_answers.specs.Events.{IsAnswered, resumed};
ghost use Rattle.je_answers.specs.Journal.{attempt_of};
ghost use Rattle.standing_laws.specs.Right.{AreSound};
ghost use Rattle.engine.specs.Limits.{IsWithin, reach_after};
ghost use Rattle.engine.specs.Steps.{IsNumbered};
ghost use Rattle.environment.specs.Calls.{HasCause, MayResume, SettlesBy, resumed_by};
ghost use Rattle.environment.specs.Limits.{owing_after, written_resumed};
ghost use Rattle.environment.specs.Resuming.{GoesAgain, MayGoOn, ResumesCall};
ghost use Rattle.environment.specs.Steps.{Appends, CallsTo, MayCall, StandsAt};
ghost use Rattle.environment.specs.Whole.{CanGoOn, GoesOn, GoesOnSafely, HasLimit, IsAt, IsGuarded, disk_of, reach_of};

use crate::calling::told;
use crate::environment::Environment;
use crate::outcome::Outcome;
use je_answers::Wait;
use je_disk::Disk;
use std::alloc::{AllocError, Global};
use store_model::{Answer, Call, Fault};

impl<D: Disk> Environment<D> {
    /// Goes on with a session's call that waited and may go on. Where memory runs out, the session is ended: its
    /// call is withdrawn, and its transaction aborted.
    pub fn resume(&mut self, alloc: Global, session: u8) -> Result<Outcome, AllocError>
        requires here { (most : ℕ) × (st : Standing) × (line : ℕ) × IsAt most D.meaning.observable (now (D.meaning.history (disk_of self.old))) self.old st × MayResume st session line }
        requires bounds { CanGoOn self.old }
        ensures goes_on { (most : ℕ) (st : Standing) (line : ℕ) → IsAt most D.meaning.observable (now (D.meaning.history (disk_of self.old))) self.old st → MayResume st session line
            → GoesOn most D.meaning.observable (now (D.meaning.history (disk_of self.new))) self.old self.new st (resumed_by session line) (after_event st (End session)) result }
        ensures exact { (most : ℕ) (st : Standing) (line : ℕ) → IsAt most D.meaning.observable (now (D.meaning.history (disk_of self.old))) self.old st → MayResume st session line
            → IfOk result (λ o. (limit : Option Answered) × HasLimit self.old (owing_after st session) (written_resumed (wait_of session st.waiting) st session) limit × IsAnswered limit st (resumed_by session line o)) }
        ensures numbered { (most : ℕ) (st : Standing) (line : ℕ) → IsAt most D.meaning.observable (now (D.meaning.history (disk_of self.old))) self.old st → MayResume st session line
            → IfOk result (λ o. IsNumbered o.answer (after_event st (resumed_by session line o)).commits) }
        ensures grows { (most : ℕ) (st : Standing) (line : ℕ) → IsAt most D.meaning.observable (now (D.meaning.history (disk_of self.old))) self.old st → MayResume st session line
            → IsWithin (reach_of self.new) (reach_after (reach_of self.old) (written_resumed (wait_of session st.waiting) st session)) }
        ensures bounds { CanGoOn self.new }
        ensures crash { D.meaning.observable ≡ true → (most : ℕ) (st : Standing) (start : History) (journal : List Event) (line : ℕ)
            → IsAt most D.meaning.observable (now (D.meaning.history (disk_of self.old))) self.old (after_events st journal) → MayResume (after_events st journal) session line
            → IsGuarded most st start (D.meaning.history (disk_of self.old)) self.old journal
            → GoesOnSafely most st start (D.meaning.history (disk_of self.new)) self.new journal (resumed_by session line) (journal ++ End session ∷ []) result }
        ensures appends { (most : ℕ) (st : Standing) (line : ℕ) → IsAt most D.meaning.observable (now (D.meaning.history (disk_of self.old))) self.old st → MayResume st session line
            → IfOk result (λ o. Appends D.meaning self.old self.new (written_resumed (wait_of session st.waiting) st session) (attempt_of st (resumed_by session line o)) o.answer) }
        ensures same_reach { OnErr result (IsWithin (reach_of self.new) (reach_of self.old)) }
        ensures settles { (most : ℕ) (st : Standing) (line : ℕ) → IsAt most D.meaning.observable (now (D.meaning.history (disk_of self.old))) self.old st → MayResume st session line
            → SettlesBy st (resumed_by session line) (End session) result }
        ensures cause { HasCause (D.meaning.faults (disk_of self.old)) (D.meaning.faults (disk_of self.new)) result }
    {
        self.go_on(alloc, session)
    }

    // Goes on with a waiting call.
    fn go_on(&mut self, alloc: Global, session: u8) -> Result<Outcome, AllocError>
        requires here { (most : ℕ) × (st : Standing) × (line : ℕ) × IsAt most D.meaning.observable (now (D.meaning.history (disk_of self.old))) self.old st × MayResume st session line }
        requires bounds { CanGoOn self.old }
        ensures resumes { ResumesCall D.meaning self.old self.new session result }
        ensures bounds { CanGoOn self.new }
        ensures cause { HasCause (D.meaning.faults (disk_of self.old)) (D.meaning.faults (disk_of self.new)) result }
    {
        if let Some(first) = self.engine.kept.fault {
            return Ok(self.resume_invalid(alloc, session, first));
        }
        self.resume_valid(alloc, session)
    }

    // After a fault a waiting call is answered at once.
    fn resume_invalid(&mut self, alloc: Global, session: u8, first: Fault) -> Outcome
        requires fault { self.old.engine.kept.fault ≡ Some first }
        ensures resumes { ResumesCall D.meaning self.old self.new session (Ok result) }
        ensures answer { result.answer ≡ Answer.Invalid first }
        ensures kept { self.new.engine ≡ self.old.engine }
    {
        let wait = self.sessions.forget(session);
        drop(wait);
        told(alloc, Answer::Invalid { first })
    }

    // Goes on with a waiting call of a valid environment.
    fn resume_valid(&mut self, alloc: Global, session: u8) -> Result<Outcome, AllocError>
        requires here { (most : ℕ) × (st : Standing) × (line : ℕ) × IsAt most D.meaning.observable (now (D.meaning.history (disk_of self.old))) self.old st × MayResume st session line }
        requires bounds { CanGoOn self.old }
        requires valid { self.old.engine.kept.fault ≡ None }
        ensures resumes { ResumesCall D.meaning self.old self.new session result }
        ensures bounds { CanGoOn self.new }
        ensures cause { HasCause (D.meaning.faults (disk_of self.old)) (D.meaning.faults (disk_of self.new)) result }
    {
        match self.sessions.forget(session) {
            Some(wait) => self.again(alloc, session, wait),
            None => unreachable!(),
        }
    }

    // Makes a call again that waited, and that the sessions no longer have among those that wait. Where memory runs out
    // its session is ended.
    fn again(&mut self, alloc: Global, session: u8, wait: Wait) -> Result<Outcome, AllocError>
        requires here { (most : ℕ) × (st : Standing) × StandsAt most D.meaning self.old (resumed st wait) × MayGoOn st session wait }
        requires bounds { CanGoOn self.old }
        requires valid { self.old.engine.kept.fault ≡ None }
        ensures again { (most : ℕ) (st : Standing) → StandsAt most D.meaning self.old (resumed st wait) → MayGoOn st session wait
            → GoesAgain D.meaning most self.old self.new st wait session result }
        ensures near { OnErr result (IsWithin (reach_of self.new) (reach_of self.old)) }
        ensures bounds { CanGoOn self.new }
        ensures cause { HasCause (D.meaning.faults (disk_of self.old)) (D.meaning.faults (disk_of self.new)) result }
    {
        let result = self.call_again(alloc, session, wait.line, &wait.call);
        drop(wait);
        match result {
            Ok(outcome) => Ok(outcome),
            Err(error) => {
                self.leave(session);
                Err(error)
            }
        }
    }

    // Makes a call again, unless it is refused early.
    fn call_again(
        &mut self,
        alloc: Global,
        session: u8,
        line: u32,
        call: &Call,
    ) -> Result<Outcome, AllocError>
        requires here { (most : ℕ) × (st : Standing) × StandsAt most D.meaning self.old st × AreSound st × MayCall st session true }
        requires bounds { CanGoOn self.old }
        requires valid { self.old.engine.kept.fault ≡ None }
        ensures comes { (most : ℕ) (st : Standing) → StandsAt most D.meaning self.old st → AreSound st → MayCall st session true
            → CallsTo D.meaning most self.old self.new st session line call.now result }
        ensures near { OnErr result (IsWithin (reach_of self.new) (reach_of self.old)) }
        ensures bounds { CanGoOn self.new }
        ensures cause { HasCause (D.meaning.faults (disk_of self.old)) (D.meaning.faults (disk_of self.new)) result }
    {
        if let Some(refusal) = self.sessions.early_refusal(None, session, call)? {
            return Ok(told(alloc, refusal));
        }
        self.perform(alloc, session, line, call, true)
    }
}
