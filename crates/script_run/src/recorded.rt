// An environment with the journal of its events. A call that is given up is let go by `drop`, which is one step
// of a proof; the end of its scope would be one for each kind of call.
ghost use Rattle.std.specs.Prelude.{◌≡◌, ◌≤◌, ◌<◌, ◌+◌, ◌++◌, ◌∷◌, [], ℕ, List, Bool, None, Some, true, false, length, slice_index_or, vec_capacity, OnOk, OnErr};
ghost use Rattle.store_model.specs.declared.durability.Durability.{Durability as Asked};
ghost use Rattle.store_model.specs.declared.durability.Durability.TheVariants.{Sync, WriteNoSync};
ghost use Rattle.store_model.specs.declared.event.Event.TheVariants.{End};
ghost use Rattle.store_model.specs.declared.plan.ScriptLine.TheVariants.{Session};
ghost use Rattle.store_model.specs.Journal.{is_logged};
ghost use Rattle.je_answers.specs.Journal.{lines_of};
ghost use Rattle.script_run.specs.Ends.{AreEndsStopped, HasGained, HasGrown, IsStopped};
ghost use Rattle.script_run.specs.Events.{awaited_of};
ghost use Rattle.script_run.specs.Events.Awaited.{Nothing, Follow};
ghost use Rattle.script_run.specs.UnderWay.{Beginning, BeginsNone, GoesOnWith, HasRoom, HasSettled, HasSynced, IsCalm, IsNext, IsUnderWay, MayEnd, Settles, StandsAlike};

use environment::{Environment, Outcome};
use je_disk::{Disk, SyncJob};
use std::alloc::{AllocError, Global};
use store_model::{Answer, Call, Durability, Event};

/// How many events the journal has room for before a line is given: its call or step with its sync, and the
/// ends of all sessions.
pub const ROOM: usize = 260;

/// An open environment, and the journal of its events since then.
pub struct Recorded<D> {
    pub environment: Environment<D>,
    pub journal: Vec<Event>,
}

// Whether an answer says that a commit waits.
fn is_logged(answer: &Answer) -> bool
    ensures { result ≡ is_logged answer.now }
{
    matches!(answer, Answer::Logged { .. })
}

// What a commit waits for that was answered so; nothing, where it was not logged.
fn awaited(answer: &Answer, durability: Durability) -> Option<Durability>
    ensures logged { is_logged answer.now ≡ true → result ≡ Some durability }
    ensures other { is_logged answer.now ≡ false → result ≡ None }
{
    if is_logged(answer) {
        Some(durability)
    } else {
        None
    }
}

// The journal gains an event, for which it has room.
pub(crate) fn record(journal: &mut Vec<Event>, event: Event)
    requires room { length journal.old.items < vec_capacity journal.old }
    ensures items { journal.new.items ≡ journal.old.items ++ event ∷ [] }
    ensures room { vec_capacity journal.old ≤ vec_capacity journal.new }
{
    journal.push(event).unwrap();
}

impl<D: Disk> Recorded<D> {
    // Gives a session's call, which the journal gains with its answer. Gives what its commit waits for, if it
    // is one that waits. Running out of memory leaves both as they were.
    fn step(
        &mut self,
        alloc: Global,
        session: u8,
        line: u32,
        call: Call,
    ) -> Result<Option<Durability>, AllocError>
        requires here { (p : Beginning) × IsUnderWay D.meaning p Nothing self.old }
        requires room { HasRoom 3 self.old }
        ensures goes_on { (p : Beginning) → IsUnderWay D.meaning p Nothing self.old → IsCalm p self.old → GoesOnWith D.meaning p result self.new }
        ensures line { OnOk result (lines_of self.new.journal.items ≡ lines_of self.old.journal.items ++ Session session line call ∷ []) }
        ensures ends { (stopped : List Bool) → slice_index_or stopped session false ≡ false → AreEndsStopped stopped self.old.journal.items → AreEndsStopped stopped self.new.journal.items }
        ensures grew { HasGrown 1 self.old.journal.items self.new.journal.items }
        ensures err { OnErr result (self.new.journal.items ≡ self.old.journal.items) }
        ensures room { OnOk result (HasRoom 2 self.new) }
    {
        let durability = self.environment.durability_of(session);
        let Outcome { answer, victims } = match self.environment.step(alloc, session, line, &call) {
            Ok(outcome) => outcome,
            Err(_) => {
                drop(call);
                return Err(AllocError);
            }
        };
        let awaited = awaited(&answer, durability);
        record(
            &mut self.journal,
            Event::Call {
                session,
                line,
                call,
                answer,
                victims,
            },
        );
        Ok(awaited)
    }

    // Goes on with the first call that may, which the journal gains with its answer. Where memory runs out, its
    // session is ended, and the journal has that.
    fn resume(
        &mut self,
        alloc: Global,
        session: u8,
        line: u32,
    ) -> Result<Option<Durability>, AllocError>
        requires here { (p : Beginning) × IsUnderWay D.meaning p Nothing self.old × IsNext p session line self.old }
        requires room { HasRoom 3 self.old }
        ensures goes_on { (p : Beginning) → IsUnderWay D.meaning p Nothing self.old → IsNext p session line self.old → GoesOnWith D.meaning p result self.new }
        ensures settles { (p : Beginning) → IsUnderWay D.meaning p Nothing self.old → IsNext p session line self.old → Settles p result self.old self.new }
        ensures begins_none { (p : Beginning) → IsUnderWay D.meaning p Nothing self.old → IsNext p session line self.old → BeginsNone p self.old self.new }
        ensures gained { (stopped : List Bool) → OnErr result (IsStopped stopped session) → HasGained stopped self.old.journal.items self.new.journal.items }
        ensures room { OnOk result (HasRoom 2 self.new) }
    {
        let durability = self.environment.durability_of(session);
        let Outcome { answer, victims } = match self.environment.resume(alloc, session) {
            Ok(outcome) => outcome,
            Err(_) => {
                record(&mut self.journal, Event::End { session });
                return Err(AllocError);
            }
        };
        let awaited = awaited(&answer, durability);
        record(
            &mut self.journal,
            Event::Resume {
                session,
                line,
                answer,
                victims,
            },
        );
        Ok(awaited)
    }

    /// Ends a session, for which the journal has room: its call that waits is withdrawn, and its transaction
    /// aborted.
    pub fn end_session(&mut self, session: u8)
        requires here { (p : Beginning) × IsUnderWay D.meaning p Nothing self.old }
        requires room { HasRoom 1 self.old }
        ensures goes_on { (p : Beginning) → IsUnderWay D.meaning p Nothing self.old → MayEnd p session self.old → IsUnderWay D.meaning p Nothing self.new }
        ensures ended { self.new.journal.items ≡ self.old.journal.items ++ End session ∷ [] }
    {
        self.environment.end_session(session);
        record(&mut self.journal, Event::End { session });
    }

    // Writes the log out, which a commit waits for.
    fn write_out(&mut self)
        requires here { (p : Beginning) × IsUnderWay D.meaning p (Follow WriteNoSync) self.old }
        requires room { HasRoom 2 self.old }
        ensures goes_on { (p : Beginning) → IsUnderWay D.meaning p (Follow WriteNoSync) self.old → IsUnderWay D.meaning p Nothing self.new }
        ensures alike { (p : Beginning) → StandsAlike p self.old self.new }
        ensures gained { (stopped : List Bool) → HasGained stopped self.old.journal.items self.new.journal.items }
    {
        let answer = self.environment.write_out();
        record(&mut self.journal, Event::WriteOut { answer });
    }

    // Syncs the log, which a commit waits for, or a step.
    pub(crate) fn sync(&mut self)
        requires here { (p : Beginning) × IsUnderWay D.meaning p (Follow Sync) self.old }
        requires room { HasRoom 2 self.old }
        ensures goes_on { (p : Beginning) → IsUnderWay D.meaning p (Follow Sync) self.old → IsUnderWay D.meaning p Nothing self.new }
        ensures alike { (p : Beginning) → StandsAlike p self.old self.new }
        ensures synced { (p : Beginning) → IsUnderWay D.meaning p (Follow Sync) self.old → HasSynced p self.old self.new }
        ensures gained { (stopped : List Bool) → HasGained stopped self.old.journal.items self.new.journal.items }
        ensures room { HasRoom 3 self.old → HasRoom 1 self.new }
    {
        let begun = self.environment.commits();
        let Some(job) = self.environment.sync_begin() else {
            let answer = Answer::DiskFault;
            record(&mut self.journal, Event::SyncBegin { answer });
            return;
        };
        let answer = Answer::Done;
        record(&mut self.journal, Event::SyncBegin { answer });
        let answer = self.environment.sync_end(job.run(), begun);
        record(&mut self.journal, Event::SyncEnd { answer });
    }

    // Does what a commit of this durability waits for.
    fn follow_commit(&mut self, durability: Durability)
        requires here { (p : Beginning) × IsUnderWay D.meaning p (Follow durability) self.old }
        requires room { HasRoom 2 self.old }
        ensures goes_on { (p : Beginning) → IsUnderWay D.meaning p (Follow durability) self.old → IsUnderWay D.meaning p Nothing self.new }
        ensures alike { (p : Beginning) → StandsAlike p self.old self.new }
        ensures gained { (stopped : List Bool) → HasGained stopped self.old.journal.items self.new.journal.items }
    {
        match durability {
            Durability::WriteNoSync => self.write_out(),
            Durability::Sync => self.sync(),
            // a commit that waits for nothing is not answered Logged
            Durability::NoSync => self.sync(),
        }
    }

    // Does what a commit waits for, if one does.
    fn follow(&mut self, awaited: Option<Durability>)
        requires here { (p : Beginning) × IsUnderWay D.meaning p (awaited_of awaited) self.old }
        requires room { HasRoom 2 self.old }
        ensures goes_on { (p : Beginning) → IsUnderWay D.meaning p (awaited_of awaited) self.old → IsUnderWay D.meaning p Nothing self.new }
        ensures alike { (p : Beginning) → StandsAlike p self.old self.new }
        ensures none { awaited ≡ None → self.new ≡ self.old }
        ensures gained { (stopped : List Bool) → HasGained stopped self.old.journal.items self.new.journal.items }
    {
        match awaited {
            Some(durability) => self.follow_commit(durability),
            None => {}
        }
    }

    /// Makes room in the journal for so many events more.
    pub fn make_room(&mut self, events: usize) -> Result<(), AllocError>
        ensures goes_on { (p : Beginning) → IsUnderWay D.meaning p Nothing self.old → IsUnderWay D.meaning p Nothing self.new }
        ensures same { self.new.environment ≡ self.old.environment }
        ensures items { self.new.journal.items ≡ self.old.journal.items }
        ensures room { OnOk result (HasRoom events self.new) }
    {
        self.journal.reserve(events)
    }

    /// Gives a session's call, while no call may go on, and does what its commit waits for. Running out of
    /// memory leaves the journal as it was.
    pub fn execute(
        &mut self,
        alloc: Global,
        session: u8,
        line: u32,
        call: Call,
    ) -> Result<(), AllocError>
        requires here { (p : Beginning) × IsUnderWay D.meaning p Nothing self.old × IsCalm p self.old }
        ensures goes_on { (p : Beginning) → IsUnderWay D.meaning p Nothing self.old → IsCalm p self.old → IsUnderWay D.meaning p Nothing self.new }
        ensures line { OnOk result (lines_of self.new.journal.items ≡ lines_of self.old.journal.items ++ Session session line call ∷ []) }
        ensures ends { (stopped : List Bool) → slice_index_or stopped session false ≡ false → AreEndsStopped stopped self.old.journal.items → AreEndsStopped stopped self.new.journal.items }
        ensures grew { HasGrown 1 self.old.journal.items self.new.journal.items }
        ensures err { OnErr result (self.new.journal.items ≡ self.old.journal.items) }
    {
        if self.make_room(ROOM).is_err() {
            drop(call);
            return Err(AllocError);
        }
        let awaited = self.step(alloc, session, line, call)?;
        self.follow(awaited);
        Ok(())
    }

    /// Goes on with the first call that may, and does what its commit waits for. Where memory runs out, its
    /// session is ended.
    pub fn go_on(&mut self, alloc: Global, session: u8, line: u32) -> Result<(), AllocError>
        requires here { (p : Beginning) × IsUnderWay D.meaning p Nothing self.old × IsNext p session line self.old }
        requires room { HasRoom 3 self.old }
        ensures goes_on { (p : Beginning) → IsUnderWay D.meaning p Nothing self.old → IsNext p session line self.old → IsUnderWay D.meaning p Nothing self.new }
        ensures settles { (p : Beginning) → IsUnderWay D.meaning p Nothing self.old → IsNext p session line self.old → HasSettled p self.old self.new }
        ensures begins_none { (p : Beginning) → IsUnderWay D.meaning p Nothing self.old → IsNext p session line self.old → BeginsNone p self.old self.new }
        ensures gained { (stopped : List Bool) → OnErr result (IsStopped stopped session) → HasGained stopped self.old.journal.items self.new.journal.items }
    {
        let awaited = self.resume(alloc, session, line)?;
        self.follow(awaited);
        Ok(())
    }
}
