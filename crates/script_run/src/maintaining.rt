// The steps of maintenance of a script, over an environment with its journal.
ghost use Rattle.std.specs.Prelude.{◌≡◌, ◌≢◌, ◌++◌, ◌∷◌, [], List, Bool, true, false, OnOk, OnErr};
ghost use Rattle.store_model.specs.declared.step.Step.TheVariants.{Sync as SyncStep};
ghost use Rattle.store_model.specs.declared.plan.ScriptLine.TheVariants.{Maintenance};
ghost use Rattle.je_answers.specs.Journal.{lines_of};
ghost use Rattle.script_run.specs.Ends.{AreEndsStopped, HasGained, HasGrown};
ghost use Rattle.script_run.specs.Events.Awaited.{Nothing};
ghost use Rattle.script_run.specs.UnderWay.{Beginning, HasRoom, IsCalm, IsUnderWay, MayTurn};

use crate::recorded::{ROOM, Recorded, record};
use je_disk::Disk;
use std::alloc::{AllocError, Global};
use store_model::{Event, Step};

// Whether a step asks for a sync.
fn is_sync(step: Step) -> bool
    ensures sync { result ≡ true → step ≡ SyncStep }
    ensures other { result ≡ false → step ≢ SyncStep }
{
    matches!(step, Step::Sync)
}

impl<D: Disk> Recorded<D> {
    // Syncs the log where a step asks for it, unless the environment is invalid.
    fn sync_for(&mut self, step: Step)
        requires here { (p : Beginning) × IsUnderWay D.meaning p Nothing self.old × IsCalm p self.old }
        requires room { HasRoom 3 self.old }
        ensures goes_on { (p : Beginning) → IsUnderWay D.meaning p Nothing self.old → IsCalm p self.old → IsUnderWay D.meaning p Nothing self.new }
        ensures may { (p : Beginning) → IsUnderWay D.meaning p Nothing self.old → IsCalm p self.old → MayTurn p step self.new }
        ensures gained { (stopped : List Bool) → HasGained stopped self.old.journal.items self.new.journal.items }
        ensures room { HasRoom 1 self.new }
    {
        if !is_sync(step) {
            return;
        }
        if self.environment.fault().is_some() {
            return;
        }
        self.sync();
    }

    // Takes a step, which the journal gains with its answer. Running out of memory leaves the journal as it was.
    fn turn(&mut self, alloc: Global, line: u32, step: Step) -> Result<(), AllocError>
        requires here { (p : Beginning) × IsUnderWay D.meaning p Nothing self.old × MayTurn p step self.old }
        requires room { HasRoom 1 self.old }
        requires line { line ≢ 0 }
        ensures goes_on { (p : Beginning) → IsUnderWay D.meaning p Nothing self.old → MayTurn p step self.old → IsUnderWay D.meaning p Nothing self.new }
        ensures line { OnOk result (lines_of self.new.journal.items ≡ lines_of self.old.journal.items ++ Maintenance line step ∷ []) }
        ensures ends { (stopped : List Bool) → AreEndsStopped stopped self.old.journal.items → AreEndsStopped stopped self.new.journal.items }
        ensures grew { HasGrown 1 self.old.journal.items self.new.journal.items }
        ensures err { OnErr result (self.new.journal.items ≡ self.old.journal.items) }
    {
        let answer = match self.environment.turn(alloc, step) {
            Ok(answer) => answer,
            Err(_) => return Err(AllocError),
        };
        record(&mut self.journal, Event::Turn { line, step, answer });
        Ok(())
    }

    /// Gives a step of maintenance, while no call may go on; one that asks for a sync is behind that sync.
    /// Running out of memory leaves the step out of the journal.
    pub fn maintain(&mut self, alloc: Global, line: u32, step: Step) -> Result<(), AllocError>
        requires here { (p : Beginning) × IsUnderWay D.meaning p Nothing self.old × IsCalm p self.old }
        requires line { line ≢ 0 }
        ensures goes_on { (p : Beginning) → IsUnderWay D.meaning p Nothing self.old → IsCalm p self.old → IsUnderWay D.meaning p Nothing self.new }
        ensures line { OnOk result (lines_of self.new.journal.items ≡ lines_of self.old.journal.items ++ Maintenance line step ∷ []) }
        ensures ends { (stopped : List Bool) → AreEndsStopped stopped self.old.journal.items → AreEndsStopped stopped self.new.journal.items }
        ensures grew { HasGrown 1 self.old.journal.items self.new.journal.items }
        ensures err { OnErr result (lines_of self.new.journal.items ≡ lines_of self.old.journal.items) }
    {
        self.make_room(ROOM)?;
        self.sync_for(step);
        self.turn(alloc, line, step)
    }
}
