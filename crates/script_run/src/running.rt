// A run of a script's lines.
ghost use Rattle.std.specs.Prelude.{◌≡◌, ◌≢◌, ◌≤◌, ◌<◌, ◌⊎◌, ◌+◌, ◌++◌, ◌∷◌, [], ℕ, List, length, true, false, slice_index_or, IfSome, IsNone};
ghost use Rattle.std.specs.List.{list_all, list_any};
ghost use Rattle.script_text.specs.Grammar.{is_line};
ghost use Rattle.store_model.specs.declared.plan.ScriptLine.{ScriptLine as Line};
ghost use Rattle.store_model.specs.declared.plan.ScriptLine.TheVariants.{Maintenance, Session};
ghost use Rattle.script_run.specs.Ends.{AreEndsInPlace, HasGrown, IsStopped};
ghost use Rattle.script_run.specs.Events.Awaited.{Nothing};
ghost use Rattle.script_run.specs.UnderWay.{Beginning, BeginsNone, IsCalm, IsNext, IsOutside, IsUnderWay, MayEnd, standing};
ghost use Rattle.script_run.specs.Pauses.{HasLinesUntil, StopsAt, pauses};
ghost use Rattle.script_run.specs.Running.{AreFlags, Begins, EndsBelow, EndsStopped, HasEnded, HasGoneOn, HasHalted, HasLines, HasSettledOrHalted, IsCalmOrHalted};

use crate::pause::Pause;
use crate::recorded::{ROOM, Recorded};
use environment::Environment;
use je_disk::Disk;
use std::alloc::Global;
use store_model::{Call, Event, ScriptLine, Step};

/// A run under way: its environment with the journal, whether a line found no memory, which sessions were
/// ended by that, by their numbers, whether no step of maintenance is given any more, since one found none,
/// and whether it was halted since there was no room for even an end.
pub struct Running<D> {
    pub recorded: Recorded<D>,
    pub memory_ended: bool,
    pub stopped: [bool; 256],
    pub steps_stopped: bool,
    pub halted: bool,
}

// No session was ended yet; or each was.
fn all_sessions(stopped: bool) -> [bool; 256]
    ensures each { (session : ℕ) → session < 256 → slice_index_or result session false ≡ stopped }
    ensures past { (session : ℕ) → 256 ≤ session → slice_index_or result session false ≡ false }
    ensures len { length result ≡ 256 }
{
    [stopped; 256]
}

// A journal that has room for one event of each line and for a sync behind the last. Where there is no
// memory for so many, it grows as they come.
fn journal_for(alloc: Global, lines: usize) -> Vec<Event>
    ensures { result.items ≡ [] }
{
    let mut journal = Vec::new(alloc);
    let _ = journal.reserve(lines.saturating_add(2));
    journal
}

impl<D: Disk> Running<D> {
    // Nothing is given any more.
    fn halt(&mut self)
        requires flags { AreFlags self.old }
        ensures flags { AreFlags self.new }
        ensures recorded { self.new.recorded ≡ self.old.recorded }
        ensures halted { HasHalted self.old self.new }
        ensures given { (lines : List Line) → HasLines self.old lines → HasLines self.new lines }
    {
        self.memory_ended = true;
        self.halted = true;
        self.stopped = all_sessions(true);
        self.steps_stopped = true;
    }

    // A session gives no further line, since there was no memory.
    fn stop(&mut self, session: u8)
        requires flags { AreFlags self.old }
        ensures flags { AreFlags self.new }
        ensures recorded { self.new.recorded ≡ self.old.recorded }
        ensures same { self.new.halted ≡ self.old.halted }
        ensures stopped { IsStopped self.new.stopped session }
        ensures gone_on { HasGoneOn self.old self.new }
        ensures given { (lines : List Line) → HasLines self.old lines → HasLines self.new lines }
    {
        self.memory_ended = true;
        self.stopped[session as usize] = true;
    }

    // No further step of maintenance is given, since there was no memory.
    fn stop_steps(&mut self)
        requires flags { AreFlags self.old }
        ensures flags { AreFlags self.new }
        ensures recorded { self.new.recorded ≡ self.old.recorded }
        ensures same { self.new.halted ≡ self.old.halted }
        ensures stopped { self.new.steps_stopped ≡ true }
        ensures sessions { self.new.stopped ≡ self.old.stopped }
        ensures given { (lines : List Line) → HasLines self.old lines → HasLines self.new lines }
    {
        self.memory_ended = true;
        self.steps_stopped = true;
    }

    // Ends a session that may end; where the journal has no room for that, the run is halted.
    fn end_session(&mut self, session: u8)
        requires here { (p : Beginning) × IsUnderWay D.meaning p Nothing self.old.recorded }
        requires flags { AreFlags self.old }
        ensures flags { AreFlags self.new }
        ensures goes_on { (p : Beginning) → IsUnderWay D.meaning p Nothing self.old.recorded → MayEnd p session self.old.recorded → IsUnderWay D.meaning p Nothing self.new.recorded }
        ensures ended { HasEnded session self.old self.new ⊎ HasHalted self.old self.new }
        ensures given { (lines : List Line) → HasLines self.old lines → HasLines self.new lines }
    {
        if self.recorded.make_room(1).is_err() {
            self.halt();
        } else {
            self.recorded.end_session(session);
        }
    }

    // The first call that may go on, unless the run was halted.
    fn next_ready(&self) -> Option<(u8, u32)>
        requires here { (p : Beginning) × IsUnderWay D.meaning p Nothing self.now.recorded }
        ensures next { (p : Beginning) → IsUnderWay D.meaning p Nothing self.now.recorded → IfSome result (λ q. IsNext p q.0 q.1 self.now.recorded) }
        ensures works { IfSome result (λ q. self.now.halted ≡ false) }
        ensures none { (p : Beginning) → IsUnderWay D.meaning p Nothing self.now.recorded → IsNone result → IsCalmOrHalted p self.now }
    {
        if self.halted {
            return None;
        }
        self.recorded.environment.next_ready()
    }

    // Goes on with the first call that may.
    fn go_on(&mut self, alloc: Global, session: u8, line: u32)
        requires here { (p : Beginning) × IsUnderWay D.meaning p Nothing self.old.recorded × IsNext p session line self.old.recorded }
        requires flags { AreFlags self.old }
        ensures flags { AreFlags self.new }
        ensures goes_on { (p : Beginning) → IsUnderWay D.meaning p Nothing self.old.recorded → IsNext p session line self.old.recorded → IsUnderWay D.meaning p Nothing self.new.recorded }
        ensures settles { (p : Beginning) → IsUnderWay D.meaning p Nothing self.old.recorded → IsNext p session line self.old.recorded → HasSettledOrHalted p self.old self.new }
        ensures begins_none { (p : Beginning) → IsUnderWay D.meaning p Nothing self.old.recorded → IsNext p session line self.old.recorded → BeginsNone p self.old.recorded self.new.recorded }
        ensures gone_on { HasGoneOn self.old self.new }
        ensures given { (lines : List Line) → HasLines self.old lines → HasLines self.new lines }
    {
        if self.recorded.make_room(ROOM).is_err() {
            self.stop(session);
            self.end_session(session);
            return;
        }
        if self.recorded.go_on(alloc, session, line).is_err() {
            self.stop(session);
        }
    }

    // Goes on with the calls that may, one after another. Each is answered, or waits again; so `waiting` falls, or
    // `left`, which no fewer may go on than.
    fn resume_ready(&mut self, alloc: Global)
        requires here { (p : Beginning) × IsUnderWay D.meaning p Nothing self.old.recorded }
        requires flags { AreFlags self.old }
        ensures flags { AreFlags self.new }
        ensures goes_on { (p : Beginning) → IsUnderWay D.meaning p Nothing self.old.recorded → IsUnderWay D.meaning p Nothing self.new.recorded }
        ensures calm { (p : Beginning) → IsUnderWay D.meaning p Nothing self.old.recorded → IsCalmOrHalted p self.new }
        ensures begins_none { (p : Beginning) → IsUnderWay D.meaning p Nothing self.old.recorded → BeginsNone p self.old.recorded self.new.recorded }
        ensures gone_on { HasGoneOn self.old self.new }
        ensures given { (lines : List Line) → HasLines self.old lines → HasLines self.new lines }
    {
        let mut waiting = self.recorded.environment.waiting_count();
        let mut left = waiting;
        while let Some((session, line)) = self.next_ready() {
            self.go_on(alloc, session, line);
            if self.halted {
                return;
            }
            let now = self.recorded.environment.waiting_count();
            left = if now < waiting { now } else { left - 1 };
            waiting = now;
        }
    }

    // Gives a line, unless its session was ended. A call that finds no memory ends its session.
    fn give_line(&mut self, alloc: Global, session: u8, line: u32, call: Call)
        requires here { (p : Beginning) × IsUnderWay D.meaning p Nothing self.old.recorded × IsCalmOrHalted p self.old }
        requires flags { AreFlags self.old }
        ensures flags { AreFlags self.new }
        ensures goes_on { (p : Beginning) → IsUnderWay D.meaning p Nothing self.old.recorded → IsCalmOrHalted p self.old → IsUnderWay D.meaning p Nothing self.new.recorded }
        ensures ends { EndsStopped self.old → EndsStopped self.new }
        ensures grew { HasGrown 1 self.old.recorded.journal.items self.new.recorded.journal.items }
        ensures given { (lines : List Line) → HasLines self.old lines → HasLines self.new (lines ++ Session session line call ∷ []) }
    {
        if self.stopped[session as usize] {
            // let go by name, it is one step of a proof, and not one for each kind of call
            drop(call);
            return;
        }
        match self.recorded.execute(alloc, session, line, call) {
            Ok(()) => {}
            Err(_) => {
                self.stop(session);
                self.end_session(session);
            }
        }
    }

    // Gives a line; then the calls that may go on do.
    fn execute_line(&mut self, alloc: Global, session: u8, line: u32, call: Call)
        requires here { (p : Beginning) × IsUnderWay D.meaning p Nothing self.old.recorded × IsCalmOrHalted p self.old }
        requires flags { AreFlags self.old }
        ensures flags { AreFlags self.new }
        ensures goes_on { (p : Beginning) → IsUnderWay D.meaning p Nothing self.old.recorded → IsCalmOrHalted p self.old → IsUnderWay D.meaning p Nothing self.new.recorded }
        ensures calm { (p : Beginning) → IsUnderWay D.meaning p Nothing self.old.recorded → IsCalmOrHalted p self.old → IsCalmOrHalted p self.new }
        ensures ends { EndsStopped self.old → EndsStopped self.new }
        ensures grew { HasGrown 1 self.old.recorded.journal.items self.new.recorded.journal.items }
        ensures given { (lines : List Line) → HasLines self.old lines → HasLines self.new (lines ++ Session session line call ∷ []) }
    {
        self.give_line(alloc, session, line, call);
        self.resume_ready(alloc);
    }

    // Gives a step of maintenance, unless one found no memory.
    fn give_step(&mut self, alloc: Global, line: u32, step: Step)
        requires here { (p : Beginning) × IsUnderWay D.meaning p Nothing self.old.recorded × IsCalmOrHalted p self.old }
        requires flags { AreFlags self.old }
        requires line { line ≢ 0 }
        ensures flags { AreFlags self.new }
        ensures goes_on { (p : Beginning) → IsUnderWay D.meaning p Nothing self.old.recorded → IsCalmOrHalted p self.old → IsUnderWay D.meaning p Nothing self.new.recorded }
        ensures ends { EndsStopped self.old → EndsStopped self.new }
        ensures grew { HasGrown 1 self.old.recorded.journal.items self.new.recorded.journal.items }
        ensures given { (lines : List Line) → HasLines self.old lines → HasLines self.new (lines ++ Maintenance line step ∷ []) }
    {
        if self.steps_stopped {
            return;
        }
        match self.recorded.maintain(alloc, line, step) {
            Ok(()) => {}
            Err(_) => self.stop_steps(),
        }
    }

    // Gives a step of maintenance; then the calls that may go on do.
    fn execute_step(&mut self, alloc: Global, line: u32, step: Step)
        requires here { (p : Beginning) × IsUnderWay D.meaning p Nothing self.old.recorded × IsCalmOrHalted p self.old }
        requires flags { AreFlags self.old }
        requires line { line ≢ 0 }
        ensures flags { AreFlags self.new }
        ensures goes_on { (p : Beginning) → IsUnderWay D.meaning p Nothing self.old.recorded → IsCalmOrHalted p self.old → IsUnderWay D.meaning p Nothing self.new.recorded }
        ensures calm { (p : Beginning) → IsUnderWay D.meaning p Nothing self.old.recorded → IsCalmOrHalted p self.old → IsCalmOrHalted p self.new }
        ensures ends { EndsStopped self.old → EndsStopped self.new }
        ensures grew { HasGrown 1 self.old.recorded.journal.items self.new.recorded.journal.items }
        ensures given { (lines : List Line) → HasLines self.old lines → HasLines self.new (lines ++ Maintenance line step ∷ []) }
    {
        self.give_step(alloc, line, step);
        self.resume_ready(alloc);
    }

    // Gives the next line.
    fn execute_next(&mut self, alloc: Global, given: ScriptLine)
        requires here { (p : Beginning) × IsUnderWay D.meaning p Nothing self.old.recorded × IsCalmOrHalted p self.old }
        requires flags { AreFlags self.old }
        requires line { is_line given ≡ true }
        ensures flags { AreFlags self.new }
        ensures goes_on { (p : Beginning) → IsUnderWay D.meaning p Nothing self.old.recorded → IsCalmOrHalted p self.old → IsUnderWay D.meaning p Nothing self.new.recorded }
        ensures calm { (p : Beginning) → IsUnderWay D.meaning p Nothing self.old.recorded → IsCalmOrHalted p self.old → IsCalmOrHalted p self.new }
        ensures ends { EndsStopped self.old → EndsStopped self.new }
        ensures grew { HasGrown 1 self.old.recorded.journal.items self.new.recorded.journal.items }
        ensures given { (lines : List Line) → HasLines self.old lines → HasLines self.new (lines ++ given ∷ []) }
    {
        match given {
            ScriptLine::Session {
                session,
                line,
                call,
            } => self.execute_line(alloc, session, line, call),
            ScriptLine::Maintenance { line, step } => self.execute_step(alloc, line, step),
        }
    }

    // Gives the next line. Tells whether the run pauses behind it.
    fn execute_until(&mut self, alloc: Global, given: ScriptLine, pause: Pause) -> bool
        requires here { (p : Beginning) × IsUnderWay D.meaning p Nothing self.old.recorded × IsCalmOrHalted p self.old }
        requires flags { AreFlags self.old }
        requires line { is_line given ≡ true }
        ensures flags { AreFlags self.new }
        ensures goes_on { (p : Beginning) → IsUnderWay D.meaning p Nothing self.old.recorded → IsCalmOrHalted p self.old → IsUnderWay D.meaning p Nothing self.new.recorded }
        ensures calm { (p : Beginning) → IsUnderWay D.meaning p Nothing self.old.recorded → IsCalmOrHalted p self.old → IsCalmOrHalted p self.new }
        ensures ends { EndsStopped self.old → EndsStopped self.new }
        ensures given { (lines : List Line) → HasLines self.old lines → HasLines self.new (lines ++ given ∷ []) }
        ensures stops { list_any (pauses pause) self.old.recorded.journal.items ≡ false → StopsAt pause self.new.recorded.journal.items }
        ensures paused { result ≡ true → list_any (pauses pause) self.new.recorded.journal.items ≡ true }
        ensures going { result ≡ false → list_any (pauses pause) self.old.recorded.journal.items ≡ false → list_any (pauses pause) self.new.recorded.journal.items ≡ false }
    {
        let before = self.recorded.journal.len();
        self.execute_next(alloc, given);
        pause.pauses_in(&self.recorded.journal[before..])
    }

    // Ends a session that has a transaction; then the calls that may go on do.
    fn end_if_open(&mut self, alloc: Global, session: u8)
        requires here { (p : Beginning) × IsUnderWay D.meaning p Nothing self.old.recorded × IsCalmOrHalted p self.old }
        requires flags { AreFlags self.old }
        ensures flags { AreFlags self.new }
        ensures goes_on { (p : Beginning) → IsUnderWay D.meaning p Nothing self.old.recorded → IsCalmOrHalted p self.old → IsUnderWay D.meaning p Nothing self.new.recorded }
        ensures calm { (p : Beginning) → IsUnderWay D.meaning p Nothing self.old.recorded → IsCalmOrHalted p self.old → IsCalmOrHalted p self.new }
        ensures begins_none { (p : Beginning) → IsUnderWay D.meaning p Nothing self.old.recorded → IsCalmOrHalted p self.old → BeginsNone p self.old.recorded self.new.recorded }
        ensures ended { (p : Beginning) → IsUnderWay D.meaning p Nothing self.old.recorded → IsCalmOrHalted p self.old → self.new.halted ≡ false → IsOutside p session self.new.recorded }
        ensures ends { (p : Beginning) → IsUnderWay D.meaning p Nothing self.old.recorded → IsCalmOrHalted p self.old → EndsBelow p session self.old → EndsBelow p (session + 1) self.new }
        ensures grew { HasGrown 0 self.old.recorded.journal.items self.new.recorded.journal.items }
        ensures works { self.new.halted ≡ false → self.old.halted ≡ false }
        ensures given { (lines : List Line) → HasLines self.old lines → HasLines self.new lines }
    {
        if self.halted {
            return;
        }
        if !self.recorded.environment.has_transaction(session) {
            return;
        }
        self.end_session(session);
        self.resume_ready(alloc);
    }

    // Ends each session that has a transaction, in the order of their numbers.
    fn end_sessions(&mut self, alloc: Global)
        requires here { (p : Beginning) × IsUnderWay D.meaning p Nothing self.old.recorded × IsCalmOrHalted p self.old }
        requires flags { AreFlags self.old }
        ensures flags { AreFlags self.new }
        ensures goes_on { (p : Beginning) → IsUnderWay D.meaning p Nothing self.old.recorded → IsCalmOrHalted p self.old → IsUnderWay D.meaning p Nothing self.new.recorded }
        ensures calm { (p : Beginning) → IsUnderWay D.meaning p Nothing self.old.recorded → IsCalmOrHalted p self.old → IsCalmOrHalted p self.new }
        ensures ended { (p : Beginning) → IsUnderWay D.meaning p Nothing self.old.recorded → IsCalmOrHalted p self.old → self.new.halted ≡ false → (standing p self.new.recorded).actives ≡ [] }
        ensures ends { (p : Beginning) → IsUnderWay D.meaning p Nothing self.old.recorded → IsCalmOrHalted p self.old → EndsStopped self.old → AreEndsInPlace self.new.stopped p.st self.new.recorded.journal.items }
        ensures grew { HasGrown 0 self.old.recorded.journal.items self.new.recorded.journal.items }
        ensures given { (lines : List Line) → HasLines self.old lines → HasLines self.new lines }
    {
        for session in 0..=255u8 {
            self.end_if_open(alloc, session);
        }
    }

    // Gives lines, one after another, until the run pauses.
    fn execute_all(&mut self, alloc: Global, lines: Vec<ScriptLine>, pause: Pause)
        requires here { (p : Beginning) × IsUnderWay D.meaning p Nothing self.old.recorded × IsCalmOrHalted p self.old }
        requires flags { AreFlags self.old }
        requires lines { list_all is_line lines.items ≡ true }
        requires given { HasLines self.old [] }
        requires none { self.old.recorded.journal.items ≡ [] }
        ensures flags { AreFlags self.new }
        ensures goes_on { (p : Beginning) → IsUnderWay D.meaning p Nothing self.old.recorded → IsCalmOrHalted p self.old → IsUnderWay D.meaning p Nothing self.new.recorded }
        ensures calm { (p : Beginning) → IsUnderWay D.meaning p Nothing self.old.recorded → IsCalmOrHalted p self.old → IsCalmOrHalted p self.new }
        ensures ends { EndsStopped self.old → EndsStopped self.new }
        ensures given { HasLinesUntil pause self.new lines.items }
    {
        for given in lines {
            if self.execute_until(alloc, given, pause) {
                return;
            }
        }
    }
}

/// Gives the lines in order. What a commit waits for is done at once; then each call that waited and may go
/// on does, in the order in which they began to wait; then comes the next line, unless the run pauses. At the
/// end each session that has a transaction is ended. A call that finds no memory is not in the journal, and
/// ends its session, which gives no further line; the others go on. A step of maintenance that finds none is
/// not in the journal either, and no further one is given.
pub fn run_until<D: Disk>(
    alloc: Global,
    environment: Environment<D>,
    lines: Vec<ScriptLine>,
    pause: Pause,
) -> Running<D>
    requires start { (p : Beginning) × Begins D.meaning p environment }
    requires lines { list_all is_line lines.items ≡ true }
    ensures goes_on { (p : Beginning) → Begins D.meaning p environment → IsUnderWay D.meaning p Nothing result.recorded }
    ensures calm { (p : Beginning) → Begins D.meaning p environment → result.memory_ended ≡ false → IsCalm p result.recorded }
    ensures ended { (p : Beginning) → Begins D.meaning p environment → result.memory_ended ≡ false → (standing p result.recorded).actives ≡ [] }
    ensures ends { (p : Beginning) → Begins D.meaning p environment → AreEndsInPlace result.stopped p.st result.recorded.journal.items }
    ensures given { HasLinesUntil pause result lines.items }
{
    let recorded = Recorded {
        environment,
        journal: journal_for(alloc, lines.len()),
    };
    let mut running = Running {
        recorded,
        memory_ended: false,
        stopped: all_sessions(false),
        steps_stopped: false,
        halted: false,
    };
    running.execute_all(alloc, lines, pause);
    running.end_sessions(alloc);
    running
}

/// Gives all lines: a run that pauses nowhere.
pub fn run<D: Disk>(
    alloc: Global,
    environment: Environment<D>,
    lines: Vec<ScriptLine>,
) -> Running<D>
    requires start { (p : Beginning) × Begins D.meaning p environment }
    requires lines { list_all is_line lines.items ≡ true }
    ensures goes_on { (p : Beginning) → Begins D.meaning p environment → IsUnderWay D.meaning p Nothing result.recorded }
    ensures calm { (p : Beginning) → Begins D.meaning p environment → result.memory_ended ≡ false → IsCalm p result.recorded }
    ensures ended { (p : Beginning) → Begins D.meaning p environment → result.memory_ended ≡ false → (standing p result.recorded).actives ≡ [] }
    ensures ends { (p : Beginning) → Begins D.meaning p environment → AreEndsInPlace result.stopped p.st result.recorded.journal.items }
    ensures given { HasLines result lines.items }
{
    run_until(alloc, environment, lines, Pause::Never)
}
