// A program's work, up to its output.
ghost use Rattle.std.specs.Prelude.{◌≡◌, ◌≢◌, ◌≤◌, ◌^◌, ◌⊎◌, [], ℕ, List, true, false};
ghost use Rattle.std.specs.List.{list_all};
ghost use Rattle.script_text.specs.Grammar.{is_line};
ghost use Rattle.je_order.specs.Counts.{HasRisen};
ghost use Rattle.je_disk.specs.Moments.{History, now};
ghost use Rattle.environment.specs.Whole.{disk_of};
ghost use Rattle.log_replay.specs.declared.corruption.Corruption.{Corruption as Wrong};
ghost use Rattle.store_model.specs.Store.{no_databases};
ghost use Rattle.je_answers.specs.Standing.{Standing};
ghost use Rattle.je_answers.specs.Journal.{lines_of};
ghost use Rattle.script_run.specs.Events.{final_store};
ghost use Rattle.script_run.specs.Events.Awaited.{Nothing};
ghost use Rattle.script_run.specs.Lines.{AreFirstLines, of_maintenance, of_session};
ghost use Rattle.script_run.specs.UnderWay.{Beginning, IsCaused, IsUnderWay};
ghost use Rattle.je_program.specs.declared.cause.Cause.{Cause as Why};
ghost use Rattle.engine.specs.Crash.{ImagesMean, IsSafeRun, KeepsEntry};
ghost use Rattle.je_program.specs.Untouched.{LeavesUnreadable};
ghost use Rattle.engine.specs.Files.{HasCorruption, HasWrongIndex, MeanStore};
ghost use Rattle.engine.specs.Lengths.{AreLengthsWithin};
ghost use Rattle.engine.specs.Opening.{HasNoNumbers};
ghost use Rattle.txn_core.specs.Totals.{totals_of};
ghost use Rattle.environment.specs.Databases.{rows_held};
ghost use Rattle.je_program.specs.Commands.{ends_soak};
ghost use Rattle.je_program.specs.Dumping.{HaveRows};
ghost use Rattle.je_program.specs.Ran.{HasRun};
ghost use Rattle.je_program.specs.Program.{ClosesRun, EndsBy, IsRunOf, RunsIf, cause_closed, cause_of_opening, cause_of_recovery};
ghost use Rattle.je_program.specs.Run.{cause_of_journal, is_run_through};

use crate::cause::Cause;
use crate::ending::journal_cause;
use environment::{
    Closed, Config, Environment, OpenErr, Opened, Opening, Records, Stopped, no_opening,
};
use je_disk::Disk;
use recovery_je::RecoverErr;
use script_run::{Recorded, Running, run};
use std::alloc::Global;
use store_model::{Event, RunPlan, Totals};

/// What a program came to, before its output is written: the cause of its end, whether its environment
/// was opened and the script run, the disk, the journal, the store at entry, how much the store holds at
/// the end, and the records that were kept in memory.
pub struct RunResult<D> {
    pub cause: Cause,
    pub opened: bool,
    pub disk: D,
    pub journal: Vec<Event>,
    pub opening: Opening,
    pub totals: Totals,
    pub records: Option<Records>,
}

/// A program that opened no environment.
pub fn unopened<D>(alloc: Global, cause: Cause, disk: D) -> RunResult<D>
    ensures cause { result.cause ≡ cause }
    ensures opened { result.opened ≡ false }
    ensures disk { result.disk ≡ disk }
    ensures journal { result.journal.items ≡ [] }
    ensures opening { result.opening ≡ no_databases }
{
    RunResult {
        cause,
        opened: false,
        disk,
        journal: Vec::new(alloc),
        opening: no_opening(alloc),
        totals: Totals {
            databases: 0,
            records: 0,
        },
        records: None,
    }
}

// How a run ends before it is closed.
fn end_cause(memory_ended: bool, journal: &[Event]) -> Cause
    ensures memory { memory_ended ≡ true → result ≡ Why.Memory }
    ensures journal { memory_ended ≡ false → result ≡ cause_of_journal journal.now }
{
    if memory_ended {
        Cause::Memory
    } else {
        journal_cause(journal)
    }
}

// How a run ends once it is closed. A fault of the disk in closing is the cause of the end, unless there
// was no memory.
fn closed_cause(cause: Cause, failed: bool) -> Cause
    ensures { result ≡ cause_closed failed cause }
{
    if !failed {
        return cause;
    }
    match cause {
        Cause::Memory => Cause::Memory,
        _ => Cause::Disk,
    }
}

/// The cause of an environment that was not opened.
pub fn opening_cause(error: OpenErr) -> Cause
    ensures { result ≡ cause_of_opening error }
{
    match error {
        OpenErr::Disk => Cause::Disk,
        OpenErr::Memory => Cause::Memory,
        OpenErr::IdsEnded => Cause::IdsEnded,
        OpenErr::Unreadable(corruption) => Cause::Unreadable(corruption),
        OpenErr::WrongIndex(name) => Cause::WrongIndex(name),
    }
}

/// The cause of files that were not read.
pub fn recovery_cause(error: RecoverErr) -> Cause
    ensures { result ≡ cause_of_recovery error }
{
    match error {
        RecoverErr::Disk => Cause::Disk,
        RecoverErr::Memory => Cause::Memory,
        RecoverErr::Corrupt(corruption) => Cause::Unreadable(corruption),
        RecoverErr::WrongIndex(name) => Cause::WrongIndex(name),
    }
}

/// Ends a run: closes its environment. The records that it kept in memory are handed out.
pub fn finish<D: Disk>(running: Running<D>, opening: Opening) -> RunResult<D>
    ensures opened { result.opened ≡ true }
    ensures opening { result.opening ≡ opening }
    ensures journal { result.journal.items ≡ running.recorded.journal.items }
    ensures records { HaveRows result.records (rows_held running.recorded.environment) }
    ensures run { (old : History) (before : ℕ) (p : Beginning) → HasRun D.meaning old before opening p running
        → IsRunOf p.most D.meaning.observable old (D.meaning.history result.disk) before (D.meaning.faults result.disk) result.opening result.totals result.journal.items result.cause p.st }
    ensures memory { running.memory_ended ≡ true → result.cause ≡ Why.Memory }
    ensures ends { running.memory_ended ≡ false → EndsBy running.recorded.journal.items result.cause }
    ensures caused { (before : ℕ) → IsCaused before (D.meaning.faults (disk_of running.recorded.environment)) running.recorded.journal.items → ClosesRun before (D.meaning.faults result.disk) running.recorded.journal.items result.cause }
    ensures crash { D.meaning.observable ≡ true → (p : Beginning) → IsUnderWay D.meaning p Nothing running.recorded → IsSafeRun p.st p.start (D.meaning.history result.disk) running.recorded.journal.items }
    ensures crash_end { D.meaning.observable ≡ true → (p : Beginning) → IsUnderWay D.meaning p Nothing running.recorded → p.st.fault ≡ None → is_run_through result.cause ≡ true
        → ImagesMean p.start.moment (D.meaning.history result.disk) (D.meaning.history result.disk).moment (final_store p.st running.recorded.journal.items) }
    ensures totals { (p : Beginning) → IsUnderWay D.meaning p Nothing running.recorded → result.totals ≡ totals_of (final_store p.st running.recorded.journal.items) }
    ensures files { (p : Beginning) → IsUnderWay D.meaning p Nothing running.recorded → p.st.fault ≡ None → is_run_through result.cause ≡ true → D.meaning.observable ≡ true
        → MeanStore (now (D.meaning.history result.disk)).reads (final_store p.st running.recorded.journal.items) }
    ensures lengths { (p : Beginning) → IsUnderWay D.meaning p Nothing running.recorded → p.st.fault ≡ None
        → (is_run_through result.cause ≡ true) ⊎ (HasRisen p.faults (D.meaning.faults result.disk) → ⊥) → D.meaning.observable ≡ true → AreLengthsWithin p.most (now p.start).reads (now (D.meaning.history result.disk)).reads }
{
    let Running {
        recorded,
        memory_ended,
        stopped: _,
        steps_stopped: _,
        halted: _,
    } = running;
    let Recorded {
        environment,
        journal,
    } = recorded;
    let totals = environment.totals();
    let cause = end_cause(memory_ended, &journal);
    let closed = environment.close();
    let Closed {
        disk,
        failed,
        records,
    } = closed;
    let cause = closed_cause(cause, failed);
    RunResult {
        cause,
        opened: true,
        disk,
        journal,
        opening,
        totals,
        records: Some(records),
    }
}

/// Runs a plan over a disk: opens the environment, gives the lines, and closes it.
pub fn run_plan<D: Disk>(alloc: Global, disk: D, config: Config, plan: RunPlan) -> RunResult<D>
    requires file_max { config.file_max ≤ 2 ^ 30 }
    requires least { 4 ≤ config.fanout }
    requires most { config.fanout ≤ 128 }
    requires lines { list_all is_line plan.lines ≡ true }
    ensures runs { RunsIf result.cause result.opened }
    ensures causes { ends_soak result.cause ≡ true }
    ensures run { result.opened ≡ true → (st : Standing) × IsRunOf config.file_max D.meaning.observable (D.meaning.history disk) (D.meaning.history result.disk) (D.meaning.faults disk) (D.meaning.faults result.disk) result.opening result.totals result.journal.items result.cause st }
    ensures crash_unopened { D.meaning.observable ≡ true → result.opened ≡ false → KeepsEntry (D.meaning.history disk) (D.meaning.history result.disk) }
    ensures unopened { result.opened ≡ false → (result.opening ≡ no_databases) × (result.journal.items ≡ []) }
    ensures unreadable { (corruption : Wrong) → result.cause ≡ Why.Unreadable corruption → D.meaning.observable ≡ true → HasCorruption (now (D.meaning.history disk)).reads corruption }
    ensures wrong_index { (name : List ℕ) → result.cause ≡ Why.WrongIndex name → D.meaning.observable ≡ true → HasWrongIndex (now (D.meaning.history disk)).reads name }
    ensures ids_ended { result.cause ≡ Why.IdsEnded → result.opened ≡ false → D.meaning.observable ≡ true → HasNoNumbers (now (D.meaning.history disk)).reads }
    ensures lines { result.opened ≡ true → result.cause ≢ Why.Memory → lines_of result.journal.items ≡ plan.lines }
    ensures front { result.opened ≡ true → (session : ℕ) → AreFirstLines (of_session session (lines_of result.journal.items)) (of_session session plan.lines) }
    ensures front_steps { result.opened ≡ true → AreFirstLines (of_maintenance (lines_of result.journal.items)) (of_maintenance plan.lines) }
    ensures ends { result.opened ≡ true → result.cause ≢ Why.Memory → EndsBy result.journal.items result.cause }
    ensures caused { ClosesRun (D.meaning.faults disk) (D.meaning.faults result.disk) result.journal.items result.cause }
    ensures left_alone { D.meaning.observable ≡ true → LeavesUnreadable result.cause (D.meaning.history disk) (D.meaning.history result.disk) }
{
    match Environment::open(alloc, disk, &config) {
        Ok(opened) => {
            let Opened {
                environment,
                opening,
            } = opened;
            let running = run(alloc, environment, plan.lines.into_vec());
            finish(running, opening)
        }
        Err(Stopped { error, disk }) => {
            let cause = opening_cause(error);
            unopened(alloc, cause, disk)
        }
    }
}
