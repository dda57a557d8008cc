// Counting how much of each file is live.
ghost use Rattle.std.specs.Prelude.{◌≡◌, ◌≤◌, ℕ, List, Option, Some, IfOk, IfErr, true};
ghost use Rattle.je_disk.specs.Moments.{now};
ghost use Rattle.log_printer.specs.Reading.{HasNoFile};
ghost use Rattle.command_line.specs.declared.command.Command.TheVariants.{Stat};
ghost use Rattle.engine.specs.Untouched.{IsUntouched};
ghost use Rattle.je_program.specs.Counting.{IsCountOf, IsCounted, IsCountedIf, IsNoCount, is_wrong};
ghost use Rattle.je_program.specs.Unprinted.{ComesTo};

use crate::cause::Cause;
use crate::looking::look;
use crate::resting::{close_at_rest, usual_config};
use crate::run_result::{RunResult, opening_cause, recovery_cause, unopened};
use crate::text::Text;
use crate::unprinted::Unprinted;
use environment::{Environment, Opened, Stopped};
use file_use::LogUse;
use in_tree::LoadedTrees;
use je_disk::Disk;
use recovery_je::log_use;
use std::alloc::Global;

// Reads the files of a disk for how much of each is live.
fn count_live<D: Disk>(alloc: Global, disk: &mut D) -> Result<LogUse, Cause>
    ensures counted { IfOk result (IsCountOf D.meaning.observable (now (D.meaning.history disk.old)).reads) }
    ensures none { IfErr result (IsNoCount D.meaning.observable (now (D.meaning.history disk.old)).reads (D.meaning.faults disk.old) (D.meaning.faults disk.new)) }
    ensures untouched { D.meaning.observable ≡ true → IsUntouched (D.meaning.history disk.old) (D.meaning.history disk.new) }
    ensures never_falls { D.meaning.faults disk.old ≤ D.meaning.faults disk.new }
{
    let trees = LoadedTrees::new(alloc, 128, 0);
    match log_use(alloc, disk, trees) {
        Ok(used) => Ok(used),
        Err(error) => Err(recovery_cause(error)),
    }
}

// Whether a cause tells what is wrong with files.
fn is_wrong(cause: &Cause) -> bool
    ensures { result ≡ is_wrong cause.now }
{
    matches!(cause, Cause::Unreadable(_) | Cause::WrongIndex(_))
}

// What a run comes to that was closed well. Its records are let go before its files are read again; where these are
// wrong then, it counts as none that was opened: over a disk that tells what it has they never are.
fn counted<D: Disk>(alloc: Global, run: RunResult<D>) -> Unprinted<D>
    ensures counted { IsCounted D.meaning run result.run result.text result.run.cause }
    ensures untouched { D.meaning.observable ≡ true → IsUntouched (D.meaning.history run.disk) (D.meaning.history result.run.disk) }
    ensures never_falls { D.meaning.faults run.disk ≤ D.meaning.faults result.run.disk }
{
    let RunResult {
        cause: _,
        opened,
        disk,
        journal,
        opening,
        totals,
        records,
    } = run;
    drop(records);
    let mut disk = disk;
    match count_live(alloc, &mut disk) {
        Ok(used) => Unprinted {
            run: RunResult {
                cause: Cause::Done,
                opened,
                disk,
                journal,
                opening,
                totals,
                records: None,
            },
            text: Text::Use(used),
        },
        Err(cause) => {
            if is_wrong(&cause) {
                return Unprinted {
                    run: unopened(alloc, cause, disk),
                    text: Text::Nothing,
                };
            }
            Unprinted {
                run: RunResult {
                    cause,
                    opened,
                    disk,
                    journal,
                    opening,
                    totals,
                    records: None,
                },
                text: Text::Nothing,
            }
        }
    }
}

// What a run comes to that was closed.
fn counted_if<D: Disk>(alloc: Global, run: RunResult<D>) -> Unprinted<D>
    ensures counted { IsCountedIf D.meaning run result.run result.text run.cause }
    ensures untouched { D.meaning.observable ≡ true → IsUntouched (D.meaning.history run.disk) (D.meaning.history result.run.disk) }
    ensures never_falls { D.meaning.faults run.disk ≤ D.meaning.faults result.run.disk }
{
    if matches!(&run.cause, Cause::Done) {
        return counted(alloc, run);
    }
    Unprinted {
        run,
        text: Text::Nothing,
    }
}

// Opens the environment that is there, closes it, and reads its files again.
fn stat_opened<D: Disk>(alloc: Global, disk: D) -> Unprinted<D>
    ensures { (left : Option (List ℕ)) (before after : ℕ) → before ≤ after → (D.meaning.observable ≡ true → HasNoFile (now (D.meaning.history disk)).reads → ⊥)
        → ComesTo (Some Stat) D.meaning left left before after disk result.run result.text }
{
    let config = usual_config();
    match Environment::open(alloc, disk, &config) {
        Ok(opened) => {
            let Opened {
                environment,
                opening,
            } = opened;
            let run = close_at_rest(alloc, environment, opening);
            counted_if(alloc, run)
        }
        Err(Stopped { error, disk }) => {
            let cause = opening_cause(error);
            Unprinted {
                run: unopened(alloc, cause, disk),
                text: Text::Nothing,
            }
        }
    }
}

/// Opens the environment that a disk has, gives it no line, and closes it; what it has to write is how much of each of the
/// files is live that are left. Where no file is there, none is made.
pub fn stat<D: Disk>(alloc: Global, disk: D) -> Unprinted<D>
    ensures { (left : Option (List ℕ)) (before after : ℕ) → before ≤ after
        → ComesTo (Some Stat) D.meaning left left before after disk result.run result.text }
{
    let mut disk = disk;
    match look(alloc, &mut disk) {
        Some(cause) => Unprinted {
            run: unopened(alloc, cause, disk),
            text: Text::Nothing,
        },
        None => stat_opened(alloc, disk),
    }
}
