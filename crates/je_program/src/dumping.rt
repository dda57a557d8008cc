// Dumping a database.
ghost use Rattle.std.specs.Prelude.{◌≡◌, ◌≤◌, [], ℕ, Bool, List, Option, Some, true};
ghost use Rattle.je_disk.specs.Moments.{now};
ghost use Rattle.store_model.specs.declared.event.Event.{Event};
ghost use Rattle.store_model.specs.declared.totals.Totals.{Totals};
ghost use Rattle.log_printer.specs.Reading.{HasNoFile};
ghost use Rattle.command_line.specs.declared.command.Command.TheVariants.{Dump};
ghost use Rattle.log_replay.specs.Rows.{Rows};
ghost use Rattle.je_program.specs.declared.cause.Cause.{Cause as Why};
ghost use Rattle.je_program.specs.Commands.{text_of};
ghost use Rattle.je_program.specs.Dumping.{HaveRows, IsSameRun, cause_with, dump_given, text_with};
ghost use Rattle.je_program.specs.Unprinted.{ComesTo};

use crate::cause::Cause;
use crate::looking::look;
use crate::resting::{close_at_rest, usual_config};
use crate::run_result::{RunResult, opening_cause, unopened};
use crate::text::Text;
use crate::unprinted::Unprinted;
use environment::{Environment, FoundDatabase, Opened, Stopped};
use je_disk::Disk;
use je_order::Word;
use std::alloc::Global;

// A run that found no database: that is why it ended, whatever closing met.
fn without_database<D: Disk>(run: RunResult<D>) -> Unprinted<D>
    ensures same { IsSameRun run result.run }
    ensures cause { result.run.cause ≡ Why.NoDatabase }
    ensures text { (opened : Bool) (journal : List Event) (totals : Totals) → text_of result.text opened journal totals ≡ [] }
{
    let RunResult {
        cause: _,
        opened,
        disk,
        journal,
        opening,
        totals,
        records,
    } = run;
    Unprinted {
        run: RunResult {
            cause: Cause::NoDatabase,
            opened,
            disk,
            journal,
            opening,
            totals,
            records,
        },
        text: Text::Nothing,
    }
}

// A run with the text of the database that was found, if all was done: the text takes the records.
fn with_database<D: Disk>(run: RunResult<D>, found: FoundDatabase, printed: bool) -> Unprinted<D>
    ensures same { IsSameRun run result.run }
    ensures cause { result.run.cause ≡ run.cause }
    ensures text { (rows : Rows) (opened : Bool) (journal : List Event) (totals : Totals) → HaveRows run.records rows → text_of result.text opened journal totals ≡ text_with run.cause printed found.kind (rows found.number) }
{
    let RunResult {
        cause,
        opened,
        disk,
        journal,
        opening,
        totals,
        records,
    } = run;
    match (cause, records) {
        (Cause::Done, Some(records)) => Unprinted {
            run: RunResult {
                cause: Cause::Done,
                opened,
                disk,
                journal,
                opening,
                totals,
                records: None,
            },
            text: Text::Dump {
                records,
                number: found.number,
                kind: found.kind,
                printed,
            },
        },
        (cause, records) => Unprinted {
            run: RunResult {
                cause,
                opened,
                disk,
                journal,
                opening,
                totals,
                records,
            },
            text: Text::Nothing,
        },
    }
}

// What a run comes to in which this database was found, or none.
fn dumped<D: Disk>(run: RunResult<D>, found: Option<FoundDatabase>, printed: bool) -> Unprinted<D>
    ensures same { IsSameRun run result.run }
    ensures cause { result.run.cause ≡ cause_with found run.cause }
    ensures text { (rows : Rows) (opened : Bool) (journal : List Event) (totals : Totals) → HaveRows run.records rows → text_of result.text opened journal totals ≡ dump_given run.cause printed rows found }
{
    match found {
        Some(found) => with_database(run, found, printed),
        None => without_database(run),
    }
}

// Opens the environment that is there, finds the database, and closes it.
fn dump_opened<D: Disk>(alloc: Global, disk: D, db: &Word, printed: bool) -> Unprinted<D>
    ensures { (left : Option (List ℕ)) (before after : ℕ) → before ≤ after → (D.meaning.observable ≡ true → HasNoFile (now (D.meaning.history disk)).reads → ⊥)
        → ComesTo (Some (Dump db.now printed)) D.meaning left left before after disk result.run result.text }
{
    let config = usual_config();
    match Environment::open(alloc, disk, &config) {
        Ok(opened) => {
            let Opened {
                environment,
                opening,
            } = opened;
            let found = environment.find_database(db);
            let run = close_at_rest(alloc, environment, opening);
            dumped(run, found, printed)
        }
        Err(Stopped { error, disk }) => {
            let cause = opening_cause(error);
            Unprinted {
                run: unopened(alloc, cause, disk),
                text: Text::Nothing,
            }
        }
    }
}

/// Opens the environment that a disk has, gives it no line, and closes it; what it has to write is the database of that
/// name as a dump. Where no file is there, none is made.
pub fn dump<D: Disk>(alloc: Global, disk: D, db: &Word, printed: bool) -> Unprinted<D>
    ensures { (left : Option (List ℕ)) (before after : ℕ) → before ≤ after
        → ComesTo (Some (Dump db.now printed)) D.meaning left left before after disk result.run result.text }
{
    let mut disk = disk;
    match look(alloc, &mut disk) {
        Some(cause) => Unprinted {
            run: unopened(alloc, cause, disk),
            text: Text::Nothing,
        },
        None => dump_opened(alloc, disk, db, printed),
    }
}
