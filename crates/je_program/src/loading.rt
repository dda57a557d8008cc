// Loading a dump.
ghost use Rattle.std.specs.Prelude.{◌≡◌, ◌≤◌, [], ℕ, Bool, List, Option, None, Some, length, true, false};
ghost use Rattle.je_disk.specs.Moments.{History, now};
ghost use Rattle.store_model.specs.declared.event.Event.{Event};
ghost use Rattle.store_model.specs.declared.store.Database.{Database};
ghost use Rattle.store_model.specs.declared.store.Store.{Store};
ghost use Rattle.store_model.specs.declared.totals.Totals.{Totals};
ghost use Rattle.store_model.specs.Store.{database_of};
ghost use Rattle.je_answers.specs.Standing.{Standing};
ghost use Rattle.je_answers.specs.Journal.{lines_of};
ghost use Rattle.log_replay.specs.Rows.{Rows};
ghost use Rattle.load_run.specs.Lines.{load_lines};
ghost use Rattle.load_laws.specs.Images.{IsLoadOf};
ghost use Rattle.command_line.specs.declared.command.Command.TheVariants.{Load};
ghost use Rattle.environment.specs.Databases.{IsFoundIn};
ghost use Rattle.environment.specs.Whole.{IsAt, disk_of};
ghost use Rattle.script_run.specs.Running.{Begins};
ghost use Rattle.script_run.specs.UnderWay.{Beginning};
ghost use Rattle.je_program.specs.Commands.{ReadsDump, keeps_otherwise, loaded_at, takes_pairs, text_of};
ghost use Rattle.je_program.specs.Dumping.{IsSameRun};
ghost use Rattle.je_program.specs.Loading.{HasStart, IsPlaceFor};
ghost use Rattle.je_program.specs.Ran.{HasRun};
ghost use Rattle.je_program.specs.Run.{cause_of_load, first_refused};
ghost use Rattle.je_program.specs.Unprinted.{ComesTo};

use crate::cause::Cause;
use crate::ending::load_cause;
use crate::resting::{at_rest, close_at_rest, usual_config};
use crate::run_result::{RunResult, finish, opening_cause, unopened};
use crate::text::Text;
use crate::unprinted::Unprinted;
use dump_text::Dump;
use environment::{Environment, FoundDatabase, Opened, Stopped};
use je_disk::Disk;
use je_order::Word;
use load_run::lines_of_dump;
use script_run::{Pause, Running, run_until};
use std::alloc::Global;
use store_model::{Kind, MOST_DATABASES};

// Whether a database keeps its records otherwise than a dump says.
fn keeps_otherwise(dup: bool, found: FoundDatabase) -> bool
    ensures { (rows : Rows) (database : Database) → IsFoundIn rows (Some database) (Some found) → result ≡ keeps_otherwise dup (Some database) }
{
    match found.kind {
        Kind::Plain => dup,
        Kind::Dup => !dup,
    }
}

// Whether the pairs of a dump go into a database that is to be made, or why the store, which has so many databases, does
// not take them.
fn place_for(
    dup: bool,
    line: u32,
    databases: u64,
    found: Option<FoundDatabase>,
) -> Result<bool, Cause>
    ensures { (rows : Rows) (database : Option Database) → IsFoundIn rows database found → IsPlaceFor dup line databases database result }
{
    let Some(found) = found else {
        if databases < u64::from(MOST_DATABASES) {
            return Ok(true);
        }
        return Err(Cause::NoDatabase);
    };
    if found.is_index {
        return Err(Cause::NoDatabase);
    }
    if keeps_otherwise(dup, found) {
        return Err(Cause::OtherKind { line });
    }
    Ok(false)
}

// The same of an environment.
fn place_in<D: Disk>(environment: &Environment<D>, db: &Word, dump: &Dump) -> Result<bool, Cause>
    ensures { (most : ℕ) (st : Standing) → IsAt most D.meaning.observable (now (D.meaning.history (disk_of environment.now))) environment.now st → st.fault ≡ None
        → IsPlaceFor dump.now.dup dump.now.dup_line (length st.store.databases) (database_of db.now st.store) result }
{
    let databases = environment.totals().databases;
    let found = environment.find_database(db);
    place_for(dump.dup, dump.dup_line, databases, found)
}

// Gives the lines that load a dump, up to the first that is refused.
fn give_lines<D: Disk>(
    alloc: Global,
    environment: Environment<D>,
    make: bool,
    db: &Word,
    no_overwrite: bool,
    dump: Dump,
) -> Running<D>
    requires start { (p : Beginning) × Begins D.meaning p environment }
    ensures run { (old : History) (before : ℕ) (opening : Store) (p : Beginning) → HasStart D.meaning old before opening p environment → HasRun D.meaning old before opening p result }
    ensures load { (old : History) (before : ℕ) (opening : Store) (p : Beginning) → HasStart D.meaning old before opening p environment → IsLoadOf make db.now no_overwrite dump p.st result.recorded.journal.items }
    ensures all { result.memory_ended ≡ false → first_refused no_overwrite result.recorded.journal.items ≡ None → lines_of result.recorded.journal.items ≡ load_lines make db.now no_overwrite dump }
{
    match lines_of_dump(alloc, make, db, no_overwrite, dump) {
        Ok(lines) => {
            let pause = Pause::AtRefusal { kept: no_overwrite };
            run_until(alloc, environment, lines, pause)
        }
        Err(_) => at_rest(alloc, environment, true),
    }
}

// A run with another cause of its end.
fn with_cause<D>(run: RunResult<D>, cause: Cause) -> RunResult<D>
    ensures same { IsSameRun run result }
    ensures cause { result.cause ≡ cause }
{
    let RunResult {
        cause: _,
        opened,
        disk,
        journal,
        opening,
        totals,
        records,
    } = run;
    RunResult {
        cause,
        opened,
        disk,
        journal,
        opening,
        totals,
        records,
    }
}

// What is to be written of a load that ended so.
fn loaded_text(cause: &Cause) -> Text
    ensures { (opened : Bool) (journal : List Event) (totals : Totals) → text_of result opened journal totals ≡ loaded_at cause.now journal }
{
    match cause {
        Cause::Done => Text::Loaded,
        _ => Text::Nothing,
    }
}

// What a run comes to that was given the lines of a load.
fn loaded<D: Disk>(run: RunResult<D>, no_overwrite: bool) -> Unprinted<D>
    ensures same { IsSameRun run result.run }
    ensures cause { result.run.cause ≡ cause_of_load no_overwrite run.cause run.journal.items }
    ensures text { (opened : Bool) (journal : List Event) (totals : Totals) → text_of result.text opened journal totals ≡ loaded_at result.run.cause journal }
{
    let RunResult {
        cause,
        opened,
        disk,
        journal,
        opening,
        totals,
        records,
    } = run;
    let cause = load_cause(no_overwrite, cause, &journal);
    let text = loaded_text(&cause);
    Unprinted {
        run: RunResult {
            cause,
            opened,
            disk,
            journal,
            opening,
            totals,
            records,
        },
        text,
    }
}

/// Opens the environment that a disk has, or makes one, puts the pairs of a dump into the database of that name in one
/// transaction, and closes it; a database that is not there is made before. Where the store does not take the pairs, no
/// line is given; where one is refused, none of them is stored. With `no_overwrite`, what the database has stays.
pub fn load<D: Disk>(
    alloc: Global,
    disk: D,
    db: &Word,
    no_overwrite: bool,
    dump: Dump,
) -> Unprinted<D>
    ensures { (left rest : Option (List ℕ)) (before after : ℕ) → before ≤ after → ReadsDump left rest dump
        → ComesTo (Some (Load db.now no_overwrite)) D.meaning left rest before after disk result.run result.text }
{
    let config = usual_config();
    match Environment::open(alloc, disk, &config) {
        Ok(opened) => {
            let Opened {
                environment,
                opening,
            } = opened;
            match place_in(&environment, db, &dump) {
                Ok(make) => {
                    let running = give_lines(alloc, environment, make, db, no_overwrite, dump);
                    let run = finish(running, opening);
                    loaded(run, no_overwrite)
                }
                Err(cause) => {
                    drop(dump);
                    let run = close_at_rest(alloc, environment, opening);
                    Unprinted {
                        run: with_cause(run, cause),
                        text: Text::Nothing,
                    }
                }
            }
        }
        Err(Stopped { error, disk }) => {
            drop(dump);
            let cause = opening_cause(error);
            Unprinted {
                run: unopened(alloc, cause, disk),
                text: Text::Nothing,
            }
        }
    }
}
