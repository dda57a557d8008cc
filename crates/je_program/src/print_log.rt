// Printing the log.
ghost use Rattle.std.specs.Prelude.{◌≡◌, ◌≤◌, [], true, false};
ghost use Rattle.je_disk.specs.Moments.{now};
ghost use Rattle.engine.specs.Untouched.{IsUntouched};
ghost use Rattle.store_model.specs.Store.{no_databases};
ghost use Rattle.je_program.specs.Commands.{ends_reading};
ghost use Rattle.je_program.specs.Printing.{IsPrinted, cause_of_log};

use crate::cause::Cause;
use crate::run_result::unopened;
use crate::text::Text;
use crate::unprinted::Unprinted;
use je_disk::Disk;
use log_printer::{LogErr, read_log};
use std::alloc::Global;

// The cause of a log that was not read.
fn log_cause(error: LogErr) -> Cause
    ensures { result ≡ cause_of_log error }
{
    match error {
        LogErr::Disk => Cause::Disk,
        LogErr::Memory => Cause::Memory,
        LogErr::NoFile => Cause::NoEnvironment,
        LogErr::Corrupt(corruption) => Cause::Unreadable(corruption),
    }
}

/// Reads the log of a disk, and nothing else; what it has to write are the log's lines.
pub fn print_log<D: Disk>(alloc: Global, disk: D) -> Unprinted<D>
    ensures cause { ends_reading result.run.cause ≡ true }
    ensures printed { IsPrinted D.meaning.observable (now (D.meaning.history disk)).reads (D.meaning.faults disk) (D.meaning.faults result.run.disk) result.run.cause result.text }
    ensures opened { result.run.opened ≡ false }
    ensures journal { result.run.journal.items ≡ [] }
    ensures opening { result.run.opening ≡ no_databases }
    ensures untouched { D.meaning.observable ≡ true → IsUntouched (D.meaning.history disk) (D.meaning.history result.run.disk) }
    ensures never_falls { D.meaning.faults disk ≤ D.meaning.faults result.run.disk }
{
    let mut disk = disk;
    match read_log(alloc, &mut disk) {
        Ok(files) => Unprinted {
            run: unopened(alloc, Cause::Done, disk),
            text: Text::Log(files),
        },
        Err(error) => Unprinted {
            run: unopened(alloc, log_cause(error), disk),
            text: Text::Nothing,
        },
    }
}
