// Checking the files.
ghost use Rattle.std.specs.Prelude.{◌≡◌, ◌≤◌, [], true, false};
ghost use Rattle.je_disk.specs.Moments.{now};
ghost use Rattle.engine.specs.Untouched.{IsUntouched};
ghost use Rattle.log_printer.specs.Reading.{HasNoFile};
ghost use Rattle.store_model.specs.Store.{no_databases};
ghost use Rattle.je_program.specs.Commands.{ends_check};
ghost use Rattle.je_program.specs.Verifying.{IsVerified, cause_of_check};

use crate::cause::Cause;
use crate::looking::look;
use crate::run_result::{recovery_cause, unopened};
use crate::text::Text;
use crate::unprinted::Unprinted;
use check_laws::Checked;
use in_tree::LoadedTrees;
use je_disk::Disk;
use recovery_je::check_disk;
use std::alloc::Global;

// How a check ends that was made.
fn check_cause(checked: &Checked) -> Cause
    ensures { result ≡ cause_of_check checked.now.findings }
{
    if checked.findings.as_slice().is_empty() {
        Cause::Done
    } else {
        Cause::Findings
    }
}

// Checks the files of a disk that has some.
fn verify_files<D: Disk>(alloc: Global, disk: D) -> Unprinted<D>
    ensures cause { ends_check result.run.cause ≡ true }
    ensures verified { (D.meaning.observable ≡ true → HasNoFile (now (D.meaning.history disk)).reads → ⊥)
        → IsVerified D.meaning.observable (now (D.meaning.history disk)).reads (D.meaning.faults disk) (D.meaning.faults result.run.disk) result.run.cause result.text }
    ensures opened { result.run.opened ≡ false }
    ensures journal { result.run.journal.items ≡ [] }
    ensures opening { result.run.opening ≡ no_databases }
    ensures untouched { D.meaning.observable ≡ true → IsUntouched (D.meaning.history disk) (D.meaning.history result.run.disk) }
    ensures never_falls { D.meaning.faults disk ≤ D.meaning.faults result.run.disk }
{
    let mut disk = disk;
    let trees = LoadedTrees::new(alloc, 128, 0);
    match check_disk(alloc, &mut disk, trees) {
        Ok(checked) => {
            let cause = check_cause(&checked);
            Unprinted {
                run: unopened(alloc, cause, disk),
                text: Text::Check(checked),
            }
        }
        Err(error) => Unprinted {
            run: unopened(alloc, recovery_cause(error), disk),
            text: Text::Nothing,
        },
    }
}

/// Reads the files of a disk, and nothing else; what it has to write is all that is wrong with them.
pub fn verify<D: Disk>(alloc: Global, disk: D) -> Unprinted<D>
    ensures cause { ends_check result.run.cause ≡ true }
    ensures verified { IsVerified D.meaning.observable (now (D.meaning.history disk)).reads (D.meaning.faults disk) (D.meaning.faults result.run.disk) result.run.cause result.text }
    ensures opened { result.run.opened ≡ false }
    ensures journal { result.run.journal.items ≡ [] }
    ensures opening { result.run.opening ≡ no_databases }
    ensures untouched { D.meaning.observable ≡ true → IsUntouched (D.meaning.history disk) (D.meaning.history result.run.disk) }
    ensures never_falls { D.meaning.faults disk ≤ D.meaning.faults result.run.disk }
{
    let mut disk = disk;
    match look(alloc, &mut disk) {
        Some(cause) => Unprinted {
            run: unopened(alloc, cause, disk),
            text: Text::Nothing,
        },
        None => verify_files(alloc, disk),
    }
}
