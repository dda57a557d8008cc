// Looking for an environment.
ghost use Rattle.std.specs.Prelude.{◌≡◌, ◌≤◌, true, IfOk};
ghost use Rattle.je_disk.specs.Causes.{HasCause};
ghost use Rattle.je_disk.specs.Moments.{now};
ghost use Rattle.je_disk.specs.States.{IsListing};
ghost use Rattle.engine.specs.Untouched.{IsUntouched};
ghost use Rattle.je_program.specs.Dumping.{IsLook};

use crate::cause::Cause;
use je_disk::{Disk, DiskErr};
use je_lsn::FileNo;
use std::alloc::Global;

// Mounts the disk, and lists its files.
fn list_files<D: Disk>(alloc: Global, disk: &mut D) -> Result<Vec<FileNo>, DiskErr>
    ensures listed { D.meaning.observable ≡ true → IfOk result (λ files. IsListing (now (D.meaning.history disk.old)).reads files.items) }
    ensures untouched { D.meaning.observable ≡ true → IsUntouched (D.meaning.history disk.old) (D.meaning.history disk.new) }
    ensures cause { HasCause (D.meaning.faults disk.old) (D.meaning.faults disk.new) result }
{
    disk.mount()?;
    disk.list(alloc)
}

/// Why the disk has no environment: no file is there, it failed, or there was no memory; None where a file is there.
pub fn look<D: Disk>(alloc: Global, disk: &mut D) -> Option<Cause>
    ensures look { IsLook D.meaning.observable (now (D.meaning.history disk.old)).reads (D.meaning.faults disk.old) (D.meaning.faults disk.new) result }
    ensures untouched { D.meaning.observable ≡ true → IsUntouched (D.meaning.history disk.old) (D.meaning.history disk.new) }
    ensures never_falls { D.meaning.faults disk.old ≤ D.meaning.faults disk.new }
{
    match list_files(alloc, disk) {
        Ok(files) => {
            if files.is_empty() {
                Some(Cause::NoEnvironment)
            } else {
                None
            }
        }
        Err(DiskErr::Failed) => Some(Cause::Disk),
        Err(DiskErr::Memory) => Some(Cause::Memory),
    }
}
