// Checks of the files of a disk.
ghost use Rattle.std.specs.Prelude.{◌≡◌, ℕ, Bool, true, false, None, Some, IfOk, IfErr, OnOk, map};
ghost use Rattle.je_disk.specs.Moments.{now, Passes};
ghost use Rattle.je_disk.specs.States.{Files, AreRisingNumbers};
ghost use Rattle.log_replay.specs.Reading.{corruption_in};
ghost use Rattle.check_laws.specs.Check.{check_of};
ghost use Rattle.recovery_je.specs.Answer.{IsReadingOf, IsCorruptBy, IsIndexBy, IsNoDiskErr, HasCauseOf, HasFiles};
ghost use Rattle.recovery_je.specs.Checks.{run_by_len};
ghost use Rattle.recovery_je.specs.Files.{AreSound, LogIsNoted};
ghost use Rattle.recovery_je.specs.Measuring.{AreMeasured};

use crate::entry_checks::{EntryCheck, check_entries};
use crate::file_len::FileLen;
use crate::reading::{FilesRead, measure_files};
use crate::recover_err::RecoverErr;
use crate::recovery::list_files;
use check_laws::{Checked, FileRun};
use je_disk::Disk;
use je_lsn::FileNo;
use je_order::List;
use record_tree::Loads;
use std::alloc::{AllocError, Global};

// How much of each file is valid.
fn runs_of(alloc: Global, lens: &[FileLen]) -> Result<List<FileRun>, AllocError>
    ensures { IfOk result (λ runs. runs ≡ map run_by_len lens.now) }
{
    let mut runs = List::new(alloc);
    for len in lens {
        runs.push(FileRun {
            file: len.number,
            entries: len.entries,
            end: len.end,
        })?;
    }
    Ok(runs)
}

// What a check of a log's entries comes to, with how long its files are.
fn with_runs(alloc: Global, lens: &[FileLen], check: EntryCheck) -> Result<Checked, AllocError>
    ensures { IfOk result (λ c. c ≡ record { files = map run_by_len lens.now; databases = check.databases; findings = check.findings }) }
{
    let files = runs_of(alloc, lens)?;
    let EntryCheck {
        databases,
        findings,
    } = check;
    Ok(Checked {
        files,
        databases,
        findings,
    })
}

// What a check of files comes to that were read and are so long.
fn check_files<T: Loads + Drop>(
    alloc: Global,
    files: &[FileNo],
    lens: &[FileLen],
    read: FilesRead,
    trees: T,
) -> Result<Checked, RecoverErr>
    requires files { AreRisingNumbers files.now }
    requires empty { (d : ℕ) → T.has_tree trees d ≡ false }
    requires sound { AreSound read }
    requires noted { LogIsNoted read }
    ensures checked { (observable : Bool) (reads : Files) → AreMeasured observable reads files.now lens.now read → IfOk result (λ c. IsReadingOf observable reads files.now (λ held. (corruption_in held ≡ None) × (c ≡ check_of held))) }
    ensures corrupt { (observable : Bool) (reads : Files) → AreMeasured observable reads files.now lens.now read → IfErr result (λ e. IsCorruptBy e (λ corruption. IsReadingOf observable reads files.now (λ held. corruption_in held ≡ Some corruption))) }
    ensures no_index { IfErr result (λ e. IsIndexBy e (λ name. ⊥)) }
    ensures other { IfErr result IsNoDiskErr }
{
    match read {
        FilesRead::Stopped(corruption) => {
            drop(trees);
            Err(RecoverErr::Corrupt(corruption))
        }
        FilesRead::All(entries, notes, tail) => {
            let check = check_entries(alloc, files, entries, notes, trees)?;
            Ok(with_runs(alloc, lens, check)?)
        }
    }
}

// Reads the files of these numbers, and checks them.
fn check_listed<D: Disk, T: Loads + Drop>(
    alloc: Global,
    disk: &mut D,
    files: &[FileNo],
    trees: T,
) -> Result<Checked, RecoverErr>
    requires files { AreRisingNumbers files.now }
    requires empty { (d : ℕ) → T.has_tree trees d ≡ false }
    ensures checked { IfOk result (λ c. IsReadingOf D.meaning.observable (now (D.meaning.history disk.old)).reads files.now (λ held. (corruption_in held ≡ None) × (c ≡ check_of held))) }
    ensures corrupt { IfErr result (λ e. IsCorruptBy e (λ corruption. IsReadingOf D.meaning.observable (now (D.meaning.history disk.old)).reads files.now (λ held. corruption_in held ≡ Some corruption))) }
    ensures no_index { IfErr result (λ e. IsIndexBy e (λ name. ⊥)) }
    ensures same { D.meaning.observable ≡ true → now (D.meaning.history disk.new) ≡ now (D.meaning.history disk.old) }
    ensures moments { D.meaning.observable ≡ true → Passes (D.meaning.history disk.old) (D.meaning.history disk.new) (λ s. s ≡ now (D.meaning.history disk.old)) }
    ensures jobs { D.meaning.sync_out disk.new ≡ D.meaning.sync_out disk.old }
    ensures cause { HasCauseOf (D.meaning.faults disk.old) (D.meaning.faults disk.new) result }
{
    let mut lens = Vec::new(alloc);
    let read = measure_files(alloc, disk, files, &mut lens)?;
    check_files(alloc, files, &lens, read, trees)
}

/// Mounts the disk, and checks the files that it has, with trees that are empty: what is valid of each file, how many records of each
/// database are right, and all that is wrong in the order of reading. What is wrong is left out, and reading goes on behind it: a node
/// with all below it, a record alone, of missing files one gap, and an index is compared with what is left of its primary. `Corrupt`
/// comes only of a file that cannot be read, and `WrongIndex` never. The disk's state stays the same, and no job is out afterwards.
/// The time is that of recovery, of a few looks at each record, and of sorting the pairs of each index.
pub fn check_disk<D: Disk, T: Loads + Drop>(
    alloc: Global,
    disk: &mut D,
    trees: T,
) -> Result<Checked, RecoverErr>
    requires { (d : ℕ) → T.has_tree trees d ≡ false }
    ensures checked { IfOk result (λ c. HasFiles D.meaning.observable (now (D.meaning.history disk.old)).reads (λ held. (corruption_in held ≡ None) × (c ≡ check_of held))) }
    ensures corrupt { IfErr result (λ e. IsCorruptBy e (λ corruption. HasFiles D.meaning.observable (now (D.meaning.history disk.old)).reads (λ held. corruption_in held ≡ Some corruption))) }
    ensures no_index { IfErr result (λ e. IsIndexBy e (λ name. ⊥)) }
    ensures same { D.meaning.observable ≡ true → now (D.meaning.history disk.new) ≡ now (D.meaning.history disk.old) }
    ensures moments { D.meaning.observable ≡ true → Passes (D.meaning.history disk.old) (D.meaning.history disk.new) (λ s. s ≡ now (D.meaning.history disk.old)) }
    ensures none_out { OnOk result (D.meaning.sync_out disk.new ≡ None) }
    ensures cause { HasCauseOf (D.meaning.faults disk.old) (D.meaning.faults disk.new) result }
{
    let files = list_files(alloc, disk)?;
    check_listed(alloc, disk, &files, trees)
}
