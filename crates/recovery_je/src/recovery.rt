// Recovery from the files of a disk.
ghost use Rattle.std.specs.Prelude.{◌≡◌, ℕ, Bool, true, false, None, Err, IfOk, IfErr, OnOk};
ghost use Rattle.je_disk.specs.Causes.{HasCause};
ghost use Rattle.je_disk.specs.Moments.{now, Passes};
ghost use Rattle.je_disk.specs.States.{Files, IsListing, AreRisingNumbers};
ghost use Rattle.log_meaning.specs.Reading.{reading_of};
ghost use Rattle.recovery_je.specs.Files.{AreRead, AreSound, LogIsNoted};
ghost use Rattle.recovery_je.specs.Putting.{HasReadAgain};
ghost use Rattle.recovery_je.specs.Answer.{IsReadingOf, IsRecoveredFrom, IsCorruptBy, IsFirstWrong, IsIndexBy, IsNoDiskErr, HasCauseOf, HasFiles, HasWrongIndex, recovered_with};

use crate::reading::{FilesRead, read_files};
use crate::recover_err::RecoverErr;
use crate::recovered::Recovered;
use crate::recovering::{Meant, recover_entries};
use crate::settling::Settled;
use je_disk::{Disk, DiskErr};
use je_lsn::FileNo;
use log_replay::LastFile;
use record_tree::Loads;
use std::alloc::Global;

/// What a log means, if each index has the pairs of its primary's records.
pub(crate) fn check_index<T: Loads + Drop>(
    meant: Meant<T>,
    tail: Option<LastFile>,
) -> Result<Recovered<T>, RecoverErr>
    ensures recovered { IfOk result (λ r. (meant.settled.wrong_index ≡ None) × (r ≡ recovered_with meant tail)) }
    ensures wrong { IfErr result (λ e. IsFirstWrong meant.settled.wrong_index e) }
{
    let Meant {
        settled,
        last_txn,
        last_node,
        last_db,
        checkpoint,
        redo,
        redone,
    } = meant;
    let Settled {
        trees,
        opening,
        databases,
        records,
        wrong_index,
    } = settled;
    if let Some(name) = wrong_index {
        drop(trees);
        return Err(RecoverErr::WrongIndex(name));
    }
    Ok(Recovered {
        trees,
        opening,
        databases,
        records,
        last_txn,
        last_node,
        last_db,
        checkpoint,
        redo,
        redone,
        tail,
    })
}

// What files come to that were read.
fn recover_files<T: Loads + Drop>(
    alloc: Global,
    files: &[FileNo],
    read: FilesRead,
    trees: T,
) -> Result<Recovered<T>, RecoverErr>
    requires files { AreRisingNumbers files.now }
    requires empty { (d : ℕ) → T.has_tree trees d ≡ false }
    requires sound { AreSound read }
    requires noted { LogIsNoted read }
    ensures recovered { (observable : Bool) (reads : Files) → AreRead observable reads files.now read → IfOk result (λ r. IsReadingOf observable reads files.now (IsRecoveredFrom (record { store = r.opening; last_txn = r.last_txn; last_node = r.last_node; last_db = r.last_db; checkpoint = r.checkpoint }) (T.has_tree r.trees) (T.stored r.trees) r.databases r.records r.redone r.tail (HasReadAgain T.well_formed T.nodes T.read T.stored T.last_number T.fits r.trees r.redo))) }
    ensures corrupt { (observable : Bool) (reads : Files) → AreRead observable reads files.now read → IfErr result (λ e. IsCorruptBy e (λ corruption. IsReadingOf observable reads files.now (λ held. reading_of held ≡ Err corruption))) }
    ensures index { (observable : Bool) (reads : Files) → AreRead observable reads files.now read → IfErr result (λ e. IsIndexBy e (λ name. IsReadingOf observable reads files.now (HasWrongIndex name))) }
    ensures other { IfErr result IsNoDiskErr }
{
    match read {
        FilesRead::Stopped(corruption) => {
            drop(trees);
            Err(RecoverErr::Corrupt(corruption))
        }
        FilesRead::All(mut entries, notes, tail) => {
            let meant = recover_entries(alloc, files, &mut entries, false, notes, trees)?;
            check_index(meant, tail)
        }
    }
}

/// Reads the files of a log whose numbers these are, rising, each once and whole, and makes the trees that
/// they mean of trees that are empty. If the disk is observable, and these are all its files, they mean the
/// store that the trees hold, with these numbers, in which each index has the pairs of its primary's records; or the
/// corruption is their first; or they mean a store in which the index is the first without its pairs. The disk's state stays
/// the same, and so do the jobs that are out. `Disk` comes only where the disk counted a fault; Memory
/// is free, and comes for a count of records beyond a u64's too.
pub fn recover<D: Disk, T: Loads + Drop>(
    alloc: Global,
    disk: &mut D,
    files: &[FileNo],
    trees: T,
) -> Result<Recovered<T>, RecoverErr>
    requires files { AreRisingNumbers files.now }
    requires empty { (d : ℕ) → T.has_tree trees d ≡ false }
    ensures recovered { IfOk result (λ r. IsReadingOf D.meaning.observable (now (D.meaning.history disk.old)).reads files.now (IsRecoveredFrom (record { store = r.opening; last_txn = r.last_txn; last_node = r.last_node; last_db = r.last_db; checkpoint = r.checkpoint }) (T.has_tree r.trees) (T.stored r.trees) r.databases r.records r.redone r.tail (HasReadAgain T.well_formed T.nodes T.read T.stored T.last_number T.fits r.trees r.redo))) }
    ensures corrupt { IfErr result (λ e. IsCorruptBy e (λ corruption. IsReadingOf D.meaning.observable (now (D.meaning.history disk.old)).reads files.now (λ held. reading_of held ≡ Err corruption))) }
    ensures index { IfErr result (λ e. IsIndexBy e (λ name. IsReadingOf D.meaning.observable (now (D.meaning.history disk.old)).reads files.now (HasWrongIndex name))) }
    ensures same { D.meaning.observable ≡ true → now (D.meaning.history disk.new) ≡ now (D.meaning.history disk.old) }
    ensures moments { D.meaning.observable ≡ true → Passes (D.meaning.history disk.old) (D.meaning.history disk.new) (λ s. s ≡ now (D.meaning.history disk.old)) }
    ensures jobs { (D.meaning.sync_out disk.new ≡ D.meaning.sync_out disk.old) × (D.meaning.read_out disk.new ≡ D.meaning.read_out disk.old) × (D.meaning.read_of disk.new ≡ D.meaning.read_of disk.old) × (D.meaning.last_job disk.new ≡ D.meaning.last_job disk.old) }
    ensures cause { HasCauseOf (D.meaning.faults disk.old) (D.meaning.faults disk.new) result }
{
    let read = read_files(alloc, disk, files)?;
    recover_files(alloc, files, read, trees)
}

/// Mounts the disk, and lists its files.
pub(crate) fn list_files<D: Disk>(alloc: Global, disk: &mut D) -> Result<Vec<FileNo>, DiskErr>
    ensures rising { IfOk result (λ files. AreRisingNumbers files.items) }
    ensures listed { D.meaning.observable ≡ true → IfOk result (λ files. IsListing (now (D.meaning.history disk.old)).reads files.items) }
    ensures same { D.meaning.observable ≡ true → now (D.meaning.history disk.new) ≡ now (D.meaning.history disk.old) }
    ensures moments { D.meaning.observable ≡ true → Passes (D.meaning.history disk.old) (D.meaning.history disk.new) (λ s. s ≡ now (D.meaning.history disk.old)) }
    ensures none_out { OnOk result (D.meaning.sync_out disk.new ≡ None) }
    ensures cause { HasCause (D.meaning.faults disk.old) (D.meaning.faults disk.new) result }
{
    disk.mount()?;
    disk.list(alloc)
}

/// Mounts the disk, and recovers the environment of the files that it has, in trees that are empty. Its
/// clauses are those of `recover` for all files of an observable disk. No job is out afterwards.
pub fn recover_disk<D: Disk, T: Loads + Drop>(
    alloc: Global,
    disk: &mut D,
    trees: T,
) -> Result<Recovered<T>, RecoverErr>
    requires { (d : ℕ) → T.has_tree trees d ≡ false }
    ensures recovered { IfOk result (λ r. HasFiles D.meaning.observable (now (D.meaning.history disk.old)).reads (IsRecoveredFrom (record { store = r.opening; last_txn = r.last_txn; last_node = r.last_node; last_db = r.last_db; checkpoint = r.checkpoint }) (T.has_tree r.trees) (T.stored r.trees) r.databases r.records r.redone r.tail (HasReadAgain T.well_formed T.nodes T.read T.stored T.last_number T.fits r.trees r.redo))) }
    ensures corrupt { IfErr result (λ e. IsCorruptBy e (λ corruption. HasFiles D.meaning.observable (now (D.meaning.history disk.old)).reads (λ held. reading_of held ≡ Err corruption))) }
    ensures index { IfErr result (λ e. IsIndexBy e (λ name. HasFiles D.meaning.observable (now (D.meaning.history disk.old)).reads (HasWrongIndex name))) }
    ensures same { D.meaning.observable ≡ true → now (D.meaning.history disk.new) ≡ now (D.meaning.history disk.old) }
    ensures moments { D.meaning.observable ≡ true → Passes (D.meaning.history disk.old) (D.meaning.history disk.new) (λ s. s ≡ now (D.meaning.history disk.old)) }
    ensures none_out { OnOk result (D.meaning.sync_out disk.new ≡ None) }
    ensures cause { HasCauseOf (D.meaning.faults disk.old) (D.meaning.faults disk.new) result }
{
    let files = list_files(alloc, disk)?;
    recover(alloc, disk, &files, trees)
}
