// How much of a disk's log is live.
ghost use Rattle.std.specs.Prelude.{◌≡◌, ℕ, Bool, true, false, None, Err, IfOk, IfErr, OnOk, unwrap_or};
ghost use Rattle.std.specs.List.{AllByRecursion};
ghost use Rattle.je_disk.specs.Moments.{now, Passes};
ghost use Rattle.je_disk.specs.States.{Files, AreRisingNumbers};
ghost use Rattle.log_entry.specs.Body.{IsEntry};
ghost use Rattle.log_trees.specs.Placed.{AreInOrder};
ghost use Rattle.log_meaning.specs.Checkpoint.{no_checkpoint};
ghost use Rattle.log_meaning.specs.Redo.{Redo};
ghost use Rattle.log_meaning.specs.Reading.{reading_of};
ghost use Rattle.file_use.specs.Live.{is_in_catalog, is_record_from, images_in_use as images_used, is_one_of};
ghost use Rattle.recovery_je.specs.Files.{AreSound, LogIsNoted};
ghost use Rattle.recovery_je.specs.Recovering.{HasTrees};
ghost use Rattle.recovery_je.specs.Measuring.{AreMeasured};
ghost use Rattle.recovery_je.specs.Using.{IsUseOf, uses_by};
ghost use Rattle.recovery_je.specs.Answer.{IsReadingOf, IsCorruptBy, IsIndexBy, IsNoDiskErr, HasCauseOf, HasFiles, HasWrongIndex};

use crate::checkpoint_end::CheckpointEnd;
use crate::file_len::FileLen;
use crate::live_entries::count_live;
use crate::live_images::images_in_use;
use crate::log_read::LogRead;
use crate::reading::{FilesRead, measure_files};
use crate::recover_err::RecoverErr;
use crate::recovering::recover_entries;
use crate::recovery::{check_index, list_files};
use file_use::{FileUse, LogUse};
use je_disk::Disk;
use je_lsn::FileNo;
use je_order::List;
use log_entry::Root;
use record_tree::Loads;
use std::alloc::{AllocError, Global};

// The roots of the last checkpoint that ended; none where none did.
fn roots_of(alloc: Global, end: &Option<CheckpointEnd>) -> Result<Vec<Root>, AllocError>
    ensures { IfOk result (λ roots. roots.items ≡ (unwrap_or end.now no_checkpoint).roots) }
{
    match end {
        Some(end) => Vec::from_slice(alloc, end.roots.as_slice()),
        None => Ok(Vec::new(alloc)),
    }
}

// How many bytes of files are live that have so many bytes, by the trees that were made of their entries and of these roots.
fn use_entries<T: Loads>(
    alloc: Global,
    trees: &T,
    roots: &[Root],
    entries: &LogRead,
    lens: &[FileLen],
) -> Result<List<FileUse>, AllocError>
    requires order { AreInOrder entries.now }
    requires entries { AllByRecursion (λ p. IsEntry p.1) entries.now }
    ensures { (redo : Redo) → HasTrees redo (T.has_tree trees.now) (T.stored trees.now) → IfOk result (λ uses. uses ≡ uses_by (is_record_from redo) (is_one_of (images_used (is_in_catalog redo) entries.now roots.now)) entries.now lens.now) }
{
    let images = images_in_use(alloc, entries, trees, roots)?;
    let uses = count_live(alloc, trees, &images, entries, lens);
    drop(images);
    uses
}

// The use of files that were read and have so many bytes.
fn use_files<T: Loads + Drop>(
    alloc: Global,
    files: &[FileNo],
    lens: &[FileLen],
    read: FilesRead,
    trees: T,
) -> Result<LogUse, RecoverErr>
    requires files { AreRisingNumbers files.now }
    requires empty { (d : ℕ) → T.has_tree trees d ≡ false }
    requires sound { AreSound read }
    requires noted { LogIsNoted read }
    ensures used { (observable : Bool) (reads : Files) → AreMeasured observable reads files.now lens.now read → IfOk result (λ used. IsReadingOf observable reads files.now (IsUseOf used)) }
    ensures corrupt { (observable : Bool) (reads : Files) → AreMeasured observable reads files.now lens.now read → IfErr result (λ e. IsCorruptBy e (λ corruption. IsReadingOf observable reads files.now (λ held. reading_of held ≡ Err corruption))) }
    ensures index { (observable : Bool) (reads : Files) → AreMeasured observable reads files.now lens.now read → IfErr result (λ e. IsIndexBy e (λ name. IsReadingOf observable reads files.now (HasWrongIndex name))) }
    ensures other { IfErr result IsNoDiskErr }
{
    match read {
        FilesRead::Stopped(corruption) => {
            drop(trees);
            Err(RecoverErr::Corrupt(corruption))
        }
        FilesRead::All(mut entries, notes, tail) => {
            let roots = roots_of(alloc, &notes.end)?;
            let meant = recover_entries(alloc, files, &mut entries, true, notes, trees)?;
            let found = check_index(meant, tail)?;
            let uses = use_entries(alloc, &found.trees, &roots, &entries, lens)?;
            Ok(LogUse {
                files: uses,
                databases: found.databases,
                records: found.records,
                last_txn: found.last_txn,
            })
        }
    }
}

// Reads the files of these numbers, and counts their use.
fn use_listed<D: Disk, T: Loads + Drop>(
    alloc: Global,
    disk: &mut D,
    files: &[FileNo],
    trees: T,
) -> Result<LogUse, RecoverErr>
    requires files { AreRisingNumbers files.now }
    requires empty { (d : ℕ) → T.has_tree trees d ≡ false }
    ensures used { IfOk result (λ used. IsReadingOf D.meaning.observable (now (D.meaning.history disk.old)).reads files.now (IsUseOf used)) }
    ensures corrupt { IfErr result (λ e. IsCorruptBy e (λ corruption. IsReadingOf D.meaning.observable (now (D.meaning.history disk.old)).reads files.now (λ held. reading_of held ≡ Err corruption))) }
    ensures index { IfErr result (λ e. IsIndexBy e (λ name. IsReadingOf D.meaning.observable (now (D.meaning.history disk.old)).reads files.now (HasWrongIndex name))) }
    ensures same { D.meaning.observable ≡ true → now (D.meaning.history disk.new) ≡ now (D.meaning.history disk.old) }
    ensures moments { D.meaning.observable ≡ true → Passes (D.meaning.history disk.old) (D.meaning.history disk.new) (λ s. s ≡ now (D.meaning.history disk.old)) }
    ensures jobs { D.meaning.sync_out disk.new ≡ D.meaning.sync_out disk.old }
    ensures cause { HasCauseOf (D.meaning.faults disk.old) (D.meaning.faults disk.new) result }
{
    let mut lens = Vec::new(alloc);
    let read = measure_files(alloc, disk, files, &mut lens)?;
    use_files(alloc, files, &lens, read, trees)
}

/// Mounts the disk, and tells how much of each of its files is live, and how many databases and records its log has. It reads
/// the files into trees that are empty, as `recover_disk` does, and answers as that does where they mean no environment. An
/// entry is live where it wrote a record that is there, or where it is an image that the trees of the last checkpoint reach,
/// of a delta its full image too, in a database that is there; a file's header, a Commit and a checkpoint's entries never are.
/// The disk's state stays the same. No job is out afterwards. Memory comes for a count beyond a u64's too.
pub fn log_use<D: Disk, T: Loads + Drop>(
    alloc: Global,
    disk: &mut D,
    trees: T,
) -> Result<LogUse, RecoverErr>
    requires { (d : ℕ) → T.has_tree trees d ≡ false }
    ensures used { IfOk result (λ used. HasFiles D.meaning.observable (now (D.meaning.history disk.old)).reads (IsUseOf used)) }
    ensures corrupt { IfErr result (λ e. IsCorruptBy e (λ corruption. HasFiles D.meaning.observable (now (D.meaning.history disk.old)).reads (λ held. reading_of held ≡ Err corruption))) }
    ensures index { IfErr result (λ e. IsIndexBy e (λ name. HasFiles D.meaning.observable (now (D.meaning.history disk.old)).reads (HasWrongIndex name))) }
    ensures same { D.meaning.observable ≡ true → now (D.meaning.history disk.new) ≡ now (D.meaning.history disk.old) }
    ensures moments { D.meaning.observable ≡ true → Passes (D.meaning.history disk.old) (D.meaning.history disk.new) (λ s. s ≡ now (D.meaning.history disk.old)) }
    ensures none_out { OnOk result (D.meaning.sync_out disk.new ≡ None) }
    ensures cause { HasCauseOf (D.meaning.faults disk.old) (D.meaning.faults disk.new) result }
{
    let files = list_files(alloc, disk)?;
    use_listed(alloc, disk, &files, trees)
}
