// Reading the files of a log.
ghost use Rattle.std.specs.Prelude.{◌≡◌, ◌∷◌, ◌++◌, ◌+◌, ◌*◌, ◌^◌, ◌<◌, [], nat_lt, true, Some, IfOk, OnOk, if◌then◌else◌};
ghost use Rattle.je_bytes.specs.Reading.{AreBytes};
ghost use Rattle.je_disk.specs.Moments.{now, Passes};
ghost use Rattle.je_disk.specs.States.{AreRisingNumbers};
ghost use Rattle.je_disk.specs.Causes.{HasCause};
ghost use Rattle.log_file.specs.declared.file_scan.FileScan.TheVariants.{Prefix};
ghost use Rattle.log_file.specs.Scan.{scan_of};
ghost use Rattle.log_file.specs.Log.{AreFileEntries};
ghost use Rattle.log_trees.specs.Placed.{placed_from};
ghost use Rattle.je_lsn.specs.Naming.{last_file};
ghost use Rattle.log_replay.specs.declared.corruption.Corruption.TheVariants.{Damaged};
ghost use Rattle.log_replay.specs.Reading.{corruption_behind, lsn_at};
ghost use Rattle.recovery_je.specs.LogRead.{offsets_from};
ghost use Rattle.recovery_je.specs.Noting.{NotesMore};
ghost use Rattle.recovery_je.specs.Scanned.{IsReadOf, FileIsNoted, IsFileRead};
ghost use Rattle.recovery_je.specs.Files.{AreRead, LogIsNoted};
ghost use Rattle.recovery_je.specs.Measuring.{AreMeasured, len_read, with_header};

use crate::file_entries::FileEntries;
use crate::file_len::FileLen;
use crate::giving_back::give_back;
use crate::log_read::LogRead;
use crate::read_notes::ReadNotes;
use je_disk::{Disk, DiskErr};
use je_lsn::{FileNo, LAST_FILE, Lsn};
use je_order::List;
use log_entry::{Entry, size};
use log_file::{FileScan, HEADER_SIZE, ValidPrefix, read_whole, scan_bytes};
use log_replay::{Corruption, LastFile};
use std::alloc::{AllocError, Global};

// What was read of one file: it is right where it stands, or a corruption.
#[derive(Drop)]
enum FileRead {
    GoesOn { file: FileEntries, tail: LastFile },
    Stops(Corruption),
}

/// What was read of all files.
#[derive(Drop)]
pub(crate) enum FilesRead {
    /// All are right where they stand: their entries, what was noted of these, and the last file.
    All(LogRead, ReadNotes, Option<LastFile>),
    /// The first corruption.
    Stopped(Corruption),
}

// What is wrong with a file of so many bytes whose valid prefix ends there.
fn corruption_of_prefix(f: FileNo, is_last: bool, len: u64, end: u32) -> Option<Corruption>
    ensures { result ≡ (if nat_lt last_file f.0 then Some (Damaged (lsn_at f.0 0)) else corruption_behind is_last f.0 len end) }
{
    if f.0 > LAST_FILE {
        return Some(Corruption::Damaged(Lsn::new(f, 0)));
    }
    if !is_last && (end == 0 || u64::from(end) != len) {
        return Some(Corruption::Damaged(Lsn::new(f, end)));
    }
    None
}

// Keeps where an entry stands, and notes it.
fn take_entry(
    offsets: &mut Vec<u32>,
    notes: &mut ReadNotes,
    alloc: Global,
    f: FileNo,
    at: u32,
    entry: Entry,
) -> Result<(), AllocError>
    ensures offsets { OnOk result (offsets.new.items ≡ offsets.old.items ++ at ∷ []) }
    ensures notes { OnOk result (NotesMore ((f.0 * 2 ^ 32 + at, entry) ∷ []) notes.old notes.new) }
{
    let noted = notes.take(alloc, Lsn::new(f, at), &entry);
    drop(entry);
    noted?;
    offsets.push(at)?;
    Ok(())
}

// Where the entries of a file stand, which are noted. The room that each had in the file's list is free again soon after it.
fn take_entries(
    alloc: Global,
    f: FileNo,
    entries: List<Entry>,
    notes: &mut ReadNotes,
) -> Result<Vec<u32>, AllocError>
    requires { AreFileEntries entries }
    ensures offsets { IfOk result (λ offsets. offsets.items ≡ offsets_from 26 entries) }
    ensures notes { OnOk result (NotesMore (placed_from f.0 26 entries) notes.old notes.new) }
{
    let mut left = entries.into_vec();
    let mut offsets = Vec::with_capacity(alloc, left.len())?;
    left.reverse();
    let mut at = HEADER_SIZE;
    while let Some(entry) = left.pop() {
        give_back(&mut left);
        let len = size(&entry);
        take_entry(&mut offsets, notes, alloc, f, at, entry)?;
        at += len;
    }
    Ok(offsets)
}

// What was read of a file of these bytes that has a valid prefix.
fn take_prefix(
    alloc: Global,
    f: FileNo,
    is_last: bool,
    bytes: Vec<u8>,
    prefix: ValidPrefix,
    notes: &mut ReadNotes,
) -> Result<FileRead, AllocError>
    requires are { AreBytes bytes.items }
    requires found { scan_of f.0 bytes.items ≡ Prefix prefix }
    ensures read { IfOk result (IsReadOf is_last f.0 bytes.items) }
    ensures noted { IfOk result (FileIsNoted notes.old notes.new) }
{
    let ValidPrefix { entries, last, end } = prefix;
    let len = bytes.len() as u64;
    if let Some(corruption) = corruption_of_prefix(f, is_last, len, end) {
        drop(entries);
        drop(bytes);
        return Ok(FileRead::Stops(corruption));
    }
    let offsets = take_entries(alloc, f, entries, notes)?;
    Ok(FileRead::GoesOn {
        file: FileEntries {
            number: f,
            bytes,
            offsets,
        },
        tail: LastFile {
            file: f,
            last,
            end,
            len,
        },
    })
}

// What was read of a file of these bytes.
fn take_file(
    alloc: Global,
    f: FileNo,
    is_last: bool,
    bytes: Vec<u8>,
    notes: &mut ReadNotes,
) -> Result<FileRead, AllocError>
    ensures are { AreBytes bytes.items }
    ensures read { IfOk result (IsReadOf is_last f.0 bytes.items) }
    ensures noted { IfOk result (FileIsNoted notes.old notes.new) }
{
    match scan_bytes(alloc, bytes.as_slice(), f)? {
        FileScan::VersionUnknown { version } => {
            drop(bytes);
            Ok(FileRead::Stops(Corruption::VersionUnknown { file: f, version }))
        }
        FileScan::Damaged => {
            drop(bytes);
            Ok(FileRead::Stops(Corruption::Damaged(Lsn::new(f, 0))))
        }
        FileScan::Prefix(prefix) => take_prefix(alloc, f, is_last, bytes, prefix, notes),
    }
}

// Reads a file.
fn read_file<D: Disk>(
    alloc: Global,
    disk: &mut D,
    f: FileNo,
    is_last: bool,
    notes: &mut ReadNotes,
) -> Result<FileRead, DiskErr>
    ensures read { IfOk result (IsFileRead D.meaning.observable (now (D.meaning.history disk.old)).reads is_last f.0) }
    ensures noted { IfOk result (FileIsNoted notes.old notes.new) }
    ensures number { f.0 < 2 ^ 32 }
    ensures same { D.meaning.observable ≡ true → now (D.meaning.history disk.new) ≡ now (D.meaning.history disk.old) }
    ensures moments { D.meaning.observable ≡ true → Passes (D.meaning.history disk.old) (D.meaning.history disk.new) (λ s. s ≡ now (D.meaning.history disk.old)) }
    ensures jobs { (D.meaning.sync_out disk.new ≡ D.meaning.sync_out disk.old) × (D.meaning.read_out disk.new ≡ D.meaning.read_out disk.old) × (D.meaning.read_of disk.new ≡ D.meaning.read_of disk.old) × (D.meaning.last_job disk.new ≡ D.meaning.last_job disk.old) }
    ensures cause { HasCause (D.meaning.faults disk.old) (D.meaning.faults disk.new) result }
{
    let bytes = read_whole(alloc, disk, f)?;
    Ok(take_file(alloc, f, is_last, bytes, notes)?)
}

// How many entries there are with the header, behind which so many stand, in a valid prefix that ends here.
fn count_with_header(end: u32, entries: usize) -> u64
    requires { entries < 2 ^ 63 }
    ensures { result ≡ with_header end entries }
{
    if end == 0 {
        return 0;
    }
    entries as u64 + 1
}

// How long a file is that was read.
fn measure(file: &FileEntries, tail: &LastFile) -> FileLen
    ensures { result ≡ len_read tail.now file.now.1 }
{
    FileLen {
        number: tail.file,
        len: tail.len,
        entries: count_with_header(tail.end, file.offsets.as_slice().len()),
        end: tail.end,
    }
}

// Keeps a file behind the others, and how long it is.
fn keep(
    numbers: &mut Vec<u32>,
    read: &mut Vec<FileEntries>,
    lens: &mut Vec<FileLen>,
    f: FileNo,
    tail: &LastFile,
    file: FileEntries,
) -> Result<(), AllocError>
    ensures numbers { OnOk result (numbers.new.items ≡ numbers.old.items ++ f.0 ∷ []) }
    ensures files { OnOk result (read.new.items ≡ read.old.items ++ file ∷ []) }
    ensures lens { OnOk result (lens.new.items ≡ lens.old.items ++ len_read tail.now file.1 ∷ []) }
{
    numbers.push(f.0)?;
    lens.push(measure(&file, tail))?;
    read.push(file)?;
    Ok(())
}

/// Reads the files, in order, and tells how long each is that was read.
pub(crate) fn measure_files<D: Disk>(
    alloc: Global,
    disk: &mut D,
    files: &[FileNo],
    lens: &mut Vec<FileLen>,
) -> Result<FilesRead, DiskErr>
    requires rising { AreRisingNumbers files.now }
    requires none { lens.old.items ≡ [] }
    ensures noted { IfOk result LogIsNoted }
    ensures read { IfOk result (AreMeasured D.meaning.observable (now (D.meaning.history disk.old)).reads files.now lens.new.items) }
    ensures same { D.meaning.observable ≡ true → now (D.meaning.history disk.new) ≡ now (D.meaning.history disk.old) }
    ensures moments { D.meaning.observable ≡ true → Passes (D.meaning.history disk.old) (D.meaning.history disk.new) (λ s. s ≡ now (D.meaning.history disk.old)) }
    ensures jobs { (D.meaning.sync_out disk.new ≡ D.meaning.sync_out disk.old) × (D.meaning.read_out disk.new ≡ D.meaning.read_out disk.old) × (D.meaning.read_of disk.new ≡ D.meaning.read_of disk.old) × (D.meaning.last_job disk.new ≡ D.meaning.last_job disk.old) }
    ensures cause { HasCause (D.meaning.faults disk.old) (D.meaning.faults disk.new) result }
{
    let mut numbers = Vec::new(alloc);
    let mut read = Vec::new(alloc);
    let mut notes = ReadNotes::new();
    let mut last = None;
    let mut left = files.len();
    for f in files {
        left -= 1;
        match read_file(alloc, disk, *f, left == 0, &mut notes)? {
            FileRead::Stops(corruption) => return Ok(FilesRead::Stopped(corruption)),
            FileRead::GoesOn { file, tail } => {
                keep(&mut numbers, &mut read, lens, *f, &tail, file)?;
                last = Some(tail);
            }
        }
    }
    let log = LogRead {
        numbers,
        files: read,
        whole: notes.whole,
    };
    Ok(FilesRead::All(log, notes, last))
}

/// Reads the files, in order.
pub(crate) fn read_files<D: Disk>(
    alloc: Global,
    disk: &mut D,
    files: &[FileNo],
) -> Result<FilesRead, DiskErr>
    requires { AreRisingNumbers files.now }
    ensures noted { IfOk result LogIsNoted }
    ensures read { IfOk result (AreRead D.meaning.observable (now (D.meaning.history disk.old)).reads files.now) }
    ensures same { D.meaning.observable ≡ true → now (D.meaning.history disk.new) ≡ now (D.meaning.history disk.old) }
    ensures moments { D.meaning.observable ≡ true → Passes (D.meaning.history disk.old) (D.meaning.history disk.new) (λ s. s ≡ now (D.meaning.history disk.old)) }
    ensures jobs { (D.meaning.sync_out disk.new ≡ D.meaning.sync_out disk.old) × (D.meaning.read_out disk.new ≡ D.meaning.read_out disk.old) × (D.meaning.read_of disk.new ≡ D.meaning.read_of disk.old) × (D.meaning.last_job disk.new ≡ D.meaning.last_job disk.old) }
    ensures cause { HasCause (D.meaning.faults disk.old) (D.meaning.faults disk.new) result }
{
    let mut lens = Vec::new(alloc);
    measure_files(alloc, disk, files, &mut lens)
}
