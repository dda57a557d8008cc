// Reading the log for printing.
ghost use Rattle.std.specs.Prelude.{◌≡◌, ◌≤◌, ◌∷◌, ◌++◌, [], true, nat_lt, None, Some, IfErr, IfOk, OnOk, if◌then◌else◌};
ghost use Rattle.je_disk.specs.Causes.{HasCause};
ghost use Rattle.je_disk.specs.Moments.{now, Passes};
ghost use Rattle.je_disk.specs.States.{AreRisingNumbers, IsListing};
ghost use Rattle.je_lsn.specs.Naming.{last_file};
ghost use Rattle.log_file.specs.declared.file_scan.FileScan.TheVariants.{Prefix};
ghost use Rattle.log_file.specs.Log.{AreFileEntries, entries_scanned};
ghost use Rattle.log_replay.specs.declared.corruption.Corruption.TheVariants.{Damaged};
ghost use Rattle.log_replay.specs.Reading.{corruption_at, corruption_behind, lsn_at};
ghost use Rattle.log_printer.specs.LogLines.{lines_text, scanned_text};
ghost use Rattle.log_printer.specs.Reading.{AreLinesOf, IsLogOf, IsNoLines, IsReadingLines, StopsAmong, StopsAtFile, StopsLog};

use crate::file_lines::FileLines;
use crate::log_err::LogErr;
use crate::making::lines_of_file;
use je_disk::{Disk, DiskErr};
use je_lsn::{FileNo, LAST_FILE, Lsn};
use log_file::{FileScan, Scanned, ValidPrefix, scan};
use log_replay::Corruption;
use std::alloc::{AllocError, Global};

// What is wrong with a file of so many bytes whose valid prefix ends there.
fn corruption_of_prefix(f: FileNo, is_last: bool, len: u64, end: u32) -> Option<Corruption>
    ensures { result ≡ (if nat_lt last_file f.0 then Some (Damaged (lsn_at f.0 0)) else corruption_behind is_last f.0 len end) }
{
    if f.0 > LAST_FILE {
        return Some(Corruption::Damaged(Lsn::new(f, 0)));
    }
    if !is_last && (end == 0 || u64::from(end) != len) {
        return Some(Corruption::Damaged(Lsn::new(f, end)));
    }
    None
}

// The lines of a file of so many bytes that has a valid prefix, if it may stand where it does.
fn take_prefix(
    alloc: Global,
    f: FileNo,
    is_last: bool,
    len: u64,
    prefix: &ValidPrefix,
) -> Result<FileLines, LogErr>
    requires { AreFileEntries prefix.now.entries }
    ensures none { IfOk result (λ lines. corruption_at is_last f.0 len (Prefix prefix.now) ≡ None) }
    ensures text { IfOk result (λ lines. lines_text lines ≡ scanned_text f.0 len (Prefix prefix.now)) }
    ensures stops { IfErr result (IsNoLines (corruption_at is_last f.0 len (Prefix prefix.now))) }
{
    match corruption_of_prefix(f, is_last, len, prefix.end) {
        Some(corruption) => Err(LogErr::Corrupt(corruption)),
        None => Ok(lines_of_file(alloc, f, prefix, len)?),
    }
}

// The lines of a file that was scanned, if it may stand where it does.
fn take_file(
    alloc: Global,
    f: FileNo,
    is_last: bool,
    len: u64,
    found: &FileScan,
) -> Result<FileLines, LogErr>
    requires { AreFileEntries (entries_scanned found.now) }
    ensures none { IfOk result (λ lines. corruption_at is_last f.0 len found.now ≡ None) }
    ensures text { IfOk result (λ lines. lines_text lines ≡ scanned_text f.0 len found.now) }
    ensures stops { IfErr result (IsNoLines (corruption_at is_last f.0 len found.now)) }
{
    match found {
        FileScan::VersionUnknown { version } => Err(LogErr::Corrupt(Corruption::VersionUnknown {
            file: f,
            version: *version,
        })),
        FileScan::Damaged => Err(LogErr::Corrupt(Corruption::Damaged(Lsn::new(f, 0)))),
        FileScan::Prefix(prefix) => take_prefix(alloc, f, is_last, len, prefix),
    }
}

// The lines of a file, once it was scanned; its entries go.
fn take_scanned(
    alloc: Global,
    f: FileNo,
    is_last: bool,
    scanned: Scanned,
) -> Result<FileLines, LogErr>
    requires { AreFileEntries (entries_scanned scanned.found) }
    ensures none { IfOk result (λ lines. corruption_at is_last f.0 scanned.len scanned.found ≡ None) }
    ensures text { IfOk result (λ lines. lines_text lines ≡ scanned_text f.0 scanned.len scanned.found) }
    ensures stops { IfErr result (IsNoLines (corruption_at is_last f.0 scanned.len scanned.found)) }
{
    let Scanned { found, len } = scanned;
    let lines = take_file(alloc, f, is_last, len, &found);
    drop(found);
    lines
}

// Reads a file.
fn read_file<D: Disk>(
    alloc: Global,
    disk: &mut D,
    f: FileNo,
    is_last: bool,
) -> Result<FileLines, LogErr>
    ensures read { IfOk result (AreLinesOf D.meaning.observable (now (D.meaning.history disk.old)).reads is_last f.0) }
    ensures stops { IfErr result (StopsAtFile D.meaning.observable (now (D.meaning.history disk.old)).reads is_last f.0 (D.meaning.faults disk.old) (D.meaning.faults disk.new)) }
    ensures same { D.meaning.observable ≡ true → now (D.meaning.history disk.new) ≡ now (D.meaning.history disk.old) }
    ensures moments { D.meaning.observable ≡ true → Passes (D.meaning.history disk.old) (D.meaning.history disk.new) (λ s. s ≡ now (D.meaning.history disk.old)) }
    ensures never_falls { D.meaning.faults disk.old ≤ D.meaning.faults disk.new }
{
    let scanned = scan(alloc, disk, f)?;
    take_scanned(alloc, f, is_last, scanned)
}

// Puts a file's lines behind the others.
fn push_lines(read: &mut Vec<FileLines>, lines: FileLines) -> Result<(), AllocError>
    ensures { OnOk result (read.new.items ≡ read.old.items ++ lines ∷ []) }
{
    read.push(lines)?;
    Ok(())
}

// Reads the files, in order. Of each file its lines stay.
fn read_files<D: Disk>(
    alloc: Global,
    disk: &mut D,
    files: &[FileNo],
) -> Result<Vec<FileLines>, LogErr>
    ensures read { IfOk result (λ lines. IsReadingLines D.meaning.observable (now (D.meaning.history disk.old)).reads files.now [] lines.items) }
    ensures stops { IfErr result (StopsAmong D.meaning.observable (now (D.meaning.history disk.old)).reads files.now (D.meaning.faults disk.old) (D.meaning.faults disk.new)) }
    ensures same { D.meaning.observable ≡ true → now (D.meaning.history disk.new) ≡ now (D.meaning.history disk.old) }
    ensures moments { D.meaning.observable ≡ true → Passes (D.meaning.history disk.old) (D.meaning.history disk.new) (λ s. s ≡ now (D.meaning.history disk.old)) }
    ensures never_falls { D.meaning.faults disk.old ≤ D.meaning.faults disk.new }
{
    let mut read = Vec::new(alloc);
    let mut left = files.len();
    for f in files {
        left -= 1;
        let lines = read_file(alloc, disk, *f, left == 0)?;
        push_lines(&mut read, lines)?;
    }
    Ok(read)
}

// Mounts the disk, and lists its files.
fn list_files<D: Disk>(alloc: Global, disk: &mut D) -> Result<Vec<FileNo>, DiskErr>
    ensures rising { IfOk result (λ files. AreRisingNumbers files.items) }
    ensures listed { D.meaning.observable ≡ true → IfOk result (λ files. IsListing (now (D.meaning.history disk.old)).reads files.items) }
    ensures same { D.meaning.observable ≡ true → now (D.meaning.history disk.new) ≡ now (D.meaning.history disk.old) }
    ensures moments { D.meaning.observable ≡ true → Passes (D.meaning.history disk.old) (D.meaning.history disk.new) (λ s. s ≡ now (D.meaning.history disk.old)) }
    ensures cause { HasCause (D.meaning.faults disk.old) (D.meaning.faults disk.new) result }
{
    disk.mount()?;
    disk.list(alloc)
}

/// Mounts the disk, reads each of its files once and whole, in order, and gives what is printed of them: 48 bytes an
/// entry, without keys and data. It stops at the first file that is damaged, or of another version, and where there is
/// no file at all. The disk's state stays the same at each moment. `Disk` comes only where the disk counted a fault;
/// Memory is free.
pub fn read_log<D: Disk>(alloc: Global, disk: &mut D) -> Result<Vec<FileLines>, LogErr>
    ensures read { IfOk result (λ lines. IsLogOf D.meaning.observable (now (D.meaning.history disk.old)).reads lines.items) }
    ensures stops { IfErr result (StopsLog D.meaning.observable (now (D.meaning.history disk.old)).reads (D.meaning.faults disk.old) (D.meaning.faults disk.new)) }
    ensures same { D.meaning.observable ≡ true → now (D.meaning.history disk.new) ≡ now (D.meaning.history disk.old) }
    ensures moments { D.meaning.observable ≡ true → Passes (D.meaning.history disk.old) (D.meaning.history disk.new) (λ s. s ≡ now (D.meaning.history disk.old)) }
    ensures never_falls { D.meaning.faults disk.old ≤ D.meaning.faults disk.new }
{
    let files = list_files(alloc, disk)?;
    if files.is_empty() {
        return Err(LogErr::NoFile);
    }
    read_files(alloc, disk, &files)
}
