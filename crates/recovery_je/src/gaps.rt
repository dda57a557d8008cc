// Files that are missing from the redo LSN on.
ghost use Rattle.std.specs.Prelude.{◌≡◌, ◌==◌, ◌<◌, ◌+◌, ◌∷◌, Some, None, map, option_map, if◌then◌else◌};
ghost use Rattle.std.specs.List.Sorted.{IsStrictlyIncreasing};
ghost use Rattle.je_disk.specs.States.{AreRisingNumbers};
ghost use Rattle.log_replay.specs.Reading.{gap_in, gap_behind as gap_behind_number};
ghost use Rattle.log_meaning.specs.Reading.{gap_at as gap_at_number, gap_from as gap_from_number};
ghost use Rattle.log_meaning.specs.Reading.{missing as missing_file, redo_corruption as redo_corruption_of};

use crate::checkpoint_end::CheckpointEnd;
use crate::images::nowhere;
use je_lsn::{FileNo, Lsn};
use log_replay::Corruption;

// The number behind a file's, where it is not the other, later file's.
fn missing_between(before: FileNo, after: FileNo) -> Option<FileNo>
    requires { before.0 < after.0 }
    ensures { option_map (λ f. f.0) result ≡ (if after.0 == before.0 + 1 then None else Some (before.0 + 1)) }
{
    if after.0 == before.0 + 1 {
        None
    } else {
        Some(FileNo(before.0 + 1))
    }
}

// The first number behind a file's that is not among numbers which rise from there.
fn gap_behind(file: FileNo, rest: &[FileNo]) -> Option<FileNo>
    requires { IsStrictlyIncreasing (file.0 ∷ map (λ f. f.0) rest.now) }
    ensures { option_map (λ f. f.0) result ≡ gap_behind_number file.0 (map (λ f. f.0) rest.now) }
{
    let mut last = file;
    for f in rest {
        if let Some(missing) = missing_between(last, *f) {
            return Some(missing);
        }
        last = *f;
    }
    None
}

// The first number between rising numbers of files that is not among them.
fn gap_between(files: &[FileNo]) -> Option<FileNo>
    requires { AreRisingNumbers files.now }
    ensures { option_map (λ f. f.0) result ≡ gap_in (map (λ f. f.0) files.now) }
{
    match files {
        [first, rest @ ..] => gap_behind(*first, rest),
        [] => None,
    }
}

// What is wrong where a file is missing.
fn missing(gap: Option<FileNo>) -> Option<Corruption>
    ensures { result ≡ missing_file (option_map (λ f. f.0) gap) }
{
    match gap {
        Some(f) => Some(Corruption::Missing(Lsn::new(f, 0))),
        None => None,
    }
}

/// What is wrong with the files of a log without a checkpoint: one between the first and the last is
/// missing.
pub(crate) fn gap_corruption(files: &[FileNo]) -> Option<Corruption>
    requires { AreRisingNumbers files.now }
    ensures { result ≡ redo_corruption_of (map (λ f. f.0) files.now) None }
{
    missing(gap_between(files))
}

// The first number from this one on that is not among numbers which rise from there.
fn gap_at(first: FileNo, files: &[FileNo]) -> Option<FileNo>
    requires { AreRisingNumbers files.now }
    ensures { option_map (λ f. f.0) result ≡ gap_at_number first.0 (map (λ f. f.0) files.now) }
{
    match files {
        [f, rest @ ..] => {
            if f.0 == first.0 {
                gap_behind(*f, rest)
            } else {
                Some(first)
            }
        }
        [] => None,
    }
}

// The first number from this one on that is not among these, which rise.
fn gap_from(first: FileNo, files: &[FileNo]) -> Option<FileNo>
    requires { AreRisingNumbers files.now }
    ensures { option_map (λ f. f.0) result ≡ gap_from_number first.0 (map (λ f. f.0) files.now) }
{
    match files {
        [f, rest @ ..] => {
            if f.0 < first.0 {
                gap_from(first, rest)
            } else {
                gap_at(first, files)
            }
        }
        [] => None,
    }
}

/// What is wrong with the redo LSN of a checkpoint that ended at an LSN: it is not lower, or a file from its
/// own to the last is missing.
pub(crate) fn end_corruption(files: &[FileNo], end: &CheckpointEnd) -> Option<Corruption>
    requires { AreRisingNumbers files.now }
    ensures { result ≡ redo_corruption_of (map (λ f. f.0) files.now) (Some end.now) }
{
    if end.redo.as_u64() < end.at.as_u64() {
        missing(gap_from(end.redo.file(), files))
    } else {
        Some(nowhere(files, end.redo))
    }
}
