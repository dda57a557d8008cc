// Scanning the bytes of a file.
ghost use Rattle.std.specs.Prelude.{◌≡◌, ◌≤◌, ◌<◌, ◌^◌, length, IfOk, MatchOption};
ghost use Rattle.log_entry.specs.Body.{IsEntry};
ghost use Rattle.log_entry.specs.Encoding.{size_of};
ghost use Rattle.log_file.specs.Scan.{may_follow as may_follow_header, no_prefix as nothing_prefix, prefix_with, entries_behind, scan_of, scan_first};
ghost use Rattle.log_file.specs.Scanning.{end_in_prefix, IsNext, IsPrefixEnd};

use crate::{FileScan, ValidPrefix};
use je_lsn::FileNo;
use je_order::List;
use log_entry::{Decoded, Entry, decode, decode_at, size};
use std::alloc::{AllocError, Global};

/// The version of the format that this project writes.
pub const LOG_VERSION: u32 = 1;

/// How many bytes a file's header has.
pub const HEADER_SIZE: u32 = 26;

// Whether an entry may stand behind a file's header: each may but another header.
fn may_follow(entry: &Entry) -> bool
    ensures { result ≡ may_follow_header entry.now }
{
    !matches!(entry, Entry::FileHeader { .. })
}

// The next entry of a valid prefix, and where it ends.
#[derive(Drop)]
struct Next {
    entry: Entry,
    end: u32,
}

// Where a valid prefix that goes on with this entry, which stands at the offset `at` and has this
// prev field, goes on behind it; None where the valid prefix ends before it. `last` is the offset of
// the entry before.
fn end_of(entry: &Entry, prev: u32, at: u32, last: u32) -> Option<u32>
    requires { IsEntry entry.now }
    ensures { result ≡ end_in_prefix entry.now prev at last }
{
    if prev != last {
        return None;
    }
    if !may_follow(entry) {
        return None;
    }
    at.checked_add(size(entry))
}

// The next entry of a valid prefix that goes on at an offset behind an entry at the offset `last`, in
// the time of that entry; None where the valid prefix ends.
fn next_entry(alloc: Global, bytes: &[u8], at: u32, last: u32) -> Result<Option<Next>, AllocError>
    requires { at ≤ length bytes.now }
    ensures { IfOk result (λ next. MatchOption next (IsPrefixEnd bytes.now at last) (IsNext bytes.now at last)) }
{
    let Decoded::Whole { entry, prev, .. } = decode_at(alloc, bytes, at as usize)? else {
        return Ok(None);
    };
    match end_of(&entry, prev, at, last) {
        Some(end) => Ok(Some(Next { entry, end })),
        None => {
            drop(entry);
            Ok(None)
        }
    }
}

// The valid prefix of bytes that begin with the file's header.
fn scan_behind(alloc: Global, bytes: &[u8]) -> Result<ValidPrefix, AllocError>
    requires { 26 ≤ length bytes.now }
    ensures { IfOk result (λ prefix. prefix ≡ prefix_with (entries_behind bytes.now)) }
{
    let mut entries = Vec::new(alloc);
    let mut last = 0;
    let mut at = HEADER_SIZE;
    while let Some(Next { entry, end }) = next_entry(alloc, bytes, at, last)? {
        entries.push(entry)?;
        last = at;
        at = end;
    }
    Ok(ValidPrefix {
        entries: List::from_vec(entries),
        last,
        end: at,
    })
}

// A file without a valid prefix.
fn no_prefix(alloc: Global) -> ValidPrefix
    ensures { result ≡ nothing_prefix }
{
    ValidPrefix {
        entries: List::new(alloc),
        last: 0,
        end: 0,
    }
}

// What bytes are whose first entry is this one, with this prev field.
fn scan_after_header(
    alloc: Global,
    bytes: &[u8],
    f: FileNo,
    first: &Entry,
    prev: u32,
) -> Result<FileScan, AllocError>
    requires { size_of first.now ≤ length bytes.now }
    ensures { IfOk result (λ found. found ≡ scan_first f.0 bytes.now prev first.now) }
{
    let Entry::FileHeader { version, file } = first else {
        return Ok(FileScan::Damaged);
    };
    if prev != 0 {
        return Ok(FileScan::Damaged);
    }
    if *version != LOG_VERSION {
        return Ok(FileScan::VersionUnknown { version: *version });
    }
    if *file != f.0 {
        return Ok(FileScan::Damaged);
    }
    Ok(FileScan::Prefix(scan_behind(alloc, bytes)?))
}

/// What the bytes of the file of this number are. Each entry is decoded once, at its place. The
/// only error is out of memory.
pub fn scan_bytes(alloc: Global, bytes: &[u8], f: FileNo) -> Result<FileScan, AllocError>
    ensures { IfOk result (λ found. found ≡ scan_of f.0 bytes.now) }
{
    match decode(alloc, bytes)? {
        Decoded::Whole { entry, prev, .. } => {
            let found = scan_after_header(alloc, bytes, f, &entry, prev);
            drop(entry);
            found
        }
        Decoded::Torn(_) => Ok(FileScan::Prefix(no_prefix(alloc))),
    }
}
