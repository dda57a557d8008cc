// Making the lines of a file.
ghost use Rattle.std.specs.Prelude.{◌≡◌, ◌++◌, IfOk, OnOk};
ghost use Rattle.log_entry.specs.Body.{IsEntry};
ghost use Rattle.log_file.specs.Log.{AreFileEntries};
ghost use Rattle.log_printer.specs.LogLines.{db_of_entry, header_line, line_of_entry, lines_of_entries, lines_of_prefix, lines_text, prefix_text, torn_at, txn_of_entry};

use crate::entry_kind::{EntryKind, kind_of_entry};
use crate::file_lines::FileLines;
use crate::log_line::LogLine;
use je_lsn::{FileNo, Lsn};
use je_order::TxnId;
use log_entry::{Entry, size};
use log_file::{HEADER_SIZE, ValidPrefix};
use std::alloc::{AllocError, Global};

fn txn_of_entry(entry: &Entry) -> Option<TxnId>
    ensures { result ≡ txn_of_entry entry.now }
{
    match entry {
        Entry::Put { txn, .. } | Entry::Delete { txn, .. } | Entry::Commit { txn } => Some(*txn),
        _ => None,
    }
}

fn db_of_entry(entry: &Entry) -> Option<u32>
    ensures { result ≡ db_of_entry entry.now }
{
    match entry {
        Entry::Put { db, .. }
        | Entry::Delete { db, .. }
        | Entry::Migrated { db, .. }
        | Entry::In { db, .. }
        | Entry::Bin { db, .. }
        | Entry::BinDelta { db, .. } => Some(*db),
        _ => None,
    }
}

// The line of an entry at an offset of a file.
fn line_of_entry(file: FileNo, at: u32, prev: u32, entry: &Entry) -> LogLine
    requires { IsEntry entry.now }
    ensures { result ≡ line_of_entry file.0 at prev entry.now }
{
    LogLine {
        at: Lsn::new(file, at),
        kind: kind_of_entry(entry),
        size: size(entry),
        prev,
        txn: txn_of_entry(entry),
        db: db_of_entry(entry),
    }
}

// The line of a file's header.
fn header_line(file: FileNo) -> LogLine
    ensures { result ≡ header_line file.0 }
{
    LogLine {
        at: Lsn::new(file, 0),
        kind: EntryKind::FileHeader,
        size: HEADER_SIZE,
        prev: 0,
        txn: None,
        db: None,
    }
}

// Adds the lines of the entries behind a file's header.
fn add_lines(lines: &mut Vec<LogLine>, file: FileNo, entries: &[Entry]) -> Result<(), AllocError>
    requires { AreFileEntries entries.now }
    ensures { OnOk result (lines.new.items ≡ lines.old.items ++ lines_of_entries file.0 26 0 entries.now) }
{
    let mut at = HEADER_SIZE;
    let mut prev = 0;
    for entry in entries {
        lines.push(line_of_entry(file, at, prev, entry))?;
        prev = at;
        at += size(entry);
    }
    Ok(())
}

// The lines of a file's valid prefix, the header's first; none where there is no whole header.
fn lines_of_prefix(
    alloc: Global,
    file: FileNo,
    prefix: &ValidPrefix,
) -> Result<Vec<LogLine>, AllocError>
    requires { AreFileEntries prefix.now.entries }
    ensures { IfOk result (λ lines. lines.items ≡ lines_of_prefix file.0 prefix.now) }
{
    let mut lines = Vec::new(alloc);
    if prefix.end == 0 {
        return Ok(lines);
    }
    lines.push(header_line(file))?;
    add_lines(&mut lines, file, prefix.entries.as_slice())?;
    Ok(lines)
}

// Where the torn tail of a file of so many bytes begins, whose valid prefix ends here.
fn torn_at(file: FileNo, end: u32, len: u64) -> Option<Lsn>
    ensures { result ≡ torn_at file.0 end len }
{
    if u64::from(end) < len {
        Some(Lsn::new(file, end))
    } else {
        None
    }
}

// What is printed of a file of so many bytes with this valid prefix: the lines of its entries, the header's first, or
// none where there is no whole header; and where its torn tail begins.
pub(crate) fn lines_of_file(
    alloc: Global,
    file: FileNo,
    prefix: &ValidPrefix,
    len: u64,
) -> Result<FileLines, AllocError>
    requires { AreFileEntries prefix.now.entries }
    ensures { IfOk result (λ lines. lines_text lines ≡ prefix_text file.0 len prefix.now) }
{
    let lines = lines_of_prefix(alloc, file, prefix)?;
    Ok(FileLines {
        lines,
        torn: torn_at(file, prefix.end, len),
    })
}
