// Printing lines.
ghost use Rattle.std.specs.Prelude.{◌≡◌, ◌++◌, codes, decimal};
ghost use Rattle.std.specs.List.{flat_map};
ghost use Rattle.text_out.specs.OutBuffer.{Adds, point};
ghost use Rattle.log_printer.specs.LogLines.{line_db, line_txn, lines_text, log_line_text, torn_line, torn_text};

use crate::entry_kind::kind_word;
use crate::file_lines::FileLines;
use crate::log_line::LogLine;
use je_io::Sink;
use je_lsn::Lsn;
use je_order::TxnId;
use text_out::{OutBuffer, put_hexadecimal, put_lsn, put_number};

fn put_txn<K: Sink>(buffer: &mut OutBuffer, out: &mut K, txn: Option<TxnId>)
    ensures { Adds (point (K.written out.old) (K.faults out.old) buffer.old)
        (point (K.written out.new) (K.faults out.new) buffer.new)
        (line_txn txn) }
{
    if let Some(txn) = txn {
        buffer.put(out, b" txn ");
        put_number(buffer, out, txn.0);
    }
}

fn put_db<K: Sink>(buffer: &mut OutBuffer, out: &mut K, db: Option<u32>)
    ensures { Adds (point (K.written out.old) (K.faults out.old) buffer.old)
        (point (K.written out.new) (K.faults out.new) buffer.new)
        (line_db db) }
{
    if let Some(db) = db {
        buffer.put(out, b" db ");
        put_number(buffer, out, u64::from(db));
    }
}

// Sends the line of an entry.
fn put_line<K: Sink>(buffer: &mut OutBuffer, out: &mut K, line: &LogLine)
    ensures { Adds (point (K.written out.old) (K.faults out.old) buffer.old)
        (point (K.written out.new) (K.faults out.new) buffer.new)
        (log_line_text line.now) }
{
    put_lsn(buffer, out, line.at);
    buffer.put(out, b" ");
    buffer.put(out, kind_word(line.kind));
    buffer.put(out, b" size ");
    put_number(buffer, out, u64::from(line.size));
    buffer.put(out, b" prev 0x");
    put_hexadecimal(buffer, out, line.prev);
    put_txn(buffer, out, line.txn);
    put_db(buffer, out, line.db);
    buffer.put(out, b"\n");
}

// Sends lines, in order.
fn put_lines<K: Sink>(buffer: &mut OutBuffer, out: &mut K, lines: &[LogLine])
    ensures { Adds (point (K.written out.old) (K.faults out.old) buffer.old)
        (point (K.written out.new) (K.faults out.new) buffer.new)
        (flat_map log_line_text lines.now) }
{
    for k in 0..lines.len() {
        put_line(buffer, out, &lines[k]);
    }
}

// Sends the line of a torn tail, by where it begins.
fn put_torn<K: Sink>(buffer: &mut OutBuffer, out: &mut K, at: Lsn)
    ensures { Adds (point (K.written out.old) (K.faults out.old) buffer.old)
        (point (K.written out.new) (K.faults out.new) buffer.new)
        (torn_text at) }
{
    buffer.put(out, b"torn ");
    put_lsn(buffer, out, at);
    buffer.put(out, b"\n");
}

// Sends the line of a torn tail, if there is one.
fn put_if_torn<K: Sink>(buffer: &mut OutBuffer, out: &mut K, torn: Option<Lsn>)
    ensures { Adds (point (K.written out.old) (K.faults out.old) buffer.old)
        (point (K.written out.new) (K.faults out.new) buffer.new)
        (torn_line torn) }
{
    if let Some(at) = torn {
        put_torn(buffer, out, at);
    }
}

// Sends what is printed of a file.
fn put_file<K: Sink>(buffer: &mut OutBuffer, out: &mut K, file: &FileLines)
    ensures { Adds (point (K.written out.old) (K.faults out.old) buffer.old)
        (point (K.written out.new) (K.faults out.new) buffer.new)
        (lines_text file.now) }
{
    put_lines(buffer, out, &file.lines);
    put_if_torn(buffer, out, file.torn);
}

/// Sends what is printed of files, in order. It takes no memory.
pub fn put_log<K: Sink>(buffer: &mut OutBuffer, out: &mut K, files: &[FileLines])
    ensures { Adds (point (K.written out.old) (K.faults out.old) buffer.old)
        (point (K.written out.new) (K.faults out.new) buffer.new)
        (flat_map lines_text files.now) }
{
    for k in 0..files.len() {
        put_file(buffer, out, &files[k]);
    }
}
