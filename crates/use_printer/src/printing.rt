// Printing a log's use.
ghost use Rattle.std.specs.Prelude.{◌≡◌, decimal};
ghost use Rattle.std.specs.List.{flat_map};
ghost use Rattle.text_out.specs.OutBuffer.{Adds, point};
ghost use Rattle.je_lsn.specs.Naming.{name_of};
ghost use Rattle.use_printer.specs.UseText.{file_use_line, files_line, last_txn_line, live_of, records_line, total_of, use_text, utilization};

use file_use::{FileUse, LogUse};
use itoa::Buffer;
use je_io::Sink;
use je_lsn::{FileNo, file_name};
use text_out::{OutBuffer, put_number};

// How many bytes files have.
fn sum_totals(files: &[FileUse]) -> u128
    ensures { result ≡ total_of files.now }
{
    let mut total = 0u128;
    for file in files {
        total += u128::from(file.total);
    }
    total
}

// How many of their bytes are live.
fn sum_lives(files: &[FileUse]) -> u128
    ensures { result ≡ live_of files.now }
{
    let mut live = 0u128;
    for file in files {
        live += u128::from(file.live);
    }
    live
}

// How many in a hundred of a file's bytes are live, rounded down; 0 of no bytes.
fn percent(file: &FileUse) -> u128
    ensures { result ≡ utilization file.now }
{
    if file.total == 0 {
        return 0;
    }
    u128::from(file.live) * 100 / u128::from(file.total)
}

// Sends the decimal digits of a number that may be beyond a u64's.
fn put_sum<K: Sink>(buffer: &mut OutBuffer, out: &mut K, number: u128)
    ensures { Adds (point (K.written out.old) (K.faults out.old) buffer.old)
        (point (K.written out.new) (K.faults out.new) buffer.new)
        (decimal number) }
{
    let mut digits = Buffer::new();
    buffer.put(out, digits.format(number).as_bytes());
}

// Sends the line of all files.
fn put_totals<K: Sink>(buffer: &mut OutBuffer, out: &mut K, files: &[FileUse])
    ensures { Adds (point (K.written out.old) (K.faults out.old) buffer.old)
        (point (K.written out.new) (K.faults out.new) buffer.new)
        (files_line files.now) }
{
    buffer.put(out, b"files ");
    put_number(buffer, out, files.len() as u64);
    buffer.put(out, b" bytes ");
    put_sum(buffer, out, sum_totals(files));
    buffer.put(out, b" live ");
    put_sum(buffer, out, sum_lives(files));
    buffer.put(out, b"\n");
}

// Sends a file's name.
fn put_name<K: Sink>(buffer: &mut OutBuffer, out: &mut K, file: FileNo)
    ensures { Adds (point (K.written out.old) (K.faults out.old) buffer.old)
        (point (K.written out.new) (K.faults out.new) buffer.new)
        (name_of file.0) }
{
    buffer.put(out, file_name(file).as_slice());
}

// Sends the line of a file.
fn put_file<K: Sink>(buffer: &mut OutBuffer, out: &mut K, file: &FileUse)
    ensures { Adds (point (K.written out.old) (K.faults out.old) buffer.old)
        (point (K.written out.new) (K.faults out.new) buffer.new)
        (file_use_line file.now) }
{
    buffer.put(out, b"file ");
    put_name(buffer, out, file.file);
    buffer.put(out, b" total ");
    put_number(buffer, out, file.total);
    buffer.put(out, b" live ");
    put_number(buffer, out, file.live);
    buffer.put(out, b" util ");
    put_sum(buffer, out, percent(file));
    buffer.put(out, b"\n");
}

// Sends the lines of files, in order.
fn put_files<K: Sink>(buffer: &mut OutBuffer, out: &mut K, files: &[FileUse])
    ensures { Adds (point (K.written out.old) (K.faults out.old) buffer.old)
        (point (K.written out.new) (K.faults out.new) buffer.new)
        (flat_map file_use_line files.now) }
{
    for file in files {
        put_file(buffer, out, file);
    }
}

// Sends the line of the databases and their records.
fn put_records<K: Sink>(buffer: &mut OutBuffer, out: &mut K, used: &LogUse)
    ensures { Adds (point (K.written out.old) (K.faults out.old) buffer.old)
        (point (K.written out.new) (K.faults out.new) buffer.new)
        (records_line used.now) }
{
    buffer.put(out, b"databases ");
    put_number(buffer, out, used.databases);
    buffer.put(out, b" records ");
    put_number(buffer, out, used.records);
    buffer.put(out, b"\n");
}

// Sends the line of the last transaction.
fn put_last_txn<K: Sink>(buffer: &mut OutBuffer, out: &mut K, txn: u64)
    ensures { Adds (point (K.written out.old) (K.faults out.old) buffer.old)
        (point (K.written out.new) (K.faults out.new) buffer.new)
        (last_txn_line txn) }
{
    buffer.put(out, b"last txn ");
    put_number(buffer, out, txn);
    buffer.put(out, b"\n");
}

/// Sends what is printed of a log's use: a line for all files, one for each file, one of databases and records, and one of
/// the last transaction's number. It takes no memory.
pub fn put_use<K: Sink>(buffer: &mut OutBuffer, out: &mut K, used: &LogUse)
    ensures { Adds (point (K.written out.old) (K.faults out.old) buffer.old)
        (point (K.written out.new) (K.faults out.new) buffer.new)
        (use_text used.now) }
{
    let files = used.files.as_slice();
    put_totals(buffer, out, files);
    put_files(buffer, out, files);
    put_records(buffer, out, used);
    put_last_txn(buffer, out, used.last_txn);
}
