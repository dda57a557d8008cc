// Printing a check.
ghost use Rattle.std.specs.Prelude.{◌≡◌, ◌≤◌, ◌-◌, decimal};
ghost use Rattle.std.specs.List.{flat_map};
ghost use Rattle.text_out.specs.OutBuffer.{Adds, point};
ghost use Rattle.je_lsn.specs.Naming.{name_of};
ghost use Rattle.check_printer.specs.CheckText.{check_text, count_all_lines, count_lines, database_line, file_line, finding_lines, gap_lines, index_line, place_line, verdict_line, version_line, wrong_line};

use check_laws::{Checked, DatabaseCount, FileRun, Finding};
use itoa::Buffer;
use je_io::Sink;
use je_lsn::{FileNo, Lsn, file_name};
use je_order::Word;
use log_replay::Corruption;
use text_out::{OutBuffer, put_lsn, put_number};

// Sends a file's name.
fn put_file_name<K: Sink>(buffer: &mut OutBuffer, out: &mut K, file: FileNo)
    ensures { Adds (point (K.written out.old) (K.faults out.old) buffer.old)
        (point (K.written out.new) (K.faults out.new) buffer.new)
        (name_of file.0) }
{
    buffer.put(out, file_name(file).as_slice());
}

// Sends the line of a file.
fn put_file<K: Sink>(buffer: &mut OutBuffer, out: &mut K, run: &FileRun)
    ensures { Adds (point (K.written out.old) (K.faults out.old) buffer.old)
        (point (K.written out.new) (K.faults out.new) buffer.new)
        (file_line run.now) }
{
    buffer.put(out, b"file ");
    put_file_name(buffer, out, run.file);
    buffer.put(out, b" entries ");
    put_number(buffer, out, run.entries);
    buffer.put(out, b" bytes ");
    put_number(buffer, out, u64::from(run.end));
    buffer.put(out, b"\n");
}

// Sends the lines of files, in order.
fn put_files<K: Sink>(buffer: &mut OutBuffer, out: &mut K, files: &[FileRun])
    ensures { Adds (point (K.written out.old) (K.faults out.old) buffer.old)
        (point (K.written out.new) (K.faults out.new) buffer.new)
        (flat_map file_line files.now) }
{
    for run in files {
        put_file(buffer, out, run);
    }
}

// Sends the line of a database.
fn put_database<K: Sink>(buffer: &mut OutBuffer, out: &mut K, database: &DatabaseCount)
    ensures { Adds (point (K.written out.old) (K.faults out.old) buffer.old)
        (point (K.written out.new) (K.faults out.new) buffer.new)
        (database_line database.now) }
{
    buffer.put(out, b"database ");
    buffer.put(out, database.name.as_slice());
    buffer.put(out, b" records ");
    put_number(buffer, out, database.records);
    buffer.put(out, b"\n");
}

// Sends the lines of databases, in order.
fn put_databases<K: Sink>(buffer: &mut OutBuffer, out: &mut K, databases: &[DatabaseCount])
    ensures { Adds (point (K.written out.old) (K.faults out.old) buffer.old)
        (point (K.written out.new) (K.faults out.new) buffer.new)
        (flat_map database_line databases.now) }
{
    for k in 0..databases.len() {
        put_database(buffer, out, &databases[k]);
    }
}

// Sends a word and a place.
fn put_place<K: Sink>(buffer: &mut OutBuffer, out: &mut K, word: &[u8], at: Lsn)
    ensures { Adds (point (K.written out.old) (K.faults out.old) buffer.old)
        (point (K.written out.new) (K.faults out.new) buffer.new)
        (place_line word.now at) }
{
    buffer.put(out, word);
    put_lsn(buffer, out, at);
    buffer.put(out, b"\n");
}

// Sends the line of a file of another version.
fn put_version<K: Sink>(buffer: &mut OutBuffer, out: &mut K, file: FileNo, version: u32)
    ensures { Adds (point (K.written out.old) (K.faults out.old) buffer.old)
        (point (K.written out.new) (K.faults out.new) buffer.new)
        (version_line file version) }
{
    buffer.put(out, b"version ");
    put_file_name(buffer, out, file);
    buffer.put(out, b" ");
    put_number(buffer, out, u64::from(version));
    buffer.put(out, b"\n");
}

// Sends the line of a corruption.
fn put_wrong<K: Sink>(buffer: &mut OutBuffer, out: &mut K, corruption: &Corruption)
    ensures { Adds (point (K.written out.old) (K.faults out.old) buffer.old)
        (point (K.written out.new) (K.faults out.new) buffer.new)
        (wrong_line corruption.now) }
{
    match corruption {
        Corruption::Damaged(at) => put_place(buffer, out, b"damaged ", *at),
        Corruption::Missing(at) => put_place(buffer, out, b"missing ", *at),
        Corruption::Tree(at) => put_place(buffer, out, b"tree ", *at),
        Corruption::VersionUnknown { file, version } => put_version(buffer, out, *file, *version),
    }
}

// Sends a line for each file of a gap.
fn put_gap<K: Sink>(buffer: &mut OutBuffer, out: &mut K, first: FileNo, past: FileNo)
    ensures { Adds (point (K.written out.old) (K.faults out.old) buffer.old)
        (point (K.written out.new) (K.faults out.new) buffer.new)
        (gap_lines first.0 (past.0 - first.0)) }
{
    let mut file = first.0;
    while file < past.0 {
        put_place(buffer, out, b"missing ", Lsn::new(FileNo(file), 0));
        file += 1;
    }
}

// Sends the line of an index.
fn put_index<K: Sink>(buffer: &mut OutBuffer, out: &mut K, name: &Word)
    ensures { Adds (point (K.written out.old) (K.faults out.old) buffer.old)
        (point (K.written out.new) (K.faults out.new) buffer.new)
        (index_line name.now) }
{
    buffer.put(out, b"index ");
    buffer.put(out, name.as_slice());
    buffer.put(out, b"\n");
}

// Sends what is printed of a finding.
fn put_finding<K: Sink>(buffer: &mut OutBuffer, out: &mut K, finding: &Finding)
    ensures { Adds (point (K.written out.old) (K.faults out.old) buffer.old)
        (point (K.written out.new) (K.faults out.new) buffer.new)
        (finding_lines finding.now) }
{
    match finding {
        Finding::Wrong(corruption) => put_wrong(buffer, out, corruption),
        Finding::Gap { first, past } => put_gap(buffer, out, *first, *past),
        Finding::Index(name) => put_index(buffer, out, name),
    }
}

// Sends what is printed of findings, in order.
fn put_findings<K: Sink>(buffer: &mut OutBuffer, out: &mut K, findings: &[Finding])
    ensures { Adds (point (K.written out.old) (K.faults out.old) buffer.old)
        (point (K.written out.new) (K.faults out.new) buffer.new)
        (flat_map finding_lines findings.now) }
{
    for k in 0..findings.len() {
        put_finding(buffer, out, &findings[k]);
    }
}

// How many lines a finding has.
fn count_finding(finding: &Finding) -> u32
    ensures lines { result ≡ count_lines finding.now }
    ensures few { result ≤ 4294967295 }
{
    match finding {
        Finding::Gap { first, past } => past.0.saturating_sub(first.0),
        Finding::Wrong(_) | Finding::Index(_) => 1,
    }
}

// How many lines findings have.
fn count_findings(findings: &[Finding]) -> u128
    ensures { result ≡ count_all_lines findings.now }
{
    let mut count = 0u128;
    for k in 0..findings.len() {
        count += u128::from(count_finding(&findings[k]));
    }
    count
}

// Sends a great number's decimal digits.
fn put_count<K: Sink>(buffer: &mut OutBuffer, out: &mut K, number: u128)
    ensures { Adds (point (K.written out.old) (K.faults out.old) buffer.old)
        (point (K.written out.new) (K.faults out.new) buffer.new)
        (decimal number) }
{
    let mut digits = Buffer::new();
    buffer.put(out, digits.format(number).as_bytes());
}

// Sends the last line: that there are no findings, or how many.
fn put_end<K: Sink>(buffer: &mut OutBuffer, out: &mut K, findings: &[Finding])
    ensures { Adds (point (K.written out.old) (K.faults out.old) buffer.old)
        (point (K.written out.new) (K.faults out.new) buffer.new)
        (verdict_line findings.now) }
{
    if findings.is_empty() {
        buffer.put(out, b"verify ok\n");
        return;
    }
    buffer.put(out, b"verify findings ");
    put_count(buffer, out, count_findings(findings));
    buffer.put(out, b"\n");
}

/// Sends what is printed of a check: a line for each file and each database, one for each finding, of a gap one for
/// each of its files, and last `verify ok`, or how many findings there are. It takes no memory.
pub fn put_check<K: Sink>(buffer: &mut OutBuffer, out: &mut K, checked: &Checked)
    ensures { Adds (point (K.written out.old) (K.faults out.old) buffer.old)
        (point (K.written out.new) (K.faults out.new) buffer.new)
        (check_text checked.now) }
{
    put_files(buffer, out, checked.files.as_slice());
    put_databases(buffer, out, checked.databases.as_slice());
    let findings = checked.findings.as_slice();
    put_findings(buffer, out, findings);
    put_end(buffer, out, findings);
}
