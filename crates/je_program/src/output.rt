// What a program writes.
ghost use Rattle.std.specs.Prelude.{◌≡◌, ◌≤◌, ◌++◌, ℕ, List, Option, OnOk, OnErr, filter, length};
ghost use Rattle.std.specs.List.{flat_map};
ghost use Rattle.je_order.specs.Counts.{HasRisen};
ghost use Rattle.je_io.specs.Sink.{Gains, GainsPart};
ghost use Rattle.text_out.specs.OutBuffer.{Adds, Sends, point};
ghost use Rattle.log_printer.specs.LogLines.{lines_text};
ghost use Rattle.check_printer.specs.CheckText.{check_text};
ghost use Rattle.use_printer.specs.UseText.{use_text};
ghost use Rattle.database_dump.specs.Text.{records_text};
ghost use Rattle.environment.specs.Databases.{rows_kept};
ghost use Rattle.je_program.specs.Commands.{is_kept_pair, is_loaded, loaded_line, report_of, soak_end_of, soak_text, text_of};
ghost use Rattle.je_program.specs.Program.{fault_text, IsOutputWritten};

use crate::cause::Cause;
use crate::fault_line::fault_line;
use crate::text::Text;
use check_laws::Checked;
use check_printer::put_check;
use database_dump::put_database;
use environment::Records;
use file_use::LogUse;
use je_io::{Failed, Sink, write_all};
use log_printer::{FileLines, put_log};
use script_text::{put_last_line, report};
use soak_plan::SOAK_LINES;
use store_model::{Answer, Call, Event, Kind, Totals};
use text_out::{OutBuffer, put_number};
use use_printer::put_use;

// Writes the fault line of a cause, and nothing where all was done.
fn write_fault<K: Sink>(cause: &Cause, output: &mut K) -> Result<(), Failed>
    ensures observed { OnOk result (Gains (K.written output.old) (K.written output.new) (fault_text cause.now)) }
    ensures part { OnErr result (GainsPart (K.written output.old) (K.written output.new) (fault_text cause.now)) }
    ensures never_falls { K.faults output.old ≤ K.faults output.new }
    ensures cause { OnErr result (HasRisen (K.faults output.old) (K.faults output.new)) }
{
    let line = fault_line(cause);
    write_all(output, line.as_slice())
}

// Writes the report of a run.
fn write_report<K: Sink>(
    opened: bool,
    journal: &[Event],
    totals: &Totals,
    output: &mut K,
) -> Result<(), Failed>
    ensures observed { OnOk result (Gains (K.written output.old) (K.written output.new) (report_of opened journal.now totals.now)) }
    ensures part { OnErr result (GainsPart (K.written output.old) (K.written output.new) (report_of opened journal.now totals.now)) }
    ensures never_falls { K.faults output.old ≤ K.faults output.new }
    ensures cause { OnErr result (HasRisen (K.faults output.old) (K.faults output.new)) }
{
    if opened {
        report(journal, totals, output)
    } else {
        write_all(output, b"")
    }
}

// Ends a text that was sent through a buffer.
fn finish_text<K: Sink>(mut buffer: OutBuffer, output: &mut K) -> Result<(), Failed>
    ensures whole { (start : Option (List ℕ)) (started : ℕ) (sent : List ℕ) → Sends start started (point (K.written output.old) (K.faults output.old) buffer) sent
        → OnOk result (Gains start (K.written output.new) sent) }
    ensures part { (start : Option (List ℕ)) (started : ℕ) (sent : List ℕ) → Sends start started (point (K.written output.old) (K.faults output.old) buffer) sent
        → OnErr result (GainsPart start (K.written output.new) sent) }
    ensures never_falls { (start : Option (List ℕ)) (started : ℕ) (sent : List ℕ) → Sends start started (point (K.written output.old) (K.faults output.old) buffer) sent
        → started ≤ K.faults output.new }
    ensures cause { (start : Option (List ℕ)) (started : ℕ) (sent : List ℕ) → Sends start started (point (K.written output.old) (K.faults output.old) buffer) sent
        → OnErr result (HasRisen started (K.faults output.new)) }
{
    buffer.flush(output);
    if buffer.has_failed() {
        Err(Failed)
    } else {
        Ok(())
    }
}

// Sends the lines of a soak.
fn put_soak<K: Sink>(
    buffer: &mut OutBuffer,
    out: &mut K,
    seed: u32,
    journal: &[Event],
    totals: &Totals,
)
    ensures { Adds (point (K.written out.old) (K.faults out.old) buffer.old)
        (point (K.written out.new) (K.faults out.new) buffer.new)
        (soak_text seed journal.now totals.now) }
{
    buffer.put(out, b"soak seed ");
    put_number(buffer, out, u64::from(seed));
    buffer.put(out, b" lines ");
    put_number(buffer, out, u64::from(SOAK_LINES));
    buffer.put(out, b"\n");
    put_last_line(buffer, out, journal, totals);
}

// Writes how the run of a seed's script ended.
fn write_soak_end<K: Sink>(
    seed: u32,
    journal: &[Event],
    totals: &Totals,
    output: &mut K,
) -> Result<(), Failed>
    ensures observed { OnOk result (Gains (K.written output.old) (K.written output.new) (soak_text seed journal.now totals.now)) }
    ensures part { OnErr result (GainsPart (K.written output.old) (K.written output.new) (soak_text seed journal.now totals.now)) }
    ensures never_falls { K.faults output.old ≤ K.faults output.new }
    ensures cause { OnErr result (HasRisen (K.faults output.old) (K.faults output.new)) }
{
    let mut buffer = OutBuffer::new();
    put_soak(&mut buffer, output, seed, journal, totals);
    finish_text(buffer, output)
}

// Writes that, if the script was run.
fn write_soak<K: Sink>(
    seed: u32,
    opened: bool,
    journal: &[Event],
    totals: &Totals,
    output: &mut K,
) -> Result<(), Failed>
    ensures observed { OnOk result (Gains (K.written output.old) (K.written output.new) (soak_end_of seed opened journal.now totals.now)) }
    ensures part { OnErr result (GainsPart (K.written output.old) (K.written output.new) (soak_end_of seed opened journal.now totals.now)) }
    ensures never_falls { K.faults output.old ≤ K.faults output.new }
    ensures cause { OnErr result (HasRisen (K.faults output.old) (K.faults output.new)) }
{
    if opened {
        write_soak_end(seed, journal, totals, output)
    } else {
        write_all(output, b"")
    }
}

// Writes the lines of a log.
fn write_log<K: Sink>(files: &[FileLines], output: &mut K) -> Result<(), Failed>
    ensures observed { OnOk result (Gains (K.written output.old) (K.written output.new) (flat_map lines_text files.now)) }
    ensures part { OnErr result (GainsPart (K.written output.old) (K.written output.new) (flat_map lines_text files.now)) }
    ensures never_falls { K.faults output.old ≤ K.faults output.new }
    ensures cause { OnErr result (HasRisen (K.faults output.old) (K.faults output.new)) }
{
    let mut buffer = OutBuffer::new();
    put_log(&mut buffer, output, files);
    finish_text(buffer, output)
}

// Writes what a check comes to.
fn write_check<K: Sink>(checked: &Checked, output: &mut K) -> Result<(), Failed>
    ensures observed { OnOk result (Gains (K.written output.old) (K.written output.new) (check_text checked.now)) }
    ensures part { OnErr result (GainsPart (K.written output.old) (K.written output.new) (check_text checked.now)) }
    ensures never_falls { K.faults output.old ≤ K.faults output.new }
    ensures cause { OnErr result (HasRisen (K.faults output.old) (K.faults output.new)) }
{
    let mut buffer = OutBuffer::new();
    put_check(&mut buffer, output, checked);
    finish_text(buffer, output)
}

// Writes how much of each file is live.
fn write_use<K: Sink>(used: &LogUse, output: &mut K) -> Result<(), Failed>
    ensures observed { OnOk result (Gains (K.written output.old) (K.written output.new) (use_text used.now)) }
    ensures part { OnErr result (GainsPart (K.written output.old) (K.written output.new) (use_text used.now)) }
    ensures never_falls { K.faults output.old ≤ K.faults output.new }
    ensures cause { OnErr result (HasRisen (K.faults output.old) (K.faults output.new)) }
{
    let mut buffer = OutBuffer::new();
    put_use(&mut buffer, output, used);
    finish_text(buffer, output)
}

// Writes a database as a dump.
fn write_dump<K: Sink>(
    records: &Records,
    number: u32,
    kind: Kind,
    printed: bool,
    output: &mut K,
) -> Result<(), Failed>
    ensures observed { OnOk result (Gains (K.written output.old) (K.written output.new) (records_text printed kind (rows_kept records.now number))) }
    ensures part { OnErr result (GainsPart (K.written output.old) (K.written output.new) (records_text printed kind (rows_kept records.now number))) }
    ensures never_falls { K.faults output.old ≤ K.faults output.new }
    ensures cause { OnErr result (HasRisen (K.faults output.old) (K.faults output.new)) }
{
    let mut buffer = OutBuffer::new();
    put_database(&mut buffer, output, records, number, kind, printed);
    finish_text(buffer, output)
}

// Whether an event is a put that was done.
#[tactic(auto, unfolding(crate::specs::Commands::is_loaded))]
fn is_loaded(event: &Event) -> bool
    ensures { result ≡ is_loaded event.now }
{
    match event {
        Event::Call {
            call: Call::Put { .. },
            answer,
            ..
        } => matches!(answer, Answer::Done),
        _ => false,
    }
}

// Whether an event is a put whose record was there and stays.
#[tactic(auto, unfolding(crate::specs::Commands::is_kept_pair))]
fn is_kept_pair(event: &Event) -> bool
    ensures { result ≡ is_kept_pair event.now }
{
    match event {
        Event::Call {
            call: Call::Put { .. },
            answer,
            ..
        } => matches!(answer, Answer::KeyExist),
        _ => false,
    }
}

fn loaded_in(journal: &[Event]) -> usize
    ensures { result ≡ length (filter is_loaded journal.now) }
{
    let mut count = 0;
    for event in journal {
        if is_loaded(event) {
            count += 1;
        }
    }
    count
}

fn kept_in(journal: &[Event]) -> usize
    ensures { result ≡ length (filter is_kept_pair journal.now) }
{
    let mut count = 0;
    for event in journal {
        if is_kept_pair(event) {
            count += 1;
        }
    }
    count
}

// Sends the line of a load.
fn put_loaded<K: Sink>(buffer: &mut OutBuffer, out: &mut K, journal: &[Event])
    ensures { Adds (point (K.written out.old) (K.faults out.old) buffer.old)
        (point (K.written out.new) (K.faults out.new) buffer.new)
        (loaded_line journal.now) }
{
    buffer.put(out, b"loaded ");
    put_number(buffer, out, loaded_in(journal) as u64);
    buffer.put(out, b" kept ");
    put_number(buffer, out, kept_in(journal) as u64);
    buffer.put(out, b"\n");
}

// Writes how many pairs of a dump were put.
fn write_loaded<K: Sink>(journal: &[Event], output: &mut K) -> Result<(), Failed>
    ensures observed { OnOk result (Gains (K.written output.old) (K.written output.new) (loaded_line journal.now)) }
    ensures part { OnErr result (GainsPart (K.written output.old) (K.written output.new) (loaded_line journal.now)) }
    ensures never_falls { K.faults output.old ≤ K.faults output.new }
    ensures cause { OnErr result (HasRisen (K.faults output.old) (K.faults output.new)) }
{
    let mut buffer = OutBuffer::new();
    put_loaded(&mut buffer, output, journal);
    finish_text(buffer, output)
}

// Writes what comes before the fault line.
fn write_body<K: Sink>(
    text: &Text,
    opened: bool,
    journal: &[Event],
    totals: &Totals,
    output: &mut K,
) -> Result<(), Failed>
    ensures observed { OnOk result (Gains (K.written output.old) (K.written output.new) (text_of text.now opened journal.now totals.now)) }
    ensures part { OnErr result (GainsPart (K.written output.old) (K.written output.new) (text_of text.now opened journal.now totals.now)) }
    ensures never_falls { K.faults output.old ≤ K.faults output.new }
    ensures cause { OnErr result (HasRisen (K.faults output.old) (K.faults output.new)) }
{
    match text {
        Text::Nothing => write_all(output, b""),
        Text::Report => write_report(opened, journal, totals, output),
        Text::SoakEnd { seed } => write_soak(*seed, opened, journal, totals, output),
        Text::Dump {
            records,
            number,
            kind,
            printed,
        } => write_dump(records, *number, *kind, *printed, output),
        Text::Loaded => write_loaded(journal, output),
        Text::Log(files) => write_log(files, output),
        Text::Check(checked) => write_check(checked, output),
        Text::Use(used) => write_use(used, output),
    }
}

fn write_text<K: Sink>(
    cause: &Cause,
    text: &Text,
    opened: bool,
    journal: &[Event],
    totals: &Totals,
    output: &mut K,
) -> Result<(), Failed>
    ensures observed { OnOk result (Gains (K.written output.old) (K.written output.new) (text_of text.now opened journal.now totals.now ++ fault_text cause.now)) }
    ensures part { OnErr result (GainsPart (K.written output.old) (K.written output.new) (text_of text.now opened journal.now totals.now ++ fault_text cause.now)) }
    ensures never_falls { K.faults output.old ≤ K.faults output.new }
    ensures cause { OnErr result (HasRisen (K.faults output.old) (K.faults output.new)) }
{
    match write_body(text, opened, journal, totals, output) {
        Ok(()) => write_fault(cause, output),
        Err(failed) => Err(failed),
    }
}

/// Writes a program's output, its text first, and gives the status that it ends with. It takes no
/// memory.
pub fn write_output<K: Sink>(
    cause: &Cause,
    text: &Text,
    opened: bool,
    journal: &[Event],
    totals: &Totals,
    output: &mut K,
) -> u8
    ensures written { IsOutputWritten (K.written output.old) (K.written output.new) (K.faults output.old) (K.faults output.new)
        (text_of text.now opened journal.now totals.now ++ fault_text cause.now) cause.now result }
    ensures never_falls { K.faults output.old ≤ K.faults output.new }
{
    match write_text(cause, text, opened, journal, totals, output) {
        Ok(()) => cause.status(),
        Err(_) => cause.unwritten_status(),
    }
}
