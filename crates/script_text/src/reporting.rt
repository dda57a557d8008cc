// Printing a report.
ghost use Rattle.std.specs.Prelude.{◌≡◌, ◌<◌, ◌≤◌, ◌+◌, ◌++◌, [], length, take, drop, slice_get, Some, OnOk, OnErr};
ghost use Rattle.std.specs.List.{flat_map};
ghost use Rattle.je_order.specs.Counts.{HasRisen};
ghost use Rattle.je_io.specs.Sink.{Gains, GainsPart};
ghost use Rattle.text_out.specs.OutBuffer.{Adds, point};
ghost use Rattle.script_text.specs.Report.{commits_in, end_line, NoneWaits, event_text, events_text, none_begun, report_text, settled_line, waiting_after, waiting_if};

use crate::counting::{commits_of, counted};
use crate::event_lines::{put_own_line, put_victims};
use crate::logged_call::LoggedCall;
use crate::texts::put_line;
use crate::waiting::{first_waiting, is_settled, logged_call, may_settle, settles, settling_text};
use je_io::{Failed, Sink};
use store_model::{Event, Totals};
use text_out::{OutBuffer, put_number};

/// Prints the report of a journal: a line for each answer to a call or a step, those of an event's
/// victims behind its own, and the last line with the number of commits and what the final store holds. It takes no memory. `Failed` is a fault of the
/// sink, which then has the first bytes of the text, any number of them.
pub fn report<K: Sink>(events: &[Event], totals: &Totals, out: &mut K) -> Result<(), Failed>
    ensures observed { OnOk result
        (Gains (K.written out.old) (K.written out.new) (report_text events.now totals.now)) }
    ensures part { OnErr result
        (GainsPart (K.written out.old) (K.written out.new) (report_text events.now totals.now)) }
    ensures never_falls { K.faults out.old ≤ K.faults out.new }
    ensures cause { OnErr result (HasRisen (K.faults out.old) (K.faults out.new)) }
{
    let mut buffer = OutBuffer::new();
    let commits = put_events(&mut buffer, out, events);
    put_end(&mut buffer, out, commits, totals);
    buffer.flush(out);
    if buffer.has_failed() {
        Err(Failed)
    } else {
        Ok(())
    }
}

/// Sends the last line of a journal's report alone: the number of commits, and what the final store holds. It takes no
/// memory.
pub fn put_last_line<K: Sink>(
    buffer: &mut OutBuffer,
    out: &mut K,
    events: &[Event],
    totals: &Totals,
)
    ensures { Adds (point (K.written out.old) (K.faults out.old) buffer.old)
        (point (K.written out.new) (K.faults out.new) buffer.new)
        (end_line (commits_in [] events.now) totals.now) }
{
    put_end(buffer, out, commits_of(events), totals);
}

fn put_end<K: Sink>(buffer: &mut OutBuffer, out: &mut K, commits: usize, totals: &Totals)
    ensures { Adds (point (K.written out.old) (K.faults out.old) buffer.old)
        (point (K.written out.new) (K.faults out.new) buffer.new)
        (end_line commits totals.now) }
{
    buffer.put(out, b"end commits ");
    put_number(buffer, out, commits as u64);
    buffer.put(out, b" databases ");
    put_number(buffer, out, totals.databases);
    buffer.put(out, b" records ");
    put_number(buffer, out, totals.records);
    buffer.put(out, b"\n");
}

// Sends the lines of all events, and answers how many commits there are.
fn put_events<K: Sink>(buffer: &mut OutBuffer, out: &mut K, events: &[Event]) -> usize
    ensures commits { result ≡ commits_in [] events.now }
    ensures adds { Adds (point (K.written out.old) (K.faults out.old) buffer.old)
        (point (K.written out.new) (K.faults out.new) buffer.new)
        (events_text [] events.now) }
{
    let mut first = 0;
    let mut commits = 0;
    for at in 0..events.len() {
        let event = &events[at];
        put_event(buffer, out, &events[..at], first, event);
        first = next_first(events, first, at);
        commits = counted(commits, &events[..at], event);
    }
    commits
}

// Where the first call that waits after the event at `at` may stand: before `first` none does.
fn next_first(events: &[Event], first: usize, at: usize) -> usize
    requires there { at < length events.now }
    requires order { first ≤ at }
    requires none { NoneWaits none_begun (take first events.now) (drop first (take at events.now)) }
    ensures order { result ≤ at + 1 }
    ensures none { NoneWaits none_begun (take result events.now) (drop result (take (at + 1) events.now)) }
{
    if first == at || may_settle(&events[at]) {
        first_waiting(&events[..at + 1], first)
    } else {
        first
    }
}

// The lines of an event behind those that were seen; of these none before `first` waits.
fn put_event<K: Sink>(
    buffer: &mut OutBuffer,
    out: &mut K,
    seen: &[Event],
    first: usize,
    event: &Event,
)
    requires order { first ≤ length seen.now }
    requires none { NoneWaits none_begun (take first seen.now) (drop first seen.now) }
    ensures { Adds (point (K.written out.old) (K.faults out.old) buffer.old)
        (point (K.written out.new) (K.faults out.new) buffer.new)
        (event_text seen.now event.now) }
{
    put_own_line(buffer, out, event);
    put_victims(buffer, out, event);
    put_settled(buffer, out, seen, first, event);
}

// The lines of the calls that have waited for the event.
fn put_settled<K: Sink>(
    buffer: &mut OutBuffer,
    out: &mut K,
    seen: &[Event],
    first: usize,
    event: &Event,
)
    requires order { first ≤ length seen.now }
    requires none { NoneWaits none_begun (take first seen.now) (drop first seen.now) }
    ensures { Adds (point (K.written out.old) (K.faults out.old) buffer.old)
        (point (K.written out.new) (K.faults out.new) buffer.new)
        (flat_map (settled_line event.now) (waiting_after none_begun seen.now)) }
{
    if !may_settle(event) {
        return;
    }
    for k in first..seen.len() {
        let call = logged_call(&seen[..k], &seen[k]);
        put_if_settled(buffer, out, call, &seen[k + 1..], event);
    }
}

fn put_if_settled<K: Sink>(
    buffer: &mut OutBuffer,
    out: &mut K,
    call: Option<LoggedCall>,
    later: &[Event],
    event: &Event,
)
    ensures { Adds (point (K.written out.old) (K.faults out.old) buffer.old)
        (point (K.written out.new) (K.faults out.new) buffer.new)
        (flat_map (settled_line event.now) (waiting_if call later.now)) }
{
    if let Some(call) = call {
        if settles(&call, event) && !is_settled(&call, later) {
            put_line(buffer, out, call.session, call.line, settling_text(event));
        }
    }
}
