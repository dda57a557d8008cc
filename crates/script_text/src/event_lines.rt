// The lines of events.
ghost use Rattle.std.specs.Prelude.{◌≡◌, ◌++◌, [], codes};
ghost use Rattle.std.specs.List.{flat_map};
ghost use Rattle.text_out.specs.OutBuffer.{Adds, point};
ghost use Rattle.script_text.specs.Report.{answer_text, line_if_any, own_line, step_line, victim_line, victims_text};

use crate::answer_texts::{has_text, put_answer, put_cycle};
use crate::texts::put_front;
use je_io::Sink;
use store_model::{Answer, Event, Victim};
use text_out::{OutBuffer, put_number};

// Sends the line of a call with its answer, where the answer has a text.
fn put_call<K: Sink>(buffer: &mut OutBuffer, out: &mut K, session: u8, line: u32, answer: &Answer)
    ensures { Adds (point (K.written out.old) (K.faults out.old) buffer.old)
        (point (K.written out.new) (K.faults out.new) buffer.new)
        (line_if_any session line (answer_text answer.now)) }
{
    if has_text(answer) {
        put_front(buffer, out, session, line);
        put_answer(buffer, out, answer);
        buffer.put(out, b"\n");
    }
}

// Sends the line of a step with its answer, where the answer has a text.
fn put_step<K: Sink>(buffer: &mut OutBuffer, out: &mut K, line: u32, answer: &Answer)
    ensures { Adds (point (K.written out.old) (K.faults out.old) buffer.old)
        (point (K.written out.new) (K.faults out.new) buffer.new)
        (step_line line (answer_text answer.now)) }
{
    if has_text(answer) {
        put_number(buffer, out, u64::from(line));
        buffer.put(out, b" m ");
        put_answer(buffer, out, answer);
        buffer.put(out, b"\n");
    }
}

// Sends the own line of an event.
pub fn put_own_line<K: Sink>(buffer: &mut OutBuffer, out: &mut K, event: &Event)
    ensures { Adds (point (K.written out.old) (K.faults out.old) buffer.old)
        (point (K.written out.new) (K.faults out.new) buffer.new)
        (own_line event.now) }
{
    match event {
        Event::Call {
            session,
            line,
            call: _,
            answer,
            victims: _,
        } => put_call(buffer, out, *session, *line, answer),
        Event::Resume {
            session,
            line,
            answer,
            victims: _,
        } => put_call(buffer, out, *session, *line, answer),
        Event::Turn {
            line,
            step: _,
            answer,
        } => put_step(buffer, out, *line, answer),
        Event::End { session: _ } => {}
        Event::WriteOut { answer: _ } => {}
        Event::SyncBegin { answer: _ } => {}
        Event::SyncEnd { answer: _ } => {}
    }
}

fn put_victim<K: Sink>(buffer: &mut OutBuffer, out: &mut K, asking: u8, victim: &Victim)
    ensures { Adds (point (K.written out.old) (K.faults out.old) buffer.old)
        (point (K.written out.new) (K.faults out.new) buffer.new)
        (victim_line asking victim.now) }
{
    if victim.session != asking {
        put_front(buffer, out, victim.session, victim.line);
        put_cycle(buffer, out, b"deadlock", victim.cycle.as_slice());
        buffer.put(out, b"\n");
    }
}

fn put_each<K: Sink>(buffer: &mut OutBuffer, out: &mut K, asking: u8, victims: &[Victim])
    ensures { Adds (point (K.written out.old) (K.faults out.old) buffer.old)
        (point (K.written out.new) (K.faults out.new) buffer.new)
        (flat_map (victim_line asking) victims.now) }
{
    for k in 0..victims.len() {
        put_victim(buffer, out, asking, &victims[k]);
    }
}

// Sends the lines of an event's victims.
pub fn put_victims<K: Sink>(buffer: &mut OutBuffer, out: &mut K, event: &Event)
    ensures { Adds (point (K.written out.old) (K.faults out.old) buffer.old)
        (point (K.written out.new) (K.faults out.new) buffer.new)
        (victims_text event.now) }
{
    match event {
        Event::Call {
            session,
            victims,
            ..
        } => put_each(buffer, out, *session, victims.as_slice()),
        Event::Resume {
            session,
            victims,
            ..
        } => put_each(buffer, out, *session, victims.as_slice()),
        _ => {}
    }
}
