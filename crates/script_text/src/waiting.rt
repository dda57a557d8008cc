// The calls that wait for their lines.
ghost use Rattle.std.specs.Prelude.{◌≡◌, ◌≤◌, [], length, take, drop, false};
ghost use Rattle.std.specs.Bool.{OnFalse};
ghost use Rattle.std.specs.List.{list_any};
ghost use Rattle.store_model.specs.Journal.{acknowledges, answers_some, is_disk_fault};
ghost use Rattle.script_text.specs.declared.logged_call.LoggedCall.{LoggedCall};
ghost use Rattle.script_text.specs.Report.{begins, begun_after, durability_awaited, if_waiting, logged_call, none_begun, settles, settling_text, NoneWaits};

use crate::logged_call::LoggedCall;
use store_model::{Answer, Call, Durability, Event};

// The durability with which an event begins a session's transaction, if it does.
pub fn begins(session: u8, event: &Event) -> Option<Durability>
    ensures { result ≡ begins session event.now }
{
    match event {
        Event::Call {
            session: by,
            call: Call::Begin { durability, .. },
            answer: Answer::Txn { .. },
            ..
        } => {
            if *by == session {
                Some(*durability)
            } else {
                None
            }
        }
        _ => None,
    }
}

// The one with which the session's last transaction was begun.
pub fn begun_by(events: &[Event], session: u8) -> Durability
    ensures { result ≡ begun_after none_begun events.now session }
{
    let mut left = events.len();
    while left > 0 {
        left -= 1;
        match begins(session, &events[left]) {
            Some(durability) => return durability,
            None => {}
        }
    }
    Durability::Sync
}

fn durability_awaited(before: &[Event], session: u8, call: &Call) -> Durability
    ensures { result ≡ durability_awaited (begun_after none_begun before.now) session call.now }
{
    match call {
        Call::Commit => begun_by(before, session),
        _ => Durability::Sync,
    }
}

// The call of an event that comes after others, where it is answered Logged.
pub fn logged_call(before: &[Event], event: &Event) -> Option<LoggedCall>
    ensures { result ≡ logged_call (begun_after none_begun before.now) event.now }
{
    match event {
        Event::Call {
            session,
            line,
            call,
            answer: Answer::Logged { commit },
            ..
        } => Some(LoggedCall {
            session: *session,
            line: *line,
            commit: *commit,
            durability: durability_awaited(before, *session, call),
        }),
        Event::Resume {
            session,
            line,
            answer: Answer::Logged { commit },
            ..
        } => Some(LoggedCall {
            session: *session,
            line: *line,
            commit: *commit,
            durability: Durability::Sync,
        }),
        _ => None,
    }
}

fn is_fault(event: &Event) -> bool
    ensures { result ≡ answers_some is_disk_fault event.now }
{
    match event {
        Event::Call { answer, .. } => is_disk_fault(answer),
        Event::Resume { answer, .. } => is_disk_fault(answer),
        Event::End { session: _ } => false,
        Event::WriteOut { answer } => is_disk_fault(answer),
        Event::SyncBegin { answer } => is_disk_fault(answer),
        Event::SyncEnd { answer } => is_disk_fault(answer),
        Event::Turn { answer, .. } => is_disk_fault(answer),
    }
}

fn is_disk_fault(answer: &Answer) -> bool
    ensures { result ≡ is_disk_fault answer.now }
{
    matches!(answer, Answer::DiskFault)
}

fn acknowledges(durability: Durability, commit: u64, event: &Event) -> bool
    ensures { result ≡ acknowledges durability commit event.now }
{
    match event {
        Event::SyncEnd {
            answer: Answer::Durable { commit: last },
        } => commit <= *last,
        Event::WriteOut {
            answer: Answer::Durable { commit: last },
        } => match durability {
            Durability::WriteNoSync => commit <= *last,
            _ => false,
        },
        _ => false,
    }
}

// Whether an event acknowledges a logged call's commit, or meets a disk fault.
pub fn settles(call: &LoggedCall, event: &Event) -> bool
    ensures { result ≡ settles call.now event.now }
{
    acknowledges(call.durability, call.commit, event) || is_fault(event)
}

// Whether one of the events settles the call.
pub fn is_settled(call: &LoggedCall, events: &[Event]) -> bool
    ensures { result ≡ list_any (settles call.now) events.now }
{
    events.iter().any(|event| settles(call, event))
}

// What an event says of the calls that wait for it.
pub fn settling_text(event: &Event) -> &'static [u8]
    ensures { result.now ≡ settling_text event.now }
{
    if is_fault(event) { b"diskfault" } else { b"ok" }
}

// Whether an event may settle a commit.
pub fn may_settle(event: &Event) -> bool
    ensures { OnFalse result ((call : LoggedCall) → settles call event.now ≡ false) }
{
    match event {
        Event::SyncEnd { .. } => true,
        Event::WriteOut { .. } => true,
        _ => is_fault(event),
    }
}

// Whether an event that comes after some and before others is a call that waits for its line.
fn waits(before: &[Event], event: &Event, later: &[Event]) -> bool
    ensures { OnFalse result (if_waiting (begun_after none_begun before.now) event.now later.now ≡ []) }
{
    match logged_call(before, event) {
        Some(call) => !is_settled(&call, later),
        None => false,
    }
}

// Where the first call that waits stands, from `first` on: before it none does.
pub fn first_waiting(seen: &[Event], first: usize) -> usize
    requires order { first ≤ length seen.now }
    requires none { NoneWaits none_begun (take first seen.now) (drop first seen.now) }
    ensures order { result ≤ length seen.now }
    ensures none { NoneWaits none_begun (take result seen.now) (drop result seen.now) }
{
    let mut first = first;
    while first < seen.len() && !waits(&seen[..first], &seen[first], &seen[first + 1..]) {
        first += 1;
    }
    first
}
