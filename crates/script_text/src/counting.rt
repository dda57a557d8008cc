// How many commits a journal has.
ghost use Rattle.std.specs.Prelude.{◌≡◌, ◌≤◌, ◌+◌, [], length, if◌then◌else◌};
ghost use Rattle.store_model.specs.Journal.{is_logged};
ghost use Rattle.script_text.specs.Report.{changed_after, changes_when_done, commits_in, has_changed, is_commit, is_no_sync, is_unlogged, none_changed};

use crate::waiting::{begins, begun_by};
use store_model::{Answer, Call, Durability, Event};

fn is_logged(answer: &Answer) -> bool
    ensures { result ≡ is_logged answer.now }
{
    matches!(answer, Answer::Logged { .. })
}

// Whether a call has changed something where it is answered Done.
fn changes_when_done(call: &Call) -> bool
    ensures { result ≡ changes_when_done call.now }
{
    match call {
        Call::Put { .. } => true,
        Call::Delete { .. } => true,
        Call::CPutCur { .. } => true,
        Call::CDel { .. } => true,
        Call::CPut { .. } => true,
        _ => false,
    }
}

// Whether an event changed something in a session's transaction.
fn has_changed(session: u8, event: &Event) -> bool
    ensures { result ≡ has_changed session event.now }
{
    match event {
        Event::Call {
            session: by,
            call,
            answer: Answer::Done,
            ..
        } => *by == session && changes_when_done(call),
        Event::Resume {
            session: by,
            answer: Answer::Done,
            ..
        } => *by == session,
        _ => false,
    }
}

// Whether the session's last transaction has changed something.
fn changed_by(events: &[Event], session: u8) -> bool
    ensures { result ≡ changed_after none_changed events.now session }
{
    let mut left = events.len();
    while left > 0 {
        left -= 1;
        let event = &events[left];
        if begins(session, event).is_some() {
            return false;
        }
        if has_changed(session, event) {
            return true;
        }
    }
    false
}

fn is_no_sync(durability: Durability) -> bool
    ensures { result ≡ is_no_sync durability }
{
    matches!(durability, Durability::NoSync)
}

// Whether the session's last transaction has changes, and its commit waits for nothing.
fn is_unlogged(before: &[Event], session: u8) -> bool
    ensures { result ≡ is_unlogged before.now session }
{
    is_no_sync(begun_by(before, session)) && changed_by(before, session)
}

// Whether an event that comes after others is the commit of changes.
fn is_commit(before: &[Event], event: &Event) -> bool
    ensures { result ≡ is_commit before.now event.now }
{
    match event {
        Event::Call {
            session,
            call: Call::Commit,
            answer: Answer::Done,
            ..
        } => is_unlogged(before, *session),
        Event::Call { answer, .. } => is_logged(answer),
        Event::Resume { answer, .. } => is_logged(answer),
        _ => false,
    }
}

// A count of commits, with an event that comes after others.
pub fn counted(commits: usize, before: &[Event], event: &Event) -> usize
    requires { commits ≤ length before.now }
    ensures { result ≡ commits + (if is_commit before.now event.now then 1 else 0) }
{
    if is_commit(before, event) {
        commits + 1
    } else {
        commits
    }
}

// How many commits of changes there are.
pub fn commits_of(events: &[Event]) -> usize
    ensures { result ≡ commits_in [] events.now }
{
    let mut commits = 0;
    for at in 0..events.len() {
        commits = counted(commits, &events[..at], &events[at]);
    }
    commits
}
