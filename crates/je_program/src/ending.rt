// How a run ends.
ghost use Rattle.std.specs.Prelude.{◌≡◌, option_map};
ghost use Rattle.store_model.specs.Journal.{answer_of, answers_some, is_disk_fault};
ghost use Rattle.je_answers.specs.Journal.{has_answer};
ghost use Rattle.je_program.specs.Run.{cause_of_answer, cause_of_journal, cause_of_load, cause_of_room, ends_otherwise, first_refused, refused_line};

use crate::cause::Cause;
use script_run::is_refused;
use store_model::{Answer, Event};

// What an event answers, if it answers.
fn answer_in(event: &Event) -> Option<&Answer>
    ensures { option_map (λ answer. answer.now) result ≡ answer_of event.now }
{
    match event {
        Event::Call { answer, .. } => Some(answer),
        Event::Resume { answer, .. } => Some(answer),
        Event::End { session: _ } => None,
        Event::WriteOut { answer } => Some(answer),
        Event::SyncBegin { answer } => Some(answer),
        Event::SyncEnd { answer } => Some(answer),
        Event::Turn { answer, .. } => Some(answer),
    }
}

fn is_fault(event: &Event) -> bool
    ensures { result ≡ answers_some is_disk_fault event.now }
{
    matches!(answer_in(event), Some(Answer::DiskFault))
}

fn has_fault(journal: &[Event]) -> bool
    ensures { result ≡ has_answer is_disk_fault journal.now }
{
    journal.iter().any(|event| is_fault(event))
}

// The cause that the first answer of LogFull or IdsEnded gives.
fn room_cause(journal: &[Event]) -> Cause
    ensures { result ≡ cause_of_room journal.now }
{
    for event in journal {
        match answer_in(event) {
            Some(Answer::LogFull) => return Cause::LogFull,
            Some(Answer::IdsEnded) => return Cause::IdsEnded,
            _ => {}
        }
    }
    Cause::Done
}

fn ends_otherwise(event: &Event) -> bool
    ensures { result ≡ answers_some ends_otherwise event.now }
{
    matches!(
        answer_in(event),
        Some(Answer::DiskFault | Answer::LogFull | Answer::IdsEnded)
    )
}

// Whether the run may end otherwise than well. A long journal is gone over once for that.
fn may_end_otherwise(journal: &[Event]) -> bool
    ensures { result ≡ has_answer ends_otherwise journal.now }
{
    journal.iter().any(|event| ends_otherwise(event))
}

/// How a run with this journal ends, if there was memory for all of it and closing meets no fault. It
/// takes no memory.
pub fn journal_cause(journal: &[Event]) -> Cause
    ensures { result ≡ cause_of_journal journal.now }
{
    if !may_end_otherwise(journal) {
        Cause::Done
    } else if has_fault(journal) {
        Cause::Disk
    } else {
        room_cause(journal)
    }
}

// The line of an event, where that is a call that was refused.
fn refused_line(kept: bool, event: &Event) -> Option<u32>
    ensures { result ≡ refused_line kept event.now }
{
    match event {
        Event::Call { line, .. } => {
            if is_refused(kept, event) {
                Some(*line)
            } else {
                None
            }
        }
        _ => None,
    }
}

// The line of the first call that was refused.
fn first_refused(kept: bool, journal: &[Event]) -> Option<u32>
    ensures { result ≡ first_refused kept journal.now }
{
    for event in journal {
        if let Some(line) = refused_line(kept, event) {
            return Some(line);
        }
    }
    None
}

/// How a load ends whose run ended so: by a call that was refused, if no other cause ended it. It takes no memory.
pub fn load_cause(kept: bool, cause: Cause, journal: &[Event]) -> Cause
    ensures { result ≡ cause_of_load kept cause journal.now }
{
    match cause {
        Cause::Done => match first_refused(kept, journal) {
            Some(line) => Cause::RefusedPair { line },
            None => Cause::Done,
        },
        cause => cause,
    }
}
