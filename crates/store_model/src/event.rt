// An event of the journal.
use crate::{Answer, Call, Step, Victim};
use je_order::List;

/// One event since opening, in the order in which events took place.
#[derive(Drop)]
pub enum Event {
    /// A session's call, given by a line of the script (from 1), with its answer and the calls that it
    /// answers with a deadlock.
    Call {
        session: u8,
        line: u32,
        call: Call,
        answer: Answer,
        victims: List<Victim>,
    },
    /// A call that waited is given again, and answered or waits again.
    Resume {
        session: u8,
        line: u32,
        answer: Answer,
        victims: List<Victim>,
    },
    /// A session ends: a waiting call is withdrawn, and its transaction aborted.
    End {
        session: u8,
    },
    /// The log is written out to its files.
    WriteOut {
        answer: Answer,
    },
    /// A sync begins: it covers each commit logged before it. It fails where the log could not be
    /// written out to its files.
    SyncBegin {
        answer: Answer,
    },
    /// The sync ends.
    SyncEnd {
        answer: Answer,
    },
    /// A step of maintenance, given by a line of the script.
    Turn {
        line: u32,
        step: Step,
        answer: Answer,
    },
}
