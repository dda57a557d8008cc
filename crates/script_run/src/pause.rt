// When a run gives no further line.
ghost use Rattle.std.specs.Prelude.{◌≡◌};
ghost use Rattle.std.specs.List.{list_any};
ghost use Rattle.load_laws.specs.Given.{is_refusal, is_refused};
ghost use Rattle.script_run.specs.Pauses.{pauses};

use store_model::{Answer, Event};

/// Where a run gives no further line, though there are more.
#[derive(Clone, Copy, Debug, PartialEq, Eq)]
pub enum Pause {
    /// Nowhere: all lines are given.
    Never,
    /// Behind a call that was refused or waits: one that is answered neither `Done` nor `Logged` nor
    /// `Txn`. With `kept`, a put that finds its record there (`KeyExist`) is none.
    AtRefusal { kept: bool },
}

// Whether a call was refused, or waits.
fn is_refusal(kept: bool, answer: &Answer) -> bool
    ensures { result ≡ is_refusal kept answer.now }
{
    match answer {
        Answer::Done | Answer::Txn { .. } | Answer::Logged { .. } => false,
        Answer::KeyExist => !kept,
        _ => true,
    }
}

/// Whether an event is a call that was refused, or waits.
pub fn is_refused(kept: bool, event: &Event) -> bool
    ensures { result ≡ is_refused kept event.now }
{
    match event {
        Event::Call { answer, .. } => is_refusal(kept, answer),
        _ => false,
    }
}

impl Pause {
    // Whether a run pauses behind an event.
    fn pauses_behind(self, event: &Event) -> bool
        ensures { result ≡ pauses self event.now }
    {
        match self {
            Pause::Never => false,
            Pause::AtRefusal { kept } => is_refused(kept, event),
        }
    }

    // Whether it pauses behind one of these events.
    pub(crate) fn pauses_in(self, events: &[Event]) -> bool
        ensures { result ≡ list_any (pauses self) events.now }
    {
        events.iter().any(|event| self.pauses_behind(event))
    }
}
