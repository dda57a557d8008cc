// A call among transactions.
ghost use Rattle.std.specs.Prelude.{◌≡◌, [], ℕ, List, None, Some, Ok, OnErr};
ghost use Rattle.je_disk.specs.Moments.{now};
ghost use Rattle.je_answers.specs.Standing.{Standing};
ghost use Rattle.je_answers.specs.Refusals.{early_refusal};
ghost use Rattle.engine.specs.Limits.{IsWithin};
ghost use Rattle.environment.specs.Calls.{HasCause};
ghost use Rattle.environment.specs.Answering.{AnswersCall};
ghost use Rattle.environment.specs.Steps.{CallsTo};
ghost use Rattle.environment.specs.Whole.{CanGoOn, IsAt, disk_of, reach_of};

use crate::environment::Environment;
use crate::outcome::Outcome;
use je_disk::Disk;
use je_order::List;
use std::alloc::{AllocError, Global};
use store_model::{Answer, Call, Fault};

// An answer alone.
pub(crate) fn told(alloc: Global, answer: Answer) -> Outcome
    ensures answer { result.answer ≡ answer }
    ensures victims { result.victims ≡ [] }
{
    Outcome {
        answer,
        victims: List::new(alloc),
    }
}

impl<D: Disk> Environment<D> {
    // Answers a call.
    pub(crate) fn answer(
        &mut self,
        alloc: Global,
        session: u8,
        line: u32,
        call: &Call,
    ) -> Result<Outcome, AllocError>
        requires here { (most : ℕ) × (st : Standing) × IsAt most D.meaning.observable (now (D.meaning.history (disk_of self.old))) self.old st }
        requires bounds { CanGoOn self.old }
        ensures answers { AnswersCall D.meaning self.old self.new session line call.now result }
        ensures bounds { CanGoOn self.new }
        ensures cause { HasCause (D.meaning.faults (disk_of self.old)) (D.meaning.faults (disk_of self.new)) result }
    {
        if let Some(first) = self.engine.kept.fault {
            return Ok(self.answer_invalid(alloc, session, line, call, first));
        }
        self.answer_among(alloc, session, line, call)
    }

    // Answers a call after a fault.
    fn answer_invalid(
        &self,
        alloc: Global,
        session: u8,
        line: u32,
        call: &Call,
        first: Fault,
    ) -> Outcome
        requires fault { self.now.engine.kept.fault ≡ Some first }
        ensures answers { AnswersCall D.meaning self.now self.now session line call.now (Ok result) }
        ensures answer { result.answer ≡ Answer.Invalid first }
    {
        told(alloc, Answer::Invalid { first })
    }

    // Answers a call of a valid environment.
    fn answer_among(
        &mut self,
        alloc: Global,
        session: u8,
        line: u32,
        call: &Call,
    ) -> Result<Outcome, AllocError>
        requires here { (most : ℕ) × (st : Standing) × IsAt most D.meaning.observable (now (D.meaning.history (disk_of self.old))) self.old st }
        requires bounds { CanGoOn self.old }
        requires valid { self.old.engine.kept.fault ≡ None }
        ensures answers { AnswersCall D.meaning self.old self.new session line call.now result }
        ensures bounds { CanGoOn self.new }
        ensures cause { HasCause (D.meaning.faults (disk_of self.old)) (D.meaning.faults (disk_of self.new)) result }
    {
        self.call_among(alloc, session, line, call)
    }

    // Makes a call of a valid environment, unless it is refused early.
    fn call_among(
        &mut self,
        alloc: Global,
        session: u8,
        line: u32,
        call: &Call,
    ) -> Result<Outcome, AllocError>
        requires here { (most : ℕ) × (st : Standing) × IsAt most D.meaning.observable (now (D.meaning.history (disk_of self.old))) self.old st }
        requires bounds { CanGoOn self.old }
        requires valid { self.old.engine.kept.fault ≡ None }
        ensures comes { (most : ℕ) (st : Standing) → IsAt most D.meaning.observable (now (D.meaning.history (disk_of self.old))) self.old st
            → CallsTo D.meaning most self.old self.new st session line call.now result }
        ensures near { OnErr result (IsWithin (reach_of self.new) (reach_of self.old)) }
        ensures bounds { CanGoOn self.new }
        ensures cause { HasCause (D.meaning.faults (disk_of self.old)) (D.meaning.faults (disk_of self.new)) result }
    {
        if let Some(refusal) = self.sessions.early_refusal(None, session, call)? {
            return Ok(told(alloc, refusal));
        }
        self.perform(alloc, session, line, call, false)
    }
}
