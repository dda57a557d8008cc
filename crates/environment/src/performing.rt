// What a call that nothing refuses early comes to.
ghost use Rattle.std.specs.Prelude.{◌≡◌, ℕ, None, OnErr};
ghost use Rattle.je_answers.specs.Standing.{Standing};
ghost use Rattle.je_answers.specs.Refusals.{early_refusal};
ghost use Rattle.engine.specs.Limits.{IsWithin};
ghost use Rattle.standing_laws.specs.Right.{AreSound};
ghost use Rattle.environment.specs.Calls.{HasCause};
ghost use Rattle.environment.specs.Steps.{ComesTo, IsOnly, MayCall, Performs, StandsAt};
ghost use Rattle.environment.specs.Whole.{CanGoOn, disk_of, reach_of};

use crate::calling::told;
use crate::environment::Environment;
use crate::outcome::Outcome;
use je_disk::Disk;
use std::alloc::{AllocError, Global};
use store_model::{Answer, Call};

// An answer alone, or none.
fn only(alloc: Global, answered: Result<Answer, AllocError>) -> Result<Outcome, AllocError>
    ensures { IsOnly answered result }
{
    match answered {
        Ok(answer) => Ok(told(alloc, answer)),
        Err(error) => Err(error),
    }
}

impl<D: Disk> Environment<D> {
    // Makes a call that nothing refuses early; `resumed` says whether it had waited.
    pub(crate) fn perform(
        &mut self,
        alloc: Global,
        session: u8,
        line: u32,
        call: &Call,
        resumed: bool,
    ) -> Result<Outcome, AllocError>
        requires here { (most : ℕ) × (st : Standing) × StandsAt most D.meaning self.old st × AreSound st × (early_refusal st session call.now ≡ None) × MayCall st session resumed }
        requires bounds { CanGoOn self.old }
        requires valid { self.old.engine.kept.fault ≡ None }
        ensures comes { (most : ℕ) (st : Standing) → StandsAt most D.meaning self.old st → AreSound st → early_refusal st session call.now ≡ None → MayCall st session resumed
            → ComesTo D.meaning most self.old self.new st session line call.now result }
        ensures near { OnErr result (IsWithin (reach_of self.new) (reach_of self.old)) }
        ensures bounds { CanGoOn self.new }
        ensures cause { HasCause (D.meaning.faults (disk_of self.old)) (D.meaning.faults (disk_of self.new)) result }
    {
        self.make(alloc, session, line, call, resumed)
    }

    // Makes a call by its kind.
    fn make(
        &mut self,
        alloc: Global,
        session: u8,
        line: u32,
        call: &Call,
        resumed: bool,
    ) -> Result<Outcome, AllocError>
        requires here { (most : ℕ) × (st : Standing) × StandsAt most D.meaning self.old st × AreSound st × (early_refusal st session call.now ≡ None) × MayCall st session resumed }
        requires bounds { CanGoOn self.old }
        requires valid { self.old.engine.kept.fault ≡ None }
        ensures performs { Performs D.meaning self.old self.new session line call.now resumed result }
    {
        match call {
            Call::Begin {
                level,
                durability,
                wait,
            } => only(alloc, self.begin(session, *level, *durability, *wait)),
            Call::Commit => only(alloc, self.commit(session)),
            Call::Abort => only(alloc, self.abort(session)),
            Call::List => only(alloc, self.list(alloc, session)),
            Call::Create { .. }
            | Call::CreateIndex { .. }
            | Call::Remove { .. }
            | Call::Rename { .. }
            | Call::Truncate { .. } => { only(alloc, self.change_catalog(alloc, session, call)) }
            Call::Get { db, .. } => self.access(alloc, session, line, db, call, resumed),
            Call::GetBoth { db, .. } => self.access(alloc, session, line, db, call, resumed),
            Call::Put { db, .. } => self.access(alloc, session, line, db, call, resumed),
            Call::Delete { db, .. } => self.access(alloc, session, line, db, call, resumed),
            Call::Open { cursor, db } => only(alloc, self.open_cursor(alloc, session, *cursor, db)),
            Call::Close { cursor } => only(alloc, Ok(self.close_cursor(session, *cursor))),
            Call::Dup { cursor, to } => only(alloc, self.duplicate_cursor(session, *cursor, *to)),
            Call::Count { cursor } => {
                self.access_cursor(alloc, session, line, *cursor, call, resumed)
            }
            Call::Cur { cursor, .. } => {
                self.access_cursor(alloc, session, line, *cursor, call, resumed)
            }
            Call::CPutCur { cursor, .. } => {
                self.access_cursor(alloc, session, line, *cursor, call, resumed)
            }
            Call::CDel { cursor } => {
                self.access_cursor(alloc, session, line, *cursor, call, resumed)
            }
            Call::CPut { cursor, .. } => {
                self.access_cursor(alloc, session, line, *cursor, call, resumed)
            }
        }
    }
}
