// A call on records at a cursor.
ghost use Rattle.std.specs.Prelude.{◌≡◌, None, ℕ, IfOk, IsSome, OnErr, true};
ghost use Rattle.je_answers.specs.Standing.{Standing, active_of};
ghost use Rattle.je_answers.specs.Refusals.{early_refusal};
ghost use Rattle.je_answers.specs.Views.{Target};
ghost use Rattle.engine.specs.Limits.{IsWithin};
ghost use Rattle.standing_laws.specs.Right.{AreSound, MayWait};
ghost use Rattle.environment.specs.Access.{IsFoundFor, IsLateAt};
ghost use Rattle.environment.specs.Calls.{HasCause, IsAtCursor};
ghost use Rattle.environment.specs.Steps.{ComesTo, MayCall, Performs, StandsAt};
ghost use Rattle.environment.specs.Whole.{CanGoOn, disk_of, reach_of};

use crate::environment::Environment;
use crate::late_at::LateAt;
use crate::outcome::Outcome;
use crate::spot::Spot;
use db_catalog::FoundDb;
use je_disk::Disk;
use je_order::{Name, copy_of};
use open_cursors::OpenCursor;
use std::alloc::{AllocError, Global};
use store_model::{Answer, Call};

// A copy of a position.
fn copy_of_position(at: &Option<Name>) -> Result<Option<Name>, AllocError>
    ensures { IfOk result (λ copy. copy ≡ at.now) }
{
    match at {
        None => Ok(None),
        Some(name) => Ok(Some(copy_of(name)?)),
    }
}

// Where a cursor stands.
fn spot_of(opened: &OpenCursor) -> Result<Spot, AllocError>
    ensures { IfOk result (λ spot. spot ≡ record { name = opened.now.name; found = record { number = opened.now.place.db; kind = opened.now.kind }; at = opened.now.place.at }) }
{
    let name = copy_of(&opened.name)?;
    let at = copy_of_position(&opened.place.at)?;
    let found = FoundDb {
        number: opened.place.db,
        kind: opened.kind,
    };
    Ok(Spot { name, found, at })
}

impl<D: Disk> Environment<D> {
    // Makes a call on records at a session's cursor, in the session's transaction.
    pub(crate) fn access_cursor(
        &mut self,
        alloc: Global,
        session: u8,
        line: u32,
        cursor: u8,
        call: &Call,
        resumed: bool,
    ) -> Result<Outcome, AllocError>
        requires here { (most : ℕ) × (st : Standing) × StandsAt most D.meaning self.old st × AreSound st × (early_refusal st session call.now ≡ None) × MayCall st session resumed }
        requires bounds { CanGoOn self.old }
        requires call { IsAtCursor cursor call.now }
        requires valid { self.old.engine.kept.fault ≡ None }
        ensures performs { Performs D.meaning self.old self.new session line call.now resumed result }
    {
        match self.late_at(session, cursor, call)? {
            LateAt::Refused(answer) => Ok(self.refuse(alloc, session, line, call, answer)),
            LateAt::Stands(spot) => self.access_spot(alloc, session, line, spot, call),
        }
    }

    // What refuses a call at a cursor late, or where the cursor stands. Outside a transaction no cursor is open.
    fn late_at(&self, session: u8, cursor: u8, call: &Call) -> Result<LateAt, AllocError>
        requires here { (most : ℕ) × (st : Standing) × StandsAt most D.meaning self.now st × AreSound st }
        requires call { IsAtCursor cursor call.now }
        requires valid { self.now.engine.kept.fault ≡ None }
        ensures { IfOk result (λ late. (most : ℕ) (st : Standing) → StandsAt most D.meaning self.now st → AreSound st → IsLateAt st session call.now late) }
    {
        if self.lacks_number(session) {
            return Ok(LateAt::Refused(Answer::IdsEnded));
        }
        match self.sessions.cursor(session, cursor) {
            None => Ok(LateAt::Refused(Answer::NoCursor)),
            Some(opened) => {
                let found = FoundDb {
                    number: opened.place.db,
                    kind: opened.kind,
                };
                match self.refusal_in(found, call) {
                    Some(answer) => Ok(LateAt::Refused(answer)),
                    None => Ok(LateAt::Stands(spot_of(opened)?)),
                }
            }
        }
    }

    // Makes a call from where its cursor stands.
    fn access_spot(
        &mut self,
        alloc: Global,
        session: u8,
        line: u32,
        spot: Spot,
        call: &Call,
    ) -> Result<Outcome, AllocError>
        requires here { (most : ℕ) × (st : Standing) × (g : Target) × StandsAt most D.meaning self.old st × AreSound st × (early_refusal st session call.now ≡ None) × IsFoundFor st session call.now spot.name spot.found spot.at g × MayCall st session true × IsSome (active_of session st.actives) }
        requires bounds { CanGoOn self.old }
        requires call { MayWait call.now }
        requires valid { self.old.engine.kept.fault ≡ None }
        ensures comes { (most : ℕ) (st : Standing) (g : Target) → StandsAt most D.meaning self.old st → AreSound st → early_refusal st session call.now ≡ None → MayCall st session true
            → IsFoundFor st session call.now spot.name spot.found spot.at g → ComesTo D.meaning most self.old self.new st session line call.now result }
        ensures near { OnErr result (IsWithin (reach_of self.new) (reach_of self.old)) }
        ensures bounds { CanGoOn self.new }
        ensures cause { HasCause (D.meaning.faults (disk_of self.old)) (D.meaning.faults (disk_of self.new)) result }
    {
        let Spot { name, found, at } = spot;
        match self.sessions.of_session(session) {
            Some(active) => {
                let (txn, level) = (active.txn, active.level);
                if active.is_auto {
                    return self.access_again(
                        alloc,
                        session,
                        txn,
                        level,
                        line,
                        &name,
                        found,
                        call,
                        at.as_ref(),
                    );
                }
                self.access_own(
                    alloc,
                    session,
                    txn,
                    level,
                    line,
                    &name,
                    found,
                    call,
                    at.as_ref(),
                )
            }
            None => unreachable!(),
        }
    }
}
