// Cursors that are opened and closed.
ghost use Rattle.std.specs.Prelude.{◌≡◌, ℕ, None, IfOk, IfSome, Ok, OnErr};
ghost use Rattle.je_answers.specs.Standing.{Standing};
ghost use Rattle.je_answers.specs.Refusals.{early_refusal, late_refusal};
ghost use Rattle.engine.specs.Limits.{IsWithin};
ghost use Rattle.engine.specs.Steps.{HasStepCause};
ghost use Rattle.engine.proofs.CalmAnswers.{IsCalm};
ghost use Rattle.standing_laws.specs.Right.{AreSound};
ghost use Rattle.environment.specs.Cursors.{IsToOpen};
ghost use Rattle.environment.specs.Steps.{ComesToAnswer, PerformsAnswer, StandsAt};
ghost use Rattle.environment.specs.Whole.{CanGoOn, disk_of, reach_of};
ghost use Rattle.store_model.specs.declared.call.Call.{Call};
ghost use Rattle.store_model.specs.declared.call.Call.TheVariants.{Open, Close, Dup};

use crate::environment::Environment;
use crate::to_open::ToOpen;
use je_disk::Disk;
use je_order::{Word, copy_of};
use open_cursors::OpenCursor;
use std::alloc::{AllocError, Global};
use store_model::{Answer, Place};
use txn_core::find;

impl<D: Disk> Environment<D> {
    // Opens a cursor of a session's transaction on the database of a name.
    pub(crate) fn open_cursor(
        &mut self,
        alloc: Global,
        session: u8,
        cursor: u8,
        db: &Word,
    ) -> Result<Answer, AllocError>
        requires here { (most : ℕ) × (st : Standing) × StandsAt most D.meaning self.old st × AreSound st × (early_refusal st session (Open cursor db.now) ≡ None) }
        requires bounds { CanGoOn self.old }
        requires valid { self.old.engine.kept.fault ≡ None }
        ensures performs { PerformsAnswer D.meaning self.old self.new session (Open cursor db.now) result }
    {
        let to_open = self.opening_of(alloc, session, cursor, db)?;
        self.open_unless(session, to_open)
    }

    // Opens a session's cursor where another one stands.
    pub(crate) fn duplicate_cursor(
        &mut self,
        session: u8,
        cursor: u8,
        to: u8,
    ) -> Result<Answer, AllocError>
        requires here { (most : ℕ) × (st : Standing) × StandsAt most D.meaning self.old st × AreSound st × (early_refusal st session (Dup cursor to) ≡ None) }
        requires bounds { CanGoOn self.old }
        requires valid { self.old.engine.kept.fault ≡ None }
        ensures performs { PerformsAnswer D.meaning self.old self.new session (Dup cursor to) result }
    {
        let to_open = self.duplicate_of(session, cursor, to)?;
        self.open_unless(session, to_open)
    }

    // Closes a session's cursor.
    pub(crate) fn close_cursor(&mut self, session: u8, cursor: u8) -> Answer
        requires here { (most : ℕ) × (st : Standing) × StandsAt most D.meaning self.old st × AreSound st × (early_refusal st session (Close cursor) ≡ None) }
        requires bounds { CanGoOn self.old }
        requires valid { self.old.engine.kept.fault ≡ None }
        ensures performs { PerformsAnswer D.meaning self.old self.new session (Close cursor) (Ok result) }
    {
        if let Some(refusal) = self.close_refusal(session, cursor) {
            self.draw(session);
            return refusal;
        }
        self.sessions.close_cursor(session, cursor);
        Answer::Done
    }

    // What refuses a cursor on a database, or that cursor.
    fn opening_of(
        &self,
        alloc: Global,
        session: u8,
        cursor: u8,
        db: &Word,
    ) -> Result<ToOpen, AllocError>
        requires here { (most : ℕ) × (st : Standing) × StandsAt most D.meaning self.now st }
        requires valid { self.now.engine.kept.fault ≡ None }
        ensures { IfOk result (λ to_open. (most : ℕ) (st : Standing) → StandsAt most D.meaning self.now st → early_refusal st session (Open cursor db.now) ≡ None → IsToOpen st session (Open cursor db.now) to_open) }
    {
        let databases = self.engine.kept.totals.databases;
        let Some(found) = find(&self.engine.trees, alloc, databases, db)? else {
            return Ok(ToOpen::Refused(Answer::NoDatabase));
        };
        if self.sessions.cursor(session, cursor).is_some() {
            return Ok(ToOpen::Refused(Answer::NameTaken));
        }
        let name = copy_of(db)?;
        Ok(ToOpen::Opens(OpenCursor {
            session,
            place: Place {
                cursor,
                db: found.number,
                at: None,
            },
            name,
            kind: found.kind,
        }))
    }

    // What refuses another cursor where one stands, or that cursor.
    fn duplicate_of(&self, session: u8, cursor: u8, to: u8) -> Result<ToOpen, AllocError>
        ensures { IfOk result (λ to_open. (most : ℕ) (st : Standing) → StandsAt most D.meaning self.now st → IsToOpen st session (Dup cursor to) to_open) }
    {
        if self.lacks_number(session) {
            return Ok(ToOpen::Refused(Answer::IdsEnded));
        }
        let Some(opened) = self.sessions.copied_cursor(session, cursor, to)? else {
            return Ok(ToOpen::Refused(Answer::NoCursor));
        };
        if self.sessions.cursor(session, to).is_some() {
            drop(opened);
            return Ok(ToOpen::Refused(Answer::NameTaken));
        }
        Ok(ToOpen::Opens(opened))
    }

    // What refuses to close a cursor.
    fn close_refusal(&self, session: u8, cursor: u8) -> Option<Answer>
        ensures late { (most : ℕ) (st : Standing) → StandsAt most D.meaning self.now st → result ≡ late_refusal st session (Close cursor) }
        ensures calm { IfSome result IsCalm }
    {
        if self.lacks_number(session) {
            return Some(Answer::IdsEnded);
        }
        match self.sessions.cursor(session, cursor) {
            None => Some(Answer::NoCursor),
            Some(_) => None,
        }
    }

    // Opens the cursor that a call opens, unless it is refused.
    fn open_unless(&mut self, session: u8, to_open: ToOpen) -> Result<Answer, AllocError>
        requires here { (call : Call) × (most : ℕ) × (st : Standing) × StandsAt most D.meaning self.old st × IsToOpen st session call to_open }
        requires bounds { CanGoOn self.old }
        requires valid { self.old.engine.kept.fault ≡ None }
        ensures comes { (call : Call) (most : ℕ) (st : Standing) (line : ℕ) → StandsAt most D.meaning self.old st → IsToOpen st session call to_open
            → ComesToAnswer D.meaning most self.old self.new st session line call result }
        ensures near { OnErr result (IsWithin (reach_of self.new) (reach_of self.old)) }
        ensures bounds { CanGoOn self.new }
        ensures cause { HasStepCause (D.meaning.faults (disk_of self.old)) (D.meaning.faults (disk_of self.new)) result }
    {
        match to_open {
            ToOpen::Refused(refusal) => {
                self.draw(session);
                Ok(refusal)
            }
            ToOpen::Opens(opened) => match self.sessions.open_cursor(opened) {
                Ok(()) => Ok(Answer::Done),
                Err(error) => Err(error),
            },
        }
    }
}
