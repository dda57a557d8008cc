// A call on records, among transactions.
ghost use Rattle.std.specs.Prelude.{◌≡◌, true, None, Some, ℕ, IfOk, OnErr, Ok, is_some};
ghost use Rattle.je_answers.specs.Standing.{Standing, active_of};
ghost use Rattle.je_answers.specs.Refusals.{early_refusal, late_refusal, number_refusal};
ghost use Rattle.je_answers.specs.After.{drawn_by};
ghost use Rattle.je_answers.specs.Views.{Target};
ghost use Rattle.log_buffer.specs.Buffer.{IsUnchanged};
ghost use Rattle.engine.proofs.CalmAnswers.{IsCalm};
ghost use Rattle.engine.specs.Limits.{IsWithin};
ghost use Rattle.standing_laws.specs.Right.{AreSound};
ghost use Rattle.environment.specs.Access.{IsFoundFor, IsLate, index_refuses, refuses_in};
ghost use Rattle.index_map.specs.Made.{Made};
ghost use Rattle.index_map.specs.Map.{HasIndexes};
ghost use Rattle.environment.specs.Calls.{HasCause, IsOnRecords};
ghost use Rattle.environment.specs.Steps.{ComesTo, HasCome, MayCall, Performs, StandsAt};
ghost use Rattle.environment.specs.Whole.{CanGoOn, disk_of, reach_of};

use crate::calling::told;
use crate::environment::Environment;
use crate::late::Late;
use crate::outcome::Outcome;
use cursor_je::refusal;
use db_catalog::FoundDb;
use je_disk::Disk;
use je_order::Word;
use std::alloc::{AllocError, Global};
use store_model::{Answer, Call, LAST_TXN};
use txn_core::find;

// What an index refuses of a call.
fn index_refusal(call: &Call, is_index: bool) -> Option<Answer>
    ensures { result ≡ index_refuses call.now is_index }
{
    if !is_index {
        return None;
    }
    match call {
        Call::Put { .. } | Call::CPutCur { .. } | Call::CPut { .. } => Some(Answer::ReadOnlyIndex),
        _ => None,
    }
}

impl<D: Disk> Environment<D> {
    // Makes a call on the records of the database of that name, in the session's transaction or one of its own.
    pub(crate) fn access(
        &mut self,
        alloc: Global,
        session: u8,
        line: u32,
        db: &Word,
        call: &Call,
        resumed: bool,
    ) -> Result<Outcome, AllocError>
        requires here { (most : ℕ) × (st : Standing) × StandsAt most D.meaning self.old st × AreSound st × (early_refusal st session call.now ≡ None) × MayCall st session resumed }
        requires bounds { CanGoOn self.old }
        requires call { IsOnRecords db.now call.now }
        requires valid { self.old.engine.kept.fault ≡ None }
        ensures performs { Performs D.meaning self.old self.new session line call.now resumed result }
    {
        match self.late(alloc, session, db, call)? {
            Late::Refused(answer) => Ok(self.refuse(alloc, session, line, call, answer)),
            Late::Found(found) => self.access_found(alloc, session, line, db, found, call),
        }
    }

    // Whether a session has no transaction, and no number is left for one.
    pub(crate) fn lacks_number(&self, session: u8) -> bool
        ensures { (most : ℕ) (st : Standing) → StandsAt most D.meaning self.now st → result ≡ is_some (number_refusal st.last_txn (active_of session st.actives)) }
    {
        if self.sessions.of_session(session).is_some() {
            return false;
        }
        LAST_TXN <= self.engine.kept.last_txn
    }

    // What refuses a call on records late, or its database.
    fn late(&self, alloc: Global, session: u8, db: &Word, call: &Call) -> Result<Late, AllocError>
        requires here { (most : ℕ) × (st : Standing) × StandsAt most D.meaning self.now st }
        requires call { IsOnRecords db.now call.now }
        requires valid { self.now.engine.kept.fault ≡ None }
        ensures { IfOk result (λ late. (most : ℕ) (st : Standing) → StandsAt most D.meaning self.now st → IsLate st session call.now db.now late) }
    {
        if self.lacks_number(session) {
            return Ok(Late::Refused(Answer::IdsEnded));
        }
        let databases = self.engine.kept.totals.databases;
        let Some(found) = find(&self.engine.trees, alloc, databases, db)? else {
            return Ok(Late::Refused(Answer::NoDatabase));
        };
        match self.refusal_in(found, call) {
            Some(answer) => Ok(Late::Refused(answer)),
            None => Ok(Late::Found(found)),
        }
    }

    // What a database that was found refuses of a call.
    pub(crate) fn refusal_in(&self, found: FoundDb, call: &Call) -> Option<Answer>
        ensures { (made : Made) → HasIndexes made self.now.engine.kept.indexes → result ≡ refuses_in made found call.now }
    {
        let is_index = self.engine.kept.indexes.primary(found.number).is_some();
        if let Some(answer) = index_refusal(call, is_index) {
            return Some(answer);
        }
        refusal(found.kind, call)
    }

    // Answers a call that is refused late; one outside a transaction allocates a number.
    pub(crate) fn refuse(
        &mut self,
        alloc: Global,
        session: u8,
        line: u32,
        call: &Call,
        answer: Answer,
    ) -> Outcome
        requires bounds { CanGoOn self.old }
        requires valid { self.old.engine.kept.fault ≡ None }
        ensures comes { (most : ℕ) (st : Standing) → StandsAt most D.meaning self.old st → AreSound st → late_refusal st session call.now ≡ Some answer → IsCalm answer
            → HasCome D.meaning most self.old self.new st session line call.now result.answer result.victims }
        ensures bounds { CanGoOn self.new }
        ensures disk { disk_of self.new ≡ disk_of self.old }
        ensures answer { result.answer ≡ answer }
    {
        self.draw(session);
        told(alloc, answer)
    }

    // Allocates a number for a call outside a transaction, where one is left.
    pub(crate) fn draw(&mut self, session: u8)
        requires bounds { CanGoOn self.old }
        ensures here { (most : ℕ) (st : Standing) → StandsAt most D.meaning self.old st → StandsAt most D.meaning self.new (drawn_by (active_of session st.actives) st) }
        ensures bounds { CanGoOn self.new }
        ensures log { IsUnchanged self.old.engine.trees.log self.new.engine.trees.log }
        ensures disk { disk_of self.new ≡ disk_of self.old }
        ensures near { IsWithin (reach_of self.new) (reach_of self.old) }
    {
        if self.sessions.of_session(session).is_some() {
            return;
        }
        let last = self.engine.kept.last_txn;
        if last < LAST_TXN {
            self.engine.kept.last_txn = last + 1;
        }
    }

    // Makes a call on a database that was found.
    fn access_found(
        &mut self,
        alloc: Global,
        session: u8,
        line: u32,
        db: &Word,
        found: FoundDb,
        call: &Call,
    ) -> Result<Outcome, AllocError>
        requires here { (most : ℕ) × (st : Standing) × (g : Target) × StandsAt most D.meaning self.old st × AreSound st × (early_refusal st session call.now ≡ None) × IsFoundFor st session call.now db.now found None g × MayCall st session true }
        requires bounds { CanGoOn self.old }
        requires call { IsOnRecords db.now call.now }
        requires valid { self.old.engine.kept.fault ≡ None }
        ensures comes { (most : ℕ) (st : Standing) (g : Target) → StandsAt most D.meaning self.old st → AreSound st → early_refusal st session call.now ≡ None → MayCall st session true
            → IsFoundFor st session call.now db.now found None g → ComesTo D.meaning most self.old self.new st session line call.now result }
        ensures near { OnErr result (IsWithin (reach_of self.new) (reach_of self.old)) }
        ensures bounds { CanGoOn self.new }
        ensures cause { HasCause (D.meaning.faults (disk_of self.old)) (D.meaning.faults (disk_of self.new)) result }
    {
        match self.sessions.of_session(session) {
            Some(active) => {
                let (txn, level) = (active.txn, active.level);
                if active.is_auto {
                    return self.access_again(
                        alloc, session, txn, level, line, db, found, call, None,
                    );
                }
                self.access_own(alloc, session, txn, level, line, db, found, call, None)
            }
            None => self.access_auto(alloc, session, line, db, found, call),
        }
    }
}
