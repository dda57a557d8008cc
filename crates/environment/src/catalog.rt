// A change of the catalog.
ghost use Rattle.std.specs.Prelude.{◌≡◌, ◌≤◌, ◌<◌, None, ℕ, Option, IfOk, Some};
ghost use Rattle.log_replay.specs.Logging.{number_named};
ghost use Rattle.in_tree.specs.Observed.{cells_of};
ghost use Rattle.txn_core.specs.Known.{committed, known_of};
ghost use Rattle.txn_core.specs.Planning.{HasModel, IsPlanned};
ghost use Rattle.txn_core.specs.declared.planned.Planned.TheVariants.{Answered};
ghost use Rattle.je_answers.specs.Alone.{Alone};
ghost use Rattle.je_answers.specs.Standing.{Standing};
ghost use Rattle.je_answers.specs.Refusals.{early_refusal};
ghost use Rattle.standing_laws.specs.Right.{AreSound};
ghost use Rattle.environment.specs.Steps.{PerformsAnswer, StandsAt};
ghost use Rattle.environment.specs.Whole.{CanGoOn};
ghost use Rattle.environment.specs.Calls.{ChangesCatalog};
ghost use Rattle.environment.specs.Catalog.{IsFreeToChange, IsUserBefore, IsPlannedAs, IsUserOf, changed_number};
ghost use Rattle.store_model.specs.declared.store.TheConstants.{LAST_DATABASE as last_database, LAST_TXN as last_number};

use crate::catalog_log::log_catalog;
use crate::environment::Environment;
use crate::holding::{hold, settle, was_logged};
use je_disk::Disk;
use je_order::TxnId;
use record_tree::Records;
use std::alloc::{AllocError, Global};
use store_model::{Answer, Call, LAST_TXN};
use txn_core::{Planned, PlannedChanges, number_under, plan};

impl<D: Disk> Environment<D> {
    // Makes, removes, renames or empties a database, or makes an index.
    pub(crate) fn change_catalog(
        &mut self,
        alloc: Global,
        session: u8,
        call: &Call,
    ) -> Result<Answer, AllocError>
        requires here { (most : ℕ) × (st : Standing) × StandsAt most D.meaning self.old st × AreSound st × (early_refusal st session (call.now) ≡ None) }
        requires bounds { CanGoOn self.old }
        requires call { ChangesCatalog call.now }
        requires valid { self.old.engine.kept.fault ≡ None }
        ensures performs { PerformsAnswer D.meaning self.old self.new session (call.now) result }
    {
        if LAST_TXN <= self.engine.kept.last_txn {
            return Ok(Answer::IdsEnded);
        }
        match plan(
            &self.engine.trees,
            alloc,
            self.engine.kept.totals,
            self.engine.kept.last_db,
            call,
        ) {
            Ok(planned) => self.change_planned(alloc, session, call, planned),
            Err(error) => Err(error),
        }
    }

    // The same by what was planned for it.
    fn change_planned(
        &mut self,
        alloc: Global,
        session: u8,
        call: &Call,
        planned: Planned,
    ) -> Result<Answer, AllocError>
        requires here { (most : ℕ) × (st : Standing) × StandsAt most D.meaning self.old st × AreSound st × (early_refusal st session (call.now) ≡ None) }
        requires bounds { CanGoOn self.old }
        requires call { ChangesCatalog call.now }
        requires valid { self.old.engine.kept.fault ≡ None }
        requires below { self.old.engine.kept.last_txn < last_number }
        requires few { self.old.engine.kept.last_db ≤ last_database }
        requires plan { (p : Alone) (s : ℕ) → HasModel (known_of (cells_of self.old.engine.trees) self.old.engine.kept.totals self.old.engine.kept.last_db) p
            → IsPlanned (known_of (cells_of self.old.engine.trees) self.old.engine.kept.totals self.old.engine.kept.last_db) p s call.now planned }
        ensures performs { PerformsAnswer D.meaning self.old self.new session (call.now) result }
    {
        match planned {
            Planned::Answered(answer) => self.answer_planned(alloc, session, call, answer),
            Planned::Logs(changes) => {
                self.change_unless_used(alloc, session, call, changes, false)
            }
            Planned::Fills(changes) => {
                self.change_unless_used(alloc, session, call, changes, true)
            }
        }
    }

    // Answers a call that changes nothing. An index is not emptied, yet while somebody uses it, this is told first.
    fn answer_planned(
        &mut self,
        alloc: Global,
        session: u8,
        call: &Call,
        answer: Answer,
    ) -> Result<Answer, AllocError>
        requires here { (most : ℕ) × (st : Standing) × StandsAt most D.meaning self.old st × AreSound st × (early_refusal st session (call.now) ≡ None) }
        requires bounds { CanGoOn self.old }
        requires call { ChangesCatalog call.now }
        requires valid { self.old.engine.kept.fault ≡ None }
        requires below { self.old.engine.kept.last_txn < last_number }
        requires plan { (p : Alone) (s : ℕ) → HasModel (known_of (cells_of self.old.engine.trees) self.old.engine.kept.totals self.old.engine.kept.last_db) p
            → IsPlanned (known_of (cells_of self.old.engine.trees) self.old.engine.kept.totals self.old.engine.kept.last_db) p s call.now (Answered answer) }
        ensures performs { PerformsAnswer D.meaning self.old self.new session (call.now) result }
    {
        match self.user_before(alloc, call, &answer) {
            Ok(Some(txn)) => {
                drop(answer);
                self.engine.kept.last_txn += 1;
                Ok(Answer::DatabaseInUse { txn })
            }
            Ok(None) => {
                self.engine.kept.last_txn += 1;
                Ok(answer)
            }
            Err(error) => {
                drop(answer);
                Err(error)
            }
        }
    }

    // Who uses the database of a call that changes nothing, if this is told first.
    fn user_before(
        &self,
        alloc: Global,
        call: &Call,
        answer: &Answer,
    ) -> Result<Option<TxnId>, AllocError>
        requires call { ChangesCatalog call.now }
        requires valid { self.now.engine.kept.fault ≡ None }
        ensures { (most : ℕ) (st : Standing) → StandsAt most D.meaning self.now st → AreSound st → IfOk result (IsUserBefore st call.now answer.now) }
    {
        match answer {
            Answer::ReadOnlyIndex => self.user(alloc, call),
            _ => Ok(None),
        }
    }

    // Where the database is used, this is the answer; else the changes are logged.
    fn change_unless_used(
        &mut self,
        alloc: Global,
        session: u8,
        call: &Call,
        changes: PlannedChanges,
        fills: bool,
    ) -> Result<Answer, AllocError>
        requires here { (most : ℕ) × (st : Standing) × StandsAt most D.meaning self.old st × AreSound st × (early_refusal st session (call.now) ≡ None) }
        requires bounds { CanGoOn self.old }
        requires call { ChangesCatalog call.now }
        requires valid { self.old.engine.kept.fault ≡ None }
        requires below { self.old.engine.kept.last_txn < last_number }
        requires few { self.old.engine.kept.last_db ≤ last_database }
        requires plan { (p : Alone) (s : ℕ) → HasModel (known_of (cells_of self.old.engine.trees) self.old.engine.kept.totals self.old.engine.kept.last_db) p
            → IsPlannedAs (known_of (cells_of self.old.engine.trees) self.old.engine.kept.totals self.old.engine.kept.last_db) p s call.now fills changes }
        ensures performs { PerformsAnswer D.meaning self.old self.new session (call.now) result }
    {
        match self.user(alloc, call) {
            Ok(user) => self.change_by_user(alloc, session, call, changes, fills, user),
            Err(error) => Err(error),
        }
    }

    // The same by who uses the database.
    fn change_by_user(
        &mut self,
        alloc: Global,
        session: u8,
        call: &Call,
        changes: PlannedChanges,
        fills: bool,
        user: Option<TxnId>,
    ) -> Result<Answer, AllocError>
        requires here { (most : ℕ) × (st : Standing) × StandsAt most D.meaning self.old st × AreSound st × (early_refusal st session (call.now) ≡ None) }
        requires bounds { CanGoOn self.old }
        requires call { ChangesCatalog call.now }
        requires valid { self.old.engine.kept.fault ≡ None }
        requires below { self.old.engine.kept.last_txn < last_number }
        requires few { self.old.engine.kept.last_db ≤ last_database }
        requires plan { (p : Alone) (s : ℕ) → HasModel (known_of (cells_of self.old.engine.trees) self.old.engine.kept.totals self.old.engine.kept.last_db) p
            → IsPlannedAs (known_of (cells_of self.old.engine.trees) self.old.engine.kept.totals self.old.engine.kept.last_db) p s call.now fills changes }
        requires user { (most : ℕ) (st : Standing) → StandsAt most D.meaning self.old st → AreSound st → IsUserOf st call.now user }
        ensures performs { PerformsAnswer D.meaning self.old self.new session (call.now) result }
    {
        match user {
            Some(txn) => {
                self.engine.kept.last_txn += 1;
                Ok(Answer::DatabaseInUse { txn })
            }
            None => self.log_change(alloc, session, call, changes, fills),
        }
    }

    // Logs the changes, with room for the Commits that sessions owe. What is known of databases follows them; the memory for that is
    // taken before.
    fn log_change(
        &mut self,
        alloc: Global,
        session: u8,
        call: &Call,
        changes: PlannedChanges,
        fills: bool,
    ) -> Result<Answer, AllocError>
        requires here { (most : ℕ) × (st : Standing) × StandsAt most D.meaning self.old st × AreSound st × (early_refusal st session (call.now) ≡ None) }
        requires bounds { CanGoOn self.old }
        requires call { ChangesCatalog call.now }
        requires valid { self.old.engine.kept.fault ≡ None }
        requires below { self.old.engine.kept.last_txn < last_number }
        requires few { self.old.engine.kept.last_db ≤ last_database }
        requires plan { (p : Alone) (s : ℕ) → HasModel (known_of (cells_of self.old.engine.trees) self.old.engine.kept.totals self.old.engine.kept.last_db) p
            → IsPlannedAs (known_of (cells_of self.old.engine.trees) self.old.engine.kept.totals self.old.engine.kept.last_db) p s call.now fills changes }
        requires free { (most : ℕ) (st : Standing) → StandsAt most D.meaning self.old st → AreSound st → IsFreeToChange st call.now }
        ensures performs { PerformsAnswer D.meaning self.old self.new session (call.now) result }
    {
        let owing = self.sessions.owing();
        if u32::MAX as usize <= owing {
            return Err(AllocError);
        }
        let number = self.changed_number(alloc, call)?;
        let last_db = self.engine.kept.last_db;
        let kept = &mut self.engine.kept;
        let held = hold(
            alloc,
            &mut kept.names,
            &mut kept.indexes,
            last_db,
            call,
            number,
        )?;
        self.engine.trees.are_ordered();
        let logged = log_catalog(&mut self.engine, alloc, changes, fills, owing as u32 + 1);
        let done = was_logged(&logged);
        let kept = &mut self.engine.kept;
        settle(&mut kept.names, &mut kept.indexes, held, done);
        logged
    }

    // Who uses the database that a change of the catalog is of.
    fn user(&self, alloc: Global, call: &Call) -> Result<Option<TxnId>, AllocError>
        requires call { ChangesCatalog call.now }
        requires valid { self.now.engine.kept.fault ≡ None }
        ensures { (most : ℕ) (st : Standing) → StandsAt most D.meaning self.now st → AreSound st → IfOk result (IsUserOf st call.now) }
    {
        let number = self.changed_number(alloc, call)?;
        match number {
            Some(number) => Ok(self.sessions.user_of(number)),
            None => Ok(None),
        }
    }

    // The number of the database that a change of the catalog is of, or makes an index of; none where it makes another one.
    fn changed_number(&self, alloc: Global, call: &Call) -> Result<Option<u32>, AllocError>
        ensures { IfOk result (λ number. number ≡ changed_number (number_named (committed (cells_of self.now.engine.trees))) call.now) }
    {
        match call {
            Call::Remove { db } | Call::Rename { db, .. } | Call::Truncate { db } => {
                let number = number_under(&self.engine.trees, alloc, db)?;
                Ok(Some(number))
            }
            Call::CreateIndex { index, .. } => {
                let number = number_under(&self.engine.trees, alloc, &index.primary)?;
                Ok(Some(number))
            }
            _ => Ok(None),
        }
    }
}
