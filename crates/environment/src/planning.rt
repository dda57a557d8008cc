// What a call on records comes to for a transaction, and what it needs.
ghost use Rattle.std.specs.Prelude.{◌≡◌, None, IfOk};
ghost use Rattle.std.specs.Option.{option_copied};
ghost use Rattle.je_answers.specs.declared.active.Active.{Active as Transaction};
ghost use Rattle.je_answers.specs.Standing.{Standing};
ghost use Rattle.je_answers.specs.Views.{Target};
ghost use Rattle.standing_laws.specs.Right.{AreSound};
ghost use Rattle.txn_views.specs.Targets.{IsOutcomeIn};
ghost use Rattle.environment.specs.Access.{IsOnDb, IsPlannedFor};
ghost use Rattle.environment.specs.Valid.{KnowsDatabases};
ghost use Rattle.environment.specs.Writing.{IsValidAt};

use crate::beside::{others_of, target_at};
use crate::call_plan::CallPlan;
use crate::environment::Environment;
use db_catalog::FoundDb;
use je_disk::Disk;
use je_order::{Name, TxnId, Word};
use std::alloc::{AllocError, Global};
use store_model::{Call, Isolation};
use txn_views::{OutcomePlan, plan_outcome, plan_target};

impl<D: Disk> Environment<D> {
    // What a call comes to for a transaction at a level, on a database that was found under a name and from where its cursor
    // stands, and the locks that it needs.
    pub(crate) fn plan(
        &self,
        alloc: Global,
        txn: TxnId,
        level: Isolation,
        db: &Word,
        found: FoundDb,
        call: &Call,
        at: Option<&Name>,
    ) -> Result<CallPlan, AllocError>
        requires here { (st : Standing) × (a : Transaction) × (g : Target) × IsValidAt D.meaning self.now st × KnowsDatabases st self.now.engine.kept × AreSound st × IsOnDb st db.now found g × (g.at ≡ option_copied at) × (a.txn ≡ txn) × (a.level ≡ level) }
        ensures { IfOk result (λ p. (st : Standing) (a : Transaction) (g : Target) → IsValidAt D.meaning self.now st → KnowsDatabases st self.now.engine.kept → AreSound st → IsOnDb st db.now found g → g.at ≡ option_copied at.entry → a.txn ≡ txn → a.level ≡ level
            → IsPlannedFor st a call.now g p) }
    {
        self.engine.trees.are_ordered();
        let on = target_at(&self.engine.kept.indexes, found);
        let others = others_of(alloc, &self.engine.kept.names, on.over, on.indexes)?;
        match plan_target(&self.engine.trees, alloc, txn, level, on, call, at) {
            Ok(target) => Ok(CallPlan { target, others }),
            Err(error) => Err(error),
        }
    }

    // The same for a call without a cursor, and without its locks.
    pub(crate) fn plan_outcome(
        &self,
        alloc: Global,
        txn: TxnId,
        level: Isolation,
        db: &Word,
        found: FoundDb,
        call: &Call,
    ) -> Result<OutcomePlan, AllocError>
        requires here { (st : Standing) × (a : Transaction) × (g : Target) × IsValidAt D.meaning self.now st × KnowsDatabases st self.now.engine.kept × AreSound st × IsOnDb st db.now found g × (g.at ≡ None) × (a.txn ≡ txn) × (a.level ≡ level) }
        ensures { IfOk result (λ p. (st : Standing) (a : Transaction) (g : Target) → IsValidAt D.meaning self.now st → KnowsDatabases st self.now.engine.kept → AreSound st → IsOnDb st db.now found g → g.at ≡ None → a.txn ≡ txn → a.level ≡ level
            → IsOutcomeIn st a call.now g p) }
    {
        self.engine.trees.are_ordered();
        let on = target_at(&self.engine.kept.indexes, found);
        match plan_outcome(&self.engine.trees, alloc, txn, level, on, call) {
            Ok(planned) => Ok(planned),
            Err(error) => Err(error),
        }
    }
}
