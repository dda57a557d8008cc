// A call on records where no transaction is under way.
ghost use Rattle.std.specs.Prelude.{◌≡◌, ℕ, [], IfOk};
ghost use Rattle.store_model.specs.declared.call.Call.{Call as Asked};
ghost use Rattle.je_answers.specs.Standing.{Standing};
ghost use Rattle.je_answers.specs.Views.{Target};
ghost use Rattle.je_answers.specs.Events.{auto_active, begun};
ghost use Rattle.txn_views.specs.Targets.{IsOutcomeIn};
ghost use Rattle.environment.specs.Access.{IsOnDb};
ghost use Rattle.environment.specs.Auto.{IsAutoAt, IsLoggedAuto, IsPlannedAuto, changes_auto};
ghost use Rattle.environment.specs.Changing.{MayMake};
ghost use Rattle.environment.specs.Calls.{HasCause};
ghost use Rattle.environment.specs.Steps.{ComesTo};
ghost use Rattle.environment.specs.Whole.{CanGoOn, disk_of};

use crate::access_auto::is_number;
use crate::calling::told;
use crate::environment::Environment;
use crate::outcome::Outcome;
use db_catalog::FoundDb;
use je_disk::Disk;
use je_order::{TxnId, Word};
use record_tree::Records;
use std::alloc::{AllocError, Global};
use store_model::{Call, Isolation};
use txn_core::{Planned, PlannedChanges};
use txn_views::OutcomePlan;

impl<D: Disk> Environment<D> {
    // Makes a call outside a transaction, where none is under way: it meets no lock, and leaves none, so it takes none.
    pub(crate) fn access_alone(
        &mut self,
        alloc: Global,
        db: &Word,
        found: FoundDb,
        call: &Call,
    ) -> Result<Outcome, AllocError>
        requires here { (most session : ℕ) × (st : Standing) × (g : Target) × IsAutoAt most D.meaning self.old st session call.now g × IsOnDb st db.now found g × (st.actives ≡ []) }
        requires bounds { CanGoOn self.old }
        ensures comes { (most session line : ℕ) (st : Standing) (g : Target) → IsAutoAt most D.meaning self.old st session call.now g → IsOnDb st db.now found g → st.actives ≡ []
            → ComesTo D.meaning most self.old self.new st session line call.now result }
        ensures bounds { CanGoOn self.new }
        ensures cause { HasCause (D.meaning.faults (disk_of self.old)) (D.meaning.faults (disk_of self.new)) result }
    {
        let OutcomePlan { answer, changes } = self.plan_alone(alloc, db, found, call)?;
        let planned = self.log_planned(alloc, answer, changes)?;
        self.run_alone(alloc, planned)
    }

    // What the call comes to.
    fn plan_alone(
        &self,
        alloc: Global,
        db: &Word,
        found: FoundDb,
        call: &Call,
    ) -> Result<OutcomePlan, AllocError>
        requires here { (most session : ℕ) × (st : Standing) × (g : Target) × IsAutoAt most D.meaning self.now st session call.now g × IsOnDb st db.now found g }
        ensures plans { (most session : ℕ) (st : Standing) (g : Target) → IsAutoAt most D.meaning self.now st session call.now g → IsOnDb st db.now found g
            → IfOk result (IsOutcomeIn (begun st session) (auto_active st session) call.now g) }
        ensures may { (most session : ℕ) (st : Standing) (g : Target) → IsAutoAt most D.meaning self.now st session call.now g → IsOnDb st db.now found g
            → MayMake st (changes_auto st session call.now g) }
    {
        let txn = TxnId(self.engine.kept.last_txn + 1);
        self.engine.trees.are_ordered();
        self.plan_outcome(alloc, txn, Isolation::RepeatableRead, db, found, call)
    }

    // Answers the call, or logs what it changes.
    fn run_alone(&mut self, alloc: Global, planned: Planned) -> Result<Outcome, AllocError>
        requires here { (most session : ℕ) × (st : Standing) × (call : Asked) × (g : Target) × IsAutoAt most D.meaning self.old st session call g × IsPlannedAuto self.old.engine st session call g planned × (st.actives ≡ []) }
        requires bounds { CanGoOn self.old }
        ensures comes { (most session line : ℕ) (st : Standing) (call : Asked) (g : Target) → IsAutoAt most D.meaning self.old st session call g → IsPlannedAuto self.old.engine st session call g planned → st.actives ≡ []
            → ComesTo D.meaning most self.old self.new st session line call result }
        ensures bounds { CanGoOn self.new }
        ensures cause { HasCause (D.meaning.faults (disk_of self.old)) (D.meaning.faults (disk_of self.new)) result }
    {
        match planned {
            Planned::Answered(answer) => {
                self.engine.kept.last_txn += 1;
                Ok(told(alloc, answer))
            }
            Planned::Logs(planned) => self.log_alone(alloc, planned),
            Planned::Fills(_) => unreachable!(),
        }
    }

    // Logs what the call changes, with its Commit.
    fn log_alone(&mut self, alloc: Global, planned: PlannedChanges) -> Result<Outcome, AllocError>
        requires here { (most session : ℕ) × (st : Standing) × (call : Asked) × (g : Target) × IsAutoAt most D.meaning self.old st session call g × IsLoggedAuto self.old.engine st session call g planned × (st.actives ≡ []) }
        requires bounds { CanGoOn self.old }
        ensures comes { (most session line : ℕ) (st : Standing) (call : Asked) (g : Target) → IsAutoAt most D.meaning self.old st session call g → IsLoggedAuto self.old.engine st session call g planned → st.actives ≡ []
            → ComesTo D.meaning most self.old self.new st session line call result }
        ensures bounds { CanGoOn self.new }
        ensures cause { HasCause (D.meaning.faults (disk_of self.old)) (D.meaning.faults (disk_of self.new)) result }
    {
        is_number(self.engine.kept.last_db);
        self.engine.trees.are_ordered();
        match self.engine.log_among(alloc, planned, 1) {
            Ok(answer) => Ok(told(alloc, answer)),
            Err(error) => Err(error),
        }
    }
}
