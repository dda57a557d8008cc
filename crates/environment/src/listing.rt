// The names of databases.
ghost use Rattle.std.specs.Prelude.{◌≡◌, None, ℕ, IfOk, is_some, true, false};
ghost use Rattle.store_model.specs.Evaluation.{evaluation};
ghost use Rattle.je_answers.specs.Standing.{Standing, active_of};
ghost use Rattle.je_answers.specs.Refusals.{early_refusal};
ghost use Rattle.standing_laws.specs.Right.{AreSound};
ghost use Rattle.environment.specs.Steps.{PerformsAnswer, StandsAt};
ghost use Rattle.environment.specs.Whole.{CanGoOn};
ghost use Rattle.store_model.specs.declared.call.Call.TheVariants.{List as Lists};

use crate::environment::Environment;
use je_disk::Disk;
use std::alloc::{AllocError, Global};
use store_model::{Answer, Call, LAST_TXN};
use txn_core::{Planned, plan};

impl<D: Disk> Environment<D> {
    // Lists the databases.
    pub(crate) fn list(&mut self, alloc: Global, session: u8) -> Result<Answer, AllocError>
        requires here { (most : ℕ) × (st : Standing) × StandsAt most D.meaning self.old st × AreSound st × (early_refusal st session (Lists) ≡ None) }
        requires bounds { CanGoOn self.old }
        requires valid { self.old.engine.kept.fault ≡ None }
        ensures performs { PerformsAnswer D.meaning self.old self.new session (Lists) result }
    {
        if self.sessions.of_session(session).is_some() {
            return self.list_inside(alloc, session);
        }
        self.list_outside(alloc, session)
    }

    // In a transaction no number is drawn.
    fn list_inside(&self, alloc: Global, session: u8) -> Result<Answer, AllocError>
        requires here { (most : ℕ) × (st : Standing) × StandsAt most D.meaning self.now st }
        requires inside { (most : ℕ) (st : Standing) → StandsAt most D.meaning self.now st → is_some (active_of session st.actives) ≡ true }
        requires bounds { CanGoOn self.now }
        requires valid { self.now.engine.kept.fault ≡ None }
        ensures performs { PerformsAnswer D.meaning self.now self.now session Lists result }
    {
        match self.names(alloc) {
            Ok(answer) => Ok(answer),
            Err(error) => Err(error),
        }
    }

    // Outside one the call draws a number.
    fn list_outside(&mut self, alloc: Global, session: u8) -> Result<Answer, AllocError>
        requires here { (most : ℕ) × (st : Standing) × StandsAt most D.meaning self.old st }
        requires outside { (most : ℕ) (st : Standing) → StandsAt most D.meaning self.old st → is_some (active_of session st.actives) ≡ false }
        requires bounds { CanGoOn self.old }
        requires valid { self.old.engine.kept.fault ≡ None }
        ensures performs { PerformsAnswer D.meaning self.old self.new session Lists result }
    {
        let last = self.engine.kept.last_txn;
        if last >= LAST_TXN {
            return Ok(Answer::IdsEnded);
        }
        match self.names(alloc) {
            Ok(answer) => {
                self.engine.kept.last_txn = last + 1;
                Ok(answer)
            }
            Err(error) => Err(error),
        }
    }

    // The names of the databases, in order.
    fn names(&self, alloc: Global) -> Result<Answer, AllocError>
        requires here { (most : ℕ) × (st : Standing) × StandsAt most D.meaning self.now st }
        requires valid { self.now.engine.kept.fault ≡ None }
        ensures { (most : ℕ) (st : Standing) → StandsAt most D.meaning self.now st → IfOk result (λ answer. answer ≡ (evaluation Lists st.store).answer) }
    {
        let planned = plan(
            &self.engine.trees,
            alloc,
            self.engine.kept.totals,
            self.engine.kept.last_db,
            &Call::List,
        )?;
        match planned {
            Planned::Answered(answer) => Ok(answer),
            Planned::Logs(_) => unreachable!(),
            Planned::Fills(_) => unreachable!(),
        }
    }
}
