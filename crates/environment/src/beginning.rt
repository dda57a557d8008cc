// The begin of a transaction.
ghost use Rattle.std.specs.Prelude.{◌≡◌, None, ℕ};
ghost use Rattle.je_answers.specs.Standing.{Standing};
ghost use Rattle.je_answers.specs.Refusals.{early_refusal};
ghost use Rattle.standing_laws.specs.Right.{AreSound};
ghost use Rattle.environment.specs.Steps.{PerformsAnswer, StandsAt};
ghost use Rattle.environment.specs.Whole.{CanGoOn};
ghost use Rattle.store_model.specs.declared.call.Call.TheVariants.{Begin};

use crate::environment::Environment;
use je_disk::Disk;
use je_order::TxnId;
use std::alloc::AllocError;
use store_model::{Answer, Durability, Isolation, LAST_TXN};

impl<D: Disk> Environment<D> {
    // Begins a transaction of a session.
    pub(crate) fn begin(
        &mut self,
        session: u8,
        level: Isolation,
        durability: Durability,
        wait: bool,
    ) -> Result<Answer, AllocError>
        requires here { (most : ℕ) × (st : Standing) × StandsAt most D.meaning self.old st × AreSound st × (early_refusal st session (Begin level durability wait) ≡ None) }
        requires bounds { CanGoOn self.old }
        requires valid { self.old.engine.kept.fault ≡ None }
        ensures performs { PerformsAnswer D.meaning self.old self.new session (Begin level durability wait) result }
    {
        let last = self.engine.kept.last_txn;
        if last >= LAST_TXN {
            return Ok(Answer::IdsEnded);
        }
        let txn = TxnId(last + 1);
        match self
            .sessions
            .begin(txn, session, level, durability, wait, false)
        {
            Ok(()) => {
                self.engine.kept.last_txn = last + 1;
                Ok(Answer::Txn { txn })
            }
            Err(error) => Err(error),
        }
    }
}
