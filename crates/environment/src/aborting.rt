// The abort of a transaction.
ghost use Rattle.std.specs.Prelude.{◌≡◌, None, ℕ};
ghost use Rattle.je_answers.specs.Standing.{Standing};
ghost use Rattle.je_answers.specs.Refusals.{early_refusal};
ghost use Rattle.standing_laws.specs.Right.{AreSound};
ghost use Rattle.environment.specs.Steps.{PerformsAnswer, StandsAt};
ghost use Rattle.environment.specs.Whole.{CanGoOn};
ghost use Rattle.store_model.specs.declared.call.Call.TheVariants.{Abort};

use crate::environment::Environment;
use je_disk::Disk;
use std::alloc::AllocError;
use store_model::Answer;

impl<D: Disk> Environment<D> {
    // Aborts a session's transaction.
    pub(crate) fn abort(&mut self, session: u8) -> Result<Answer, AllocError>
        requires here { (most : ℕ) × (st : Standing) × StandsAt most D.meaning self.old st × AreSound st × (early_refusal st session (Abort) ≡ None) }
        requires bounds { CanGoOn self.old }
        requires valid { self.old.engine.kept.fault ≡ None }
        ensures performs { PerformsAnswer D.meaning self.old self.new session (Abort) result }
    {
        let txn = match self.sessions.of_session(session) {
            Some(active) => active.txn,
            None => unreachable!(),
        };
        self.abandon(session, txn);
        Ok(Answer::Done)
    }
}
