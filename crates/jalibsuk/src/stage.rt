// What is still to be done for a call that was answered.
ghost use Rattle.std.specs.Prelude.{◌≡◌};
ghost use Rattle.jalibsuk.specs.Stages.{own_stage_of, stage_of};

use crate::Error;
use crate::error::error_told;
use je_order::TxnId;
use store_model::Answer;

/// What is to be done for a commit.
#[derive(Clone, Copy)]
pub(crate) enum Stage {
    /// Nothing.
    Done,
    /// It is logged, and waits for what its durability asks for.
    Logged,
    /// It was refused: the transaction is to be aborted.
    Refused(Error),
}

/// What is to be done for a call that is a transaction of its own.
#[derive(Clone, Copy)]
pub(crate) enum OwnStage {
    /// Nothing.
    Answered,
    /// It is logged, and waits for its sync.
    Logged,
    /// It waits for a lock that this transaction has: it is to be withdrawn.
    Waits(TxnId),
}

// What is to be done for a commit.
pub(crate) fn stage_of(answered: &Result<Answer, Error>) -> Stage
    ensures { result ≡ stage_of answered.now }
{
    match answered {
        Ok(Answer::Done) => Stage::Done,
        Ok(Answer::Logged { commit: _ }) => Stage::Logged,
        Ok(other) => Stage::Refused(error_told(other)),
        Err(error) => Stage::Refused(*error),
    }
}

// What is to be done for a call that is a transaction of its own.
pub(crate) fn own_stage_of(answered: &Result<Answer, Error>) -> OwnStage
    ensures { result ≡ own_stage_of answered.now }
{
    match answered {
        Ok(Answer::Logged { commit: _ }) => OwnStage::Logged,
        Ok(Answer::Waiting { at: _, owner }) => OwnStage::Waits(*owner),
        _ => OwnStage::Answered,
    }
}
