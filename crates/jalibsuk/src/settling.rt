// What follows a call: what its commit waits for, or its end.
ghost use Rattle.std.specs.Prelude.{◌≡◌, Option, Ok};
ghost use Rattle.store_model.specs.declared.call.Call.TheVariants.{Commit as Commits};
ghost use Rattle.jalibsuk.specs.Usable.{IsUsable};
ghost use Rattle.jalibsuk.specs.Told.{and_then, durable_in};
ghost use Rattle.jalibsuk.specs.Methods.{Answered, Commits as IsCommitted, Follows, HasAsked, Settles, SettlesNow, HasFollowed, GivesNow, Syncs};
ghost use Rattle.jalibsuk.specs.Named.{IsMade};
ghost use Rattle.jalibsuk.specs.Stages.{stage_of};
ghost use Rattle.store_model.specs.declared.call.Call.{Call as Asked};

use crate::Error;
use crate::asking::{ask, give};
use crate::error::error_told;
use crate::stage::{OwnStage, Stage, own_stage_of, stage_of};
use crate::syncing::{end, sync, write_out};
use environment::Environment;
use je_disk::Disk;
use std::alloc::Global;
use store_model::{Answer, Call, Durability};

/// The session of the calls that are transactions of their own.
pub(crate) const OWN_SESSION: u8 = 64;

fn durable_of(answer: Answer) -> Result<(), Error>
    ensures { result ≡ durable_in answer }
{
    match answer {
        Answer::Durable { commit: _ } => Ok(()),
        other => {
            let error = error_told(&other);
            drop(other);
            Err(error)
        }
    }
}

// Does what a commit of that durability waits for.
fn wait_for<D: Disk>(environment: &mut Environment<D>, durability: Durability) -> Answer
    requires usable { IsUsable D.meaning environment.old }
    ensures usable { IsUsable D.meaning environment.new }
    ensures followed { HasFollowed D.meaning durability environment.old environment.new result }
{
    match durability {
        Durability::WriteNoSync => write_out(environment),
        Durability::Sync => sync(environment),
        Durability::NoSync => sync(environment),
    }
}

// Makes a commit that was logged as durable as it is to be.
fn follow<D: Disk>(environment: &mut Environment<D>, durability: Durability) -> Result<(), Error>
    requires usable { IsUsable D.meaning environment.old }
    ensures usable { IsUsable D.meaning environment.new }
    ensures follows { Follows D.meaning durability environment.old environment.new result }
{
    durable_of(wait_for(environment, durability))
}

// Ends what a commit left: it waits for what its durability asks for, or it was refused, and the transaction is aborted.
fn settle<D: Disk>(
    environment: &mut Environment<D>,
    session: u8,
    durability: Durability,
    stage: Stage,
) -> Result<(), Error>
    requires usable { IsUsable D.meaning environment.old }
    ensures usable { IsUsable D.meaning environment.new }
    ensures settles { Settles D.meaning durability session environment.old environment.new stage result }
{
    match stage {
        Stage::Done => Ok(()),
        Stage::Logged => follow(environment, durability),
        Stage::Refused(error) => {
            end(environment, session);
            Err(error)
        }
    }
}

// Gives a session's commit, and says what is to be done for it.
fn give_commit<D: Disk>(environment: &mut Environment<D>, alloc: Global, session: u8) -> Stage
    requires usable { IsUsable D.meaning environment.old }
    ensures usable { IsUsable D.meaning environment.new }
    ensures asked { (answered : Answered) × HasAsked D.meaning environment.old environment.new session Commits answered × (result ≡ stage_of answered) }
{
    let call = Call::Commit;
    let answered = ask(environment, alloc, session, &call);
    drop(call);
    let stage = stage_of(&answered);
    drop(answered);
    stage
}

// Commits a session's transaction. Where that fails, it is aborted.
pub(crate) fn commit<D: Disk>(
    environment: &mut Environment<D>,
    alloc: Global,
    session: u8,
) -> Result<(), Error>
    requires usable { IsUsable D.meaning environment.old }
    ensures usable { IsUsable D.meaning environment.new }
    ensures commits { IsCommitted D.meaning environment.old environment.new session result }
{
    let durability = environment.durability_of(session);
    let stage = give_commit(environment, alloc, session);
    settle(environment, session, durability, stage)
}

// Ends what a call of its own left: its commit is synced, and where it would wait it is withdrawn.
fn settle_now<D: Disk>(
    environment: &mut Environment<D>,
    stage: OwnStage,
    answered: Result<Answer, Error>,
) -> Result<Answer, Error>
    requires usable { IsUsable D.meaning environment.old }
    ensures usable { IsUsable D.meaning environment.new }
    ensures settles { SettlesNow D.meaning environment.old environment.new stage answered result }
{
    match stage {
        OwnStage::Answered => answered,
        OwnStage::Logged => {
            drop(answered);
            done_by(follow(environment, Durability::Sync))
        }
        OwnStage::Waits(owner) => {
            drop(answered);
            end(environment, OWN_SESSION);
            Err(Error::Conflict { by: owner })
        }
    }
}

// The answer of a call whose commit was waited for.
fn done_by(followed: Result<(), Error>) -> Result<Answer, Error>
    ensures { result ≡ and_then followed (λ u. Ok Answer.Done) }
{
    match followed {
        Ok(()) => Ok(Answer::Done),
        Err(error) => Err(error),
    }
}

// Gives a call that is a transaction of its own, if there was memory to make it.
pub(crate) fn give_now<D: Disk>(
    environment: &mut Environment<D>,
    alloc: Global,
    call: Result<Call, Error>,
) -> Result<Answer, Error>
    requires usable { IsUsable D.meaning environment.old }
    ensures usable { IsUsable D.meaning environment.new }
    ensures gives { (asked : Option Asked) → IsMade asked call → GivesNow D.meaning environment.old environment.new asked result }
{
    let answered = give(environment, alloc, OWN_SESSION, call);
    let stage = own_stage_of(&answered);
    settle_now(environment, stage, answered)
}

// Makes each commit so far durable.
pub(crate) fn sync_all<D: Disk>(environment: &mut Environment<D>) -> Result<(), Error>
    requires usable { IsUsable D.meaning environment.old }
    ensures usable { IsUsable D.meaning environment.new }
    ensures syncs { Syncs D.meaning environment.old environment.new result }
{
    follow(environment, Durability::Sync)
}
