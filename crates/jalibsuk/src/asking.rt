// Calls of an environment, each with all that the environment promises of it.
ghost use Rattle.std.specs.Prelude.{◌≡◌, ℕ, Result, Option};
ghost use Rattle.std.specs.declared.alloc.AllocError.{AllocError as OutOfMemory};
ghost use Rattle.store_model.specs.declared.call.Call.{Call as Asked};
ghost use Rattle.environment.specs.declared.outcome.Outcome.{Outcome as CameTo};
ghost use Rattle.jalibsuk.specs.Usable.{IsUsable};
ghost use Rattle.jalibsuk.specs.Stepped.{HasStepped};
ghost use Rattle.jalibsuk.specs.Told.{answer_told};
ghost use Rattle.jalibsuk.specs.Methods.{Gives};
ghost use Rattle.jalibsuk.specs.Named.{IsMade};

use crate::Error;
use environment::{Environment, Outcome};
use je_disk::Disk;
use std::alloc::Global;
use store_model::{Answer, Call};

// Gives a session's call.
pub(crate) fn ask<D: Disk>(
    environment: &mut Environment<D>,
    alloc: Global,
    session: u8,
    call: &Call,
) -> Result<Answer, Error>
    requires usable { IsUsable D.meaning environment.old }
    ensures usable { IsUsable D.meaning environment.new }
    ensures stepped { (r : Result CameTo OutOfMemory) × HasStepped D.meaning environment.old environment.new session call.now r × (result ≡ answer_told r) }
{
    match environment.step(alloc, session, 0, call) {
        Ok(outcome) => {
            let Outcome { answer, victims } = outcome;
            drop(victims);
            Ok(answer)
        }
        Err(_) => Err(Error::Memory),
    }
}

// Gives a session's call, if there was memory to make it.
pub(crate) fn give<D: Disk>(
    environment: &mut Environment<D>,
    alloc: Global,
    session: u8,
    call: Result<Call, Error>,
) -> Result<Answer, Error>
    requires usable { IsUsable D.meaning environment.old }
    ensures usable { IsUsable D.meaning environment.new }
    ensures gives { (asked : Option Asked) → IsMade asked call → Gives D.meaning environment.old environment.new session asked result }
{
    match call {
        Ok(call) => {
            let answer = ask(environment, alloc, session, &call);
            drop(call);
            answer
        }
        Err(error) => Err(error),
    }
}
