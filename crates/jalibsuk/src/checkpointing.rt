// Checkpoints.
ghost use Rattle.std.specs.Prelude.{◌≡◌, Option as Maybe, Result as Either};
ghost use Rattle.std.specs.declared.alloc.AllocError.{AllocError as OutOfMemory};
ghost use Rattle.store_model.specs.declared.answer.Answer.{Answer as Answered};
ghost use Rattle.store_model.specs.declared.step.Step.TheVariants.{Begin as Begins, Finish as Finishes, Flush as Flushes};
ghost use Rattle.jalibsuk.specs.Usable.{IsUsable};
ghost use Rattle.jalibsuk.specs.Methods.{Syncs};
ghost use Rattle.jalibsuk.specs.Turned.{HasTurned};
ghost use Rattle.jalibsuk.specs.Checkpointed.{Checkpoints, FlushesAll, InTurn, Turns, checkpoint_begun, checkpoint_ended, flushed_by};

use crate::answered::done_of;
use crate::error::error_told;
use crate::settling::sync_all;
use crate::{Env, Error};
use environment::Environment;
use je_disk::Disk;
use std::alloc::{AllocError, Global};
use store_model::{Answer, Step};

// Takes a step of maintenance.
fn turn<D: Disk>(
    environment: &mut Environment<D>,
    alloc: Global,
    step: Step,
) -> Result<Answer, AllocError>
    requires usable { IsUsable D.meaning environment.old }
    ensures usable { IsUsable D.meaning environment.new }
    ensures turned { HasTurned D.meaning environment.old environment.new step result }
{
    environment.turn(alloc, step)
}

// What a flush came to: none where it logged a node.
fn flushed_by(turned: Result<Answer, AllocError>) -> Option<Result<(), Error>>
    ensures { result ≡ flushed_by turned }
{
    match turned {
        Ok(Answer::Flushed { node: _ }) => None,
        Ok(Answer::Nothing) => Some(Ok(())),
        Ok(other) => {
            let error = error_told(&other);
            drop(other);
            Some(Err(error))
        }
        Err(_) => Some(Err(Error::Memory)),
    }
}

// That a checkpoint is under way.
fn checkpoint_begun(turned: Result<Answer, AllocError>) -> Result<(), Error>
    ensures { result ≡ checkpoint_begun turned }
{
    match turned {
        Ok(Answer::Done) | Ok(Answer::InCheckpoint) => Ok(()),
        Ok(other) => {
            let error = error_told(&other);
            drop(other);
            Err(error)
        }
        Err(_) => Err(Error::Memory),
    }
}

// That it was ended.
fn checkpoint_ended(turned: Result<Answer, AllocError>) -> Result<(), Error>
    ensures { result ≡ checkpoint_ended turned }
{
    match turned {
        Ok(answer) => done_of(Ok(answer)),
        Err(_) => Err(Error::Memory),
    }
}

// Begins a checkpoint, or goes on with one that is under way.
fn begin_checkpoint<D: Disk>(environment: &mut Environment<D>, alloc: Global) -> Result<(), Error>
    requires usable { IsUsable D.meaning environment.old }
    ensures usable { IsUsable D.meaning environment.new }
    ensures begins { Turns D.meaning Begins checkpoint_begun environment.old environment.new result }
{
    checkpoint_begun(turn(environment, alloc, Step::Begin))
}

// Logs nodes until none is left.
fn flush_all<D: Disk>(environment: &mut Environment<D>, alloc: Global) -> Result<(), Error>
    requires usable { IsUsable D.meaning environment.old }
    ensures usable { IsUsable D.meaning environment.new }
    ensures flushes { FlushesAll D.meaning environment.old environment.new result }
{
    for count in 0..u64::MAX {
        if let Some(flushed) = flushed_by(turn(environment, alloc, Step::Flush)) {
            return flushed;
        }
    }
    Err(Error::Unexpected)
}

// Ends a checkpoint.
fn end_checkpoint<D: Disk>(environment: &mut Environment<D>, alloc: Global) -> Result<(), Error>
    requires usable { IsUsable D.meaning environment.old }
    ensures usable { IsUsable D.meaning environment.new }
    ensures ends { Turns D.meaning Finishes checkpoint_ended environment.old environment.new result }
{
    checkpoint_ended(turn(environment, alloc, Step::Finish))
}

// Ends a checkpoint, and syncs.
fn end_and_sync<D: Disk>(environment: &mut Environment<D>, alloc: Global) -> Result<(), Error>
    requires usable { IsUsable D.meaning environment.old }
    ensures usable { IsUsable D.meaning environment.new }
    ensures ends { InTurn (Turns D.meaning Finishes checkpoint_ended) (Syncs D.meaning) environment.old environment.new result }
{
    match end_checkpoint(environment, alloc) {
        Ok(()) => sync_all(environment),
        Err(error) => Err(error),
    }
}

// Logs all nodes, ends the checkpoint, and syncs.
fn flush_and_end<D: Disk>(environment: &mut Environment<D>, alloc: Global) -> Result<(), Error>
    requires usable { IsUsable D.meaning environment.old }
    ensures usable { IsUsable D.meaning environment.new }
    ensures flushes { InTurn (FlushesAll D.meaning) (InTurn (Turns D.meaning Finishes checkpoint_ended) (Syncs D.meaning)) environment.old environment.new result }
{
    match flush_all(environment, alloc) {
        Ok(()) => end_and_sync(environment, alloc),
        Err(error) => Err(error),
    }
}

// Takes a checkpoint.
pub(crate) fn checkpoint<D: Disk>(
    environment: &mut Environment<D>,
    alloc: Global,
) -> Result<(), Error>
    requires usable { IsUsable D.meaning environment.old }
    ensures usable { IsUsable D.meaning environment.new }
    ensures checkpoints { Checkpoints D.meaning environment.old environment.new result }
{
    match begin_checkpoint(environment, alloc) {
        Ok(()) => flush_and_end(environment, alloc),
        Err(error) => Err(error),
    }
}

impl<D: Disk + Drop> Env<D> {
    /// Takes a checkpoint, and syncs: each node of the trees that changed is logged, so that an opening has less to redo. Errors: `LogFull`, `DiskFault`,
    /// `Invalid`, `Memory`; a checkpoint that was begun stays under way, and the next call goes on with it.
    pub fn checkpoint(&mut self) -> Result<(), Error>
        ensures checkpoints { Checkpoints D.meaning self.old.environment self.new.environment result }
        ensures names { self.new.names ≡ self.old.names }
    {
        checkpoint(&mut self.environment, self.alloc)
    }
}
