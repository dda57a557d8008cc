// Steps of maintenance.
ghost use Rattle.std.specs.Prelude.{◌≡◌, ◌≤◌, ◌⊎◌, ◌++◌, ◌∷◌, [], ℕ, List, Some, None, true, IfSome, IfOk, OnErr, Ok};
ghost use Rattle.je_order.specs.Counts.{HasRisen};
ghost use Rattle.je_disk.specs.Moments.{History, now};
ghost use Rattle.store_model.specs.declared.event.Event.{Event};
ghost use Rattle.store_model.specs.declared.event.Event.TheVariants.{Turn};
ghost use Rattle.je_answers.specs.Standing.{Standing};
ghost use Rattle.je_answers.specs.After.{after_events};
ghost use Rattle.sessions.specs.AtStanding.{AreSessionsAt, owing};
ghost use Rattle.engine.specs.Limits.{IsWithin};
ghost use Rattle.environment.specs.Limits.{reach_behind};
ghost use Rattle.environment.specs.Turning.{BeginsTo, FinishesTo, FlushesTo, HasStayed, IsAnswerTo, IsFirstOf, IsLeastWith, StepsTo, TurnsSafely, TurnsTo, ended_answer, ended_since, fault_by, flushed_answer};
ghost use Rattle.environment.specs.Whole.{CanGoOn, IsAt, IsGuarded, disk_of, reach_of};

use crate::environment::Environment;
use crate::written::OwnNames;
use checkpointer::{Ended, Finish};
use engine::Kept;
use je_disk::Disk;
use je_lsn::Lsn;
use je_order::TxnId;
use record_tree::TreeErr;
use std::alloc::{AllocError, Global};
use std::collections::BTreeMap;
use store_model::{Answer, Fault, Step};

// The lesser of two numbers, the first of which may not be there.
fn lesser(least: Option<u64>, number: u64) -> u64
    ensures one { result ≤ number }
    ensures other { IfSome least (λ l. result ≤ l) }
    ensures which { (result ≡ number) ⊎ (least ≡ Some result) }
{
    match least {
        Some(found) => { if found <= number { found } else { number } }
        None => number,
    }
}

// The least number with that of a transaction's first LSN; one that wrote no names has none.
fn least_with(least: Option<u64>, own: &OwnNames) -> Option<u64>
    ensures { IsLeastWith own.now.names.items own.now.first least result }
{
    match own.names.as_slice() {
        [] => least,
        [_, ..] => Some(lesser(least, own.first.as_u64())),
    }
}

// The number of the least LSN of a first change of a transaction under way; None where none wrote anything.
fn least_first(written: &BTreeMap<TxnId, OwnNames>) -> Option<u64>
    ensures { IsFirstOf written.now.entries result }
{
    let mut least = None;
    for (_, own) in written.iter() {
        least = least_with(least, own);
    }
    least
}

// The LSN of a number.
fn lsn_of(number: Option<u64>) -> Option<Lsn>
    ensures { result ≡ number }
{
    match number {
        Some(number) => Some(Lsn::from_u64(number)),
        None => None,
    }
}

// What the end of a checkpoint needs to know, where so many Commits are owed.
fn finish_of(kept: &Kept, first: Option<u64>, owed: u32) -> Finish
    ensures { result ≡ record { since = kept.now.since; first = first; last_txn = kept.now.last_txn; last_db = kept.now.last_db; owed = owed } }
{
    Finish {
        since: kept.since,
        first: lsn_of(first),
        last_txn: kept.last_txn,
        last_db: kept.last_db,
        owed,
    }
}

// The answer of a flush: the node that was logged, or that none is left.
fn flushed_answer(node: Option<u64>) -> Answer
    ensures { result ≡ flushed_answer node }
{
    match node {
        Some(node) => Answer::Flushed { node },
        None => Answer::Nothing,
    }
}

// The answer of an end that was logged, from whose redo LSN on a redo may begin then, or for which nodes are left.
fn note_end(kept: &mut Kept, ended: Ended) -> Answer
    ensures answer { result ≡ ended_answer ended }
    ensures kept { kept.new ≡ record kept.old { since = ended_since ended kept.old.since } }
{
    match ended {
        Ended::Done(redo) => {
            kept.since = redo;
            Answer::Done
        }
        Ended::Left(count) => Answer::NodesLeft { count },
    }
}

// The answer of a step whose entry was not logged. Where the disk failed, the fault is noted.
fn answer_to(kept: &mut Kept, error: TreeErr) -> Result<Answer, AllocError>
    ensures answer { IsAnswerTo error result }
    ensures kept { kept.new ≡ record kept.old { fault = fault_by error kept.old.fault } }
{
    match error {
        TreeErr::Fault => {
            kept.fault = Some(Fault::Disk);
            Ok(Answer::DiskFault)
        }
        TreeErr::Full => Ok(Answer::LogFull),
        TreeErr::IdsEnded | TreeErr::Memory => Err(AllocError),
    }
}

impl<D: Disk> Environment<D> {
    // Begins a checkpoint.
    fn begin_checkpoint(&mut self, alloc: Global) -> Result<Answer, AllocError>
        ensures stays { HasStayed self.old self.new }
        ensures begins { (st : Standing) → AreSessionsAt self.old.sessions st → BeginsTo D.meaning (owing st) self.old self.new result }
    {
        if self.engine.kept.checkpoints.is_under_way() {
            return Ok(Answer::InCheckpoint);
        }
        let owed = self.owed()?;
        let begun = self
            .engine
            .kept
            .checkpoints
            .begin(&mut self.engine.trees, alloc, owed);
        match begun {
            Ok(()) => Ok(Answer::Done),
            Err(error) => answer_to(&mut self.engine.kept, error),
        }
    }

    // Logs the next node of those that the checkpoint under way has noted and that are dirty.
    fn flush_node(&mut self, alloc: Global) -> Result<Answer, AllocError>
        ensures stays { HasStayed self.old self.new }
        ensures flushes { (st : Standing) → AreSessionsAt self.old.sessions st → FlushesTo D.meaning (owing st) self.old self.new result }
    {
        if !self.engine.kept.checkpoints.is_under_way() {
            return Ok(Answer::NoCheckpoint);
        }
        let owed = self.owed()?;
        let flushed = self
            .engine
            .kept
            .checkpoints
            .flush(&mut self.engine.trees, alloc, owed);
        match flushed {
            Ok(node) => Ok(flushed_answer(node)),
            Err(error) => answer_to(&mut self.engine.kept, error),
        }
    }

    // Ends the checkpoint under way, if no node that it has noted is dirty.
    fn finish_checkpoint(&mut self, alloc: Global) -> Result<Answer, AllocError>
        ensures stays { HasStayed self.old self.new }
        ensures finishes { (st : Standing) → AreSessionsAt self.old.sessions st → FinishesTo D.meaning (owing st) self.old self.new result }
    {
        if !self.engine.kept.checkpoints.is_under_way() {
            return Ok(Answer::NoCheckpoint);
        }
        let owed = self.owed()?;
        let finish = finish_of(&self.engine.kept, least_first(&self.written.by_txn), owed);
        let ended = self
            .engine
            .kept
            .checkpoints
            .finish(&mut self.engine.trees, alloc, &finish);
        match ended {
            Ok(ended) => Ok(note_end(&mut self.engine.kept, ended)),
            Err(error) => answer_to(&mut self.engine.kept, error),
        }
    }

    // Takes a step of maintenance, where no fault came before.
    fn take_step(&mut self, alloc: Global, step: Step) -> Result<Answer, AllocError>
        ensures stays { HasStayed self.old self.new }
        ensures steps { (st : Standing) → AreSessionsAt self.old.sessions st → StepsTo D.meaning (owing st) self.old self.new step result }
    {
        match step {
            Step::Begin => self.begin_checkpoint(alloc),
            Step::Flush => self.flush_node(alloc),
            Step::Finish => self.finish_checkpoint(alloc),
            Step::Sync => Ok(Answer::Done),
        }
    }

    /// Takes a step of maintenance: begins a checkpoint, which notes the nodes that are dirty and those above them; logs the next node that is
    /// noted and dirty; or ends it, where none is; a sync is to be made before its step. Each logs one entry at most, with room for the Commits that are owed. Where it has no room the answer is LogFull. Running out of memory
    /// leaves the environment as it was.
    pub fn turn(&mut self, alloc: Global, step: Step) -> Result<Answer, AllocError>
        requires here { (most : ℕ) × (st : Standing) × IsAt most D.meaning.observable (now (D.meaning.history (disk_of self.old))) self.old st }
        requires bounds { CanGoOn self.old }
        ensures goes_on { (most : ℕ) (st : Standing) (line : ℕ) → IsAt most D.meaning.observable (now (D.meaning.history (disk_of self.old))) self.old st
            → TurnsTo most D.meaning.observable (now (D.meaning.history (disk_of self.new))) self.old self.new st line step result }
        ensures steps { (most : ℕ) (st : Standing) → IsAt most D.meaning.observable (now (D.meaning.history (disk_of self.old))) self.old st → st.fault ≡ None
            → StepsTo D.meaning (owing st) self.old self.new step result }
        ensures grows { (most : ℕ) (st : Standing) (line : ℕ) → IsAt most D.meaning.observable (now (D.meaning.history (disk_of self.old))) self.old st
            → IfOk result (λ answer. IsWithin (reach_of self.new) (reach_behind (reach_of self.old) st (Turn line step answer))) }
        ensures crash { D.meaning.observable ≡ true → (most : ℕ) (st : Standing) (start : History) (journal : List Event) (line : ℕ)
            → IsAt most D.meaning.observable (now (D.meaning.history (disk_of self.old))) self.old (after_events st journal)
            → IsGuarded most st start (D.meaning.history (disk_of self.old)) self.old journal
            → TurnsSafely most st start (D.meaning.history (disk_of self.new)) self.new journal line step result }
        ensures same_reach { OnErr result (IsWithin (reach_of self.new) (reach_of self.old)) }
        ensures bounds { CanGoOn self.new }
        ensures never_falls { D.meaning.faults (disk_of self.old) ≤ D.meaning.faults (disk_of self.new) }
        ensures cause { result ≡ Ok Answer.DiskFault → HasRisen (D.meaning.faults (disk_of self.old)) (D.meaning.faults (disk_of self.new)) }
    {
        if let Some(first) = self.engine.kept.fault {
            return Ok(Answer::Invalid { first });
        }
        self.take_step(alloc, step)
    }
}
