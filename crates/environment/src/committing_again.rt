// What a call changes that waited and is a transaction of its own: logged, and committed.
ghost use Rattle.std.specs.Prelude.{◌≡◌, ◌≢◌, ◌≤◌, ◌+◌, ℕ, [], Ok, true};
ghost use Rattle.je_order.specs.Counts.{HasRisen};
ghost use Rattle.store_model.specs.declared.call.Call.{Call as Asked};
ghost use Rattle.store_model.specs.declared.answer.Answer.{Answer as Answered};
ghost use Rattle.je_answers.specs.declared.active.Active.{Active as Transaction};
ghost use Rattle.je_answers.specs.Standing.{Standing};
ghost use Rattle.je_answers.specs.Views.{Target, outcome_of};
ghost use Rattle.environment.specs.Access.{AccessesTo, HasAccessed, IsTakenUp, Moves};
ghost use Rattle.environment.specs.Again.{HasWrittenAgain};
ghost use Rattle.environment.specs.Calls.{HasCause};
ghost use Rattle.environment.specs.Whole.{CanGoOn, disk_of};

use crate::calling::told;
use crate::committing::{had_of, records_before};
use crate::environment::Environment;
use crate::moving::{Move, move_by};
use crate::outcome::Outcome;
use crate::own_writing::{take_back, undo_own};
use crate::wrote::Wrote;
use active_txns::{OwnCounts, count_set};
use je_disk::Disk;
use je_order::TxnId;
use std::alloc::{AllocError, Global};
use store_model::{Answer, Isolation, RecordChange};

// All but those that there were.
fn less(all: u64, had: u64) -> u64
    requires { had ≤ all }
    ensures { result + had ≡ all }
{
    all - had
}

impl<D: Disk> Environment<D> {
    // Logs and commits what a call changes that got its locks.
    pub(crate) fn commit_again(
        &mut self,
        alloc: Global,
        session: u8,
        txn: TxnId,
        level: Isolation,
        changes: Vec<(u32, RecordChange)>,
        moves: Option<Move>,
    ) -> Result<Outcome, AllocError>
        requires taken { (before : Environment D) × (most : ℕ) × (st : Standing) × (a : Transaction) × (asked : Asked) × (g : Target) × (answer : Answered)
            × IsTakenUp D.meaning most before self.old st session a asked g answer changes.items × (a.txn ≡ txn) × (a.level ≡ level) × (a.is_auto ≡ true) × (st.own a.txn.0 ≡ []) }
        requires some { changes.items ≢ [] }
        requires bounds { CanGoOn self.old }
        ensures comes { (before : Environment D) (most line : ℕ) (st : Standing) (a : Transaction) (asked : Asked) (g : Target) (answer : Answered)
            → IsTakenUp D.meaning most before self.old st session a asked g answer changes.items → Moves session asked (outcome_of st a asked g).place moves → a.txn ≡ txn → a.level ≡ level → a.is_auto ≡ true → st.own a.txn.0 ≡ []
            → AccessesTo D.meaning most before self.new st a line asked g result }
        ensures bounds { CanGoOn self.new }
        ensures cause { HasCause (D.meaning.faults (disk_of self.old)) (D.meaning.faults (disk_of self.new)) result }
    {
        let set = count_set(changes.as_slice());
        let Some(all) = records_before(&self.engine.kept, set) else {
            drop(changes);
            drop(moves);
            self.sessions.give_up(txn);
            return Err(AllocError);
        };
        match self.push_and_log(alloc, txn, changes) {
            Ok(wrote) => Ok(self.end_again(alloc, session, txn, level, all, wrote, moves)),
            Err(error) => {
                drop(moves);
                undo_own(&mut self.sessions, txn, OwnCounts { len: 0, set: 0 });
                Err(error)
            }
        }
    }

    // Ends a call whose changes came to this, and its transaction unless the disk failed.
    fn end_again(
        &mut self,
        alloc: Global,
        session: u8,
        txn: TxnId,
        level: Isolation,
        all: u64,
        wrote: Wrote,
        moves: Option<Move>,
    ) -> Outcome
        requires written { (before : Environment D) × (most : ℕ) × (st : Standing) × (a : Transaction) × (asked : Asked) × (g : Target)
            × HasWrittenAgain D.meaning most before self.old st session txn level a asked g all wrote }
        ensures comes { (before : Environment D) (most line : ℕ) (st : Standing) (a : Transaction) (asked : Asked) (g : Target)
            → HasWrittenAgain D.meaning most before self.old st session txn level a asked g all wrote → Moves session asked (outcome_of st a asked g).place moves
            → HasAccessed D.meaning most before self.new st a line asked g result.answer result.victims }
        ensures bounds { CanGoOn self.new }
        ensures cause { (was : ℕ) → was ≤ D.meaning.faults (disk_of self.old) → (wrote ≡ Wrote.Failed → HasRisen was (D.meaning.faults (disk_of self.old)))
            → HasCause was (D.meaning.faults (disk_of self.new)) (Ok result) }
    {
        match wrote {
            Wrote::Done => self.settle_again(alloc, session, txn, level, all, moves),
            Wrote::Full => {
                drop(moves);
                take_back(&mut self.sessions, txn, level, OwnCounts { len: 0, set: 0 });
                self.abandon(session, txn);
                told(alloc, Answer::LogFull)
            }
            Wrote::NoNumbers => {
                drop(moves);
                take_back(&mut self.sessions, txn, level, OwnCounts { len: 0, set: 0 });
                self.abandon(session, txn);
                told(alloc, Answer::IdsEnded)
            }
            Wrote::Failed => {
                drop(moves);
                undo_own(&mut self.sessions, txn, OwnCounts { len: 0, set: 0 });
                told(alloc, Answer::DiskFault)
            }
        }
    }

    // Commits what a call logged, and ends its transaction; where the disk fails it is as if it had not gone on.
    fn settle_again(
        &mut self,
        alloc: Global,
        session: u8,
        txn: TxnId,
        level: Isolation,
        all: u64,
        moves: Option<Move>,
    ) -> Outcome
        requires written { (before : Environment D) × (most : ℕ) × (st : Standing) × (a : Transaction) × (asked : Asked) × (g : Target)
            × HasWrittenAgain D.meaning most before self.old st session txn level a asked g all Wrote.Done }
        ensures comes { (before : Environment D) (most line : ℕ) (st : Standing) (a : Transaction) (asked : Asked) (g : Target)
            → HasWrittenAgain D.meaning most before self.old st session txn level a asked g all Wrote.Done → Moves session asked (outcome_of st a asked g).place moves
            → HasAccessed D.meaning most before self.new st a line asked g result.answer result.victims }
        ensures bounds { CanGoOn self.new }
        ensures cause { HasCause (D.meaning.faults (disk_of self.old)) (D.meaning.faults (disk_of self.new)) (Ok result) }
    {
        let records = less(all, had_of(&self.written.by_txn, txn));
        match self.commit_own(txn, records) {
            Ok(()) => {
                self.sessions.answered(txn, level, true);
                move_by(&mut self.sessions, moves);
                self.sessions.end(session, txn);
                told(
                    alloc,
                    Answer::Logged {
                        commit: self.engine.kept.commits,
                    },
                )
            }
            Err(_) => {
                drop(moves);
                undo_own(&mut self.sessions, txn, OwnCounts { len: 0, set: 0 });
                told(alloc, Answer::DiskFault)
            }
        }
    }
}
