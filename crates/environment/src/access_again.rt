// A call that is a transaction of its own, once more.
ghost use Rattle.std.specs.Prelude.{◌≡◌, None, Some, ℕ, [], OnErr, true};
ghost use Rattle.std.specs.Option.{option_copied};
ghost use Rattle.store_model.specs.declared.call.Call.{Call as Asked};
ghost use Rattle.je_answers.specs.declared.active.Active.{Active as Transaction};
ghost use Rattle.je_answers.specs.Standing.{Standing, active_of};
ghost use Rattle.je_answers.specs.Refusals.{early_refusal};
ghost use Rattle.je_answers.specs.Views.{Target, outcome_of};
ghost use Rattle.engine.specs.Limits.{IsWithin};
ghost use Rattle.standing_laws.specs.Right.{AreSound, MayWait};
ghost use Rattle.environment.specs.Access.{AccessesTo, IsFoundFor, IsTakenUp, Moves};
ghost use Rattle.environment.specs.Calls.{HasCause};
ghost use Rattle.environment.specs.Steps.{ComesTo, MayCall, StandsAt};
ghost use Rattle.environment.specs.Whole.{CanGoOn, disk_of, reach_of};

use crate::call_plan::CallPlan;
use crate::calling::told;
use crate::environment::Environment;
use crate::moving::{Move, move_by, move_of};
use crate::outcome::Outcome;
use db_catalog::FoundDb;
use je_disk::Disk;
use je_order::{Name, TxnId, Word};
use sessions::Taken;
use std::alloc::{AllocError, Global};
use store_model::{Answer, Call, Isolation, RecordChange};
use txn_views::TargetPlan;

impl<D: Disk> Environment<D> {
    // Makes a call again that waited, and is a transaction of its own, from where its cursor stands.
    pub(crate) fn access_again(
        &mut self,
        alloc: Global,
        session: u8,
        txn: TxnId,
        level: Isolation,
        line: u32,
        db: &Word,
        found: FoundDb,
        call: &Call,
        at: Option<&Name>,
    ) -> Result<Outcome, AllocError>
        requires here { (most : ℕ) × (st : Standing) × (g : Target) × StandsAt most D.meaning self.old st × AreSound st × (early_refusal st session call.now ≡ None) × IsFoundFor st session call.now db.now found (option_copied at) g × MayCall st session true × (a : Transaction) × (active_of session st.actives ≡ Some a) × (a.txn ≡ txn) × (a.level ≡ level) × (a.is_auto ≡ true) }
        requires bounds { CanGoOn self.old }
        requires call { MayWait call.now }
        requires valid { self.old.engine.kept.fault ≡ None }
        ensures comes { (most : ℕ) (st : Standing) (g : Target) → StandsAt most D.meaning self.old st → AreSound st → early_refusal st session call.now ≡ None → MayCall st session true
            → IsFoundFor st session call.now db.now found (option_copied at.entry) g → (a : Transaction) → active_of session st.actives ≡ Some a → a.txn ≡ txn → a.level ≡ level → a.is_auto ≡ true → ComesTo D.meaning most self.old self.new st session line call.now result }
        ensures near { OnErr result (IsWithin (reach_of self.new) (reach_of self.old)) }
        ensures bounds { CanGoOn self.new }
        ensures cause { HasCause (D.meaning.faults (disk_of self.old)) (D.meaning.faults (disk_of self.new)) result }
    {
        let CallPlan { target, others } = self.plan(alloc, txn, level, db, found, call, at)?;
        let TargetPlan {
            answer,
            changes,
            needs,
            place,
        } = target;
        let moves = move_of(session, call, place);
        let taken = self.sessions.take(
            alloc, session, line, call, db, found.kind, &others, needs, true,
        );
        drop(others);
        match taken {
            Ok(Taken::Ready) => {
                self.finish_again(alloc, session, txn, level, answer, changes, moves)
            }
            Ok(
                Taken::Stopped {
                    answer: stop,
                    victims,
                },
            ) => {
                drop(answer);
                drop(changes);
                drop(moves);
                Ok(Outcome {
                    answer: stop,
                    victims,
                })
            }
            Err(error) => {
                drop(answer);
                drop(changes);
                drop(moves);
                Err(error)
            }
        }
    }

    // Ends a call that got its locks, and its transaction: answers it, or logs and commits what it changes first.
    fn finish_again(
        &mut self,
        alloc: Global,
        session: u8,
        txn: TxnId,
        level: Isolation,
        answer: Answer,
        changes: Vec<(u32, RecordChange)>,
        moves: Option<Move>,
    ) -> Result<Outcome, AllocError>
        requires taken { (before : Environment D) × (most : ℕ) × (st : Standing) × (a : Transaction) × (asked : Asked) × (g : Target)
            × IsTakenUp D.meaning most before self.old st session a asked g answer changes.items × (a.txn ≡ txn) × (a.level ≡ level) × (a.is_auto ≡ true) × (st.own a.txn.0 ≡ []) }
        requires bounds { CanGoOn self.old }
        ensures comes { (before : Environment D) (most line : ℕ) (st : Standing) (a : Transaction) (asked : Asked) (g : Target)
            → IsTakenUp D.meaning most before self.old st session a asked g answer changes.items → Moves session asked (outcome_of st a asked g).place moves → a.txn ≡ txn → a.level ≡ level → a.is_auto ≡ true → st.own a.txn.0 ≡ []
            → AccessesTo D.meaning most before self.new st a line asked g result }
        ensures bounds { CanGoOn self.new }
        ensures cause { HasCause (D.meaning.faults (disk_of self.old)) (D.meaning.faults (disk_of self.new)) result }
    {
        if changes.is_empty() {
            drop(changes);
            self.sessions.answered(txn, level, true);
            move_by(&mut self.sessions, moves);
            self.abandon(session, txn);
            return Ok(told(alloc, answer));
        }
        drop(answer);
        self.commit_again(alloc, session, txn, level, changes, moves)
    }
}
