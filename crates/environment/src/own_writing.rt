// What a call changes that got its locks: pushed and logged, and how it ends.
ghost use Rattle.std.specs.Prelude.{◌≡◌, ◌≢◌, ◌≤◌, ◌<◌, ◌^◌, ℕ, [], List as Lists, Option as Maybe, true, map, IfOk};
ghost use Rattle.active_txns.specs.Own.{counted as counts_of};
ghost use Rattle.std.specs.List.{AllByRecursion};
ghost use Rattle.je_order.specs.Counts.{HasRisen};
ghost use Rattle.je_order.specs.declared.name.Name.{Name as Named};
ghost use Rattle.log_entry.specs.Body.{IsEntry};
ghost use Rattle.record_tree.specs.Logged.{entry_for};
ghost use Rattle.store_model.specs.Indexes.{Numbered};
ghost use Rattle.txn_log.specs.Own.{tree_of};
ghost use Rattle.txn_views.specs.Laws.{own_names};
ghost use Rattle.store_model.specs.declared.call.Call.{Call as Asked};
ghost use Rattle.store_model.specs.declared.answer.Answer.{Answer as Answered};
ghost use Rattle.store_model.specs.declared.need.Need.{Need};
ghost use Rattle.store_model.specs.declared.record_change.RecordChange.{RecordChange as Changed};
ghost use Rattle.je_answers.specs.declared.active.Active.{Active as Transaction};
ghost use Rattle.je_answers.specs.Standing.{Standing};
ghost use Rattle.je_answers.specs.Views.{Target, changes_with, needs_in, outcome_of, with_numbers};
ghost use Rattle.je_answers.specs.Locking.{all_got};
ghost use Rattle.je_answers.specs.After.{with_locks};
ghost use Rattle.sessions.specs.AtStanding.{AreSessionsAt, owing, with_own};
ghost use Rattle.sessions.specs.Taking.{HasTaken};
ghost use Rattle.environment.specs.Access.{IsTakenUp, Moves};
ghost use Rattle.environment.specs.OwnEnds.{AreEndedBy, ComesUp, HasPushed, HasPushedAndLogged, answer_for};
ghost use Rattle.environment.specs.Valid.{active_number};
ghost use Rattle.environment.specs.Whole.{CanGoOn, disk_of};
ghost use Rattle.environment.specs.Writing.{IsValidAt, MayWrite, WritesOwn};

use crate::environment::Environment;
use crate::moving::{Move, move_by};
use crate::own_changes::{copy_names, tree_changes};
use crate::wrote::Wrote;
use active_txns::{OwnCounts, counted};
use je_disk::Disk;
use je_order::TxnId;
use record_tree::{Records, TreeChange, TreeName};
use sessions::Sessions;
use std::alloc::{AllocError, Global};
use store_model::{Answer, Isolation, RecordChange};

// A number has 64 bits: for those who reason above it. It does nothing.
fn number_fits(number: u64)
    ensures { number < 2 ^ 64 }
{}

// The same of a number of 32 bits.
fn db_fits(number: u32)
    ensures { number < 2 ^ 32 }
{}

// Changes as the trees get them, and the names of these.
#[derive(Drop)]
struct Copied {
    changes: Vec<TreeChange>,
    names: Vec<TreeName>,
}

fn copied_of(alloc: Global, changes: Vec<(u32, RecordChange)>) -> Result<Copied, AllocError>
    ensures changes { IfOk result (λ copied. copied.changes.items ≡ map tree_of changes.items) }
    ensures names { IfOk result (λ copied. copied.names.items ≡ own_names changes.items) }
{
    match copy_names(alloc, changes.as_slice()) {
        Ok(names) => match tree_changes(alloc, changes) {
            Ok(changes) => Ok(Copied { changes, names }),
            Err(error) => {
                drop(names);
                Err(error)
            }
        },
        Err(error) => {
            drop(changes);
            Err(error)
        }
    }
}

// Takes back the changes of a call that is answered without them.
pub(crate) fn take_back(sessions: &mut Sessions, txn: TxnId, level: Isolation, counts: OwnCounts)
    requires { (a : Transaction) × (needs : Lists Need) × (more : Lists (ℕ × Changed)) × (st : Standing) × (a.txn ≡ txn) × (a.level ≡ level) × HasPushed sessions.old a needs txn.0 more counts st }
    ensures { (a : Transaction) (needs : Lists Need) (more : Lists (ℕ × Changed)) (st : Standing) → a.txn ≡ txn → a.level ≡ level → HasPushed sessions.old a needs txn.0 more counts st
        → AreSessionsAt sessions.new (with_locks a (all_got a.txn needs st.locks.at) st) }
{
    sessions.set_back_own(txn, counts);
    sessions.answered(txn, level, true);
}

// Takes back all of a call that is not answered after all.
pub(crate) fn undo_own(sessions: &mut Sessions, txn: TxnId, counts: OwnCounts)
    requires { (a : Transaction) × (needs : Lists Need) × (more : Lists (ℕ × Changed)) × (st : Standing) × (a.txn ≡ txn) × HasPushed sessions.old a needs txn.0 more counts st }
    ensures { (a : Transaction) (needs : Lists Need) (more : Lists (ℕ × Changed)) (st : Standing) → a.txn ≡ txn → HasPushed sessions.old a needs txn.0 more counts st → AreSessionsAt sessions.new st }
{
    sessions.set_back_own(txn, counts);
    sessions.give_up(txn);
}

// Ends a call in the sessions, by what became of its changes.
fn end_own(
    sessions: &mut Sessions,
    txn: TxnId,
    level: Isolation,
    counts: OwnCounts,
    wrote: Wrote,
    moves: Option<Move>,
)
    requires { (a : Transaction) × (needs : Lists Need) × (more : Lists (ℕ × Changed)) × (st : Standing) × (a.txn ≡ txn) × (a.level ≡ level) × HasPushed sessions.old a needs txn.0 more counts st }
    ensures { (a : Transaction) (call : Asked) (place : Maybe Named) (needs : Lists Need) (more : Lists (ℕ × Changed)) (st : Standing) → a.txn ≡ txn → a.level ≡ level → Moves a.session call place moves
        → HasPushed sessions.old a needs txn.0 more counts st → AreEndedBy wrote sessions.new a call place needs more st }
{
    match wrote {
        Wrote::Done => {
            sessions.answered(txn, level, true);
            move_by(sessions, moves);
        }
        Wrote::Full => {
            drop(moves);
            take_back(sessions, txn, level, counts);
        }
        Wrote::NoNumbers => {
            drop(moves);
            take_back(sessions, txn, level, counts);
        }
        Wrote::Failed => {
            drop(moves);
            undo_own(sessions, txn, counts);
        }
    }
}

// What the call is answered.
pub(crate) fn answer_by(wrote: Wrote, answer: Answer) -> Answer
    ensures { result ≡ answer_for wrote answer }
{
    match wrote {
        Wrote::Done => answer,
        Wrote::Full => {
            drop(answer);
            Answer::LogFull
        }
        Wrote::NoNumbers => {
            drop(answer);
            Answer::IdsEnded
        }
        Wrote::Failed => {
            drop(answer);
            Answer::DiskFault
        }
    }
}

impl<D: Disk> Environment<D> {
    // How many Commits are owed.
    pub(crate) fn owed(&self) -> Result<u32, AllocError>
        ensures { IfOk result (λ owed. (st : Standing) → AreSessionsAt self.now.sessions st → owed ≡ owing st) }
    {
        let owing = self.sessions.owing();
        if u32::MAX as usize <= owing {
            return Err(AllocError);
        }
        Ok(owing as u32)
    }

    // Logs changes that are their transaction's own already, as they were copied for the trees.
    fn log_pushed(&mut self, alloc: Global, txn: TxnId, copied: Copied) -> Result<Wrote, AllocError>
        requires can { (st : Standing) × (cs : Lists (Numbered × Changed)) × IsValidAt D.meaning self.old st × MayWrite st txn.0 cs × (copied.changes.items ≡ map tree_of (with_numbers cs)) }
        requires entries { AllByRecursion (λ c. IsEntry (entry_for txn c.db c.name c.value)) copied.changes.items }
        ensures sessions { self.new.sessions ≡ self.old.sessions }
        ensures writes { (st : Standing) (cs : Lists (Numbered × Changed)) (a : Transaction) (needs : Lists Need) → IsValidAt D.meaning self.old st → MayWrite st txn.0 cs → active_number st.actives txn.0 ≡ true
            → self.old.engine.kept.last_db ≡ st.last_db → copied.changes.items ≡ map tree_of (with_numbers cs) → copied.names.items ≡ own_names (with_numbers cs) → HasTaken self.old.sessions true a needs (with_own txn.0 (with_numbers cs) st)
            → WritesOwn D.meaning self.old self.new st txn.0 cs (owing (with_own txn.0 (with_numbers cs) st)) result }
        ensures never_falls { D.meaning.faults (disk_of self.old) ≤ D.meaning.faults (disk_of self.new) }
        ensures rose { IfOk result (λ wrote. wrote ≡ Wrote.Failed → HasRisen (D.meaning.faults (disk_of self.old)) (D.meaning.faults (disk_of self.new))) }
    {
        let Copied { changes, names } = copied;
        match self.owed() {
            Ok(owed) => self.write_all(alloc, txn, changes.as_slice(), names, owed),
            Err(error) => Err(error),
        }
    }

    // Makes changes a transaction's own, and logs them as they were copied.
    fn push_copied(
        &mut self,
        alloc: Global,
        txn: TxnId,
        counts: OwnCounts,
        copied: Copied,
    ) -> Result<Wrote, AllocError>
        requires can { (st : Standing) × (cs : Lists (Numbered × Changed)) × IsValidAt D.meaning self.old st × MayWrite st txn.0 cs × (copied.changes.items ≡ map tree_of (with_numbers cs)) }
        requires entries { AllByRecursion (λ c. IsEntry (entry_for txn c.db c.name c.value)) copied.changes.items }
        ensures writes { (st : Standing) (cs : Lists (Numbered × Changed)) (a : Transaction) (needs : Lists Need) → IsValidAt D.meaning self.old st → MayWrite st a.txn.0 cs → a.txn ≡ txn → active_number st.actives a.txn.0 ≡ true
            → self.old.engine.kept.last_db ≡ st.last_db → counts ≡ counts_of (with_numbers cs) → copied.changes.items ≡ map tree_of (with_numbers cs) → copied.names.items ≡ own_names (with_numbers cs) → HasTaken self.old.sessions true a needs st
            → HasPushedAndLogged D.meaning self.old self.new a needs st cs result }
        ensures never_falls { D.meaning.faults (disk_of self.old) ≤ D.meaning.faults (disk_of self.new) }
        ensures rose { IfOk result (λ wrote. wrote ≡ Wrote.Failed → HasRisen (D.meaning.faults (disk_of self.old)) (D.meaning.faults (disk_of self.new))) }
    {
        match self.sessions.push_own(txn, counts) {
            Ok(()) => self.log_pushed(alloc, txn, copied),
            Err(error) => {
                drop(copied);
                Err(error)
            }
        }
    }

    // Makes what a call changes that got its locks its transaction's own, and logs it.
    pub(crate) fn push_and_log(
        &mut self,
        alloc: Global,
        txn: TxnId,
        changes: Vec<(u32, RecordChange)>,
    ) -> Result<Wrote, AllocError>
        requires taken { (before : Environment D) × (most session : ℕ) × (st : Standing) × (a : Transaction) × (asked : Asked) × (g : Target) × (answer : Answered)
            × IsTakenUp D.meaning most before self.old st session a asked g answer changes.items × (a.txn ≡ txn) }
        requires some { changes.items ≢ [] }
        ensures writes { (before : Environment D) (most session : ℕ) (st : Standing) (a : Transaction) (asked : Asked) (g : Target) (answer : Answered)
            → IsTakenUp D.meaning most before self.old st session a asked g answer changes.items → a.txn ≡ txn
            → HasPushedAndLogged D.meaning self.old self.new a (needs_in st a asked g) st (changes_with st a g (outcome_of st a asked g).changes) result }
        ensures never_falls { D.meaning.faults (disk_of self.old) ≤ D.meaning.faults (disk_of self.new) }
        ensures rose { IfOk result (λ wrote. wrote ≡ Wrote.Failed → HasRisen (D.meaning.faults (disk_of self.old)) (D.meaning.faults (disk_of self.new))) }
    {
        self.engine.trees.are_ordered();
        number_fits(txn.0);
        db_fits(self.engine.kept.last_db);
        let counts = counted(changes.as_slice());
        match copied_of(alloc, changes) {
            Ok(copied) => self.push_copied(alloc, txn, counts, copied),
            Err(error) => Err(error),
        }
    }

    // Writes what a call changes that got its locks, and ends it in the sessions, unless it ends its transaction.
    pub(crate) fn write_up(
        &mut self,
        alloc: Global,
        txn: TxnId,
        level: Isolation,
        changes: Vec<(u32, RecordChange)>,
        moves: Option<Move>,
    ) -> Result<Wrote, AllocError>
        requires taken { (before : Environment D) × (most session : ℕ) × (st : Standing) × (a : Transaction) × (asked : Asked) × (g : Target) × (answer : Answered)
            × IsTakenUp D.meaning most before self.old st session a asked g answer changes.items × (a.txn ≡ txn) × (a.level ≡ level) }
        requires some { changes.items ≢ [] }
        requires bounds { CanGoOn self.old }
        ensures comes { (before : Environment D) (most session : ℕ) (st : Standing) (a : Transaction) (asked : Asked) (g : Target) (answer : Answered)
            → IsTakenUp D.meaning most before self.old st session a asked g answer changes.items → Moves session asked (outcome_of st a asked g).place moves → a.txn ≡ txn → a.level ≡ level
            → ComesUp D.meaning most before self.new st a asked g result }
        ensures bounds { CanGoOn self.new }
        ensures never_falls { D.meaning.faults (disk_of self.old) ≤ D.meaning.faults (disk_of self.new) }
        ensures rose { IfOk result (λ wrote. wrote ≡ Wrote.Failed → HasRisen (D.meaning.faults (disk_of self.old)) (D.meaning.faults (disk_of self.new))) }
    {
        let counts = self.sessions.own(txn);
        match self.push_and_log(alloc, txn, changes) {
            Ok(wrote) => {
                end_own(&mut self.sessions, txn, level, counts, wrote, moves);
                Ok(wrote)
            }
            Err(error) => {
                drop(moves);
                undo_own(&mut self.sessions, txn, counts);
                Err(error)
            }
        }
    }
}
