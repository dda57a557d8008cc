// The commit of a transaction.
ghost use Rattle.std.specs.Prelude.{◌≡◌, ◌<◌, ◌+◌, ◌^◌, ◌∷◌, [], None, ℕ, suc, List, OnOk, OnErr, IfSome};
ghost use Rattle.std.specs.List.{AllByRecursion};
ghost use Rattle.std.specs.Option.{option_map_or};
ghost use Rattle.log_entry.specs.declared.entry.Entry.{Entry};
ghost use Rattle.log_entry.specs.declared.entry.Entry.TheVariants.{Commit as Committed};
ghost use Rattle.in_tree.specs.Limits.{HasRoomFor, commit_sizes};
ghost use Rattle.in_tree.specs.Observed.{cells_of};
ghost use Rattle.record_map.specs.Cells.{value_at};
ghost use Rattle.record_tree.specs.Occupied.{HasChangedAll, IsFreeFor, after_commit, write_in};
ghost use Rattle.record_tree.specs.Logged.{IsFront};
ghost use Rattle.je_answers.specs.Standing.{Standing};
ghost use Rattle.je_answers.specs.Refusals.{early_refusal};
ghost use Rattle.je_answers.specs.Events.{commit_answer};
ghost use Rattle.standing_laws.specs.Right.{AreSound};
ghost use Rattle.environment.specs.Committing.{HasCommittedOwn, HasNotSettled, HasSettled};
ghost use Rattle.environment.specs.Steps.{PerformsAnswer, StandsAt};
ghost use Rattle.environment.specs.Whole.{CanGoOn};
ghost use Rattle.environment.specs.Written.{had_at, names_at};
ghost use Rattle.store_model.specs.declared.call.Call.TheVariants.{Commit};

use crate::ending::take_names;
use crate::environment::Environment;
use crate::written::OwnNames;
use engine::Kept;
use je_disk::Disk;
use je_order::TxnId;
use record_tree::{Records, TreeErr};
use std::alloc::AllocError;
use std::collections::BTreeMap;
use store_model::{Answer, Durability, Fault};

// Commits what a transaction wrote.
pub(crate) fn commit_taken<T: Records>(
    trees: &mut T,
    txn: TxnId,
    taken: Option<OwnNames>,
) -> Result<(), TreeErr>
    requires room { (owed : ℕ) × T.has_room trees.old (suc owed) }
    requires own { AllByRecursion (λ n. IsFreeFor txn (write_in (value_at n.name (T.cells trees.old n.db)))) (option_map_or (λ o. o.names.items) taken []) }
    ensures cells { OnOk result (HasChangedAll (T.cells trees.old) (T.cells trees.new) (option_map_or (λ o. o.names.items) taken []) after_commit) }
    ensures grew { OnOk result (T.grew trees.old trees.new (Committed txn ∷ [])) }
    ensures left { (owed : ℕ) → T.has_room trees.old (suc owed) → OnOk result (T.has_room trees.new owed) }
    ensures tried { OnErr result ((front : List Entry) × IsFront front (Committed txn ∷ []) × T.tried trees.old trees.new front) }
    ensures trees { (d : ℕ) → T.has_tree trees.new d ≡ T.has_tree trees.old d }
    ensures waits { T.waits trees.new ≡ T.waits trees.old }
{
    match taken {
        Some(own) => {
            let committed = trees.commit(txn, own.names.as_slice());
            drop(own);
            committed
        }
        None => trees.commit(txn, &[]),
    }
}

// The answer of a commit with changes.
fn answer_of(durability: Durability, commits: u64) -> Answer
    ensures { (before : ℕ) → commits ≡ before + 1 → result ≡ commit_answer durability before }
{
    match durability {
        Durability::Sync | Durability::WriteNoSync => Answer::Logged { commit: commits },
        Durability::NoSync => Answer::Done,
    }
}

// How many of a transaction's changes were of a name that had a record just then.
pub(crate) fn had_of(written: &BTreeMap<TxnId, OwnNames>, txn: TxnId) -> u64
    ensures { result ≡ had_at txn written.now.entries }
{
    match written.get(&txn) {
        Some(own) => own.had,
        None => 0,
    }
}

// How many records there are with so many more, where a commit more has a number; None where a number ends.
pub(crate) fn records_before(kept: &Kept, set: u64) -> Option<u64>
    ensures counted { IfSome result (λ all. all ≡ kept.now.totals.records + set) }
    ensures fits { IfSome result (λ all. kept.now.commits < kept.now.last_txn) }
    ensures next { IfSome result (λ all. kept.now.commits + 1 < 2 ^ 64) }
{
    if kept.commits >= kept.last_txn {
        return None;
    }
    if kept.commits.checked_add(1).is_none() {
        return None;
    }
    kept.totals.records.checked_add(set)
}

// How many records there are behind a commit of changes of which so many set a name; None where a number ends.
fn records_with(kept: &Kept, set: u64, had: u64) -> Option<u64>
    ensures counted { IfSome result (λ records. records + had ≡ kept.now.totals.records + set) }
    ensures fits { IfSome result (λ records. kept.now.commits < kept.now.last_txn) }
    ensures next { IfSome result (λ records. kept.now.commits + 1 < 2 ^ 64) }
{
    match records_before(kept, set) {
        Some(all) => all.checked_sub(had),
        None => None,
    }
}

impl<D: Disk> Environment<D> {
    // Commits what a transaction wrote, behind which the store has so many records; the one error is a fault.
    pub(crate) fn commit_own(&mut self, txn: TxnId, records: u64) -> Result<(), TreeErr>
        requires room { (owed : ℕ) × HasRoomFor self.old.engine.trees.log (commit_sizes (suc owed)) }
        requires own { AllByRecursion (λ n. IsFreeFor txn (write_in (value_at n.name (cells_of self.old.engine.trees n.db)))) (names_at txn self.old.written.by_txn.entries) }
        requires fits { self.old.engine.kept.commits + 1 < 2 ^ 64 }
        ensures done { OnOk result (HasCommittedOwn D.meaning self.old.engine self.new.engine self.old.written.by_txn.entries self.new.written.by_txn.entries txn records) }
        ensures failed { OnErr result (HasNotSettled D.meaning self.old self.new txn) }
        ensures sessions { self.new.sessions ≡ self.old.sessions }
    {
        self.engine.trees.are_ordered();
        let taken = take_names(&mut self.written.by_txn, txn);
        match commit_taken(&mut self.engine.trees, txn, taken) {
            Ok(()) => {
                self.engine.trees.are_ordered();
                self.engine.kept.commits += 1;
                self.engine.kept.totals.records = records;
                Ok(())
            }
            Err(error) => {
                self.engine.kept.fault = Some(Fault::Disk);
                Err(error)
            }
        }
    }

    // Commits what a session's transaction wrote, behind which the store has so many records, and ends it; the one
    // error is a fault.
    fn settle(&mut self, session: u8, txn: TxnId, records: u64) -> Result<(), TreeErr>
        requires room { (owed : ℕ) × HasRoomFor self.old.engine.trees.log (commit_sizes (suc owed)) }
        requires own { AllByRecursion (λ n. IsFreeFor txn (write_in (value_at n.name (cells_of self.old.engine.trees n.db)))) (names_at txn self.old.written.by_txn.entries) }
        requires fits { self.old.engine.kept.commits + 1 < 2 ^ 64 }
        ensures done { OnOk result (HasSettled D.meaning self.old self.new session txn records) }
        ensures failed { OnErr result (HasNotSettled D.meaning self.old self.new txn) }
    {
        match self.commit_own(txn, records) {
            Ok(()) => {
                self.sessions.end(session, txn);
                Ok(())
            }
            Err(error) => Err(error),
        }
    }

    // Commits a session's transaction.
    pub(crate) fn commit(&mut self, session: u8) -> Result<Answer, AllocError>
        requires here { (most : ℕ) × (st : Standing) × StandsAt most D.meaning self.old st × AreSound st × (early_refusal st session (Commit) ≡ None) }
        requires bounds { CanGoOn self.old }
        requires valid { self.old.engine.kept.fault ≡ None }
        ensures performs { PerformsAnswer D.meaning self.old self.new session (Commit) result }
    {
        let (txn, durability) = match self.sessions.of_session(session) {
            Some(active) => (active.txn, active.durability),
            None => unreachable!(),
        };
        let own = self.sessions.own(txn);
        if own.len == 0 {
            self.abandon(session, txn);
            return Ok(Answer::Done);
        }
        let had = had_of(&self.written.by_txn, txn);
        let records = match records_with(&self.engine.kept, own.set, had) {
            Some(records) => records,
            None => return Err(AllocError),
        };
        match self.settle(session, txn, records) {
            Ok(()) => Ok(answer_of(durability, self.engine.kept.commits)),
            Err(_) => Ok(Answer::DiskFault),
        }
    }
}
