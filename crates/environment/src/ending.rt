// The end of a session.
ghost use Rattle.std.specs.Prelude.{◌≡◌, ◌≤◌, ◌++◌, ◌∷◌, [], ℕ, List, None, true, if◌then◌else◌};
ghost use Rattle.std.specs.Option.{option_map_or};
ghost use Rattle.je_disk.specs.Moments.{History, now};
ghost use Rattle.je_order.specs.Transactions.{is_same_txn};
ghost use Rattle.je_order.specs.declared.txn_id.TxnId.{TxnId as Txn};
ghost use Rattle.lock_table.specs.Table.{at_txn};
ghost use Rattle.record_tree.specs.Occupied.{HasChangedAll, after_abort};
ghost use Rattle.log_buffer.specs.Buffer.{IsUnchanged};
ghost use Rattle.store_model.specs.declared.event.Event.{Event};
ghost use Rattle.store_model.specs.declared.event.Event.TheVariants.{End};
ghost use Rattle.je_answers.specs.Standing.{Standing};
ghost use Rattle.je_answers.specs.After.{after_events, after_session};
ghost use Rattle.standing_laws.specs.Right.{AreNumbered};
ghost use Rattle.sessions.specs.AtStanding.{AreSessionsAt};
ghost use Rattle.engine.specs.Limits.{IsWithin};
ghost use Rattle.environment.specs.Ending.{HasAbandoned};
ghost use Rattle.environment.specs.Steps.{StandsAt};
ghost use Rattle.environment.specs.Written.{first_at, names_at, had_at};
ghost use Rattle.environment.specs.Whole.{CanGoOn, HasDone, IsAt, IsGuarded, disk_of, reach_of};

use crate::environment::Environment;
use crate::written::OwnNames;
use je_disk::Disk;
use je_order::TxnId;
use record_tree::Records;
use std::collections::BTreeMap;

// Takes out what a transaction wrote.
pub(crate) fn take_names(written: &mut BTreeMap<TxnId, OwnNames>, txn: TxnId) -> Option<OwnNames>
    ensures taken { result ≡ at_txn txn written.old.entries }
    ensures names { (t : Txn) → names_at t written.new.entries ≡ (if is_same_txn txn t then [] else names_at t written.old.entries) }
    ensures had { (t : Txn) → had_at t written.new.entries ≡ (if is_same_txn txn t then 0 else had_at t written.old.entries) }
    ensures firsts { (t : Txn) → first_at t written.new.entries ≡ (if is_same_txn txn t then 0 else first_at t written.old.entries) }
{
    written.remove(&txn)
}

// Gives up what a transaction wrote.
fn give_up<T: Records>(trees: &mut T, taken: Option<OwnNames>)
    ensures cells { HasChangedAll (T.cells trees.old) (T.cells trees.new) (option_map_or (λ o. o.names.items) taken []) after_abort }
    ensures grew { T.grew trees.old trees.new [] }
    ensures trees { (d : ℕ) → T.has_tree trees.new d ≡ T.has_tree trees.old d }
    ensures waits { T.waits trees.new ≤ T.waits trees.old }
{
    match taken {
        Some(own) => {
            trees.abort(own.names.as_slice());
            drop(own);
        }
        None => {}
    }
}

impl<D: Disk> Environment<D> {
    // Ends a session's transaction without a commit: what it wrote is given up, and its locks go. Nothing is
    // logged, and it takes no memory.
    pub(crate) fn abandon(&mut self, session: u8, txn: TxnId)
        ensures { HasAbandoned self.old self.new session txn }
    {
        self.engine.trees.are_ordered();
        let taken = take_names(&mut self.written.by_txn, txn);
        give_up(&mut self.engine.trees, taken);
        self.engine.trees.are_ordered();
        self.sessions.end(session, txn);
    }

    // Ends a session. Nothing is logged, and it takes no memory.
    pub(crate) fn leave(&mut self, session: u8)
        ensures stands { (most : ℕ) (st : Standing) → StandsAt most D.meaning self.old st → (st.fault ≡ None → AreNumbered st.last_txn st.actives)
            → StandsAt most D.meaning self.new (after_session session st) }
        ensures log { IsUnchanged self.old.engine.trees.log self.new.engine.trees.log }
        ensures kept { self.new.engine.kept ≡ self.old.engine.kept }
        ensures near { (st : Standing) → AreSessionsAt self.old.sessions st → IsWithin (reach_of self.new) (reach_of self.old) }
    {
        self.sessions.withdraw(session);
        let txn = match self.sessions.of_session(session) {
            Some(active) => active.txn,
            None => return,
        };
        self.abandon(session, txn);
    }

    /// Ends a session: its call that waits is withdrawn, and its transaction aborted. It takes no memory.
    pub fn end_session(&mut self, session: u8)
        requires here { (most : ℕ) × (st : Standing) × IsAt most D.meaning.observable (now (D.meaning.history (disk_of self.old))) self.old st }
        ensures goes_on { (most : ℕ) (st : Standing) → IsAt most D.meaning.observable (now (D.meaning.history (disk_of self.old))) self.old st
            → HasDone most D.meaning.observable (now (D.meaning.history (disk_of self.new))) self.old self.new st (End session) }
        ensures crash { D.meaning.observable ≡ true → (most : ℕ) (st : Standing) (start : History) (journal : List Event)
            → IsAt most D.meaning.observable (now (D.meaning.history (disk_of self.old))) self.old (after_events st journal)
            → IsGuarded most st start (D.meaning.history (disk_of self.old)) self.old journal
            → IsGuarded most st start (D.meaning.history (disk_of self.new)) self.new (journal ++ End session ∷ []) }
        ensures within { IsWithin (reach_of self.new) (reach_of self.old) }
        ensures bounds { CanGoOn self.old → CanGoOn self.new }
        ensures same_disk { disk_of self.new ≡ disk_of self.old }
    {
        self.leave(session);
    }
}
