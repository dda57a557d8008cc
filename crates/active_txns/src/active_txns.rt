// The transactions under way.
ghost use Rattle.std.specs.Prelude.{List as Items, filter, length, ◌==◌, ℕ, ◌≡◌, ◌++◌, ◌∷◌, [], None, OnOk, OnErr};
ghost use Rattle.std.specs.Option.{option_copied};
ghost use Rattle.je_answers.specs.Standing.{active_of, with_at};
ghost use Rattle.je_answers.specs.After.{marked, without_session};
ghost use Rattle.active_txns.specs.Marks.{marked_for, HaveOwnSessions};
ghost use Rattle.active_txns.specs.Own.{AreCounted, counted, counts_at, has_some};
ghost use Rattle.store_model.specs.declared.record_change.RecordChange.{RecordChange as Changed};
ghost use Rattle.je_answers.specs.declared.active.Active.{Active as Begun};
ghost use Rattle.je_order.specs.declared.txn_id.TxnId.{TxnId};

use crate::OwnCounts;
use crate::marking::mark_in;
use crate::owned::{push_at, read_at, remove_at, set_at};
use je_answers::Active;
use je_order::{List, TxnId};
use std::alloc::{AllocError, Global};
use std::collections::BTreeMap;
use store_model::{Durability, Isolation};

/// The transactions under way, in the order of their numbers, and how much each has changed so far. It is made
/// once and lives as long as the environment. A session has one transaction at most.
#[derive(Drop)]
pub struct ActiveTxns {
    actives: Vec<Active>,
    // The counts of what each has changed.
    own: BTreeMap<TxnId, OwnCounts>,
}

impl ActiveTxns {
    /// No transaction. It takes no memory.
    pub fn new(alloc: Global) -> ActiveTxns
        ensures actives { result.actives.items ≡ [] }
        ensures own { AreCounted result.own.entries (λ n. []) }
    {
        ActiveTxns {
            actives: Vec::new(alloc),
            own: BTreeMap::new(alloc),
        }
    }

    /// Begins a transaction of a session; its number is greater than those of the others. The only error
    /// is out of memory, and nothing is changed by it.
    pub fn begin(
        &mut self,
        txn: TxnId,
        session: u8,
        level: Isolation,
        durability: Durability,
        waits: bool,
        is_auto: bool,
    ) -> Result<(), AllocError>
        ensures actives { OnOk result (self.new.actives.items ≡ self.old.actives.items ++ record { txn = txn; session = session; level = level; durability = durability; waits = waits; is_auto = is_auto; deadlock = None } ∷ []) }
        ensures own { self.new.own.entries ≡ self.old.own.entries }
        ensures err { OnErr result (self.new.actives.items ≡ self.old.actives.items) }
    {
        let active = Active {
            txn,
            session,
            level,
            durability,
            waits,
            is_auto,
            deadlock: None,
        };
        self.actives.push(active)?;
        Ok(())
    }

    /// The transaction of a session.
    pub fn of_session(&self, session: u8) -> Option<&Active>
        ensures { option_copied result ≡ active_of session self.now.actives.items }
    {
        self.actives.iter().find(|active| active.session == session)
    }

    /// Whether no transaction is under way.
    pub fn is_empty(&self) -> bool
        ensures { result ≡ (length self.now.actives.items == 0) }
    {
        self.actives.is_empty()
    }

    /// The transactions, in the order of their numbers.
    pub fn actives(&self) -> &[Active]
        ensures { result.now ≡ self.now.actives.items }
    {
        self.actives.as_slice()
    }

    /// How many transactions have changed something.
    pub fn owing(&self) -> usize
        ensures { result ≡ length (filter (λ a. has_some (counts_at a.txn self.now.own.entries)) self.now.actives.items) }
    {
        self.actives
            .iter()
            .filter(|active| self.has_own(active.txn))
            .count()
    }

    // Whether a transaction has changed something.
    fn has_own(&self, txn: TxnId) -> bool
        ensures { result ≡ has_some (counts_at txn self.now.own.entries) }
    {
        read_at(&self.own, txn).len != 0
    }

    /// Takes back the last transaction that was begun. It takes no memory.
    pub fn undo_begin(&mut self)
        ensures actives { (as_ : Items Begun) (a : Begun) → self.old.actives.items ≡ as_ ++ a ∷ [] → self.new.actives.items ≡ as_ }
        ensures own { self.new.own.entries ≡ self.old.own.entries }
    {
        let _ = self.actives.pop();
    }

    /// How many changes a transaction has made so far, and how many of them set a name.
    pub fn own(&self, txn: TxnId) -> OwnCounts
        ensures { result ≡ counts_at txn self.now.own.entries }
    {
        read_at(&self.own, txn)
    }

    /// Counts changes that are put at the end of a transaction's. The only error is out of memory, or that a
    /// number ends; nothing is changed by it.
    pub fn push(&mut self, txn: TxnId, counts: OwnCounts) -> Result<(), AllocError>
        ensures own { OnOk result ((own : ℕ → Items (ℕ × Changed)) (more : Items (ℕ × Changed)) → counts ≡ counted more → AreCounted self.old.own.entries own → AreCounted self.new.own.entries (with_at txn.0 (own txn.0 ++ more) own)) }
        ensures actives { self.new.actives.items ≡ self.old.actives.items }
        ensures err { OnErr result (self.new.own.entries ≡ self.old.own.entries) }
    {
        push_at(&mut self.own, txn, counts)
    }

    /// Sets a transaction's counts back to those before its last changes, as where the log did not take these.
    /// It takes no memory.
    pub fn set_back(&mut self, txn: TxnId, counts: OwnCounts)
        ensures own { (own : ℕ → Items (ℕ × Changed)) (more : Items (ℕ × Changed)) → counts ≡ counted (own txn.0) → AreCounted self.old.own.entries (with_at txn.0 (own txn.0 ++ more) own) → AreCounted self.new.own.entries own }
        ensures actives { self.new.actives.items ≡ self.old.actives.items }
    {
        set_at(&mut self.own, txn, counts);
    }

    /// Marks a session's transaction as the victim of this cycle; it can then only be aborted. It takes no
    /// memory.
    pub fn mark(&mut self, session: u8, cycle: List<TxnId>)
        ensures actives { self.new.actives.items ≡ marked_for session cycle self.old.actives.items }
        ensures marked { HaveOwnSessions self.old.actives.items → (line : ℕ) → self.new.actives.items ≡ marked (record { session = session; line = line; cycle = cycle } ∷ []) self.old.actives.items }
        ensures own { self.new.own.entries ≡ self.old.own.entries }
    {
        mark_in(self.actives.as_mut_slice(), session, cycle);
    }

    /// Ends a session's transaction, with what it changed. It takes no memory.
    pub fn end(&mut self, session: u8, txn: TxnId)
        ensures actives { self.new.actives.items ≡ without_session session self.old.actives.items }
        ensures own { (own : ℕ → Items (ℕ × Changed)) → AreCounted self.old.own.entries own → AreCounted self.new.own.entries (with_at txn.0 [] own) }
    {
        self.actives.retain(|active| active.session != session);
        remove_at(&mut self.own, txn);
    }
}
