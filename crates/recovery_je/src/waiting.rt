// The changes that wait for a commit.
ghost use Rattle.std.specs.Prelude.{◌≡◌, ℕ, [], ◌∷◌, IfOk, OnOk};
ghost use Rattle.log_meaning.specs.Redo.{pushed, emptied};
ghost use Rattle.recovery_je.specs.Redoing.{waits};

use crate::waiting_change::WaitingChange;
use je_order::List;
use std::alloc::{AllocError, Global};
use std::collections::BTreeMap;
use std::marker::Model;

/// The changes of transactions that are not committed, by transaction and in their order: seen as the
/// list of the transactions' numbers, each with its changes. No method goes over the changes of other
/// transactions.
#[derive(Drop)]
pub(crate) struct Waiting {
    changes: BTreeMap<u64, List<WaitingChange>>,
}

impl Model for Waiting {
    ghost use Rattle.std.specs.Prelude.{List as Items, ℕ};
    ghost use Rattle.log_trees.specs.Changes.{LoggedChange};

    ghost Value = { Items (ℕ × Items LoggedChange) };

    ghost view = { λ a. a.changes.entries };
}

// The one change.
fn one_change(alloc: Global, change: WaitingChange) -> Result<List<WaitingChange>, AllocError>
    ensures { IfOk result (λ changes. changes ≡ change ∷ []) }
{
    let mut changes = List::new(alloc);
    changes.push(change)?;
    Ok(changes)
}

impl Waiting {
    /// No changes. It takes no memory.
    pub(crate) fn new(alloc: Global) -> Waiting
        ensures { (txn : ℕ) → waits result txn ≡ [] }
    {
        Waiting {
            changes: BTreeMap::new(alloc),
        }
    }

    /// Puts a change behind the transaction's others.
    pub(crate) fn push(
        &mut self,
        alloc: Global,
        txn: u64,
        change: WaitingChange,
    ) -> Result<(), AllocError>
        ensures { OnOk result ((t : ℕ) → waits self.new t ≡ pushed txn change (waits self.old) t) }
    {
        match self.changes.get_mut(&txn) {
            Some(changes) => {
                changes.push(change)?;
                Ok(())
            }
            None => {
                let changes = one_change(alloc, change)?;
                self.changes.insert(txn, changes)?;
                Ok(())
            }
        }
    }

    /// Takes the transaction's changes out. It takes no memory.
    pub(crate) fn take(&mut self, alloc: Global, txn: u64) -> List<WaitingChange>
        ensures taken { result ≡ waits self.old txn }
        ensures rest { (t : ℕ) → waits self.new t ≡ emptied txn (waits self.old) t }
    {
        match self.changes.remove(&txn) {
            Some(changes) => changes,
            None => List::new(alloc),
        }
    }
}
