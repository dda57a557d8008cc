// Changes that are one transaction.
ghost use Rattle.std.specs.Prelude.{◌≡◌, ◌≤◌, ◌+◌, ℕ, suc, length, List, [], ◌∷◌, true, false, IfErr, IfOk, IfSome, OnOk, OnErr, if◌then◌else◌};
ghost use Rattle.std.specs.List.{AllByRecursion};
ghost use Rattle.log_entry.specs.Body.{IsEntry};
ghost use Rattle.log_entry.specs.declared.entry.Entry.{Entry};
ghost use Rattle.log_entry.specs.declared.entry.Entry.TheVariants.{Commit};
ghost use Rattle.record_map.specs.Cells.{value_at};
ghost use Rattle.record_tree.specs.Logged.{entry_for, most_entries, IsLimit, IsUndone, IsEndOf, IsFront, LogsTransaction};
ghost use Rattle.record_tree.specs.Occupied.{AreFewNew, AreSame, IsFreeFor, write_in};
ghost use Rattle.record_tree.specs.declared.tree_err.TreeErr.{TreeErr as Reason};
ghost use Rattle.txn_core.specs.Known.{IsQuiet};
ghost use Rattle.txn_core.specs.Transactions.{is_gone, changed_names, IsCommittedAmong, HasCommitted, HasTreesAfter, LeavesWrites};

use je_order::TxnId;
use record_tree::{Records, TreeChange, TreeErr, TreeName};
use std::alloc::{AllocError, Global};

/// The names that the changes change.
pub fn changed_names(alloc: Global, changes: &[TreeChange]) -> Result<Vec<TreeName>, AllocError>
    ensures { IfOk result (λ names. names.items ≡ changed_names changes.now) }
{
    let mut names = Vec::new(alloc);
    for change in changes {
        names.push(TreeName {
            db: change.db,
            name: change.name.copy(alloc)?,
        })?;
    }
    Ok(names)
}

// Drops the tree of the database that goes, if one does.
fn drop_gone<T: Records>(trees: &mut T, gone: Option<u32>)
    ensures cells { (d : ℕ) → T.cells trees.new d ≡ (if is_gone d gone then [] else T.cells trees.old d) }
    ensures trees { (d : ℕ) → T.has_tree trees.new d ≡ (if is_gone d gone then false else T.has_tree trees.old d) }
    ensures grew { T.grew trees.old trees.new [] }
    ensures left { (owed : ℕ) → T.has_room trees.old owed → T.has_room trees.new owed }
    ensures waits { T.waits trees.new ≤ T.waits trees.old }
{
    match gone {
        Some(db) => trees.drop_db(db),
        None => {}
    }
}

/// Commits the changes of these names, which are those of the transaction, logs its Commit, for which there is room, and drops the tree of the
/// database that goes. The one error is Fault.
pub fn commit_names<T: Records>(
    trees: &mut T,
    txn: TxnId,
    names: &[TreeName],
    gone: Option<u32>,
) -> Result<(), TreeErr>
    requires room { (owed : ℕ) × T.has_room trees.old (suc owed) }
    requires own { AllByRecursion (λ n. IsFreeFor txn (write_in (value_at n.name (T.cells trees.old n.db)))) names.now }
    ensures left { (owed : ℕ) → T.has_room trees.old (suc owed) → OnOk result (T.has_room trees.new owed) }
    ensures cells { OnOk result (IsCommittedAmong names.now gone (T.cells trees.old) (T.cells trees.new)) }
    ensures trees { OnOk result ((d : ℕ) → T.has_tree trees.new d ≡ (if is_gone d gone then false else T.has_tree trees.old d)) }
    ensures grew { OnOk result (T.grew trees.old trees.new (Commit txn ∷ [])) }
    ensures waits { T.waits trees.new ≤ T.waits trees.old }
    ensures by_fault { IfErr result (λ e. e ≡ Reason.Fault) }
    ensures tried { OnErr result ((front : List Entry) × IsFront front (Commit txn ∷ []) × T.tried trees.old trees.new front) }
{
    trees.commit(txn, names)?;
    drop_gone(trees, gone);
    Ok(())
}

/// Makes changes as one transaction: writes them, logs its Commit, and then drops the tree of the database `gone` with its
/// records. `owed` Commits have room in the log before and behind it, that of this transaction among them. No other
/// transaction has a change of the names that are changed, and after it they have none. Of the changes of each database at
/// most one is of a name that is not occupied.
///
/// Full and IdsEnded: the log, or the numbers of nodes, have no room for the changes and the Commits. Neither these nor Memory
/// change anything. Fault: the disk failed; the log may have a front of the transaction, and what the trees have is not
/// said.
pub fn commit_changes<T: Records>(
    trees: &mut T,
    alloc: Global,
    txn: TxnId,
    changes: &[TreeChange],
    gone: Option<u32>,
    owed: u32,
) -> Result<(), TreeErr>
    requires free { AllByRecursion (λ c. IsFreeFor txn (write_in (value_at c.name (T.cells trees.old c.db)))) changes.now }
    requires few { AreFewNew (T.cells trees.old) changes.now }
    requires some { 1 ≤ owed }
    requires trees { AllByRecursion (λ c. T.has_tree trees.old c.db ≡ true) changes.now }
    requires new { AllByRecursion (λ c. IfSome c.makes (λ d. T.has_tree trees.old d ≡ false)) changes.now }
    requires entries { AllByRecursion (λ c. IsEntry (entry_for txn c.db c.name c.value)) changes.now }
    ensures values { OnOk result (HasCommitted changes.now gone (T.cells trees.old) (T.cells trees.new)) }
    ensures writes { OnOk result (LeavesWrites changes.now gone (T.cells trees.old) (T.cells trees.new)) }
    ensures quiet { IsQuiet (T.cells trees.old) → OnOk result (IsQuiet (T.cells trees.new)) }
    ensures left { OnOk result ((n : ℕ) → owed ≡ suc n → T.has_room trees.new n) }
    ensures trees { OnOk result (HasTreesAfter changes.now gone (T.has_tree trees.old) (T.has_tree trees.new)) }
    ensures grew { OnOk result ((entries : List Entry) × LogsTransaction txn changes.now entries × T.grew trees.old trees.new entries × (length entries + T.waits trees.new ≤ T.waits trees.old + (most_entries (length changes.now) + 1))) }
    ensures tried { IsEndOf Reason.Fault result ((entries : List Entry) × (front : List Entry) × LogsTransaction txn changes.now entries × IsFront front entries × T.tried trees.old trees.new front) }
    ensures limited { IfErr result (λ e. IsLimit e → T.limit trees.old changes.now owed ≡ Some e) }
    ensures room { OnOk result (T.limit trees.old changes.now owed ≡ None) }
    ensures fault_room { IsEndOf Reason.Fault result (T.limit trees.old changes.now owed ≡ None) }
    ensures same { IfErr result (λ e. IsUndone e → AreSame (T.cells trees.old) (T.cells trees.new) × ((d : ℕ) → T.has_tree trees.new d ≡ T.has_tree trees.old d) × T.grew trees.old trees.new [] × (T.waits trees.new ≡ T.waits trees.old)) }
{
    let Ok(names) = changed_names(alloc, changes) else {
        return Err(TreeErr::Memory);
    };
    trees.write_all(alloc, txn, changes, owed)?;
    commit_names(trees, txn, names.as_slice(), gone)
}
