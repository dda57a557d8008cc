// A call's own changes as what is logged and written of them.
ghost use Rattle.std.specs.Prelude.{◌≡◌, IfOk, IfSome, true, map, count_by};
ghost use Rattle.std.specs.List.{AllByRecursion};
ghost use Rattle.std.specs.Option.{is_some};
ghost use Rattle.record_tree.specs.Occupied.{AreFewNew, occupied_by};
ghost use Rattle.store_model.specs.declared.isolation.Isolation.TheVariants.{RepeatableRead};
ghost use Rattle.txn_views.specs.Seen.{seen_value};
ghost use Rattle.txn_log.specs.Own.{tree_of};
ghost use Rattle.txn_views.specs.Laws.{own_name, own_names};
ghost use Rattle.environment.specs.Writing.{has_record};

use cursor_je::name_ref::name_ref;
use je_order::TxnId;
use record_map::{Cell, SortKey};
use record_tree::{Records, TreeChange, TreeName};
use std::alloc::{AllocError, Global};
use store_model::RecordChange;
use txn_core::held_edge::held_name;
use txn_core::reading::committed_in;

// A change of a record as what is logged of it.
fn tree_change(alloc: Global, db: u32, change: RecordChange) -> Result<TreeChange, AllocError>
    ensures { IfOk result (λ planned. planned ≡ tree_of (db, change)) }
{
    match change {
        RecordChange::Set { at, value } => Ok(TreeChange {
            db,
            name: SortKey::new(alloc, at)?,
            value: Some(value),
            makes: None,
        }),
        RecordChange::Unset { at } => Ok(TreeChange {
            db,
            name: SortKey::new(alloc, at)?,
            value: None,
            makes: None,
        }),
    }
}

// Changes, each with its database's number, as what is logged of them.
pub(crate) fn tree_changes(
    alloc: Global,
    changes: Vec<(u32, RecordChange)>,
) -> Result<Vec<TreeChange>, AllocError>
    ensures { IfOk result (λ planned. planned.items ≡ map tree_of changes.items) }
{
    let mut planned = Vec::new(alloc);
    'changes: for (db, change) in changes {
        planned.push(tree_change(alloc, db, change)?)?;
    }
    Ok(planned)
}

fn copy_name(alloc: Global, db: u32, change: &RecordChange) -> Result<TreeName, AllocError>
    ensures { IfOk result (λ name. name ≡ own_name (db, change.now)) }
{
    let at = match change {
        RecordChange::Set { at, .. } => at,
        RecordChange::Unset { at } => at,
    };
    let name = held_name(alloc, name_ref(at))?;
    Ok(TreeName { db, name })
}

// The names of these changes in the trees.
pub(crate) fn copy_names(
    alloc: Global,
    changes: &[(u32, RecordChange)],
) -> Result<Vec<TreeName>, AllocError>
    ensures { IfOk result (λ names. names.items ≡ own_names changes.now) }
{
    let mut names = Vec::new(alloc);
    for change in changes {
        names.push(copy_name(alloc, change.0, &change.1)?)?;
    }
    Ok(names)
}

// Whether a cell has data that the transaction sees: its own change, else what is committed.
fn has_data(cell: &Cell, txn: TxnId) -> bool
    ensures { result ≡ is_some (seen_value RepeatableRead txn (occupied_by cell.now)) }
{
    if let Some(write) = &cell.write {
        if write.txn == txn {
            return write.value.is_some();
        }
    }
    committed_in(cell).is_some()
}

// Whether the name of a change has a record that the transaction sees.
fn holds<T: Records>(trees: &T, txn: TxnId, change: &TreeChange) -> bool
    ensures { result ≡ has_record txn (T.cells trees.now) change.now }
{
    match trees.get(change.db, &change.name) {
        Ok(Some((_, cell))) => has_data(cell, txn),
        Ok(None) => false,
        Err(_) => unreachable!(),
    }
}

// Whether each of these names has one, of those of a database.
fn have_in<T: Records>(trees: &T, txn: TxnId, db: u32, changes: &[TreeChange]) -> bool
    ensures { result ≡ true → AllByRecursion (λ e. db ≡ e.db → has_record txn (T.cells trees.now) e ≡ true) changes.now }
{
    for change in changes {
        if change.db == db && !holds(trees, txn, change) {
            return false;
        }
    }
    true
}

// How many of these names have one; None where of those of a database more than one has none.
pub(crate) fn count_had<T: Records>(trees: &T, txn: TxnId, changes: &[TreeChange]) -> Option<u64>
    ensures counted { IfSome result (λ had. had ≡ count_by (has_record txn (T.cells trees.now)) changes.now) }
    ensures few { IfSome result (λ had. AreFewNew (T.cells trees.now) changes.now) }
{
    let mut count = 0u64;
    let mut rest = changes;
    while let Some((change, later)) = rest.split_first() {
        if holds(trees, txn, change) {
            count += 1;
        } else if !have_in(trees, txn, change.db, later) {
            return None;
        }
        rest = later;
    }
    Some(count)
}
