// What a call that is a transaction of its own logs.
ghost use Rattle.std.specs.Prelude.{◌≡◌, ◌+◌, ℕ, true, count_by, IfOk, IfSome};
ghost use Rattle.std.specs.List.{AllByRecursion};
ghost use Rattle.txn_core.specs.Known.{committed};
ghost use Rattle.txn_core.specs.Planning.{HaveFewNew};
ghost use Rattle.environment.specs.Auto.{IsAutoLog};
ghost use Rattle.environment.specs.Changing.{has_data, sets_data};

use crate::own_changes::tree_changes;
use engine::Kept;
use record_tree::{Records, TreeChange};
use std::alloc::{AllocError, Global};
use store_model::{RecordChange, Totals};
use txn_core::PlannedChanges;
use txn_core::reading::data_of;

// Whether the name of a change has a committed record.
fn is_there<T: Records>(trees: &T, change: &TreeChange) -> bool
    ensures { result ≡ has_data (committed (T.cells trees.now)) change.now }
{
    data_of(trees, change.db, &change.name).is_some()
}

// Whether those of some changes that are in the database of a number are of names that have committed records.
fn are_there<T: Records>(trees: &T, db: u32, changes: &[TreeChange]) -> bool
    ensures { result ≡ true → AllByRecursion (λ c. db ≡ c.db → has_data (committed (T.cells trees.now)) c ≡ true) changes.now }
{
    for change in changes {
        if change.db == db && !is_there(trees, change) {
            return false;
        }
    }
    true
}

// How many of some changes are of names that have committed records; None where more than one of those of a database is of a
// name that has none.
fn count_there<T: Records>(trees: &T, changes: &[TreeChange]) -> Option<u64>
    ensures counted { IfSome result (λ had. had ≡ count_by (has_data (committed (T.cells trees.now))) changes.now) }
    ensures few { IfSome result (λ had. HaveFewNew (committed (T.cells trees.now)) changes.now) }
{
    let mut count = 0u64;
    let mut rest = changes;
    while let Some((change, later)) = rest.split_first() {
        if is_there(trees, change) {
            count += 1;
        } else if !are_there(trees, change.db, later) {
            return None;
        }
        rest = later;
    }
    Some(count)
}

// How many of them set a record.
fn count_set(changes: &[TreeChange]) -> u64
    ensures { result ≡ count_by sets_data changes.now }
{
    let mut count = 0u64;
    for change in changes {
        if change.value.is_some() {
            count += 1;
        }
    }
    count
}

// How many records there are behind changes that set so many, and so many of which are of names that had one.
fn records_behind(records: u64, set: u64, had: u64) -> Option<u64>
    ensures { IfSome result (λ after. after + had ≡ records + set) }
{
    records.checked_add(set)?.checked_sub(had)
}

/// What is logged of changes of committed records, each with its database's number. A call's changes of one database are of
/// one name at most that has no record; were it otherwise, this would run out of memory.
pub(crate) fn log_of<T: Records>(
    trees: &T,
    alloc: Global,
    kept: &Kept,
    changes: Vec<(u32, RecordChange)>,
) -> Result<PlannedChanges, AllocError>
    ensures { IfOk result (IsAutoLog (committed (T.cells trees.now)) kept.now.totals kept.now.last_db changes.items) }
{
    let changes = tree_changes(alloc, changes)?;
    let Some(had) = count_there(trees, changes.as_slice()) else {
        return Err(AllocError);
    };
    let set = count_set(changes.as_slice());
    let Some(records) = records_behind(kept.totals.records, set, had) else {
        return Err(AllocError);
    };
    Ok(PlannedChanges {
        changes,
        last_db: kept.last_db as u64,
        totals: Totals {
            databases: kept.totals.databases,
            records,
        },
        gone: None,
    })
}
