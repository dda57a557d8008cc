// What a call on the catalog comes to.
ghost use Rattle.std.specs.Prelude.{◌≡◌, ◌+◌, ◌-◌, ◌<◌, ◌^◌, ◌∷◌, true, ℕ, [], map, Some, None, IfOk, OnOk, length};
ghost use Rattle.std.specs.Int.{w32, to_be_bytes};
ghost use Rattle.store_model.specs.Making.{IsWithinLimits};
ghost use Rattle.store_model.specs.Refusals.{made_by};
ghost use Rattle.store_model.specs.Evaluation.{plain_name as name_of_key};
ghost use Rattle.log_replay.specs.Rows.{is_environment, IsRising, store_of};
ghost use Rattle.log_replay.specs.Kept.{Fits};
ghost use Rattle.log_replay.specs.Logging.{record_named, number_named};
ghost use Rattle.db_catalog.specs.Catalog.{IsKind};
ghost use Rattle.db_catalog.specs.Planning.{index_in_catalog, is_catalog_call, outcome_of};
ghost use Rattle.txn_core.specs.Known.{committed, known_of};
ghost use Rattle.txn_core.specs.Planning.{gone_by};
ghost use Rattle.txn_core.specs.Plans.{catalog_planned, databases_by, number_made, records_without, HasFitting, IsNamed, LogsCatalog, IsCatalogPlan};

use crate::catalog_rows::CatalogRows;
use crate::planned::Planned;
use crate::planned_changes::PlannedChanges;
use crate::reading::data_of;
use crate::walking::without_db;
use db_catalog::{CATALOG, CatalogChange, DbRecord, catalog_changes, plan};
use je_order::{Octets, Word};
use log_replay::number_of;
use record_map::SortKey;
use record_tree::{Records, TreeChange};
use std::alloc::{AllocError, Global};
use store_model::{Call, Change, Extract, Index, Totals};

// The name of a database's record.
fn plain_name(alloc: Global, db: &Word) -> Result<SortKey, AllocError>
    ensures { IfOk result (λ name. name ≡ name_of_key db.now) }
{
    SortKey::plain(alloc, db.as_slice())
}

// A change of the catalog's records as what is logged of it. One that sets a record makes the database of the number.
fn change_of(
    alloc: Global,
    makes: Option<u32>,
    change: &CatalogChange,
) -> Result<TreeChange, AllocError>
    ensures { IfOk result (λ planned. planned ≡ catalog_planned makes change.now) }
{
    match change {
        CatalogChange::Put { db, row } => {
            let name = plain_name(alloc, db)?;
            let value = Some(Octets::from_vec(row.to_bytes(alloc)?));
            Ok(TreeChange {
                db: CATALOG,
                name,
                value,
                makes,
            })
        }
        CatalogChange::Delete { db } => {
            let name = plain_name(alloc, db)?;
            Ok(TreeChange {
                db: CATALOG,
                name,
                value: None,
                makes: None,
            })
        }
    }
}

fn changes_of(
    alloc: Global,
    makes: Option<u32>,
    logged: &[CatalogChange],
) -> Result<Vec<TreeChange>, AllocError>
    ensures { IfOk result (λ changes. changes.items ≡ map (catalog_planned makes) logged.now) }
{
    let mut changes = Vec::new(alloc);
    'logged: for change in logged {
        changes.push(change_of(alloc, makes, change)?)?;
    }
    Ok(changes)
}

/// The number of the database of that name, 0 where there is none.
pub fn number_under<T: Records>(trees: &T, alloc: Global, db: &Word) -> Result<u32, AllocError>
    ensures { IfOk result (λ number. number ≡ number_named (committed (T.cells trees.now)) db.now) }
{
    let name = plain_name(alloc, db)?;
    match data_of(trees, CATALOG, &name) {
        Some(held) => Ok(number_of(held)),
        None => Ok(0),
    }
}

// How many databases there are after a change; out of memory where that is no number.
fn databases_after(databases: u64, change: &Change) -> Result<u64, AllocError>
    ensures { IfOk result (λ after. after ≡ databases_by databases change.now) }
{
    match change {
        Change::Make { .. } | Change::MakeIndex { .. } => {
            databases.checked_add(1).ok_or(AllocError)
        }
        Change::Remove { .. } => Ok(databases.saturating_sub(1)),
        _ => Ok(databases),
    }
}

// So many records without those of the database that goes.
fn records_left<T: Records>(trees: &T, records: u64, gone: Option<u32>) -> u64
    ensures { result ≡ records_without records (committed (T.cells trees.now)) gone }
{
    match gone {
        Some(number) => without_db(trees, number, records),
        None => records,
    }
}

// The number of the database whose tree goes with a change.
fn gone_with<T: Records>(
    trees: &T,
    alloc: Global,
    change: &Change,
) -> Result<Option<u32>, AllocError>
    ensures { IfOk result (λ gone. gone ≡ gone_by (committed (T.cells trees.now)) change.now) }
{
    match change {
        Change::Remove { db } | Change::Empty { db } => {
            Ok(Some(number_under(trees, alloc, db)?))
        }
        _ => Ok(None),
    }
}

// The database number allocated last after a change, which may be past the last one.
fn last_db_after(last_db: u32, change: &Change) -> u64
    ensures { result ≡ last_db + made_by (change.now ∷ []) }
{
    match change {
        Change::Make { .. } | Change::MakeIndex { .. } | Change::Empty { .. } => last_db as u64 + 1,
        _ => last_db as u64,
    }
}

// The next number, which a record of the catalog has in four bytes: behind the last one its bytes begin
// anew, and the change that has it is not logged.
fn next_number(last_db: u32) -> u32
    ensures { to_be_bytes w32 result ≡ to_be_bytes w32 (last_db + 1) }
{
    match last_db.checked_add(1) {
        Some(number) => number,
        None => 0,
    }
}

// The number of the database that a change makes, where it is a number.
fn number_made_by(last_db: u32, change: &Change) -> Option<u32>
    ensures { last_db + made_by (change.now ∷ []) < 2 ^ 32 → result ≡ number_made (last_db + 1) change.now }
{
    match change {
        Change::Make { .. } | Change::MakeIndex { .. } | Change::Empty { .. } =>
            last_db.checked_add(1),
        _ => None,
    }
}

// The name that a change gives a database is one, as each `Word` is.
fn see_name(change: &Change)
    ensures { IsNamed change.now }
{
    match change {
        Change::Make { db, .. } => {
            let _ = db.as_slice();
        }
        Change::MakeIndex { db, .. } => {
            let _ = db.as_slice();
        }
        Change::Rename { to, .. } => {
            let _ = to.as_slice();
        }
        _ => {}
    }
}

// The record of a database has fields of their widths.
fn see_record<T: Records>(trees: &T, alloc: Global, db: &Word) -> Result<(), AllocError>
    ensures { OnOk result (Fits (record_named (committed (T.cells trees.now)) db.now)) }
{
    let name = plain_name(alloc, db)?;
    match data_of(trees, CATALOG, &name) {
        Some(held) => {
            let _ = DbRecord::from_bytes(held);
            Ok(())
        }
        None => Ok(()),
    }
}

fn see_fields(primary: u32, extract: &Extract)
    requires { IsWithinLimits extract.now }
    ensures { IsKind (index_in_catalog primary extract.now) }
{
    match extract {
        Extract::ByteSlice { offset, length } => {
            let _ = (primary, *offset, *length);
        }
        Extract::Field { number, separator } => {
            let _ = (primary, *number, *separator);
        }
    }
}

// The record of an index that is made has fields of their widths.
fn see_index<T: Records>(trees: &T, alloc: Global, index: &Index) -> Result<(), AllocError>
    ensures { OnOk result (IsKind (index_in_catalog (number_named (committed (T.cells trees.now)) index.now.primary) index.now.extract)) }
{
    let primary = number_under(trees, alloc, &index.primary)?;
    see_fields(primary, &index.extract);
    Ok(())
}

// What a change puts into the catalog has fields of their widths.
fn see_fitting<T: Records>(trees: &T, alloc: Global, change: &Change) -> Result<(), AllocError>
    ensures { OnOk result (HasFitting (committed (T.cells trees.now)) change.now) }
{
    match change {
        Change::MakeIndex { index, .. } => see_index(trees, alloc, index),
        Change::Rename { db, .. } => see_record(trees, alloc, db),
        Change::Empty { db } => see_record(trees, alloc, db),
        _ => Ok(()),
    }
}

// What logs a change of the catalog.
pub fn log_catalog<T: Records>(
    catalog: &CatalogRows<'_, T>,
    alloc: Global,
    totals: Totals,
    last_db: u32,
    change: &Change,
) -> Result<PlannedChanges, AllocError>
    ensures { IfOk result (LogsCatalog (known_of (T.cells catalog.now.trees.now) totals last_db) change.now) }
{
    see_name(change);
    see_fitting(catalog.trees, alloc, change)?;
    let databases = databases_after(totals.databases, change)?;
    let gone = gone_with(catalog.trees, alloc, change)?;
    let records = records_left(catalog.trees, totals.records, gone);
    let number = next_number(last_db);
    let makes = number_made_by(last_db, change);
    let logged = catalog_changes(alloc, catalog, number, change)?;
    let changes = changes_of(alloc, makes, logged.as_slice())?;
    drop(logged);
    Ok(PlannedChanges {
        changes,
        last_db: last_db_after(last_db, change),
        totals: Totals { databases, records },
        gone,
    })
}

/// What a call on the catalog comes to.
pub fn plan_catalog<T: Records>(
    trees: &T,
    alloc: Global,
    totals: Totals,
    last_db: u32,
    call: &Call,
) -> Result<Planned, AllocError>
    requires environment { is_environment (committed (T.cells trees.now)) ≡ true }
    requires rising { IsRising (committed (T.cells trees.now) 0) }
    requires count { totals.databases ≡ length (committed (T.cells trees.now) 0) }
    requires call { is_catalog_call call.now ≡ true }
    ensures { IfOk result (IsCatalogPlan (known_of (T.cells trees.now) totals last_db) (outcome_of call.now (store_of (committed (T.cells trees.now))))) }
{
    let catalog = CatalogRows {
        trees,
        databases: totals.databases,
    };
    let planned = plan(alloc, &catalog, call)?;
    let answer = planned.answer;
    let changes = planned.changes;
    match changes.as_slice() {
        [] => Ok(Planned::Answered(answer)),
        [change, ..] => {
            drop(answer);
            Ok(Planned::Logs(log_catalog(&catalog, alloc, totals, last_db, change)?))
        }
    }
}
