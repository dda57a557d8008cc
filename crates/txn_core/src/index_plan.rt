// What the making of an index comes to, which is filled at once.
ghost use Rattle.std.specs.Prelude.{◌≡◌, ◌++◌, ◌+◌, true, map, length, IfOk, OnOk};
ghost use Rattle.std.specs.List.{AllByRecursion};
ghost use Rattle.store_model.specs.declared.kind.Kind.TheVariants.{Plain};
ghost use Rattle.store_model.specs.Store.{HasRisingNames};
ghost use Rattle.store_model.specs.Indexes.{index_pairs};
ghost use Rattle.secondary.specs.Pairs.{keyed_pairs, name_in, pair_in, pairs_in};
ghost use Rattle.log_replay.specs.Rows.{is_environment, IsRising};
ghost use Rattle.log_replay.specs.Logging.{number_named};
ghost use Rattle.txn_core.specs.Known.{committed, known_of};
ghost use Rattle.txn_core.specs.Fills.{pair_planned, records_at, IsIndexPlan, IsNumberNext, IsShortPair, FillsWith};

use crate::catalog_plan::{log_catalog, number_under};
use crate::catalog_rows::CatalogRows;
use crate::planned::Planned;
use crate::planned_changes::PlannedChanges;
use crate::reading::next;
use db_catalog::plan_index;
use je_order::{KEY_LIMIT, Name, Octets, Word};
use record_map::{EdgeRef, SortKey};
use record_tree::{Records, TreeChange};
use secondary::{KeyPair, push_pair, sort_pairs};
use std::alloc::{AllocError, Global};
use store_model::{DUP_LIMIT, Extract, Index, Totals};

// The pairs that an index has for the committed records of the database of a number, in the order of these. It goes over them.
fn keyed_pairs<'a, T: Records>(
    trees: &'a T,
    alloc: Global,
    primary: u32,
    extract: &Extract,
) -> Result<Vec<KeyPair<'a>>, AllocError>
    ensures { IfOk result (λ pairs. pairs_in pairs.items ≡ keyed_pairs extract.now (records_at (committed (T.cells trees.now)) primary)) }
{
    let mut pairs = Vec::new(alloc);
    let mut from = EdgeRef::First;
    'records: while let Some((name, data)) = next(trees, primary, from) {
        push_pair(&mut pairs, extract, name.key(), data.as_slice())?;
        from = EdgeRef::Behind(name);
    }
    Ok(pairs)
}

// The same in the order in which the index has them.
fn pairs_of<'a, T: Records>(
    trees: &'a T,
    alloc: Global,
    primary: u32,
    extract: &Extract,
) -> Result<Vec<KeyPair<'a>>, AllocError>
    ensures { IfOk result (λ pairs. HasRisingNames Plain (records_at (committed (T.cells trees.now)) primary)
        → pairs_in pairs.items ≡ index_pairs extract.now (records_at (committed (T.cells trees.now)) primary)) }
{
    let mut pairs = keyed_pairs(trees, alloc, primary, extract)?;
    sort_pairs(&mut pairs);
    Ok(pairs)
}

// The name of a pair; an error where it is past its limits, which no pair of a right environment is.
fn pair_name(alloc: Global, pair: &KeyPair<'_>) -> Result<SortKey, AllocError>
    ensures name { IfOk result (λ name. name ≡ name_in pair.now) }
    ensures short { OnOk result (IsShortPair (pair_in pair.now)) }
{
    if KEY_LIMIT < pair.key.len() || DUP_LIMIT < pair.primary_key.len() {
        return Err(AllocError);
    }
    let name = Name {
        key: Octets::from_slice(alloc, pair.key)?,
        dup: Octets::from_slice(alloc, pair.primary_key)?,
    };
    SortKey::new(alloc, name)
}

// A pair as what is logged of it, in the index of the number.
fn row_of(alloc: Global, number: u32, pair: &KeyPair<'_>) -> Result<TreeChange, AllocError>
    ensures row { IfOk result (λ change. change ≡ pair_planned number (pair_in pair.now)) }
    ensures short { OnOk result (IsShortPair (pair_in pair.now)) }
{
    let name = pair_name(alloc, pair)?;
    Ok(TreeChange {
        db: number,
        name,
        value: Some(Octets::new(alloc)),
        makes: None,
    })
}

// The changes that put pairs into the index of the number come behind the others.
fn put_pairs(
    alloc: Global,
    number: u32,
    pairs: &[KeyPair<'_>],
    changes: &mut Vec<TreeChange>,
) -> Result<(), AllocError>
    ensures rows { OnOk result (changes.new.items ≡ changes.old.items ++ map (pair_planned number) (pairs_in pairs.now)) }
    ensures short { OnOk result (AllByRecursion IsShortPair (pairs_in pairs.now)) }
{
    'pairs: for pair in pairs {
        changes.push(row_of(alloc, number, pair)?)?;
    }
    Ok(())
}

// The number that the next database has in the catalog's record of it: behind the last one there is none.
fn number_next(last_db: u32) -> u32
    ensures { IsNumberNext last_db result }
{
    match last_db.checked_add(1) {
        Some(number) => number,
        None => 0,
    }
}

// How many records there are with so many more; out of memory where that is no number.
fn records_with(records: u64, more: usize) -> Result<u64, AllocError>
    ensures { IfOk result (λ all. all ≡ records + more) }
{
    records.checked_add(more as u64).ok_or(AllocError)
}

// The pairs of a database's records come behind the change that makes the index.
fn fill_index<T: Records>(
    trees: &T,
    alloc: Global,
    made: PlannedChanges,
    last_db: u32,
    index: &Index,
) -> Result<PlannedChanges, AllocError>
    ensures { IfOk result (FillsWith made last_db index.now.extract (records_at (committed (T.cells trees.now)) (number_named (committed (T.cells trees.now)) index.now.primary))) }
{
    let primary = number_under(trees, alloc, &index.primary)?;
    let pairs = pairs_of(trees, alloc, primary, &index.extract)?;
    let records = records_with(made.totals.records, pairs.len())?;
    let mut changes = made.changes;
    put_pairs(alloc, number_next(last_db), pairs.as_slice(), &mut changes)?;
    Ok(PlannedChanges {
        changes,
        last_db: made.last_db,
        totals: Totals {
            databases: made.totals.databases,
            records,
        },
        gone: made.gone,
    })
}

/// What the making of an index comes to: refusals first, else the change that makes it, and one for each of its pairs. It goes over the
/// records of the primary.
pub fn plan_filled<T: Records>(
    trees: &T,
    alloc: Global,
    totals: Totals,
    last_db: u32,
    db: &Word,
    index: &Index,
) -> Result<Planned, AllocError>
    requires environment { is_environment (committed (T.cells trees.now)) ≡ true }
    requires rising { IsRising (committed (T.cells trees.now) 0) }
    requires count { totals.databases ≡ length (committed (T.cells trees.now) 0) }
    ensures { IfOk result (IsIndexPlan (known_of (T.cells trees.now) totals last_db) db.now index.now) }
{
    let catalog = CatalogRows {
        trees,
        databases: totals.databases,
    };
    let planned = plan_index(alloc, &catalog, db, index)?;
    let answer = planned.answer;
    let changes = planned.changes;
    match changes.as_slice() {
        [] => Ok(Planned::Answered(answer)),
        [change, ..] => {
            drop(answer);
            let made = log_catalog(&catalog, alloc, totals, last_db, change)?;
            Ok(Planned::Fills(fill_index(trees, alloc, made, last_db, index)?))
        }
    }
}
